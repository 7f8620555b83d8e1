//! Files with claims, whose tables are those of the same files without.

use crate::json::STILL_LEAN;
use crate::rows::SMALL_ROWS;
use memory_runs::{Wrong, each_file_ends};
use rvc_top::Status;

const SMALL_WITH_CLAIMS: &[u8] = b"\
protocol small version 2;message a up;message b down;home{start H;state H{}}\
remote{start R;state R{to home!a goto R;}}\
claim atmost 0 in R;claim not R with R;";

const TABLE: [(&[u8], &[u8]); 1] = [(SMALL_WITH_CLAIMS, SMALL_ROWS)];

#[test]
fn a_table_has_no_claims(rt: HostRuntime) -> Result<(), Wrong> {
    each_file_ends(rt.alloc(), &["table", "p", "plain"], Status::Done, &TABLE)
}

const STILL_WITH_CLAIMS: &[u8] = b"\
protocol still version 2;home{start H;state H{}}remote{start R;state R{}}\
claim atmost 64 in R R;";

const JSON: [(&[u8], &[u8]); 1] = [(STILL_WITH_CLAIMS, STILL_LEAN)];

#[test]
fn json_has_no_claims(rt: HostRuntime) -> Result<(), Wrong> {
    each_file_ends(rt.alloc(), &["json", "p", "lean"], Status::Done, &JSON)
}
