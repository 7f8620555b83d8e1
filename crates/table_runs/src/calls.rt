//! Reads and writes that fail.

use crate::json::STILL_LEAN;
use memory_runs::{STILL_LINE, Wrong, each_file_read_fails, each_write_fails, over_file};
use rvc_top::Status;

const TABLE: [&str; 3] = ["table", "p", "lean"];

const JSON: [&str; 3] = ["json", "p", "lean"];

const STILL_ROWS: &[u8] = b"\
table still lean
home
remote
  R answer none: nack, none, R
";

// `still` on one line has 63 bytes: so many reads and one that tells the end, or fewer.
const READS: [(usize, u64); 3] = [(1, 64), (7, 10), (4_096, 2)];

#[test]
fn each_read_for_a_table_may_fail(rt: HostRuntime) -> Result<(), Wrong> {
    let case = over_file(&TABLE, &[STILL_LINE], Status::Done, STILL_ROWS);
    each_file_read_fails(rt.alloc(), &case, &READS)
}

#[test]
fn each_read_for_json_may_fail(rt: HostRuntime) -> Result<(), Wrong> {
    let case = over_file(&JSON, &[STILL_LINE], Status::Done, STILL_LEAN);
    each_file_read_fails(rt.alloc(), &case, &READS)
}

// The table of `still` has 60 bytes. Before the write that fails each took `most` of them.
const WRITES: [(usize, &[usize], u64); 3] = [(1, &[60], 60), (7, &[60], 9), (4_096, &[60], 1)];

#[test]
fn each_write_of_a_table_may_fail(rt: HostRuntime) -> Result<(), Wrong> {
    let case = over_file(&TABLE, &[STILL_LINE], Status::Done, STILL_ROWS);
    each_write_fails(rt.alloc(), &case, &WRITES)
}

// Its JSON has 133 bytes.
const JSON_WRITES: [(usize, &[usize], u64); 3] = [
    (1, &[133], 133),
    (7, &[133], 19),
    (4_096, &[133], 1),
];

#[test]
fn each_write_of_json_may_fail(rt: HostRuntime) -> Result<(), Wrong> {
    let case = over_file(&JSON, &[STILL_LINE], Status::Done, STILL_LEAN);
    each_write_fails(rt.alloc(), &case, &JSON_WRITES)
}
