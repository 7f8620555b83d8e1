//! Reads and writes that fail.

use crate::counted::sent_down;
use memory_runs::{HOLD_LINE, Wrong, each_file_read_fails, each_write_fails, over_file};
use rvc_top::Status;

const DRIVE: [&str; 7] = ["drive", "p", "1", "2", "plain", "1", "1"];

// `hold` on one line has 169 bytes: so many reads and one that tells the end, or fewer.
const READS: [(usize, u64); 3] = [(1, 170), (7, 26), (4_096, 2)];

#[test]
fn each_read_may_fail(rt: HostRuntime) -> Result<(), Wrong> {
    let case = over_file(&DRIVE, &[HOLD_LINE], Status::Done, sent_down());
    each_file_read_fails(rt.alloc(), &case, &READS)
}

// The eleven lines have 93 bytes. Before the write that fails each took `most` of them.
const WRITES: [(usize, &[usize], u64); 3] = [(1, &[93], 93), (7, &[93], 14), (4_096, &[93], 1)];

#[test]
fn each_write_may_fail(rt: HostRuntime) -> Result<(), Wrong> {
    let case = over_file(&DRIVE, &[HOLD_LINE], Status::Done, sent_down());
    each_write_fails(rt.alloc(), &case, &WRITES)
}
