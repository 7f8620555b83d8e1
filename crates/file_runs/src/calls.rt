//! Reads and writes that fail, and a file without end.

use memory_runs::{
    STILL, STILL_LINE, Wrong, each_file_read_fails, each_write_fails, ends_over_endless_file,
    over_file,
};
use rvc_top::Status;

const PRINT: [&str; 2] = ["print", "p"];

// The one-line `still` has 63 bytes: so many reads and one that tells the end, or fewer.
#[test]
fn each_read_may_fail(rt: HostRuntime) -> Result<(), Wrong> {
    let case = over_file(&PRINT, &[STILL_LINE], Status::Done, STILL);
    each_file_read_fails(rt.alloc(), &case, &[(1, 64), (7, 10), (4_096, 2)])
}

// The laid-out `still` has 90 bytes. Before the write that fails each write took `most` of them.
const WRITES: [(usize, &[usize], u64); 3] = [(1, &[90], 90), (7, &[90], 13), (4_096, &[90], 1)];

#[test]
fn each_write_may_fail(rt: HostRuntime) -> Result<(), Wrong> {
    let case = over_file(&PRINT, &[STILL_LINE], Status::Done, STILL);
    each_write_fails(rt.alloc(), &case, &WRITES)
}

#[test]
fn a_file_without_end_is_too_long(rt: HostRuntime) -> Result<(), Wrong> {
    let case = over_file(&PRINT, &[], Status::FileRefused, b"error file too long\n");
    ends_over_endless_file(rt.alloc(), &case, b'x')
}
