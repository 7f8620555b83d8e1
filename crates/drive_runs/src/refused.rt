//! Files that are not driven.

use memory_runs::{Wrong, each_file_ends, ends_over_endless_file, over_file};
use rvc_top::Status;

const DRIVE: [&str; 7] = ["drive", "p", "2", "2", "lean", "9", "9"];

const REFUSED: [(&[u8], &[u8]); 2] = [
    (b"protocol p;\n", b"error file line 2 code 1\n"),
    (
        b"protocol p;\nhome{start H;}\nremote{start R;state R{}}",
        b"error file line 2 code 13\n",
    ),
];

#[test]
fn a_refused_file_is_not_driven(rt: HostRuntime) -> Result<(), Wrong> {
    each_file_ends(rt.alloc(), &DRIVE, Status::FileRefused, &REFUSED)
}

#[test]
fn a_file_without_end_is_too_long(rt: HostRuntime) -> Result<(), Wrong> {
    let case = over_file(&DRIVE, &[], Status::FileRefused, b"error file too long\n");
    ends_over_endless_file(rt.alloc(), &case, b'x')
}
