//! `print`: a protocol laid out.

use memory_runs::{
    HOLD, HOLD_LINE, SMALL, STILL, STILL_LINE, Wrong, each_file_ends, ends, ends_by, over_file,
};
use rvc_top::Status;
use std::alloc::Global;

const PRINT: [&str; 2] = ["print", "p"];

const LAID_OUT: [(&[u8], &[u8]); 5] = [
    (STILL_LINE, STILL),
    (STILL, STILL),
    (HOLD_LINE, HOLD),
    (HOLD, HOLD),
    (SMALL, SMALL),
];

#[test]
fn a_protocol_is_laid_out(rt: HostRuntime) -> Result<(), Wrong> {
    each_file_ends(rt.alloc(), &PRINT, Status::Done, &LAID_OUT)
}

// The one-line `still` between two comments.
const COMMENTED: [&[u8]; 3] = [
    b"// \0 \x80 { 00\r\n",
    STILL_LINE,
    b"//\xff // without a line end",
];

#[test]
fn a_comment_may_hold_any_bytes(rt: HostRuntime) -> Result<(), Wrong> {
    ends(
        rt.alloc(),
        &over_file(&PRINT, &COMMENTED, Status::Done, STILL),
    )
}

const TOO_LONG: &[u8] = b"error file too long\n";

// A line, how many bytes a comment behind it has, and how `print` ends. The lines have 63 and 169
// bytes.
const LONG: [(&[u8], usize, Status, &[u8]); 4] = [
    (STILL_LINE, 65_471, Status::Done, STILL),
    (HOLD_LINE, 65_365, Status::Done, HOLD),
    (STILL_LINE, 65_472, Status::FileRefused, TOO_LONG),
    (HOLD_LINE, 65_366, Status::FileRefused, TOO_LONG),
];

// That `print` of the line and the comment behind it ends so.
fn ends_over_line(
    alloc: Global,
    line: &[u8],
    comment: &[u8],
    status: Status,
    text: &[u8],
) -> Result<(), Wrong> {
    let file = [line, b"//", comment];
    ends_by(alloc, &over_file(&PRINT, &file, status, text), 4_096)
}

// The same with a comment of so many letters x.
fn ends_with_comment(
    alloc: Global,
    line: &[u8],
    count: usize,
    status: Status,
    text: &[u8],
) -> Result<(), Wrong> {
    match vec![in alloc; b'x'; count] {
        Ok(comment) => ends_over_line(alloc, line, &comment, status, text),
        Err(_) => Err(Wrong::NoMemory),
    }
}

#[test]
fn a_file_has_at_most_65_536_bytes(rt: HostRuntime) -> Result<(), Wrong> {
    for (line, count, status, text) in LONG {
        ends_with_comment(rt.alloc(), line, count, status, text)?;
    }
    Ok(())
}
