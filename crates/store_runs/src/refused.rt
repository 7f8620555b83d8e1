//! Files that are no control store, and why.

use crate::images::{LEAN_HEAD, LEAN_ROWS, STILL_HEAD, STILL_ROW};
use crate::words::BOOT;
use memory_runs::{
    MIGRATORY, STILL, STILL_LINE, Wrong, ends, ends_by, ends_over_endless_file, over_file,
};
use rvc_top::Status;
use std::alloc::Global;

// That a file of these pieces is refused with this text.
fn is_refused(alloc: Global, file: &[&[u8]], text: &[u8]) -> Result<(), Wrong> {
    ends(alloc, &over_file(&BOOT, file, Status::FileRefused, text))
}

// Heads that tell another mode, or other lengths than the file has. The sums of some come to the
// right length where 2^64 is taken for 0.
const HEADS: [&[u8]; 8] = [
    b"RVCIMG01\
\x00\x00\x00\x00\x00\x00\x00\x01\
\x00\x00\x00\x00\x00\x00\x00\x5a\
\x10\x00\x00\x00\x00\x00\x00\x00\
\x00\x00\x00\x00\x00\x00\x00\x01",
    b"RVCIMG01\
\x00\x00\x00\x00\x00\x00\x00\x01\
\x00\x00\x00\x00\x00\x00\x00\x5a\
\x08\x00\x00\x00\x00\x00\x00\x00\
\x08\x00\x00\x00\x00\x00\x00\x01",
    b"RVCIMG01\
\x00\x00\x00\x00\x00\x00\x00\x01\
\x00\x00\x00\x00\x00\x00\x00\x5a\
\x80\x00\x00\x00\x00\x00\x00\x00\
\x80\x00\x00\x00\x00\x00\x00\x01",
    b"RVCIMG01\
\x00\x00\x00\x00\x00\x00\x00\x01\
\x00\x00\x00\x00\x00\x00\x00\x5a\
\xff\xff\xff\xff\xff\xff\xff\xff\
\x00\x00\x00\x00\x00\x00\x00\x02",
    b"RVCIMG01\
\x00\x00\x00\x00\x00\x00\x00\x01\
\x00\x00\x00\x00\x00\x01\x00\x01\
\x00\x00\x00\x00\x00\x00\x00\x00\
\x00\x00\x00\x00\x00\x00\x00\x01",
    b"RVCIMG01\
\x00\x00\x00\x00\x00\x00\x00\x01\
\xff\xff\xff\xff\xff\xff\xff\xf0\
\x00\x00\x00\x00\x00\x00\x00\x00\
\x00\x00\x00\x00\x00\x00\x00\x01",
    b"RVCIMG01\
\x00\x00\x00\x00\x00\x00\x00\x02\
\x00\x00\x00\x00\x00\x00\x00\x5a\
\x00\x00\x00\x00\x00\x00\x00\x00\
\x00\x00\x00\x00\x00\x00\x00\x01",
    b"RVCIMG01\
\x00\x00\x00\x00\x00\x00\x01\x00\
\x00\x00\x00\x00\x00\x00\x00\x5a\
\x00\x00\x00\x00\x00\x00\x00\x00\
\x00\x00\x00\x00\x00\x00\x00\x01",
];

#[test]
fn a_head_that_tells_something_else_is_refused(rt: HostRuntime) -> Result<(), Wrong> {
    for head in HEADS {
        is_refused(rt.alloc(), &[head, STILL, STILL_ROW], b"error image head\n")?;
    }
    Ok(())
}

#[test]
fn one_byte_more_is_no_image(rt: HostRuntime) -> Result<(), Wrong> {
    is_refused(
        rt.alloc(),
        &[STILL_HEAD, STILL, STILL_ROW, b"\x00"],
        b"error image head\n",
    )
}

// The head for `still` on one line.
const LINE_HEAD: &[u8] = b"\
\x52\x56\x43\x49\x4d\x47\x30\x31\
\x00\x00\x00\x00\x00\x00\x00\x01\
\x00\x00\x00\x00\x00\x00\x00\x3f\
\x00\x00\x00\x00\x00\x00\x00\x00\
\x00\x00\x00\x00\x00\x00\x00\x01";

#[test]
fn a_text_that_is_not_laid_out_is_refused(rt: HostRuntime) -> Result<(), Wrong> {
    is_refused(
        rt.alloc(),
        &[LINE_HEAD, STILL_LINE, STILL_ROW],
        b"error image text\n",
    )
}

// `still` with a start that no state has.
const FAULTY: &[u8] = b"\
protocol still;
home {
  start Q;
  state H {
  }
}
remote {
  start R;
  state R {
  }
}
";

#[test]
fn a_text_with_a_fault_is_refused(rt: HostRuntime) -> Result<(), Wrong> {
    is_refused(
        rt.alloc(),
        &[STILL_HEAD, FAULTY, STILL_ROW],
        b"error image text\n",
    )
}

// A row of the home, and none of a remote.
const SWAPPED: &[u8] = b"\
\x52\x56\x43\x49\x4d\x47\x30\x31\
\x00\x00\x00\x00\x00\x00\x00\x01\
\x00\x00\x00\x00\x00\x00\x00\x5a\
\x00\x00\x00\x00\x00\x00\x00\x01\
\x00\x00\x00\x00\x00\x00\x00\x00";

// Two rows of a remote.
const TWO: &[u8] = b"\
\x52\x56\x43\x49\x4d\x47\x30\x31\
\x00\x00\x00\x00\x00\x00\x00\x01\
\x00\x00\x00\x00\x00\x00\x00\x5a\
\x00\x00\x00\x00\x00\x00\x00\x00\
\x00\x00\x00\x00\x00\x00\x00\x02";

// No rows.
const NONE: &[u8] = b"\
\x52\x56\x43\x49\x4d\x47\x30\x31\
\x00\x00\x00\x00\x00\x00\x00\x01\
\x00\x00\x00\x00\x00\x00\x00\x5a\
\x00\x00\x00\x00\x00\x00\x00\x00\
\x00\x00\x00\x00\x00\x00\x00\x00";

#[test]
fn other_numbers_of_rows_are_refused(rt: HostRuntime) -> Result<(), Wrong> {
    let text = b"error image rows\n";
    is_refused(rt.alloc(), &[SWAPPED, STILL, STILL_ROW], text)?;
    is_refused(rt.alloc(), &[TWO, STILL, STILL_ROW, STILL_ROW], text)?;
    is_refused(rt.alloc(), &[NONE, STILL], text)
}

// The head of `migratory` in mode lean, but for the mode.
const AS_PLAIN: &[u8] = b"\
\x52\x56\x43\x49\x4d\x47\x30\x31\
\x00\x00\x00\x00\x00\x00\x00\x00\
\x00\x00\x00\x00\x00\x00\x03\x3e\
\x00\x00\x00\x00\x00\x00\x00\x0e\
\x00\x00\x00\x00\x00\x00\x00\x12";

#[test]
fn the_rows_of_another_mode_are_refused(rt: HostRuntime) -> Result<(), Wrong> {
    is_refused(
        rt.alloc(),
        &[AS_PLAIN, MIGRATORY, LEAN_ROWS],
        b"error image rows\n",
    )
}

// How many bytes stand before a row of `migratory` in mode lean, which is changed; and the text.
const CHANGED_ROWS: [(usize, &[u8]); 4] = [
    (0, b"error image row 0\n"),
    (48, b"error image row 3\n"),
    (224, b"error image row 14\n"),
    (496, b"error image row 31\n"),
];

// That the store of `migratory` is refused with this text where a row of zeros stands behind so
// many bytes of its rows, in place of another.
fn row_is_refused(alloc: Global, before: usize, text: &[u8]) -> Result<(), Wrong> {
    let front = LEAN_ROWS.get(..before).unwrap_or(b"");
    let rest = LEAN_ROWS.get(before.saturating_add(16)..).unwrap_or(b"");
    is_refused(
        alloc,
        &[LEAN_HEAD, MIGRATORY, front, &[0xff; 16], rest],
        text,
    )
}

#[test]
fn the_first_row_that_differs_is_told(rt: HostRuntime) -> Result<(), Wrong> {
    for (before, text) in CHANGED_ROWS {
        row_is_refused(rt.alloc(), before, text)?;
    }
    Ok(())
}

// That a file of so many bytes that are no image is refused with this text.
fn long_file_is_refused(alloc: Global, bytes: usize, text: &[u8]) -> Result<(), Wrong> {
    match vec![in alloc; b'x'; bytes] {
        Ok(file) => ends_by(
            alloc,
            &over_file(&BOOT, &[&file], Status::FileRefused, text),
            4_096,
        ),
        Err(_) => Err(Wrong::NoMemory),
    }
}

#[test]
fn an_image_has_at_most_262_144_bytes(rt: HostRuntime) -> Result<(), Wrong> {
    long_file_is_refused(rt.alloc(), 262_144, b"error image head\n")?;
    long_file_is_refused(rt.alloc(), 262_145, b"error file too long\n")
}

#[test]
fn a_file_without_end_is_too_long(rt: HostRuntime) -> Result<(), Wrong> {
    let case = over_file(&BOOT, &[], Status::FileRefused, b"error file too long\n");
    ends_over_endless_file(rt.alloc(), &case, b'x')
}

#[test]
fn a_protocol_file_is_no_image(rt: HostRuntime) -> Result<(), Wrong> {
    is_refused(rt.alloc(), &[MIGRATORY], b"error image head\n")
}
