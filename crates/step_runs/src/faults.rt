//! Reads and writes that fail in the middle of a run.

use crate::lines::waits;
use crate::migration::{arrived, arrives, asked, asks, granted, grants, stands};
use crate::stepped::ONE_LEAN;
use memory_runs::{
    Case, MIGRATORY, Wrong, each_file_read_fails, each_schedule_read_fails, each_write_fails,
    joined, over_schedule,
};
use rvc_top::Status;
use std::alloc::Global;

// The text of the six steps by which remote 0 gets the line, of 629 bytes.
fn whole_text(alloc: Global) -> Result<Vec<u8>, Wrong> {
    joined(alloc, &[asked(), granted(), arrived(), stands()]).or(Err(Wrong::NoMemory))
}

// A run with a schedule of these pieces, and its text. The file has 830 bytes.
fn migrates<'a>(schedule: &'a [&'a [u8]], text: &'a [u8]) -> Case<'a> {
    over_schedule(&ONE_LEAN, &[MIGRATORY], schedule, Status::Done, text)
}

// The file is read in so many calls, the last of which tells the end, and then the schedule is.
#[test]
fn each_read_of_the_file_may_fail(rt: HostRuntime) -> Result<(), Wrong> {
    let text = whole_text(rt.alloc())?;
    let rows = [(1, 831), (7, 120), (4_096, 2)];
    let schedule = [asks(), grants(), arrives()];
    each_file_read_fails(rt.alloc(), &migrates(&schedule, &text), &rows)
}

// For each line how many bytes of the schedule there are up to its LF, and how many are written
// then.
const LINE_ENDS: [(u64, usize); 6] = [
    (15, 62),
    (29, 128),
    (34, 227),
    (46, 335),
    (60, 449),
    (67, 503),
];

// The schedule has 67 bytes. It is read in so many calls, each of which gives `most` bytes as long
// as there are any.
#[test]
fn each_read_of_the_schedule_may_fail(rt: HostRuntime) -> Result<(), Wrong> {
    let text = whole_text(rt.alloc())?;
    let rows = [(1, 68), (7, 11), (4_096, 2)];
    let schedule = [asks(), grants(), arrives()];
    each_schedule_read_fails(rt.alloc(), &migrates(&schedule, &text), &LINE_ENDS, &rows)
}

// The six blocks and the end have 62, 66, 99, 108, 114, 54 and 126 bytes. Before each read of the
// schedule, and before its end, the blocks of the lines that were taken are written in one go.
const WRITES: [(usize, &[usize], u64); 3] = [
    (1, &[62, 66, 99, 108, 114, 54, 126], 629),
    (7, &[62, 165, 108, 114, 54, 126], 92),
    (4_096, &[503, 126], 2),
];

#[test]
fn each_write_of_the_trace_may_fail(rt: HostRuntime) -> Result<(), Wrong> {
    let text = whole_text(rt.alloc())?;
    let schedule = [asks(), grants(), arrives()];
    each_write_fails(rt.alloc(), &migrates(&schedule, &text), &WRITES)
}

// That each read of the schedule, and each write, may fail in a run of the first two steps alone,
// with this text, where a call moves one byte.
fn calls_fail(alloc: Global, text: &[u8]) -> Result<(), Wrong> {
    let schedule = [asks()];
    let case = migrates(&schedule, text);
    each_schedule_read_fails(alloc, &case, &[(15, 62), (29, 128)], &[(1, 30)])?;
    each_write_fails(alloc, &case, &[(1, &[62, 66, 139], 267)])
}

#[test]
fn each_call_of_two_steps_may_fail(rt: HostRuntime) -> Result<(), Wrong> {
    match joined(rt.alloc(), &[asked(), waits()]) {
        Ok(text) => calls_fail(rt.alloc(), &text),
        Err(_) => Err(Wrong::NoMemory),
    }
}
