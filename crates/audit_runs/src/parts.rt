//! Traces that end early, or go on.

use crate::traces::{LINES, TRACE};
use crate::words::ONE;
use memory_runs::{MIGRATORY, Wrong, ends_by, joined, over_schedule};
use rv_base::{NoMemory, put_number};
use rvc_top::Status;
use std::alloc::Global;

// That a trace is refused with this text.
fn is_refused(alloc: Global, trace: &[u8], text: &[u8]) -> Result<(), Wrong> {
    let schedule = [trace];
    let case = over_schedule(&ONE, &[MIGRATORY], &schedule, Status::ScheduleRefused, text);
    ends_by(alloc, &case, 7)
}

// The first so many lines of the trace.
fn front(alloc: Global, lines: usize) -> Result<Vec<u8>, NoMemory> {
    let mut trace = Vec::new(alloc);
    for line in LINES.iter().take(lines) {
        trace.extend_from_slice(line)?;
        trace.push(b'\n')?;
    }
    Ok(trace)
}

// The text for a trace whose line with this number is refused.
fn text_of(alloc: Global, line: usize) -> Result<Vec<u8>, NoMemory> {
    let mut text = b"error trace line ".to_vec(alloc)?;
    put_number(alloc, line as u64, &mut text)?;
    text.push(b'\n')?;
    Ok(text)
}

// That the first so many lines, of fewer than all, are refused at the line behind them.
fn front_is_refused(alloc: Global, lines: usize) -> Result<(), Wrong> {
    match (front(alloc, lines), text_of(alloc, lines.saturating_add(1))) {
        (Ok(trace), Ok(text)) => is_refused(alloc, &trace, &text),
        _ => Err(Wrong::NoMemory),
    }
}

#[test]
fn a_trace_that_ends_early_lacks_its_next_line(rt: HostRuntime) -> Result<(), Wrong> {
    for lines in 0..21 {
        front_is_refused(rt.alloc(), lines)?;
    }
    Ok(())
}

#[test]
fn the_last_line_has_its_lf(rt: HostRuntime) -> Result<(), Wrong> {
    let trace = TRACE.get(..TRACE.len() - 1).unwrap_or(b"");
    is_refused(rt.alloc(), trace, b"error trace line 21\n")
}

const BEHIND: [&[u8]; 6] = [b"\n", b"x", b"  remote 1 I d=0\n", b"end\n", b"  ", b"\r\n"];

// That the trace with this text behind it is refused at line 22.
fn more_is_refused(alloc: Global, more: &[u8]) -> Result<(), Wrong> {
    match joined(alloc, &[TRACE, more]) {
        Ok(trace) => is_refused(alloc, &trace, b"error trace line 22\n"),
        Err(_) => Err(Wrong::NoMemory),
    }
}

#[test]
fn nothing_stands_behind_the_abstraction(rt: HostRuntime) -> Result<(), Wrong> {
    for more in BEHIND {
        more_is_refused(rt.alloc(), more)?;
    }
    Ok(())
}

const SHORT: [(&[u8], &[u8]); 3] = [
    (b"end\n", b"error trace line 2\n"),
    (b"end\nabstract\n", b"error trace line 3\n"),
    (b"abstract\n", b"error trace line 1\n"),
];

#[test]
fn each_part_has_its_line(rt: HostRuntime) -> Result<(), Wrong> {
    for (trace, text) in SHORT {
        is_refused(rt.alloc(), trace, text)?;
    }
    Ok(())
}
