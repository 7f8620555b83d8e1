//! How long a trace and its lines may be, and how much of it is read.

use crate::traces::TRACE;
use crate::words::ONE;
use memory_runs::{
    MIGRATORY, Wrong, each_file_ends, ends_by, ends_over_endless_file, ends_over_endless_schedule,
    left_after, over_file, over_schedule,
};
use rvc_top::Status;
use std::alloc::Global;

// That the trace with these lines before it ends so.
fn ends_behind(alloc: Global, before: &[u8], status: Status, text: &[u8]) -> Result<(), Wrong> {
    let schedule = [before, TRACE];
    let case = over_schedule(&ONE, &[MIGRATORY], &schedule, status, text);
    ends_by(alloc, &case, 4_096)
}

// The same behind a line of so many spaces.
fn ends_behind_line(alloc: Global, bytes: usize, status: Status, text: &[u8]) -> Result<(), Wrong> {
    let Ok(mut line) = vec![in alloc; b' '; bytes] else {
        return Err(Wrong::NoMemory);
    };
    match line.push(b'\n') {
        Ok(()) => ends_behind(alloc, &line, status, text),
        Err(_) => Err(Wrong::NoMemory),
    }
}

#[test]
fn a_line_has_at_most_65_536_bytes(rt: HostRuntime) -> Result<(), Wrong> {
    ends_behind_line(rt.alloc(), 65_536, Status::Done, b"audit ok 3\n")?;
    let text = b"error trace line 1\n";
    ends_behind_line(rt.alloc(), 65_537, Status::ScheduleRefused, text)
}

#[test]
fn a_trace_without_end_is_refused(rt: HostRuntime) -> Result<(), Wrong> {
    for byte in [b' ', b'\n', b'x'] {
        let text = b"error trace line 1\n";
        let case = over_schedule(&ONE, &[MIGRATORY], &[], Status::ScheduleRefused, text);
        ends_over_endless_schedule(rt.alloc(), &case, byte)?;
    }
    Ok(())
}

// The LF of the line that is refused is byte 2, and at most 255 more are taken.
#[test]
fn little_is_taken_past_a_refused_line(rt: HostRuntime) -> Result<(), Wrong> {
    let lines = vec![in rt.alloc(); b'\n'; 100_000].or(Err(Wrong::NoMemory))?;
    let schedule = [b"x\n", lines.as_slice()];
    let text = b"error trace line 1\n";
    let case = over_schedule(&ONE, &[MIGRATORY], &schedule, Status::ScheduleRefused, text);
    ends_by(rt.alloc(), &case, 1_000)?;
    assert!(rt; left_after(rt.alloc(), &case, 1_000)? >= 99_745);
    Ok(())
}

#[test]
fn a_refused_file_is_not_audited(rt: HostRuntime) -> Result<(), Wrong> {
    let refused = (
        b"protocol p;\n".as_slice(),
        b"error file line 2 code 1\n".as_slice(),
    );
    each_file_ends(rt.alloc(), &ONE, Status::FileRefused, &[refused])
}

#[test]
fn a_file_without_end_is_too_long(rt: HostRuntime) -> Result<(), Wrong> {
    let case = over_file(&ONE, &[], Status::FileRefused, b"error file too long\n");
    ends_over_endless_file(rt.alloc(), &case, b'x')
}
