//! How long a schedule may be, and how much of it is read.

use crate::migration::all_idle;
use crate::stepped::ONE_LEAN;
use memory_runs::{
    MIGRATORY, Wrong, ends_by, ends_over_endless_file, ends_over_endless_schedule, left_after,
    over_schedule,
};
use rvc_top::Status;
use std::alloc::Global;

// That a schedule of so many LFs ends so.
fn ends_over_lines(alloc: Global, count: usize, status: Status, text: &[u8]) -> Result<(), Wrong> {
    match vec![in alloc; b'\n'; count] {
        Ok(lines) => {
            let schedule = [lines.as_slice()];
            let case = over_schedule(&ONE_LEAN, &[MIGRATORY], &schedule, status, text);
            ends_by(alloc, &case, 4_096)
        }
        Err(_) => Err(Wrong::NoMemory),
    }
}

#[test]
fn a_schedule_may_have_1_000_000_lines(rt: HostRuntime) -> Result<(), Wrong> {
    ends_over_lines(rt.alloc(), 1_000_000, Status::Done, all_idle())
}

#[test]
fn a_byte_behind_1_000_000_lines_is_refused(rt: HostRuntime) -> Result<(), Wrong> {
    let text = b"error schedule too long\n";
    ends_over_lines(rt.alloc(), 1_000_001, Status::ScheduleRefused, text)
}

const ENDLESS: [(u8, &[u8]); 2] = [
    (b'x', b"error schedule line 1\n"),
    (b'\n', b"error schedule too long\n"),
];

#[test]
fn a_schedule_without_end_is_refused(rt: HostRuntime) -> Result<(), Wrong> {
    for (byte, text) in ENDLESS {
        let case = over_schedule(&ONE_LEAN, &[MIGRATORY], &[], Status::ScheduleRefused, text);
        ends_over_endless_schedule(rt.alloc(), &case, byte)?;
    }
    Ok(())
}

#[test]
fn a_file_without_end_is_too_long(rt: HostRuntime) -> Result<(), Wrong> {
    let text = b"error file too long\n";
    let case = over_schedule(&ONE_LEAN, &[], &[], Status::FileRefused, text);
    ends_over_endless_file(rt.alloc(), &case, b'x')
}

// The schedule has 100,009 bytes. The LF of its first line is byte 9, and at most 255 more are
// taken.
#[test]
fn little_is_taken_past_a_refused_line(rt: HostRuntime) -> Result<(), Wrong> {
    let lines = vec![in rt.alloc(); b'\n'; 100_000].or(Err(Wrong::NoMemory))?;
    let schedule = [b"home fly\n", lines.as_slice()];
    let text = b"error schedule line 1\n";
    let case = over_schedule(
        &ONE_LEAN,
        &[MIGRATORY],
        &schedule,
        Status::ScheduleRefused,
        text,
    );
    ends_by(rt.alloc(), &case, 1_000)?;
    assert!(rt; left_after(rt.alloc(), &case, 1_000)? >= 99_745);
    Ok(())
}
