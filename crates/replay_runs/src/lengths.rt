//! How long a line and a schedule may be, and what is read of them.

use crate::replayed::replayed;
use memory_runs::{STILL, Wrong, ends, ends_by, ends_over_endless_schedule, left_after};
use rvc_top::Status;
use std::alloc::Global;

const STANDS_STILL: &[u8] = b"end\n  home H\n  remote 0 R\n";

const LINES: [(usize, Status, &[u8]); 2] = [
    (256, Status::Done, STANDS_STILL),
    (257, Status::ScheduleRefused, b"error schedule line 1\n"),
];

// That a schedule of one comment of so many bytes ends so.
fn ends_over_comment(
    alloc: Global,
    length: usize,
    status: Status,
    text: &[u8],
) -> Result<(), Wrong> {
    match vec![in alloc; b'/'; length] {
        Ok(comment) => ends(alloc, &replayed(&[STILL], &[&comment], status, text)),
        Err(_) => Err(Wrong::NoMemory),
    }
}

#[test]
fn a_line_has_at_most_256_bytes(rt: HostRuntime) -> Result<(), Wrong> {
    for (length, status, text) in LINES {
        ends_over_comment(rt.alloc(), length, status, text)?;
    }
    Ok(())
}

// That a schedule of so many LFs ends so.
fn ends_over_lines(alloc: Global, count: usize, status: Status, text: &[u8]) -> Result<(), Wrong> {
    match vec![in alloc; b'\n'; count] {
        Ok(schedule) => {
            let schedule = [schedule.as_slice()];
            ends_by(alloc, &replayed(&[STILL], &schedule, status, text), 4_096)
        }
        Err(_) => Err(Wrong::NoMemory),
    }
}

const TOO_LONG: &[u8] = b"error schedule too long\n";

#[test]
fn a_schedule_may_have_1_000_000_lines(rt: HostRuntime) -> Result<(), Wrong> {
    ends_over_lines(rt.alloc(), 1_000_000, Status::Done, STANDS_STILL)
}

#[test]
fn a_byte_behind_1_000_000_lines_is_refused(rt: HostRuntime) -> Result<(), Wrong> {
    ends_over_lines(rt.alloc(), 1_000_001, Status::ScheduleRefused, TOO_LONG)
}

#[test]
fn a_schedule_of_2_000_000_lines_is_refused(rt: HostRuntime) -> Result<(), Wrong> {
    ends_over_lines(rt.alloc(), 2_000_000, Status::ScheduleRefused, TOO_LONG)
}

const ENDLESS: [(u8, &[u8]); 2] = [
    (b'x', b"error schedule line 1\n"),
    (b'\n', b"error schedule too long\n"),
];

#[test]
fn a_schedule_without_end_is_refused(rt: HostRuntime) -> Result<(), Wrong> {
    for (byte, text) in ENDLESS {
        let case = replayed(&[STILL], &[], Status::ScheduleRefused, text);
        ends_over_endless_schedule(rt.alloc(), &case, byte)?;
    }
    Ok(())
}

// The schedule has 100,009 bytes. The LF of its first line is byte 9, and at most 255 more are
// taken.
#[test]
fn little_is_taken_past_a_refused_line(rt: HostRuntime) -> Result<(), Wrong> {
    let lines = vec![in rt.alloc(); b'\n'; 100_000].or(Err(Wrong::NoMemory))?;
    let schedule = [b"home fly\n", lines.as_slice()];
    let text = b"error schedule line 1\n";
    let case = replayed(&[STILL], &schedule, Status::ScheduleRefused, text);
    ends_by(rt.alloc(), &case, 1_000)?;
    assert!(rt; left_after(rt.alloc(), &case, 1_000)? >= 99_745);
    Ok(())
}

const REFUSED_FILES: [(&[u8], &[u8]); 2] = [
    (b"protocol p;\n", b"error file line 2 code 1\n"),
    (
        b"protocol p;\nhome{start H;}\nremote{start R;state R{}}",
        b"error file line 2 code 13\n",
    ),
];

#[test]
fn a_refused_file_leaves_the_schedule_as_it_was(rt: HostRuntime) -> Result<(), Wrong> {
    for (file, text) in REFUSED_FILES {
        let file = [file];
        let case = replayed(&file, &[b"home fly"], Status::FileRefused, text);
        ends(rt.alloc(), &case)?;
        assert_eq!(rt; left_after(rt.alloc(), &case, 7)?, 8);
    }
    Ok(())
}
