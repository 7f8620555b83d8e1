//! Lines that say nothing, or no step.

use crate::migration::{asked, asks};
use crate::stepped::ONE_LEAN;
use memory_runs::{MIGRATORY, Wrong, schedule_ends};
use rvc_top::Status;
use std::alloc::Global;

// Schedules of the two steps of `asks`.
const SAME_STEPS: [&[u8]; 3] = [
    b"remote 0 tau 0\nremote 0 send\n",
    b"remote 0 tau 0\r\n\r\n// note\nremote 0 send",
    b"\tremote  0 tau\t0//up 0\n \t\r\n//home fly\n  remote 0 send\r",
];

/// The end, where remote 0 waits.
pub fn waits() -> &'static [u8] {
    b"\
end
  home F o=none j=none d=0 held[] owed[]
  remote 0 R* d=0 slot[] up[?req] down[]
abstract
  home F o=none j=none d=0
  remote 0 R d=0
"
}

// That a run with this schedule tells the two steps.
fn tells_both(alloc: Global, schedule: &[u8]) -> Result<(), Wrong> {
    schedule_ends(
        alloc,
        &ONE_LEAN,
        &[MIGRATORY],
        &[schedule],
        Status::Done,
        &[asked(), waits()],
    )
}

#[test]
fn blanks_and_comments_say_nothing(rt: HostRuntime) -> Result<(), Wrong> {
    for schedule in SAME_STEPS {
        tells_both(rt.alloc(), schedule)?;
    }
    Ok(())
}

#[test]
fn a_malformed_line_is_told_behind_the_blocks_before(rt: HostRuntime) -> Result<(), Wrong> {
    schedule_ends(
        rt.alloc(),
        &ONE_LEAN,
        &[MIGRATORY],
        &[asks(), b"home fly"],
        Status::ScheduleRefused,
        &[asked(), b"error schedule line 3\n"],
    )
}

// That a run ends so with a schedule whose first line is `//` and so many letters x, before the two
// steps.
fn begins_with_comment(
    alloc: Global,
    letters: usize,
    status: Status,
    text: &[&[u8]],
) -> Result<(), Wrong> {
    match vec![in alloc; b'x'; letters] {
        Ok(comment) => schedule_ends(
            alloc,
            &ONE_LEAN,
            &[MIGRATORY],
            &[b"//", &comment, b"\n", asks()],
            status,
            text,
        ),
        Err(_) => Err(Wrong::NoMemory),
    }
}

#[test]
fn a_line_has_at_most_256_bytes(rt: HostRuntime) -> Result<(), Wrong> {
    begins_with_comment(rt.alloc(), 254, Status::Done, &[asked(), waits()])?;
    let refused = [b"error schedule line 1\n".as_slice()];
    begins_with_comment(rt.alloc(), 255, Status::ScheduleRefused, &refused)
}
