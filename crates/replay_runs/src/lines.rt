//! Lines that say nothing, or say no event.

use crate::replayed::replayed;
use crate::rv::MIGRATES;
use memory_runs::{MIGRATORY, Wrong, ends};
use rvc_top::Status;
use std::alloc::Global;

// Schedules of the three events of `rv::MIGRATES`.
const SAME_EVENTS: [&[u8]; 5] = [
    // Without a last LF.
    b"tau 0 0\nup 0 0 0\ndown 0 0 0",
    // With CRs, comments and blank lines.
    b"tau 0 0\r\n\r\n// note\nup 0 0 0\ndown 0 0 0\r\n",
    b"\n \t\r\n//\n// up 0 0 0\n\ttau  0\t0 //up\r\n\nup 0 0 0//x\n\r\r\n  down 0 0 0\r",
    // With a blank last line.
    b"tau 0 0\nup 0 0 0\ndown 0 0 0\n ",
    // With any bytes in comments.
    b"tau 0 0 // \0\x80\xff\x0b\nup 0 0 0 ///\ndown 0 0 0 // home fly",
];

#[test]
fn blanks_and_comments_say_nothing(rt: HostRuntime) -> Result<(), Wrong> {
    for schedule in SAME_EVENTS {
        ends(
            rt.alloc(),
            &replayed(&[MIGRATORY], &[schedule], Status::Done, MIGRATES),
        )?;
    }
    Ok(())
}

// Lines that say no event.
const MALFORMED: [&[u8]; 24] = [
    b"home fly",
    b"tau",
    b"tau 0",
    b"tau home",
    b"tau 0 0 0",
    b"tau home home",
    b"home tau 0",
    b"remote 0 send",
    b"up 0 0",
    b"up 0 0 0 0",
    b"up home 0 0",
    b"down 0 0 /",
    b"/ down 0 0 0",
    b"up 0 0 /0",
    b"up 00 0 0",
    b"up 0 01 0",
    b"up 0 0 100000",
    b"up 0 0 -1",
    b"up 0,0,0",
    b"Up 0 0 0",
    b"tau\x0b0 0",
    b"tau 0 0\0",
    b"\xc2\xa0tau 0 0",
    b"0",
];

const STOPS_AT_LINE_3: &[u8] = b"\
1 tau 0 0: moved
  remote 0 R d=0
error schedule line 3
";

// That a schedule with this line 3 is refused there.
fn refuses(alloc: Global, line: &[u8]) -> Result<(), Wrong> {
    let schedule = [b"tau 0 0\n\n", line, b"\nup 0 0 0\n"];
    let status = Status::ScheduleRefused;
    ends(
        alloc,
        &replayed(&[MIGRATORY], &schedule, status, STOPS_AT_LINE_3),
    )
}

#[test]
fn a_malformed_line_is_told_behind_the_blocks_before(rt: HostRuntime) -> Result<(), Wrong> {
    for line in MALFORMED {
        refuses(rt.alloc(), line)?;
    }
    Ok(())
}
