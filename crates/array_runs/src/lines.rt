//! Lines that are no step.

use crate::words::TWO_LINES;
use memory_runs::{MIGRATORY, STILL, Wrong, each_file_ends, ends_by, over_schedule, schedule_ends};
use rvc_top::Status;
use std::alloc::Global;

const MOVES: &[u8] = b"at 1 remote 0 tau 0\n";

const MOVED: &[u8] = b"\
1 line 1 remote 0 tau 0: tau 0 0
  remote 0 R d=0 slot[] up[] down[]
";

const BAD: [&[u8]; 18] = [
    b"at",
    b"at 0",
    b"at 0 up 0",
    b"at 0 down 0",
    b"at 00 remote 0 send",
    b"at x remote 0 send",
    b"at remote 0 send",
    b"at 0 remote 0",
    b"at 100000 remote 0 send",
    b"remote 0 send",
    b"home take 0",
    b"up",
    b"up 0 0",
    b"up 00",
    b"at 0 at 0 remote 0 send",
    b"At 0 remote 0 send",
    b"line 0 remote 0 send",
    b"net 0 up lose 0",
];

// That a line behind a step is refused, with the block of this one before it.
fn is_refused(alloc: Global, line: &[u8]) -> Result<(), Wrong> {
    schedule_ends(
        alloc,
        &TWO_LINES,
        &[MIGRATORY],
        &[MOVES, line],
        Status::ScheduleRefused,
        &[MOVED, b"error schedule line 2\n"],
    )
}

#[test]
fn a_line_that_is_no_step_is_refused(rt: HostRuntime) -> Result<(), Wrong> {
    for line in BAD {
        is_refused(rt.alloc(), line)?;
    }
    Ok(())
}

const SENDS: &[u8] = b" at\t1  remote 0 send // at 0\r\n\r\n//up 0\nup 0";

const SENT: &[u8] = b"\
2 line 1 remote 0 send: stutter
  remote 0 R* d=0 slot[] up[?req] down[]
3 line 1 up 0: stutter
  home F o=none j=none d=0 held[0:req] owed[]
  remote 0 R* d=0 slot[] up[] down[]
line 0
end
  home F o=none j=none d=0 held[] owed[]
  remote 0 I d=0 slot[] up[] down[]
abstract
  home F o=none j=none d=0
  remote 0 I d=0
line 1
end
  home F o=none j=none d=0 held[0:req] owed[]
  remote 0 R* d=0 slot[] up[] down[]
abstract
  home F o=none j=none d=0
  remote 0 R d=0
";

#[test]
fn blanks_and_comments_say_nothing(rt: HostRuntime) -> Result<(), Wrong> {
    schedule_ends(
        rt.alloc(),
        &TWO_LINES,
        &[MIGRATORY],
        &[MOVES, SENDS],
        Status::Done,
        &[MOVED, SENT],
    )
}

// That a schedule of so many LFs ends so.
fn ends_over_lines(alloc: Global, count: usize, status: Status, text: &[u8]) -> Result<(), Wrong> {
    match vec![in alloc; b'\n'; count] {
        Ok(lines) => {
            let schedule = [lines.as_slice()];
            let words = ["lines", "p", "1", "2", "lean", "1"];
            let case = over_schedule(&words, &[STILL], &schedule, status, text);
            ends_by(alloc, &case, 4_096)
        }
        Err(_) => Err(Wrong::NoMemory),
    }
}

const STANDS: &[u8] = b"\
line 0
end
  home H held[] owed[]
  remote 0 R slot[] up[] down[]
abstract
  home H
  remote 0 R
";

#[test]
fn a_schedule_may_have_1_000_000_lines(rt: HostRuntime) -> Result<(), Wrong> {
    ends_over_lines(rt.alloc(), 1_000_000, Status::Done, STANDS)?;
    let text = b"error schedule too long\n";
    ends_over_lines(rt.alloc(), 1_000_001, Status::ScheduleRefused, text)
}

#[test]
fn a_refused_file_is_not_played(rt: HostRuntime) -> Result<(), Wrong> {
    let refused = (
        b"protocol p;\n".as_slice(),
        b"error file line 2 code 1\n".as_slice(),
    );
    each_file_ends(rt.alloc(), &TWO_LINES, Status::FileRefused, &[refused])
}
