//! Lines that are neither a step nor a move.

use crate::words::ONE_LEAN;
use memory_runs::{MIGRATORY, STILL, Wrong, each_file_ends, ends_by, over_schedule, schedule_ends};
use rvc_top::Status;
use std::alloc::Global;

const ASKS: &[u8] = b"remote 0 tau 0\nremote 0 send\n";

const ASKED: &[u8] = b"\
1 remote 0 tau 0: tau 0 0
  remote 0 R d=0 slot[] up[] down[]
2 remote 0 send: stutter
  remote 0 R* d=0 slot[] up[?req] down[]
";

const BAD: [&[u8]; 15] = [
    b"net",
    b"net 0 up lose",
    b"net 0 up lose 0 0",
    b"net 0 up drop 0",
    b"net 0 along lose 0",
    b"net home up lose 0",
    b"net 00 up lose 0",
    b"net 0 up lose 01",
    b"net 0 up lose 100000",
    b"net 0 up lose -1",
    b"Net 0 up lose 0",
    b"net up 0 lose 0",
    b"home fly",
    b"lose 0",
    b"up 0 0",
];

// That a line behind two steps is refused, with the blocks of these before it.
fn is_refused(alloc: Global, line: &[u8]) -> Result<(), Wrong> {
    schedule_ends(
        alloc,
        &ONE_LEAN,
        &[MIGRATORY],
        &[ASKS, line],
        Status::ScheduleRefused,
        &[ASKED, b"error schedule line 3\n"],
    )
}

#[test]
fn a_line_that_is_no_step_and_no_move_is_refused(rt: HostRuntime) -> Result<(), Wrong> {
    for line in BAD {
        is_refused(rt.alloc(), line)?;
    }
    Ok(())
}

const WAITS: &[u8] = b"\tnet  0 up\tlose 0 // net\r\n\r\n//net 0 up lose 0\nup 0 ";

const WAITED: &[u8] = b"\
3 net 0 up lose 0: net
  link 0 up put 1 got 0 flight[]
4 up 0: waiting
end
  home F o=none j=none d=0 held[] owed[]
  remote 0 R* d=0 slot[] up[?req] down[]
abstract
  home F o=none j=none d=0
  remote 0 R d=0
";

#[test]
fn blanks_and_comments_say_nothing(rt: HostRuntime) -> Result<(), Wrong> {
    schedule_ends(
        rt.alloc(),
        &ONE_LEAN,
        &[MIGRATORY],
        &[ASKS, WAITS],
        Status::Done,
        &[ASKED, WAITED],
    )
}

// That a schedule of so many LFs ends so.
fn ends_over_lines(alloc: Global, count: usize, status: Status, text: &[u8]) -> Result<(), Wrong> {
    match vec![in alloc; b'\n'; count] {
        Ok(lines) => {
            let schedule = [lines.as_slice()];
            let case = over_schedule(&ONE_LEAN, &[STILL], &schedule, status, text);
            ends_by(alloc, &case, 4_096)
        }
        Err(_) => Err(Wrong::NoMemory),
    }
}

const STANDS: &[u8] = b"\
end
  home H held[] owed[]
  remote 0 R slot[] up[] down[]
abstract
  home H
  remote 0 R
";

#[test]
fn a_schedule_may_have_1_000_000_lines(rt: HostRuntime) -> Result<(), Wrong> {
    ends_over_lines(rt.alloc(), 1_000_000, Status::Done, STANDS)?;
    let text = b"error schedule too long\n";
    ends_over_lines(rt.alloc(), 1_000_001, Status::ScheduleRefused, text)
}

#[test]
fn a_refused_file_is_not_played(rt: HostRuntime) -> Result<(), Wrong> {
    let refused = (
        b"protocol p;\n".as_slice(),
        b"error file line 2 code 1\n".as_slice(),
    );
    each_file_ends(rt.alloc(), &ONE_LEAN, Status::FileRefused, &[refused])
}
