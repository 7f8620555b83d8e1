//! One line of a trace changed.

use crate::traces::LINES;
use crate::words::ONE;
use memory_runs::{MIGRATORY, Wrong, ends_by, over_schedule};
use rv_base::NoMemory;
use rvc_top::Status;
use std::alloc::Global;

// The trace with this text in place of its line with this number.
fn changed(alloc: Global, line: usize, text: &[u8]) -> Result<Vec<u8>, NoMemory> {
    let mut trace = Vec::new(alloc);
    for (place, old) in LINES.iter().enumerate() {
        let is_changed = place + 1 == line;
        trace.extend_from_slice(if is_changed { text } else { old })?;
        trace.push(b'\n')?;
    }
    Ok(trace)
}

// That this is said of a trace.
fn is_said(alloc: Global, trace: &[u8], status: Status, said: &[u8]) -> Result<(), Wrong> {
    let schedule = [trace];
    let case = over_schedule(&ONE, &[MIGRATORY], &schedule, status, said);
    ends_by(alloc, &case, 7)
}

// That this is said of the trace with this text in place of its line with this number.
fn change_is_said(
    alloc: Global,
    line: usize,
    text: &[u8],
    status: Status,
    said: &[u8],
) -> Result<(), Wrong> {
    match changed(alloc, line, text) {
        Ok(trace) => is_said(alloc, &trace, status, said),
        Err(_) => Err(Wrong::NoMemory),
    }
}

// A line, another text of it, and what is said then.
const ACCEPTED: [(usize, &[u8], &[u8]); 15] = [
    (1, b"1 x: tau 0 0", b"audit ok 3\n"),
    (1, b"1  : tau 0 0", b"audit ok 3\n"),
    (2, b"  anything: at all", b"audit ok 3\n"),
    (2, b"  ", b"audit ok 3\n"),
    (3, b"2 remote 0 send: refused", b"audit ok 3\n"),
    (
        4,
        b"  remote 0 R* d=1 slot[] up[?req] down[]",
        b"audit ok 3\n",
    ),
    (
        6,
        b"  home F o=none j=none d=0 held[1:req] owed[]",
        b"audit ok 3\n",
    ),
    (7, b"  remote 0 R d=0 slot[] up[] down[]", b"audit ok 3\n"),
    (
        9,
        b"  home G o=none j=#0 d=0 held[] owed[]",
        b"audit ok 3\n",
    ),
    (
        10,
        b"  remote 0 R* d=0 slot[] up[] down[+]",
        b"audit ok 3\n",
    ),
    (
        12,
        b"  home E o=none j=#0 d=0 held[] owed[]",
        b"audit ok 3\n",
    ),
    (
        13,
        b"  remote 0 R* d=0 slot[] up[] down[=gr(1)]",
        b"audit ok 3\n",
    ),
    (15, b"  remote 0 L d=0 slot[] up[] down[]", b"audit ok 3\n"),
    (17, b"  home F", b"audit ok 3\n"),
    (18, b"  ", b"audit ok 3\n"),
];

#[test]
fn what_tells_of_no_event_may_be_anything(rt: HostRuntime) -> Result<(), Wrong> {
    for (line, text, said) in ACCEPTED {
        change_is_said(rt.alloc(), line, text, Status::Done, said)?;
    }
    Ok(())
}

// The same where a line is refused.
const REFUSED: [(usize, &[u8], &[u8]); 72] = [
    (1, b"1 remote 0 tau 0: stutter", b"error trace line 8\n"),
    (1, b"1 remote 0 tau 0: tau 0 1", b"error trace line 1\n"),
    (1, b"1 remote 0 tau 0: tau 1 0", b"error trace line 1\n"),
    (1, b"1 remote 0 tau 0: tau home 0", b"error trace line 1\n"),
    (1, b"2 remote 0 tau 0: tau 0 0", b"error trace line 1\n"),
    (1, b"01 remote 0 tau 0: tau 0 0", b"error trace line 1\n"),
    (1, b"1 : tau 0 0", b"error trace line 1\n"),
    (1, b"1: tau 0 0", b"error trace line 1\n"),
    (1, b"1 remote 0 tau 0:tau 0 0", b"error trace line 1\n"),
    (1, b"1 remote 0 tau 0: tau 0 0 ", b"error trace line 1\n"),
    (1, b"1 remote 0 tau 0: tau 0 00", b"error trace line 1\n"),
    (1, b"1 remote: 0 tau 0: tau 0 0", b"error trace line 1\n"),
    (1, b"1 remote 0 tau 0: tau 0 0 req", b"error trace line 1\n"),
    (1, b" 1 remote 0 tau 0: tau 0 0", b"error trace line 1\n"),
    (1, b"", b"error trace line 1\n"),
    (1, b"  1 remote 0 tau 0: tau 0 0", b"error trace line 3\n"),
    (1, b"end", b"error trace line 3\n"),
    (1, b"abstract", b"error trace line 1\n"),
    (1, b"claim 0 broken", b"error trace line 1\n"),
    (1, b"1 remote 0 tau 0: waiting", b"error trace line 1\n"),
    (1, b"1 remote 0 tau 0: ", b"error trace line 1\n"),
    (1, b"1 remote 0 tau 0: refused\r", b"error trace line 1\n"),
    (
        2,
        b" remote 0 R d=0 slot[] up[] down[]",
        b"error trace line 2\n",
    ),
    (2, b"2 remote 0 R: stutter", b"error trace line 3\n"),
    (3, b"2 remote 0 send: tau 0 0", b"error trace line 3\n"),
    (3, b"3 remote 0 send: stutter", b"error trace line 3\n"),
    (3, b"2 remote 0 send: Stutter", b"error trace line 3\n"),
    (5, b"3 up 0: up 0 0 0 req", b"error trace line 8\n"),
    (5, b"3 up 0: up 0 0 0", b"error trace line 5\n"),
    (8, b"4 home take 0: up 0 0 0", b"error trace line 8\n"),
    (
        8,
        b"4 home take 0: up 0 0 0 req(0)",
        b"error trace line 8\n",
    ),
    (8, b"4 home take 0: up 0 0 0 gr(0)", b"error trace line 8\n"),
    (8, b"4 home take 0: up 0 1 0 req", b"error trace line 8\n"),
    (8, b"4 home take 0: up 1 0 0 req", b"error trace line 8\n"),
    (8, b"4 home take 0: up 0 0 1 req", b"error trace line 8\n"),
    (8, b"4 home take 0: down 0 0 0 req", b"error trace line 8\n"),
    (8, b"4 home take 0: up 0  0 0 req", b"error trace line 8\n"),
    (8, b"4 home take 0: up 00 0 0 req", b"error trace line 8\n"),
    (8, b"4 home take 0: stutter", b"error trace line 11\n"),
    (
        11,
        b"5 home send 0 0: down 0 0 0 gr(1)",
        b"error trace line 11\n",
    ),
    (
        11,
        b"5 home send 0 0: down 0 0 0 gr",
        b"error trace line 11\n",
    ),
    (
        11,
        b"5 home send 0 0: down 0 0 0 gr()",
        b"error trace line 11\n",
    ),
    (
        11,
        b"5 home send 0 0: down 0 0 0 gr(0) ",
        b"error trace line 11\n",
    ),
    (11, b"5 home send 0 0: stutter", b"error trace line 20\n"),
    (11, b"5 home send 0 0: refused", b"error trace line 20\n"),
    (14, b"6 down 0: tau 0 0", b"error trace line 21\n"),
    (14, b"6 down 0: tau 0 1", b"error trace line 21\n"),
    (14, b"6 down 0: net", b"error trace line 14\n"),
    (14, b"7 down 0: stutter", b"error trace line 14\n"),
    (16, b"End", b"error trace line 16\n"),
    (16, b"end ", b"error trace line 16\n"),
    (16, b"abstract", b"error trace line 16\n"),
    (16, b"  end", b"error trace line 19\n"),
    (
        17,
        b"home E o=#0 j=#0 d=0 held[] owed[]",
        b"error trace line 17\n",
    ),
    (17, b"end", b"error trace line 17\n"),
    (17, b"", b"error trace line 17\n"),
    (18, b"abstract", b"error trace line 19\n"),
    (19, b"abstract ", b"error trace line 19\n"),
    (19, b"  abstract", b"error trace line 22\n"),
    (19, b"end", b"error trace line 19\n"),
    (20, b"  home E o=#0 j=#0 d=1", b"error trace line 20\n"),
    (20, b"  home F o=#0 j=#0 d=0", b"error trace line 20\n"),
    (20, b"  remote 0 V d=0", b"error trace line 20\n"),
    (20, b"  home E o=#0 j=#0 d=0 ", b"error trace line 20\n"),
    (20, b"  home E o=none j=#0 d=0", b"error trace line 20\n"),
    (20, b"home E o=#0 j=#0 d=0", b"error trace line 20\n"),
    (21, b"  remote 0 V d=1", b"error trace line 21\n"),
    (21, b"  remote 0 W d=0", b"error trace line 21\n"),
    (21, b"  remote 1 V d=0", b"error trace line 21\n"),
    (21, b"  home E o=#0 j=#0 d=0", b"error trace line 21\n"),
    (21, b"  remote 0 V", b"error trace line 21\n"),
    (21, b"", b"error trace line 21\n"),
];

#[test]
fn the_first_line_that_is_wrong_is_told(rt: HostRuntime) -> Result<(), Wrong> {
    for (line, text, said) in REFUSED {
        change_is_said(rt.alloc(), line, text, Status::ScheduleRefused, said)?;
    }
    Ok(())
}
