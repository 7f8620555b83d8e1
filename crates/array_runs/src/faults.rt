//! Reads and writes that fail in the middle of a run.

use crate::words::TWO_LINES;
use memory_runs::{
    Case, MIGRATORY, Wrong, each_file_read_fails, each_schedule_read_fails, each_write_fails,
    over_schedule,
};
use rvc_top::Status;

const SCHEDULE: &[u8] = b"\
at 1 remote 0 tau 0
at 1 remote 0 send
up 0
";

const TEXT: &[u8] = b"\
1 line 1 remote 0 tau 0: tau 0 0
  remote 0 R d=0 slot[] up[] down[]
2 line 1 remote 0 send: stutter
  remote 0 R* d=0 slot[] up[?req] down[]
3 line 1 up 0: stutter
  home F o=none j=none d=0 held[0:req] owed[]
  remote 0 R* d=0 slot[] up[] down[]
line 0
end
  home F o=none j=none d=0 held[] owed[]
  remote 0 I d=0 slot[] up[] down[]
abstract
  home F o=none j=none d=0
  remote 0 I d=0
line 1
end
  home F o=none j=none d=0 held[0:req] owed[]
  remote 0 R* d=0 slot[] up[] down[]
abstract
  home F o=none j=none d=0
  remote 0 R d=0
";

// A run of these lines, of 44 bytes, over a file of 830 bytes.
fn asks() -> Case<'static> {
    over_schedule(&TWO_LINES, &[MIGRATORY], &[SCHEDULE], Status::Done, TEXT)
}

#[test]
fn each_read_of_the_file_may_fail(rt: HostRuntime) -> Result<(), Wrong> {
    each_file_read_fails(rt.alloc(), &asks(), &[(1, 831), (4_096, 2)])
}

// For each line how many bytes of the schedule there are up to its LF, and how many are written
// then.
const LINE_ENDS: [(u64, usize); 3] = [(20, 69), (39, 142), (44, 248)];

#[test]
fn each_read_of_the_schedule_may_fail(rt: HostRuntime) -> Result<(), Wrong> {
    each_schedule_read_fails(rt.alloc(), &asks(), &LINE_ENDS, &[(1, 45), (4_096, 2)])
}

// The blocks are written one by one where a read gives one byte, and in one go where one read gives
// all; the last text is written behind them.
const WRITES: [(usize, &[usize], u64); 2] = [
    (1, &[69, 73, 106, 288], 536),
    (4_096, &[248, 288], 2),
];

#[test]
fn each_write_may_fail(rt: HostRuntime) -> Result<(), Wrong> {
    each_write_fails(rt.alloc(), &asks(), &WRITES)
}
