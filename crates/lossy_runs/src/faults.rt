//! Reads and writes that fail in the middle of a run.

use crate::words::ONE_LEAN;
use memory_runs::{
    Case, MIGRATORY, Wrong, each_file_read_fails, each_schedule_read_fails, each_write_fails,
    over_schedule,
};
use rvc_top::Status;

const SCHEDULE: &[u8] = b"\
remote 0 tau 0
remote 0 send
net 0 up lose 0
up 0
";

const TEXT: &[u8] = b"\
1 remote 0 tau 0: tau 0 0
  remote 0 R d=0 slot[] up[] down[]
2 remote 0 send: stutter
  remote 0 R* d=0 slot[] up[?req] down[]
3 net 0 up lose 0: net
  link 0 up put 1 got 0 flight[]
4 up 0: waiting
end
  home F o=none j=none d=0 held[] owed[]
  remote 0 R* d=0 slot[] up[?req] down[]
abstract
  home F o=none j=none d=0
  remote 0 R d=0
";

// A run of these lines, of 50 bytes, over a file of 830 bytes.
fn waits() -> Case<'static> {
    over_schedule(&ONE_LEAN, &[MIGRATORY], &[SCHEDULE], Status::Done, TEXT)
}

#[test]
fn each_read_of_the_file_may_fail(rt: HostRuntime) -> Result<(), Wrong> {
    each_file_read_fails(rt.alloc(), &waits(), &[(1, 831), (4_096, 2)])
}

// For each line how many bytes of the schedule there are up to its LF, and how many are written
// then.
const LINE_ENDS: [(u64, usize); 4] = [(15, 62), (29, 128), (45, 184), (50, 200)];

#[test]
fn each_read_of_the_schedule_may_fail(rt: HostRuntime) -> Result<(), Wrong> {
    each_schedule_read_fails(rt.alloc(), &waits(), &LINE_ENDS, &[(1, 51), (4_096, 2)])
}

// The blocks are written one by one where a read gives one byte, and in one go where one read gives
// all; the last text is written behind them.
const WRITES: [(usize, &[usize], u64); 2] = [
    (1, &[62, 66, 56, 16, 139], 339),
    (4_096, &[200, 139], 2),
];

#[test]
fn each_write_may_fail(rt: HostRuntime) -> Result<(), Wrong> {
    each_write_fails(rt.alloc(), &waits(), &WRITES)
}
