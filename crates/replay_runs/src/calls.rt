//! Reads and writes that fail in the middle of a replay.

use crate::replayed::replayed;
use memory_runs::{Wrong, each_file_read_fails, each_schedule_read_fails, each_write_fails};
use rvc_top::Status;

// A remote gives `m` to the home again and again. The file has 125 bytes.
const MEETS: &[u8] = b"protocol p;message m up;\
home{var j node=none;start H;state H{from any j?m goto H;}}\
remote{start R;state R{to home!m goto R;}}";

// Four lines in 30 bytes: an event that takes place, a comment, one that doesn't, and without an LF
// one that does.
const MEETINGS: &[u8] = b"up 0 0 0\n//x\nup 1 0 0\nup 0 0 0";

// What is written over it: the blocks of its three events, and the end.
const MET: &[u8] = b"\
1 up 0 0 0: moved
  home H j=#0
  remote 0 R
2 up 1 0 0: refused
3 up 0 0 0: moved
  home H j=#0
  remote 0 R
end
  home H j=#0
  remote 0 R
";

// The file is read in so many calls, the last of which tells the end, and then the schedule is.
#[test]
fn each_read_of_the_file_may_fail(rt: HostRuntime) -> Result<(), Wrong> {
    let case = replayed(&[MEETS], &[MEETINGS], Status::Done, MET);
    each_file_read_fails(rt.alloc(), &case, &[(1, 126), (7, 19), (4_096, 2)])
}

// For each line with an LF how many bytes of the schedule there are up to it, and how many are
// written then.
const LINE_ENDS: [(u64, usize); 3] = [(9, 45), (13, 45), (22, 65)];

// The schedule is read in so many calls, each of which gives `most` bytes as long as there are any.
#[test]
fn each_read_of_the_schedule_may_fail(rt: HostRuntime) -> Result<(), Wrong> {
    let case = replayed(&[MEETS], &[MEETINGS], Status::Done, MET);
    each_schedule_read_fails(
        rt.alloc(),
        &case,
        &LINE_ENDS,
        &[(1, 31), (7, 6), (4_096, 2)],
    )
}

// The three blocks and the end have 45, 20, 45 and 31 bytes. Before each read of the schedule, and
// before its end, the blocks of the lines that were taken are written in one go.
const WRITES: [(usize, &[usize], u64); 3] = [
    (1, &[45, 20, 45, 31], 141),
    (7, &[45, 20, 45, 31], 22),
    (4_096, &[65, 45, 31], 3),
];

#[test]
fn each_write_of_the_trace_may_fail(rt: HostRuntime) -> Result<(), Wrong> {
    let case = replayed(&[MEETS], &[MEETINGS], Status::Done, MET);
    each_write_fails(rt.alloc(), &case, &WRITES)
}

// The block of its first line, of 20 bytes, and the error text.
const STOPPED: &[u8] = b"1 up 1 0 0: refused\nerror schedule line 2\n";

#[test]
fn an_error_text_that_is_not_taken_is_a_write_fault(rt: HostRuntime) -> Result<(), Wrong> {
    let case = replayed(
        &[MEETS],
        &[b"up 1 0 0\nhome fly"],
        Status::ScheduleRefused,
        STOPPED,
    );
    each_write_fails(
        rt.alloc(),
        &case,
        &[(7, &[20, 22], 7), (4_096, &[20, 22], 2)],
    )
}
