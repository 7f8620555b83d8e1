//! Reads and writes that fail.

use crate::accepted::NOTHING;
use crate::words::ONE;
use memory_runs::{
    Case, STILL, Wrong, each_file_read_fails, each_schedule_read_fails, each_write_fails,
    over_schedule,
};
use rvc_top::Status;

// A run over a file of 90 bytes and a trace of 69, whose text has 11 bytes.
fn audits() -> Case<'static> {
    over_schedule(&ONE, &[STILL], &[NOTHING], Status::Done, b"audit ok 0\n")
}

#[test]
fn each_read_of_the_file_may_fail(rt: HostRuntime) -> Result<(), Wrong> {
    each_file_read_fails(rt.alloc(), &audits(), &[(1, 91), (4_096, 2)])
}

// Nothing is written before the trace is read to its end.
#[test]
fn each_read_of_the_trace_may_fail(rt: HostRuntime) -> Result<(), Wrong> {
    each_schedule_read_fails(rt.alloc(), &audits(), &[], &[(1, 70), (4_096, 2)])
}

#[test]
fn each_write_may_fail(rt: HostRuntime) -> Result<(), Wrong> {
    each_write_fails(rt.alloc(), &audits(), &[(1, &[11], 11), (4_096, &[11], 1)])
}
