//! Reads and writes that fail.

use crate::booted::STANDS;
use crate::images::{STILL_HEAD, STILL_ROW};
use crate::words::BOOT;
use memory_runs::{
    Case, STILL, Wrong, each_file_read_fails, each_schedule_read_fails, each_write_fails, joined,
    over_file, over_schedule,
};
use rvc_top::Status;
use std::alloc::Global;

const STORE: [&str; 3] = ["store", "p", "lean"];

// That each read of the file, of 90 bytes, may fail, and each write of the store, of 146.
fn store_calls_fail(alloc: Global, store: &[u8]) -> Result<(), Wrong> {
    let case = over_file(&STORE, &[STILL], Status::Done, store);
    each_file_read_fails(alloc, &case, &[(1, 91), (4_096, 2)])?;
    each_write_fails(alloc, &case, &[(1, &[146], 146), (7, &[146], 21)])
}

#[test]
fn each_call_of_store_may_fail(rt: HostRuntime) -> Result<(), Wrong> {
    match joined(rt.alloc(), &[STILL_HEAD, STILL, STILL_ROW]) {
        Ok(store) => store_calls_fail(rt.alloc(), &store),
        Err(_) => Err(Wrong::NoMemory),
    }
}

// A run over the store of `still`, of 146 bytes, and a schedule of 5 bytes.
fn boots() -> Case<'static> {
    over_schedule(
        &BOOT,
        &[STILL_HEAD, STILL, STILL_ROW],
        &[b"up 0\n"],
        Status::Done,
        STANDS,
    )
}

#[test]
fn each_read_of_the_store_may_fail(rt: HostRuntime) -> Result<(), Wrong> {
    each_file_read_fails(rt.alloc(), &boots(), &[(1, 147), (4_096, 2)])
}

#[test]
fn each_read_of_the_schedule_may_fail(rt: HostRuntime) -> Result<(), Wrong> {
    each_schedule_read_fails(rt.alloc(), &boots(), &[(5, 16)], &[(1, 6), (4_096, 2)])
}

#[test]
fn each_write_of_the_trace_may_fail(rt: HostRuntime) -> Result<(), Wrong> {
    let rows: [(usize, &[usize], u64); 2] = [(1, &[16, 90], 106), (4_096, &[16, 90], 2)];
    each_write_fails(rt.alloc(), &boots(), &rows)
}
