//! A control store with one byte changed, or cut off.

use crate::booted::STANDS;
use crate::images::{STILL_HEAD, STILL_ROW};
use crate::words::BOOT;
use memory_runs::{STILL, Wrong, ends_by, joined, over_file, over_schedule};
use rvc_top::Status;
use std::alloc::Global;

// How a run of `boot` ends over a file: it runs as `still` does, or the file is refused.
#[derive(Clone, Copy)]
enum Ends {
    Done,
    Refused(&'static [u8]),
}

// Whether this byte may stand in the name of a protocol.
fn is_in_name(byte: u8) -> bool {
    byte.is_ascii_alphabetic() || byte == b'_'
}

// How it ends over the store of `still` with this byte at this place: the head has 40 bytes, byte
// 15 tells the mode, bytes 49 to 53 are the name, and the row has the last 16.
fn end_of(place: usize, byte: u8) -> Ends {
    if place == 15 && byte <= 1 {
        return Ends::Done;
    }
    if place < 40 {
        return Ends::Refused(b"error image head\n");
    }
    if place >= 130 {
        return Ends::Refused(b"error image row 0\n");
    }
    if place >= 49 && place < 54 && is_in_name(byte) {
        return Ends::Done;
    }
    Ends::Refused(b"error image text\n")
}

// That a run over this file ends so.
fn boot_ends(alloc: Global, file: &[u8], end: Ends) -> Result<(), Wrong> {
    match end {
        Ends::Done => {
            let file = [file];
            let case = over_schedule(&BOOT, &file, &[b"up 0\n"], Status::Done, STANDS);
            ends_by(alloc, &case, 4_096)
        }
        Ends::Refused(text) => {
            let file = [file];
            let case = over_file(&BOOT, &file, Status::FileRefused, text);
            ends_by(alloc, &case, 4_096)
        }
    }
}

// The same of the store with this byte at this place, which has another one there.
fn changed_ends(alloc: Global, store: &[u8], place: usize, byte: u8) -> Result<(), Wrong> {
    let front = store.get(..place).unwrap_or(b"");
    let rest = store.get(place.saturating_add(1)..).unwrap_or(b"");
    if store.get(place) == Some(&byte) {
        return Ok(());
    }
    match joined(alloc, &[front, &[byte], rest]) {
        Ok(file) => boot_ends(alloc, &file, end_of(place, byte)),
        Err(_) => Err(Wrong::NoMemory),
    }
}

// The same with each of some bytes at this place.
fn each_byte_ends(alloc: Global, store: &[u8], place: usize) -> Result<(), Wrong> {
    let byte = store.get(place).copied().unwrap_or(0);
    changed_ends(alloc, store, place, byte ^ 1)?;
    changed_ends(alloc, store, place, 0)?;
    changed_ends(alloc, store, place, 0x10)?;
    changed_ends(alloc, store, place, b'a')?;
    changed_ends(alloc, store, place, 255)
}

// The same at each place.
fn each_place_ends(alloc: Global, store: &[u8]) -> Result<(), Wrong> {
    for place in 0..146 {
        each_byte_ends(alloc, store, place)?;
    }
    Ok(())
}

#[test]
fn a_byte_that_is_changed_is_told(rt: HostRuntime) -> Result<(), Wrong> {
    match joined(rt.alloc(), &[STILL_HEAD, STILL, STILL_ROW]) {
        Ok(store) => each_place_ends(rt.alloc(), &store),
        Err(_) => Err(Wrong::NoMemory),
    }
}

// That each front of the store is refused.
fn each_front_ends(alloc: Global, store: &[u8]) -> Result<(), Wrong> {
    for bytes in 0..146 {
        let front = store.get(..bytes).unwrap_or(b"");
        boot_ends(alloc, front, Ends::Refused(b"error image head\n"))?;
    }
    Ok(())
}

#[test]
fn a_store_that_is_cut_off_has_no_head(rt: HostRuntime) -> Result<(), Wrong> {
    match joined(rt.alloc(), &[STILL_HEAD, STILL, STILL_ROW]) {
        Ok(store) => each_front_ends(rt.alloc(), &store),
        Err(_) => Err(Wrong::NoMemory),
    }
}
