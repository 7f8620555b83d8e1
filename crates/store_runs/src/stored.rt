//! What `store` writes.

use crate::images::{
    CLAIMED_HEAD, LEAN_HEAD, LEAN_ROWS, PLAIN_HEAD, PLAIN_ROWS, STILL_HEAD, STILL_ROW,
};
use memory_runs::{
    MIGRATORY, MIGRATORY_2, STILL, STILL_LINE, Wrong, each_file_ends, ends, ends_over_endless_file,
    joined, migratory_body, over_file,
};
use rvc_top::Status;
use std::alloc::Global;

// That `store` in this mode writes the image of these pieces for a file of those.
fn stores(alloc: Global, mode: &str, file: &[&[u8]], image: &[&[u8]]) -> Result<(), Wrong> {
    match joined(alloc, image) {
        Ok(image) => ends(
            alloc,
            &over_file(&["store", "p", mode], file, Status::Done, &image),
        ),
        Err(_) => Err(Wrong::NoMemory),
    }
}

#[test]
fn the_text_that_is_stored_is_laid_out(rt: HostRuntime) -> Result<(), Wrong> {
    for file in [STILL, STILL_LINE] {
        stores(rt.alloc(), "lean", &[file], &[STILL_HEAD, STILL, STILL_ROW])?;
    }
    Ok(())
}

#[test]
fn the_rows_are_those_of_the_mode(rt: HostRuntime) -> Result<(), Wrong> {
    stores(
        rt.alloc(),
        "lean",
        &[MIGRATORY],
        &[LEAN_HEAD, MIGRATORY, LEAN_ROWS],
    )?;
    stores(
        rt.alloc(),
        "plain",
        &[MIGRATORY],
        &[PLAIN_HEAD, MIGRATORY, PLAIN_ROWS],
    )
}

#[test]
fn claims_are_part_of_the_text(rt: HostRuntime) -> Result<(), Wrong> {
    let claim = b"claim atmost 0 in V;".as_slice();
    stores(
        rt.alloc(),
        "lean",
        &[MIGRATORY_2, migratory_body(), claim],
        &[
            CLAIMED_HEAD,
            MIGRATORY_2,
            migratory_body(),
            claim,
            b"\n",
            LEAN_ROWS,
        ],
    )
}

const STORE: [&str; 3] = ["store", "p", "lean"];

const REFUSED: [(&[u8], &[u8]); 2] = [
    (b"protocol p;\n", b"error file line 2 code 1\n"),
    (
        b"protocol p;\nhome{start H;}\nremote{start R;state R{}}",
        b"error file line 2 code 13\n",
    ),
];

#[test]
fn a_refused_file_is_not_stored(rt: HostRuntime) -> Result<(), Wrong> {
    each_file_ends(rt.alloc(), &STORE, Status::FileRefused, &REFUSED)
}

#[test]
fn a_file_without_end_is_too_long(rt: HostRuntime) -> Result<(), Wrong> {
    let case = over_file(&STORE, &[], Status::FileRefused, b"error file too long\n");
    ends_over_endless_file(rt.alloc(), &case, b'x')
}
