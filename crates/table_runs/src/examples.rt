//! Protocols to start from.

use memory_runs::{INVALIDATE, MIGRATORY, Wrong, each_file_ends, ends, over_nothing};
use rvc_top::Status;

const EXAMPLES: [(&str, &[u8]); 2] = [("migratory", MIGRATORY), ("invalidate", INVALIDATE)];

#[test]
fn an_example_is_written_and_nothing_is_read(rt: HostRuntime) -> Result<(), Wrong> {
    for (name, text) in EXAMPLES {
        let words = ["example", name];
        ends(rt.alloc(), &over_nothing(&words, Status::Done, text))?;
    }
    Ok(())
}

const COUNTED: [(&[u8], &[u8]); 2] = [
    (MIGRATORY, b"ok migratory messages 5 home 5 remote 6\n"),
    (INVALIDATE, b"ok invalidate messages 10 home 10 remote 11\n"),
];

#[test]
fn an_example_is_well_formed(rt: HostRuntime) -> Result<(), Wrong> {
    each_file_ends(rt.alloc(), &["check", "p"], Status::Done, &COUNTED)
}
