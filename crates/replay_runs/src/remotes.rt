//! How many remotes there may be.

use memory_runs::{STILL, Wrong, closes, ends, over_nothing};
use rvc_top::Status;

const NO_COUNTS: [&str; 10] = ["", "0", "00", "02", "65", "128", "257", "+1", "1 ", "x"];

#[test]
fn other_words_are_no_count_of_remotes(rt: HostRuntime) -> Result<(), Wrong> {
    for remotes in NO_COUNTS {
        let words = ["rv", "p", remotes];
        let case = over_nothing(&words, Status::Usage, b"error usage\n");
        ends(rt.alloc(), &case)?;
    }
    Ok(())
}

// Counts of remotes, and how the trace ends.
const COUNTS: [(&str, &[u8]); 3] = [
    ("1", b"remote 0 R\n"),
    ("9", b"remote 8 R\n"),
    ("64", b"remote 63 R\n"),
];

#[test]
fn there_are_from_1_to_64_remotes(rt: HostRuntime) -> Result<(), Wrong> {
    for (remotes, last) in COUNTS {
        let words = ["rv", "p", remotes];
        let case = closes(&words, &[STILL], last);
        ends(rt.alloc(), &case)?;
    }
    Ok(())
}
