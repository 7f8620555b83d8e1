//! How many remotes and slots there may be, and in which mode.

use memory_runs::{Wrong, ends, over_nothing};
use rvc_top::Status;

/// The words of `boot` with one remote and two slots.
pub const BOOT: [&str; 4] = ["boot", "p", "1", "2"];

const NO_FORMS: [&[&str]; 16] = [
    &["store"],
    &["store", "p"],
    &["store", "p", "fast"],
    &["store", "lean", "p"],
    &["store", "p", "lean", "lean"],
    &["Store", "p", "lean"],
    &["boot"],
    &["boot", "p", "1"],
    &["boot", "p", "1", "2", "lean"],
    &["boot", "p", "0", "2"],
    &["boot", "p", "65", "2"],
    &["boot", "p", "01", "2"],
    &["boot", "p", "1", "1"],
    &["boot", "p", "1", "65"],
    &["boot", "p", "1", ""],
    &["Boot", "p", "1", "2"],
];

#[test]
fn other_words_have_no_form(rt: HostRuntime) -> Result<(), Wrong> {
    for words in NO_FORMS {
        let case = over_nothing(words, Status::Usage, b"error usage\n");
        ends(rt.alloc(), &case)?;
    }
    Ok(())
}
