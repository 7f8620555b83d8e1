//! How many remotes and slots there may be, and in which mode.

use memory_runs::{Wrong, ends, over_nothing};
use rvc_top::Status;

/// The words of `lossy` with one remote and two slots.
pub const ONE_LEAN: [&str; 5] = ["lossy", "p", "1", "2", "lean"];

const NO_FORMS: [&[&str]; 11] = [
    &["lossy"],
    &["lossy", "p", "1", "2"],
    &["lossy", "p", "1", "2", "lean", "lean"],
    &["lossy", "p", "0", "2", "lean"],
    &["lossy", "p", "65", "2", "lean"],
    &["lossy", "p", "01", "2", "lean"],
    &["lossy", "p", "1", "1", "lean"],
    &["lossy", "p", "1", "65", "lean"],
    &["lossy", "p", "1", "2", "fast"],
    &["lossy", "p", "lean", "1", "2"],
    &["Lossy", "p", "1", "2", "lean"],
];

#[test]
fn other_words_have_no_form(rt: HostRuntime) -> Result<(), Wrong> {
    for words in NO_FORMS {
        let case = over_nothing(words, Status::Usage, b"error usage\n");
        ends(rt.alloc(), &case)?;
    }
    Ok(())
}
