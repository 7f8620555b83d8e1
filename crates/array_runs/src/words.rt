//! How many remotes, slots and cache lines there may be, and in which mode.

use memory_runs::{Wrong, ends, over_nothing};
use rvc_top::Status;

/// The words of `lines` with one remote, two slots and two cache lines.
pub const TWO_LINES: [&str; 6] = ["lines", "p", "1", "2", "lean", "2"];

const NO_FORMS: [&[&str]; 15] = [
    &["lines"],
    &["lines", "p", "1", "2", "lean"],
    &["lines", "p", "1", "2", "lean", "2", "2"],
    &["lines", "p", "1", "2", "2", "lean"],
    &["lines", "p", "0", "2", "lean", "2"],
    &["lines", "p", "65", "2", "lean", "2"],
    &["lines", "p", "1", "1", "lean", "2"],
    &["lines", "p", "1", "65", "lean", "2"],
    &["lines", "p", "1", "2", "fast", "2"],
    &["lines", "p", "1", "2", "lean", "0"],
    &["lines", "p", "1", "2", "lean", "17"],
    &["lines", "p", "1", "2", "lean", "02"],
    &["lines", "p", "1", "2", "lean", ""],
    &["lines", "p", "1", "2", "lean", "258"],
    &["Lines", "p", "1", "2", "lean", "2"],
];

#[test]
fn other_words_have_no_form(rt: HostRuntime) -> Result<(), Wrong> {
    for words in NO_FORMS {
        let case = over_nothing(words, Status::Usage, b"error usage\n");
        ends(rt.alloc(), &case)?;
    }
    Ok(())
}
