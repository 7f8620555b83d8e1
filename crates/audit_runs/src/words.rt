//! How many remotes there may be.

use memory_runs::{Wrong, ends, over_nothing};
use rvc_top::Status;

/// The words of `audit` with one remote.
pub const ONE: [&str; 3] = ["audit", "p", "1"];

const NO_FORMS: [&[&str]; 9] = [
    &["audit"],
    &["audit", "p"],
    &["audit", "p", "1", "2"],
    &["audit", "p", "0"],
    &["audit", "p", "65"],
    &["audit", "p", "01"],
    &["audit", "p", "lean"],
    &["audit", "1", "p"],
    &["Audit", "p", "1"],
];

#[test]
fn other_words_have_no_form(rt: HostRuntime) -> Result<(), Wrong> {
    for words in NO_FORMS {
        let case = over_nothing(words, Status::Usage, b"error usage\n");
        ends(rt.alloc(), &case)?;
    }
    Ok(())
}
