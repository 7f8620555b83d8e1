//! How many remotes, slots and turns there may be, in which mode, and which seeds.

use memory_runs::{Wrong, ends, over_nothing};
use rvc_top::Status;

const NO_FORMS: [&[&str]; 23] = [
    &["drive"],
    &["drive", "p"],
    &["drive", "p", "2"],
    &["drive", "p", "2", "2"],
    &["drive", "p", "2", "2", "lean"],
    &["drive", "p", "2", "2", "lean", "9"],
    &["drive", "p", "2", "2", "lean", "9", "9", "9"],
    &["drive", "p", "0", "2", "lean", "9", "9"],
    &["drive", "p", "65", "2", "lean", "9", "9"],
    &["drive", "p", "02", "2", "lean", "9", "9"],
    &["drive", "p", "2", "1", "lean", "9", "9"],
    &["drive", "p", "2", "65", "lean", "9", "9"],
    &["drive", "p", "2", "02", "lean", "9", "9"],
    &["drive", "p", "2", "2", "fast", "9", "9"],
    &["drive", "p", "2", "2", "lean", "100001", "9"],
    &["drive", "p", "2", "2", "lean", "4294967297", "9"],
    &["drive", "p", "2", "2", "lean", "09", "9"],
    &["drive", "p", "2", "2", "lean", "", "9"],
    &["drive", "p", "2", "2", "lean", "9", "18446744073709551616"],
    &["drive", "p", "2", "2", "lean", "9", "09"],
    &["drive", "p", "2", "2", "lean", "9", "00"],
    &["drive", "p", "2", "2", "lean", "9", "-1"],
    &["Drive", "p", "2", "2", "lean", "9", "9"],
];

#[test]
fn other_words_have_no_form(rt: HostRuntime) -> Result<(), Wrong> {
    for words in NO_FORMS {
        let case = over_nothing(words, Status::Usage, b"error usage\n");
        ends(rt.alloc(), &case)?;
    }
    Ok(())
}
