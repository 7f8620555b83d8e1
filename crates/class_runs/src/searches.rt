//! What a search of a protocol's classes finds.

ghost use Rattle.std.specs.Prelude.{◌≤◌, IfSome};
ghost use Rattle.std.specs.Bool.{OnTrue};

use class_search::ClassSystem;
use level_search::{Outcome, search};
use protocol_reader::read;
use star_check::{Checked, check};
use std::alloc::Global;

// The protocol of the text, checked.
fn checked(alloc: Global, text: &[u8]) -> Option<Checked> {
    let spelled = read(alloc, text).ok()?;
    check(alloc, spelled.protocol).ok()
}

// Whether there may be so many remotes.
fn is_some_or_any(remotes: Option<u8>) -> bool
    ensures { OnTrue result (IfSome remotes (λ n. (1 ≤ n) × (n ≤ 64))) }
{
    match remotes {
        Some(n) => 1 <= n && n <= 64,
        None => true,
    }
}

// How a search of its classes ends, of which there may be so many.
fn outcome(alloc: Global, text: &[u8], remotes: Option<u8>, most: usize) -> Option<Outcome> {
    if !is_some_or_any(remotes) {
        return None;
    }
    let checked = checked(alloc, text)?;
    let system = ClassSystem::new(alloc, &checked, &[], remotes).ok()?;
    let found = search(alloc, &system, most).ok()?;
    Some(found.outcome)
}

/// Why a search isn't as it must be: what it found; `None` where it couldn't be made.
#[derive(Clone, Copy, Debug)]
pub struct Wrong(pub Option<Outcome>);

/// That a search of the protocol's classes ends so.
pub fn ends(
    alloc: Global,
    text: &[u8],
    remotes: Option<u8>,
    most: usize,
    expected: Outcome,
) -> Result<(), Wrong> {
    let found = outcome(alloc, text, remotes, most);
    if found == Some(expected) {
        Ok(())
    } else {
        Err(Wrong(found))
    }
}
