//! How a run ended, compared with how it must.

use crate::{Case, Text, Wrong};
use rvc_top::Status;

/// How a run ended.
#[derive(Clone, Copy)]
pub struct Ended<'a> {
    pub most: usize,
    pub call: u64,
    pub status: Status,
    pub written: &'a [u8],
    pub left: usize,
}

impl<'a> Ended<'a> {
    /// How a run ended of which no call was to fail.
    pub fn steady(most: usize, status: Status, written: &'a [u8], left: usize) -> Ended<'a> {
        Ended {
            most,
            call: 0,
            status,
            written,
            left,
        }
    }
}

/// How a run must end: with this status and text, and, where that is said, with so many bytes of
/// the schedule left.
#[derive(Clone, Copy)]
pub struct End<'a> {
    pub status: Status,
    pub text: Text<'a>,
    pub left: Option<usize>,
}

fn is_told(text: Text<'_>, written: &[u8]) -> bool {
    match text {
        Text::Whole(text) => written == text,
        Text::Front(text) => written.starts_with(text),
        Text::Back(text) => written.ends_with(text),
    }
}

/// How many bytes the pieces have.
pub fn length(pieces: &[&[u8]]) -> usize {
    let mut length: usize = 0;
    for piece in pieces {
        length = length.saturating_add(piece.len());
    }
    length
}

impl<'a> End<'a> {
    /// How the case's run must end where no call fails.
    pub fn of(case: &Case<'a>) -> End<'a> {
        End {
            status: case.status,
            text: case.text,
            left: None,
        }
    }

    fn leaves(&self, left: usize) -> bool {
        match self.left {
            Some(wanted) => left == wanted,
            None => true,
        }
    }

    /// Nothing where the case's run ended so, else how it ended.
    pub fn judged(&self, case: &Case<'_>, ended: &Ended<'_>) -> Result<(), Wrong> {
        let is_told = is_told(self.text, ended.written);
        if self.status == ended.status && is_told && self.leaves(ended.left) {
            return Ok(());
        }
        Err(Wrong::Ended {
            file: length(case.file),
            schedule: length(case.schedule),
            most: ended.most,
            call: ended.call,
            status: ended.status,
            written: ended.written.len(),
            left: ended.left,
        })
    }
}
