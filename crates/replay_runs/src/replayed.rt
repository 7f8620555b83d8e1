//! A run of `rv` with one remote.

use memory_runs::{Case, Reads, Text};
use rvc_top::Status;

/// `rv` over this file with one remote and a schedule of these pieces, and how it must end.
pub fn replayed<'a>(
    file: &'a [&'a [u8]],
    schedule: &'a [&'a [u8]],
    status: Status,
    text: &'a [u8],
) -> Case<'a> {
    Case {
        words: &["rv", "p", "1"],
        file,
        schedule,
        reads: Reads::FileAndSchedule,
        status,
        text: Text::Whole(text),
    }
}
