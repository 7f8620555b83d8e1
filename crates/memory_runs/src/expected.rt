//! Runs that must end as their cases say.

use crate::ended::{End, Ended};
use crate::runs::{Failing, FailingRun, SteadyRun, joined};
use crate::{Case, Reads, Wrong, over_file, over_schedule};
use rv_base::NoMemory;
use rvc_top::Status;
use std::alloc::Global;

// That the run ends as it must of which no call fails.
fn ends_steadily(alloc: Global, case: &Case<'_>, most: usize) -> Result<(), Wrong> {
    let mut run = SteadyRun::new(alloc, case, most)?;
    let status = run.status(alloc);
    let left = run.left();
    End::of(case).judged(case, &Ended::steady(most, status, run.written(), left))
}

/// That the case's run ends as it must where each call moves at most `most` bytes, and at least
/// one.
pub fn ends_by(alloc: Global, case: &Case<'_>, most: usize) -> Result<(), Wrong> {
    ends_steadily(alloc, case, most)?;
    match case.reads {
        Reads::FileAndSchedule => Ok(()),
        Reads::Nothing | Reads::File => {
            ends_failing(alloc, case, most, Failing::NONE, 0, &End::of(case))
        }
    }
}

/// That the case's run ends as it must where each call moves at most one byte, seven and 4,096.
pub fn ends(alloc: Global, case: &Case<'_>) -> Result<(), Wrong> {
    for most in [1, 7, 4_096] {
        ends_by(alloc, case, most)?;
    }
    Ok(())
}

// That a run that reads this file alone ends so.
fn file_ends(
    alloc: Global,
    words: &[&str],
    file: &[u8],
    status: Status,
    text: &[u8],
) -> Result<(), Wrong> {
    ends(alloc, &over_file(words, &[file], status, text))
}

/// That runs with these words, each of which reads a file alone, end as they must, with this
/// status. A row is the file and the text.
pub fn each_file_ends(
    alloc: Global,
    words: &[&str],
    status: Status,
    rows: &[(&[u8], &[u8])],
) -> Result<(), Wrong> {
    for (file, text) in rows {
        file_ends(alloc, words, file, status, text)?;
    }
    Ok(())
}

/// That a run with these words over a file and a schedule of these pieces ends with this status and
/// with the text of these pieces.
pub fn schedule_ends(
    alloc: Global,
    words: &[&str],
    file: &[&[u8]],
    schedule: &[&[u8]],
    status: Status,
    text: &[&[u8]],
) -> Result<(), Wrong> {
    match joined(alloc, text) {
        Ok(text) => ends(alloc, &over_schedule(words, file, schedule, status, &text)),
        Err(_) => Err(Wrong::NoMemory),
    }
}

/// How many bytes of the schedule the case's run leaves, as far as 200 reads tell, where each call
/// moves at most `most` bytes, and at least one.
pub fn left_after(alloc: Global, case: &Case<'_>, most: usize) -> Result<usize, NoMemory> {
    let mut run = SteadyRun::new(alloc, case, most)?;
    let _ = run.status(alloc);
    Ok(run.left())
}

/// That the run ends so of which these calls fail, the one with the number `call` among them.
pub fn ends_failing(
    alloc: Global,
    case: &Case<'_>,
    most: usize,
    calls: Failing,
    call: u64,
    end: &End<'_>,
) -> Result<(), Wrong> {
    let mut run = FailingRun::new(alloc, case, most, calls)?;
    let status = run.status(alloc);
    let left = run.left();
    let written = run.written();
    let ended = Ended {
        most,
        call,
        status,
        written,
        left,
    };
    end.judged(case, &ended)
}
