//! Runs of which each call fails in turn.

use crate::ended::{End, length};
use crate::expected::ends_failing;
use crate::runs::Failing;
use crate::{Case, Text, Wrong};
use rvc_top::Status;
use std::alloc::Global;

// The first so many bytes of the text, or all.
fn front(text: Text<'_>, written: usize) -> Text<'_> {
    match text {
        Text::Whole(bytes) | Text::Front(bytes) | Text::Back(bytes) => match bytes.get(..written) {
            Some(front) => Text::Whole(front),
            None => text,
        },
    }
}

// That a read of the file with this number is a fault before which nothing is written and nothing
// of the schedule is read.
fn file_read_fails(alloc: Global, case: &Case<'_>, most: usize, call: u64) -> Result<(), Wrong> {
    let end = End {
        status: Status::ReadFault,
        text: Text::Whole(b""),
        left: Some(length(case.schedule)),
    };
    let calls = Failing {
        file: call,
        schedule: 0,
        sink: 0,
    };
    ends_failing(alloc, case, most, calls, call, &end)
}

// The same of each of so many reads, and that there are no more.
fn file_reads_fail(alloc: Global, case: &Case<'_>, most: usize, reads: u64) -> Result<(), Wrong> {
    for call in 0..reads {
        file_read_fails(alloc, case, most, call.saturating_add(1))?;
    }
    let calls = Failing {
        file: reads.saturating_add(1),
        schedule: 0,
        sink: 0,
    };
    ends_failing(alloc, case, most, calls, calls.file, &End::of(case))
}

/// That the case's file is read in so many calls, the last of which tells its end, and that where
/// one fails the run ends with a fault, nothing is written and the schedule is as it was. A row is
/// how many bytes one call moves at most, and the number of calls.
pub fn each_file_read_fails(
    alloc: Global,
    case: &Case<'_>,
    rows: &[(usize, u64)],
) -> Result<(), Wrong> {
    for (most, reads) in rows {
        file_reads_fail(alloc, case, *most, *reads)?;
    }
    Ok(())
}

// How many bytes are written where the first so many of the schedule were read.
fn written_after(line_ends: &[(u64, usize)], read: u64) -> usize {
    let mut written = 0;
    for (end, length) in line_ends {
        if *end <= read {
            written = *length;
        }
    }
    written
}

// That a read of the schedule with this number is a fault behind so many bytes of the case's text.
fn schedule_read_fails(
    alloc: Global,
    case: &Case<'_>,
    most: usize,
    call: u64,
    written: usize,
) -> Result<(), Wrong> {
    let end = End {
        status: Status::ReadFault,
        text: front(case.text, written),
        left: None,
    };
    let calls = Failing {
        file: 0,
        schedule: call,
        sink: 0,
    };
    ends_failing(alloc, case, most, calls, call, &end)
}

// The same of each of so many reads, each of which gave `most` bytes before, and that there are no
// more.
fn schedule_reads_fail(
    alloc: Global,
    case: &Case<'_>,
    line_ends: &[(u64, usize)],
    most: usize,
    reads: u64,
) -> Result<(), Wrong> {
    for call in 0..reads {
        let written = written_after(line_ends, call.saturating_mul(most as u64));
        schedule_read_fails(alloc, case, most, call.saturating_add(1), written)?;
    }
    let calls = Failing {
        file: 0,
        schedule: reads.saturating_add(1),
        sink: 0,
    };
    ends_failing(alloc, case, most, calls, calls.schedule, &End::of(case))
}

/// That the case's schedule is read in so many calls, and that where one fails the run ends with a
/// fault behind the text of the lines that were read. A row is how many bytes one call moves at
/// most, and the number of calls. `line_ends` has for each line with an LF how many bytes of the
/// schedule there are up to it, and how many of the text are written then.
pub fn each_schedule_read_fails(
    alloc: Global,
    case: &Case<'_>,
    line_ends: &[(u64, usize)],
    rows: &[(usize, u64)],
) -> Result<(), Wrong> {
    for (most, reads) in rows {
        schedule_reads_fail(alloc, case, line_ends, *most, *reads)?;
    }
    Ok(())
}

// That the write with this number is a fault behind so many bytes of the case's text.
fn write_fails(
    alloc: Global,
    case: &Case<'_>,
    most: usize,
    call: u64,
    written: usize,
) -> Result<(), Wrong> {
    let end = End {
        status: Status::WriteFault,
        text: front(case.text, written),
        left: None,
    };
    let calls = Failing {
        file: 0,
        schedule: 0,
        sink: call,
    };
    ends_failing(alloc, case, most, calls, call, &end)
}

// The same of each write of a piece of this length behind so many bytes and calls. Answers how many
// calls there are then.
fn writes_of_piece_fail(
    alloc: Global,
    case: &Case<'_>,
    most: usize,
    before: usize,
    length: usize,
    calls: u64,
) -> Result<u64, Wrong> {
    let mut call = calls;
    for at in (0..length).step_by(most.max(1)) {
        call = call.saturating_add(1);
        write_fails(alloc, case, most, call, before.saturating_add(at))?;
    }
    Ok(call)
}

// The same of each write of the pieces of these lengths, and that there are no more. Answers how
// many there are.
fn writes_fail(
    alloc: Global,
    case: &Case<'_>,
    most: usize,
    pieces: &[usize],
) -> Result<u64, Wrong> {
    let mut call = 0;
    let mut before: usize = 0;
    for length in pieces {
        call = writes_of_piece_fail(alloc, case, most, before, *length, call)?;
        before = before.saturating_add(*length);
    }
    let calls = Failing {
        file: 0,
        schedule: 0,
        sink: call.saturating_add(1),
    };
    ends_failing(alloc, case, most, calls, calls.sink, &End::of(case))?;
    Ok(call)
}

/// That the case's text is written in so many calls, and that where one fails the run ends with a
/// fault behind the bytes of those before. A row is how many bytes one call moves at most, the
/// lengths of the pieces that are written, and the number of calls.
pub fn each_write_fails(
    alloc: Global,
    case: &Case<'_>,
    rows: &[(usize, &[usize], u64)],
) -> Result<(), Wrong> {
    for (most, pieces, writes) in rows {
        let made = writes_fail(alloc, case, *most, pieces)?;
        if made != *writes {
            return Err(Wrong::Writes(made));
        }
    }
    Ok(())
}
