//! What a run is given, and how it must end.

use crate::protocols::STILL;
use rv_base::NoMemory;
use rvc_top::Status;

/// What a run must write.
#[derive(Clone, Copy)]
pub enum Text<'a> {
    /// This text.
    Whole(&'a [u8]),
    /// A text that begins so.
    Front(&'a [u8]),
    /// A text that ends so.
    Back(&'a [u8]),
}

/// What a run may read. It is also made over sources that fail at the first read of anything else.
#[derive(Clone, Copy)]
pub enum Reads {
    /// Neither the file nor the schedule.
    Nothing,
    /// The file alone.
    File,
    /// The file and the schedule.
    FileAndSchedule,
}

/// A run of `rvc`, and how it must end where no call fails that it may make.
#[derive(Clone, Copy)]
pub struct Case<'a> {
    /// The words after the program's name.
    pub words: &'a [&'a str],
    /// The bytes of the protocol file: these pieces, one behind the other.
    pub file: &'a [&'a [u8]],
    /// The bytes of the schedule: these pieces, one behind the other.
    pub schedule: &'a [&'a [u8]],
    /// What it may read.
    pub reads: Reads,
    /// How it must end.
    pub status: Status,
    /// What it must write.
    pub text: Text<'a>,
}

/// A run that reads nothing, which must end with this status and text.
pub fn over_nothing<'a>(words: &'a [&'a str], status: Status, text: &'a [u8]) -> Case<'a> {
    Case {
        words,
        file: &[STILL],
        schedule: &[STILL],
        reads: Reads::Nothing,
        status,
        text: Text::Whole(text),
    }
}

/// A run that reads a file of these pieces alone, which must end with this status and text.
pub fn over_file<'a>(
    words: &'a [&'a str],
    file: &'a [&'a [u8]],
    status: Status,
    text: &'a [u8],
) -> Case<'a> {
    Case {
        words,
        file,
        schedule: &[],
        reads: Reads::File,
        status,
        text: Text::Whole(text),
    }
}

/// A run that reads a file of these pieces alone, which must be done with a text that begins so.
pub fn begins<'a>(words: &'a [&'a str], file: &'a [&'a [u8]], front: &'a [u8]) -> Case<'a> {
    Case {
        words,
        file,
        schedule: &[],
        reads: Reads::File,
        status: Status::Done,
        text: Text::Front(front),
    }
}

/// A run over a file of these pieces and a schedule without a byte, which must be done with a text
/// that ends so.
pub fn closes<'a>(words: &'a [&'a str], file: &'a [&'a [u8]], back: &'a [u8]) -> Case<'a> {
    Case {
        words,
        file,
        schedule: &[],
        reads: Reads::FileAndSchedule,
        status: Status::Done,
        text: Text::Back(back),
    }
}

/// A run over a file and a schedule of these pieces, which must end with this status and text.
pub fn over_schedule<'a>(
    words: &'a [&'a str],
    file: &'a [&'a [u8]],
    schedule: &'a [&'a [u8]],
    status: Status,
    text: &'a [u8],
) -> Case<'a> {
    Case {
        words,
        file,
        schedule,
        reads: Reads::FileAndSchedule,
        status,
        text: Text::Whole(text),
    }
}

/// Why a run isn't as it must be.
#[derive(Clone, Copy, Debug)]
pub enum Wrong {
    /// There was no memory for it.
    NoMemory,
    /// The pieces that are written take this number of writes, and not the number of their row.
    Writes(u64),
    /// It ended otherwise.
    Ended {
        /// How many bytes the file of its case has.
        file: usize,
        /// How many bytes the schedule of its case has.
        schedule: usize,
        /// How many bytes one call moved at most.
        most: usize,
        /// The number of the call that was to fail, and 0 where none was.
        call: u64,
        /// Its status.
        status: Status,
        /// How many bytes it wrote.
        written: usize,
        /// How many bytes of the schedule are left, as far as 200 reads tell.
        left: usize,
    },
}

impl From<NoMemory> for Wrong {
    fn from(_: NoMemory) -> Wrong {
        Wrong::NoMemory
    }
}
