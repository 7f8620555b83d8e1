//! One run over sources and a sink in memory.

use crate::{Case, Reads};
use rv_base::{MemorySink, MemorySource, NoMemory, ReadAnswer, Source, SteadySink, SteadySource};
use rvc_top::{Status, rvc, rvc_steady};
use std::alloc::Global;

/// These words as the program has them.
pub fn strings(alloc: Global, words: &[&str]) -> Result<Vec<String>, NoMemory> {
    let mut strings = Vec::new(alloc);
    for word in words {
        strings.push(String::from_str(alloc, word)?)?;
    }
    Ok(strings)
}

/// The bytes of these pieces, one behind the other.
pub fn joined(alloc: Global, pieces: &[&[u8]]) -> Result<Vec<u8>, NoMemory> {
    let mut bytes = Vec::new(alloc);
    for piece in pieces {
        bytes.extend_from_slice(piece)?;
    }
    Ok(bytes)
}

// How many bytes the source still gives, in 200 reads at most.
fn left_in<S: Source>(source: &mut S) -> usize {
    let mut buffer = [0; 4_096];
    let mut left: usize = 0;
    for _ in 0..200 {
        match source.read(&mut buffer) {
            ReadAnswer::Got(count) => left = left.saturating_add(count),
            _ => return left,
        }
    }
    left
}

/// A source of the pieces that never fails.
pub fn steady_source(
    alloc: Global,
    pieces: &[&[u8]],
    most: usize,
) -> Result<SteadySource, NoMemory> {
    let bytes = joined(alloc, pieces)?;
    SteadySource::new(alloc, &bytes, most.max(1))
}

// A source of the pieces of which the read with this number fails, or none where that is 0.
fn failing_source(
    alloc: Global,
    pieces: &[&[u8]],
    most: usize,
    call: u64,
) -> Result<MemorySource, NoMemory> {
    let bytes = joined(alloc, pieces)?;
    MemorySource::new(alloc, &bytes, most.max(1), &[call])
}

/// A run of which no call fails.
#[derive(Drop)]
pub struct SteadyRun {
    words: Vec<String>,
    file: SteadySource,
    schedule: SteadySource,
    sink: SteadySink,
}

impl SteadyRun {
    /// The run of this case, in which each call moves at most `most` bytes, and one at least.
    pub fn new(alloc: Global, case: &Case<'_>, most: usize) -> Result<SteadyRun, NoMemory> {
        let words = strings(alloc, case.words)?;
        let file = steady_source(alloc, case.file, most)?;
        let schedule = steady_source(alloc, case.schedule, most)?;
        Ok(SteadyRun {
            words,
            file,
            schedule,
            sink: SteadySink::new(alloc, most.max(1)),
        })
    }

    /// Makes the run, and answers its status.
    pub fn status(&mut self, alloc: Global) -> Status {
        rvc_steady(
            alloc,
            &self.words,
            &mut self.file,
            &mut self.schedule,
            &mut self.sink,
        )
    }

    /// How many bytes of the schedule are left.
    pub fn left(&mut self) -> usize {
        left_in(&mut self.schedule)
    }

    /// The bytes that were written.
    pub fn written(&self) -> &[u8] {
        self.sink.taken()
    }
}

/// The numbers of the calls that fail, counted from 1, and 0 where none does.
#[derive(Clone, Copy)]
pub struct Failing {
    pub file: u64,
    pub schedule: u64,
    pub sink: u64,
}

impl Failing {
    /// No call fails.
    pub const NONE: Failing = Failing {
        file: 0,
        schedule: 0,
        sink: 0,
    };

    // These calls, and the first read of what the run may not read.
    fn allowing(self, reads: Reads) -> Failing {
        let sink = self.sink;
        match reads {
            Reads::Nothing => Failing {
                file: 1,
                schedule: 1,
                sink,
            },
            Reads::File => Failing {
                file: self.file,
                schedule: 1,
                sink,
            },
            Reads::FileAndSchedule => self,
        }
    }
}

/// A run of which some calls fail.
#[derive(Drop)]
pub struct FailingRun {
    words: Vec<String>,
    file: MemorySource,
    schedule: MemorySource,
    sink: MemorySink,
}

impl FailingRun {
    /// The run of this case, in which each call moves at most `most` bytes, and one at least, and
    /// these calls fail. The first read of what the run may not read fails too.
    pub fn new(
        alloc: Global,
        case: &Case<'_>,
        most: usize,
        calls: Failing,
    ) -> Result<FailingRun, NoMemory> {
        let calls = calls.allowing(case.reads);
        let words = strings(alloc, case.words)?;
        let file = failing_source(alloc, case.file, most, calls.file)?;
        let schedule = failing_source(alloc, case.schedule, most, calls.schedule)?;
        Ok(FailingRun {
            words,
            file,
            schedule,
            sink: MemorySink::new(alloc, most.max(1), &[calls.sink])?,
        })
    }

    /// Makes the run, and answers its status.
    pub fn status(&mut self, alloc: Global) -> Status {
        rvc(
            alloc,
            &self.words,
            &mut self.file,
            &mut self.schedule,
            &mut self.sink,
        )
    }

    /// How many bytes of the schedule are left.
    pub fn left(&mut self) -> usize {
        left_in(&mut self.schedule)
    }

    /// The bytes that were written.
    pub fn written(&self) -> &[u8] {
        self.sink.taken()
    }
}
