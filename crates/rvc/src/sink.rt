//! The sink of a real run: standard output. It doesn't tell what it took.

ghost use Rattle.std.specs.Prelude.{◌≡◌, ◌≤◌, length, IfOk, None};

use crate::errors::ErrorCount;
use rv_base::{Sink, WriteAnswer};
use std::io;
use std::io::{ErrorKind, Stdout, Write};

/// Standard output, which is flushed at each write.
#[derive(Drop)]
pub struct StdoutSink {
    stdout: Stdout,
    errors: ErrorCount,
}

impl StdoutSink {
    /// Standard output, on which nothing is written yet.
    pub fn new(rt: &HostRuntime) -> StdoutSink {
        StdoutSink {
            stdout: rt.stdout(),
            errors: ErrorCount::new(),
        }
    }

    // Writes and flushes. A write that takes nothing is an error.
    fn write_some(&mut self, piece: &[u8]) -> io::Result<usize>
        ensures bound { IfOk result (λ count. (1 ≤ count) × (count ≤ length piece.now)) }
        ensures errors { self.new.errors ≡ self.old.errors }
    {
        let count = self.stdout.write(piece)?;
        self.stdout.flush()?;
        if count == 0 {
            return Err(io::Error::from(ErrorKind::WriteZero));
        }
        Ok(count)
    }
}

impl Sink for StdoutSink {
    ghost taken = { λ _. None };

    ghost faults = { λ sink. sink.errors.faults };

    ghost wants = { λ sink. sink.errors.wants };

    fn write(&mut self, piece: &[u8]) -> WriteAnswer {
        let outcome = self.write_some(piece);
        match outcome {
            Ok(count) => WriteAnswer::Took(count),
            Err(error) => {
                if self.errors.counts(&error) {
                    WriteAnswer::Failed
                } else {
                    WriteAnswer::NoMemory
                }
            }
        }
    }
}
