//! How the reads of a source went.

ghost use Rattle.std.specs.Prelude.{List, ℕ, None};
ghost use Rattle.std.specs.Io.{ReadsAtMost};
ghost use Rattle.rv_base.specs.Outside.{RisesWhere, ReadMoves, ReadEnds, read_failed, read_wants};

use crate::errors::ErrorCount;
use rv_base::ReadAnswer;
use std::io;

/// How many reads of a source failed or had no memory, and whether the last one came to its end.
#[derive(Debug, Drop)]
pub struct Reading {
    pub errors: ErrorCount,
    pub ended: bool,
}

impl Reading {
    /// No read was made yet.
    pub fn new() -> Reading {
        Reading {
            errors: ErrorCount::new(),
            ended: false,
        }
    }

    /// What a read answers of which the system says this, and notes how it went. No bytes are its
    /// end, and an error is a fault, but want of memory.
    pub fn answer(&mut self, outcome: io::Result<usize>) -> ReadAnswer
        ensures bytes { (into : List ℕ) → ReadsAtMost outcome into
            → ReadMoves None None into result }
        ensures cause { RisesWhere (read_failed result) self.old.errors.faults
            self.new.errors.faults }
        ensures wants { RisesWhere (read_wants result) self.old.errors.wants
            self.new.errors.wants }
        ensures ends { ReadEnds self.new.ended result }
    {
        self.ended = false;
        match outcome {
            Ok(0) => {
                self.ended = true;
                ReadAnswer::End
            }
            Ok(count) => ReadAnswer::Got(count),
            Err(error) => {
                if self.errors.counts(&error) {
                    ReadAnswer::Failed
                } else {
                    ReadAnswer::NoMemory
                }
            }
        }
    }
}
