//! How often the system failed or had no memory.

ghost use Rattle.std.specs.Prelude.{◌≡◌, ◌↔◌, IsFalse, not};
ghost use Rattle.std.specs.IoError.{error_kind};
ghost use Rattle.rv_base.specs.Outside.{RisesWhere};

use std::io;
use std::io::ErrorKind;

/// How often the system failed, and how often it had no memory. Each count stops at 2^64 - 1.
#[derive(Debug, Drop)]
pub struct ErrorCount {
    pub faults: u64,
    pub wants: u64,
}

impl ErrorCount {
    /// No error was met yet.
    pub fn new() -> ErrorCount
        ensures { result ≡ record { faults = 0; wants = 0 } }
    {
        ErrorCount {
            faults: 0,
            wants: 0,
        }
    }

    /// Counts the error. Answers whether it is a fault, and not want of memory.
    pub fn counts(&mut self, error: &io::Error) -> bool
        ensures want { IsFalse result ↔ (error_kind error.now ≡ ErrorKind.OutOfMemory) }
        ensures faults { RisesWhere result self.old.faults self.new.faults }
        ensures wants { RisesWhere (not result) self.old.wants self.new.wants }
    {
        if error.kind() == ErrorKind::OutOfMemory {
            self.wants = self.wants.saturating_add(1);
            return false;
        }
        self.faults = self.faults.saturating_add(1);
        true
    }
}
