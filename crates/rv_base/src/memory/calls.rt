//! A count of calls, some of which are to fail.

ghost use Rattle.std.specs.Prelude.{◌≡◌, ◌≤◌, IfOk};
ghost use Rattle.rv_base.specs.Calls.{Calls, no_calls, fails_next, after_call};

use crate::NoMemory;
use std::alloc::Global;
use std::marker::Model;

/// Counts calls, and tells which of them are to fail.
#[derive(Debug, Drop)]
pub struct CallCounter {
    failing: Vec<u64>,
    made: u64,
    failed: u64,
}

impl Model for CallCounter {
    ghost Value = { Calls };

    ghost view = { λ counter.
        record { failing = counter.failing.items; made = counter.made; failed = counter.failed } };
}

impl CallCounter {
    /// No call was made yet. Those with these numbers, counted from 1, are to fail.
    pub fn new(alloc: Global, failing: &[u64]) -> Result<CallCounter, NoMemory>
        ensures { IfOk result (λ calls. calls ≡ no_calls failing.now) }
    {
        Ok(CallCounter {
            failing: failing.to_vec(alloc)?,
            made: 0,
            failed: 0,
        })
    }

    /// Counts a call, and answers whether it is to fail. Both the number of the call and the count
    /// of those that failed stop at 2^64 - 1.
    pub fn fails(&mut self) -> bool
        ensures listed { result ≡ fails_next self.old }
        ensures counted { self.new ≡ after_call self.old }
        ensures never_falls { self.old.failed ≤ self.new.failed }
    {
        self.made = self.made.saturating_add(1);
        let fails = self.failing.contains(&self.made);
        if fails {
            self.failed = self.failed.saturating_add(1);
        }
        fails
    }
}
