//! Sinks that keep in memory what they take.

ghost use Rattle.std.specs.Prelude.{◌≡◌, ◌<◌, ◌≤◌, length, IfOk, Some};
ghost use Rattle.std.specs.Bool.{OnTrue, OnFalse};
ghost use Rattle.rv_base.specs.Calls.{fails_next, after_call};
ghost use Rattle.rv_base.specs.Outside.{RisesWhere, WriteMoves, write_failed, write_wants};
ghost use Rattle.rv_base.specs.Store.{Store, FailingStore, new_store, new_failing_store};
ghost use Rattle.rv_base.specs.Store.{Takes, RefusesWrite};

use crate::memory::calls::CallCounter;
use crate::{NoMemory, Sink, WriteAnswer};
use std::alloc::Global;
use std::marker::Model;

/// A sink in memory that never fails. It may want memory.
#[derive(Debug, Drop)]
pub struct SteadySink {
    bytes: Vec<u8>,
    most: usize,
    wants: u64,
}

impl Model for SteadySink {
    ghost Value = { Store };

    ghost view = { λ sink. record {
      taken = sink.bytes.items;
      most = sink.most;
      wants = sink.wants;
    } };

    ghost invariant = { λ sink. 1 ≤ sink.most };
}

impl SteadySink {
    /// A sink that took nothing yet, and takes at most `most` bytes at one write. Takes no memory.
    pub fn new(alloc: Global, most: usize) -> SteadySink
        requires { 1 ≤ most }
        ensures { result ≡ new_store most }
    {
        SteadySink {
            bytes: Vec::new(alloc),
            most,
            wants: 0,
        }
    }

    /// The bytes taken.
    pub fn taken(&self) -> &[u8]
        ensures { result.now ≡ self.now.taken }
    {
        &self.bytes
    }
}

impl Sink for SteadySink {
    ghost taken = { λ sink. Some sink.taken };

    ghost faults = { λ _. 0 };

    ghost wants = { λ sink. sink.wants };

    /// Takes the lesser of `most` and `piece.len()` bytes, or answers that its memory can't grow.
    fn write(&mut self, piece: &[u8]) -> WriteAnswer
        requires { 0 < length piece.now }
        ensures bytes { WriteMoves (Some self.old.taken) (Some self.new.taken) piece.now result }
        ensures cause { RisesWhere (write_failed result) 0 0 }
        ensures wants { RisesWhere (write_wants result) self.old.wants self.new.wants }
        ensures exact { Takes self.old self.new piece.now result }
    {
        let count = self.most.min(piece.len());
        if self.bytes.extend_from_slice(&piece[..count]).is_err() {
            self.wants = self.wants.saturating_add(1);
            return WriteAnswer::NoMemory;
        }
        WriteAnswer::Took(count)
    }
}

/// A sink in memory of which some writes fail.
#[derive(Debug, Drop)]
pub struct MemorySink {
    steady: SteadySink,
    calls: CallCounter,
}

impl Model for MemorySink {
    ghost Value = { FailingStore };

    ghost view = { λ sink. record { store = sink.steady; calls = sink.calls } };
}

impl MemorySink {
    /// A sink that took nothing yet, and takes at most `most` bytes at one write. The writes with
    /// these numbers, counted from 1, fail.
    pub fn new(alloc: Global, most: usize, failing: &[u64]) -> Result<MemorySink, NoMemory>
        requires { 1 ≤ most }
        ensures { IfOk result (λ sink. sink ≡ new_failing_store most failing.now) }
    {
        Ok(MemorySink {
            steady: SteadySink::new(alloc, most),
            calls: CallCounter::new(alloc, failing)?,
        })
    }

    /// The bytes taken.
    pub fn taken(&self) -> &[u8]
        ensures { result.now ≡ self.now.store.taken }
    {
        self.steady.taken()
    }
}

impl Sink for MemorySink {
    ghost taken = { λ sink. Some sink.store.taken };

    ghost faults = { λ sink. sink.calls.failed };

    ghost wants = { λ sink. sink.store.wants };

    /// Writes as a `SteadySink` does, or fails where the number of this call is listed.
    fn write(&mut self, piece: &[u8]) -> WriteAnswer
        requires { 0 < length piece.now }
        ensures bytes { WriteMoves (Some self.old.store.taken) (Some self.new.store.taken)
            piece.now result }
        ensures cause { RisesWhere (write_failed result) self.old.calls.failed
            self.new.calls.failed }
        ensures wants { RisesWhere (write_wants result) self.old.store.wants self.new.store.wants }
        ensures calls { self.new.calls ≡ after_call self.old.calls }
        ensures listed { OnTrue (fails_next self.old.calls)
            (RefusesWrite self.old.store self.new.store result) }
        ensures unlisted { OnFalse (fails_next self.old.calls)
            (Takes self.old.store self.new.store piece.now result) }
    {
        if self.calls.fails() {
            WriteAnswer::Failed
        } else {
            self.steady.write(piece)
        }
    }
}
