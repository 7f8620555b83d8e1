//! Sources whose bytes stand in memory.

ghost use Rattle.std.specs.Prelude.{◌≡◌, ◌<◌, ◌≤◌, false, drop, length, vec_len, IfOk, Some};
ghost use Rattle.std.specs.Bool.{OnTrue, OnFalse};
ghost use Rattle.rv_base.specs.Calls.{fails_next, after_call};
ghost use Rattle.rv_base.specs.Outside.{RisesWhere, ReadMoves, ReadEnds, read_failed, read_wants};
ghost use Rattle.rv_base.specs.Supply.{Supply, FailingSupply, new_supply, new_failing_supply};
ghost use Rattle.rv_base.specs.Supply.{Gives, RefusesRead};

use crate::memory::calls::CallCounter;
use crate::{NoMemory, ReadAnswer, Source};
use std::alloc::Global;
use std::marker::Model;

/// A source of bytes in memory that never fails.
#[derive(Debug, Drop)]
pub struct SteadySource {
    bytes: Vec<u8>,
    at: usize,
    most: usize,
    ended: bool,
}

impl Model for SteadySource {
    ghost Value = { Supply };

    ghost view = { λ source. record {
      left = drop source.at source.bytes.items;
      most = source.most;
      ended = source.ended;
    } };

    ghost invariant = { λ source. (1 ≤ source.most) × (source.at ≤ vec_len source.bytes) };
}

impl SteadySource {
    /// A source of these bytes, of which one read gives at most `most`.
    pub fn new(alloc: Global, bytes: &[u8], most: usize) -> Result<SteadySource, NoMemory>
        requires { 1 ≤ most }
        ensures { IfOk result (λ source. source ≡ new_supply bytes.now most) }
    {
        Ok(SteadySource {
            bytes: bytes.to_vec(alloc)?,
            at: 0,
            most,
            ended: false,
        })
    }
}

impl Source for SteadySource {
    ghost left = { λ source. Some source.left };

    ghost faults = { λ _. 0 };

    ghost wants = { λ _. 0 };

    ghost ended = { λ source. source.ended };

    /// Reads the lesser of `most` and `into.len()`, and no more than is left.
    fn read(&mut self, into: &mut [u8]) -> ReadAnswer
        requires { 0 < length into.old }
        ensures bytes { ReadMoves (Some self.old.left) (Some self.new.left) into.new result }
        ensures cause { RisesWhere (read_failed result) 0 0 }
        ensures wants { RisesWhere (read_wants result) 0 0 }
        ensures ends { ReadEnds self.new.ended result }
        ensures exact { Gives self.old self.new into.old into.new result }
    {
        let rest = &self.bytes[self.at..];
        self.ended = rest.is_empty();
        if self.ended {
            return ReadAnswer::End;
        }
        let count = self.most.min(into.len()).min(rest.len());
        into[..count].copy_from_slice(&rest[..count]);
        self.at += count;
        ReadAnswer::Got(count)
    }
}

/// A source of bytes in memory of which some reads fail.
#[derive(Debug, Drop)]
pub struct MemorySource {
    steady: SteadySource,
    calls: CallCounter,
}

impl Model for MemorySource {
    ghost Value = { FailingSupply };

    ghost view = { λ source. record { supply = source.steady; calls = source.calls } };
}

impl MemorySource {
    /// A source of these bytes, of which one read gives at most `most`. The reads with these
    /// numbers, counted from 1, fail.
    pub fn new(
        alloc: Global,
        bytes: &[u8],
        most: usize,
        failing: &[u64],
    ) -> Result<MemorySource, NoMemory>
        requires { 1 ≤ most }
        ensures { IfOk result (λ source. source ≡ new_failing_supply bytes.now most failing.now) }
    {
        Ok(MemorySource {
            steady: SteadySource::new(alloc, bytes, most)?,
            calls: CallCounter::new(alloc, failing)?,
        })
    }
}

impl Source for MemorySource {
    ghost left = { λ source. Some source.supply.left };

    ghost faults = { λ source. source.calls.failed };

    ghost wants = { λ _. 0 };

    ghost ended = { λ source. source.supply.ended };

    /// Reads as a `SteadySource` does, or fails where the number of this call is listed.
    fn read(&mut self, into: &mut [u8]) -> ReadAnswer
        requires { 0 < length into.old }
        ensures bytes { ReadMoves (Some self.old.supply.left) (Some self.new.supply.left)
            into.new result }
        ensures cause { RisesWhere (read_failed result) self.old.calls.failed
            self.new.calls.failed }
        ensures wants { RisesWhere (read_wants result) 0 0 }
        ensures ends { ReadEnds self.new.supply.ended result }
        ensures calls { self.new.calls ≡ after_call self.old.calls }
        ensures listed { OnTrue (fails_next self.old.calls)
            (RefusesRead self.old.supply self.new.supply into.old into.new result) }
        ensures unlisted { OnFalse (fails_next self.old.calls)
            (Gives self.old.supply self.new.supply into.old into.new result) }
    {
        if self.calls.fails() {
            self.steady.ended = false;
            ReadAnswer::Failed
        } else {
            self.steady.read(into)
        }
    }
}
