//! Runs over a source that never ends.

ghost use Rattle.std.specs.Prelude.{false, None};

use crate::ended::{End, Ended};
use crate::runs::{steady_source, strings};
use crate::{Case, Wrong};
use rv_base::{ReadAnswer, Source, SteadySink};
use rvc_top::rvc;
use std::alloc::Global;

// A source of this byte that never ends.
#[derive(Drop)]
struct Endless(u8);

impl Source for Endless {
    ghost left = { λ _. None };

    ghost faults = { λ _. 0 };

    ghost wants = { λ _. 0 };

    ghost ended = { λ _. false };

    fn read(&mut self, into: &mut [u8]) -> ReadAnswer {
        into.fill(self.0);
        ReadAnswer::Got(into.len())
    }
}

/// That the case's run ends as it must where file and schedule are this byte again and again,
/// without end.
pub fn ends_over_endless_file(alloc: Global, case: &Case<'_>, byte: u8) -> Result<(), Wrong> {
    let words = strings(alloc, case.words)?;
    let mut file = Endless(byte);
    let mut schedule = Endless(byte);
    let mut sink = SteadySink::new(alloc, 7);
    let status = rvc(alloc, &words, &mut file, &mut schedule, &mut sink);
    End::of(case).judged(case, &Ended::steady(7, status, sink.taken(), 0))
}

/// That the case's run ends as it must where its schedule is this byte again and again, without
/// end.
pub fn ends_over_endless_schedule(alloc: Global, case: &Case<'_>, byte: u8) -> Result<(), Wrong> {
    let words = strings(alloc, case.words)?;
    let mut file = steady_source(alloc, case.file, 4_096)?;
    let mut schedule = Endless(byte);
    let mut sink = SteadySink::new(alloc, 7);
    let status = rvc(alloc, &words, &mut file, &mut schedule, &mut sink);
    End::of(case).judged(case, &Ended::steady(7, status, sink.taken(), 0))
}
