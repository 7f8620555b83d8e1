//! One step, as every player of steps plays it.

ghost use Rattle.std.specs.Prelude.{◌≡◌};
ghost use Rattle.proto_model.specs.Continued.{Continues};
ghost use Rattle.async_machine.specs.Standing.{Standing, setting, config};
ghost use Rattle.async_shape.specs.declared.step.Step.{Step as TheStep};
ghost use Rattle.abstraction_map.specs.Told as of_step;
ghost use Rattle.run_replay.specs.PlayedStep.{Leads, UnlessEvent, IsTaken, stands_for, unclaimed};
ghost use Rattle.run_replay.specs.RunTrace.{step_block};

use crate::run_trace::{put_lines_if_moved, put_told_line};
use abstraction_map::{Told, event_of};
use async_machine::{Machine, Step, Stepped};
use ordered_links::Links;
use proto_model::Appending;
use std::alloc::Global;

/// What takes steps of machines over links of the type L: a machine by itself, or what has several
/// and does more at each step.
pub trait StepTaker<L: Links> {
    /// What names one of its machines, and what is known of the step that is taken there.
    type At: Copy;

    /// There is such a machine.
    ghost is_there: { Self → Self.At → Type 0 };

    /// The machine that is named so.
    ghost machine: { Self → Self.At → Standing L };

    /// This step can be taken there.
    ghost is_meant: { Self → Self.At → TheStep → Type 0 };

    /// What takes the step, before and after it.
    ghost after: { Self → Self.At → TheStep → Self → Type 0 };

    /// The machine that is named so.
    fn machine<'s>(&'s self, at: Self::At) -> &'s Machine<'s, L>
        requires { is_there self.now at }
        ensures { result.now ≡ machine self.now at };

    /// Takes the step there. It moved exactly where there is a next configuration, in which the
    /// machine stands then; else it is refused and the machine stands as before. Takes no memory.
    fn take(&mut self, at: Self::At, step: Step) -> Stepped
        requires there { is_there self.old at }
        requires meant { is_meant self.old at step }
        ensures there { is_there self.new at }
        ensures leads { Leads L.lists step result (machine self.old at) (machine self.new at) }
        ensures table { (machine self.new at).table ≡ (machine self.old at).table }
        ensures after { after self.old at step self.new };
}

impl<'a, L: Links> StepTaker<L> for Machine<'a, L> {
    ghost use Rattle.run_replay.specs.PlayedStep.{IsTaken};

    type At = ();

    ghost is_there = { λ machine at. Unit {0} };

    ghost machine = { λ machine at. machine };

    ghost is_meant = { λ machine at step. Unit {0} };

    ghost after = { λ old at step new. IsTaken L.lists L.put_effect L.take_effect old step new };

    fn machine<'s>(&'s self, _at: ()) -> &'s Machine<'s, L> {
        self
    }

    fn take(&mut self, _at: (), step: Step) -> Stepped {
        self.step(step)
    }
}

/// Plays a step of the machine that is named so: takes it, and appends its block, behind its
/// number, unless memory ran out before. The step is taken whether or not there is memory. The
/// answer says what is told of the step, refused, a stutter or an event, and whether there was
/// memory for its block; after `NoMemory` the vector is as before followed by a front of it. Unless
/// it is an event, the machine stands for what it stood for before.
pub fn play_step<L: Links, T: StepTaker<L>>(
    alloc: Global,
    taker: &mut T,
    at: T::At,
    step: Step,
    out: &mut Vec<u8>,
    so_far: Appending,
) -> (Told, Appending)
    requires there { T.is_there taker.old at }
    requires meant { T.is_meant taker.old at step }
    ensures told { result.0 ≡ of_step.told (setting (T.machine taker.old at))
        (config L.lists (T.machine taker.old at)) step }
    ensures tells { Continues (step_block (unclaimed L.lists (T.machine taker.old at)) step) so_far
        out.old.items result.1 out.new.items }
    ensures still { UnlessEvent result.0 (stands_for L.lists (T.machine taker.new at)
        ≡ stands_for L.lists (T.machine taker.old at)) }
    ensures after { T.after taker.old at step taker.new }
{
    let machine = taker.machine(at);
    let told = event_of(machine, step);
    let displaced = machine.would_displace(step);
    let so_far = put_told_line(alloc, machine, step, told, out, so_far);
    let stepped = taker.take(at, step);
    let machine = taker.machine(at);
    let so_far = put_lines_if_moved(alloc, machine, step, stepped, displaced, out, so_far);
    (told, so_far)
}
