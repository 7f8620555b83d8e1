//! Schedules of steps, played on the two controllers of a protocol.

ghost use Rattle.std.specs.Prelude.{◌≡◌, ◌≤◌, ◌^◌, true, length, IfOk, IfSome};
ghost use Rattle.rv_base.specs.Whole.{TakesAtMost};
ghost use Rattle.rendezvous_meaning.specs.Claims as claims_of;
ghost use Rattle.schedule_replay.specs.Replayed.{StopsSo, WritesSo, ReplayCounts, ReplayWants};
ghost use Rattle.schedule_replay.specs.ScheduleLimits.{schedule_limits, most_taken};
ghost use Rattle.schedule_replay.specs.Turns.{EndsAtStart};
ghost use Rattle.controller_table.specs.Sound.{table_in};
ghost use Rattle.run_replay.specs.PlayedStep.{UnlessEvent, stands_for};
ghost use Rattle.run_replay.specs.RunTrace.{run_play, run_start};

use crate::played_step::play_step;
use crate::run_trace::end_lines;
use crate::steps::read_line;
use abstraction_map::{Told, abstract_states};
use async_machine::{Machine, Step};
use controller_table::Table;
use home_refine::compile;
use ordered_links::{Links, RingLinks};
use proto_model::{Mode, NumberedClaim};
use rendezvous_meaning::broken_among;
use rv_base::{NoMemory, Sink, Source};
use schedule_replay::{Meaning, Player, Replayed, SCHEDULE_LIMITS, play_schedule};
use star_check::Checked;
use std::alloc::Global;
use std::marker::Model;

/// A machine of the two controllers, and the claims that are looked at wherever it stands: in the
/// rendezvous configuration for which its own stands. Contracts see both. Which claim is broken
/// where it stands is known from the last event, since no other step changes what it stands for.
#[derive(Drop)]
pub struct RunPlayer<'a, L: Links> {
    machine: Machine<'a, L>,
    claims: &'a [NumberedClaim],
    halts_at: Option<u32>,
}

impl<'a, L: Links> Model for RunPlayer<'a, L> {
    ghost use Rattle.std.specs.Prelude.{◌≡◌, ◌≤◌, length};
    ghost use Rattle.rendezvous_meaning.specs.Claims as claims_of;
    ghost use Rattle.async_machine.specs.Standing.{setting, config};
    ghost use Rattle.run_replay.specs.PlayedStep.{stands_for};
    ghost use Rattle.run_replay.specs.RunTrace.{Running};

    ghost Value = { Running };

    ghost view = { λ player. record {
      claims = player.claims.now;
      setting = setting player.machine;
      config = config L.lists player.machine;
    } };

    ghost invariant = { λ player. (length player.claims.now ≤ 16)
        × (player.halts_at ≡ claims_of.broken player.claims.now
        (claims_of.remote_states (stands_for L.lists player.machine))) };
}

impl<'a> RunPlayer<'a, RingLinks> {
    /// The two controllers of this table, which it refers to, at the start: with n remotes, from 1
    /// to 64, and k slots, from 2 to 64, over links in memory. The table is that of the protocol in
    /// some mode. All memory that steps take is taken here.
    pub fn new(
        alloc: Global,
        checked: &'a Checked,
        table: &'a Table,
        n: u8,
        k: u8,
    ) -> Result<RunPlayer<'a, RingLinks>, NoMemory>
        requires remotes { (1 ≤ n) × (n ≤ 64) }
        requires slots { (2 ≤ k) × (k ≤ 64) }
        requires table { table.now ≡ table_in checked.now.protocol table.now.mode }
        ensures { IfOk result (λ player. player ≡ run_start checked.now table.now.mode n k) }
    {
        let links = RingLinks::new(alloc, n)?;
        let machine = Machine::new(alloc, table, links, k)?;
        let claims = checked.claims();
        let halts_at = broken_at(claims, &machine);
        Ok(RunPlayer {
            machine,
            claims,
            halts_at,
        })
    }
}

// The number of the first claim that is broken in the configuration for which that of the machine
// stands.
fn broken_at<L: Links>(claims: &[NumberedClaim], machine: &Machine<L>) -> Option<u32>
    requires { length claims.now ≤ 2 ^ 32 }
    ensures { result ≡ claims_of.broken claims.now
        (claims_of.remote_states (stands_for L.lists machine.now)) }
{
    if claims.is_empty() {
        return None;
    }
    machine.shaped();
    let mut states = [0u8; 64];
    abstract_states(machine, &mut states);
    broken_among(claims, &states[..machine.n() as usize])
}

// The number of the first claim that is broken behind a step of which this is told, and that led the
// machine to where it stands. Unless it is an event, it is the one from before it.
fn broken_after<L: Links>(
    claims: &[NumberedClaim],
    machine: &Machine<L>,
    told: Told,
    before: Option<u32>,
) -> Option<u32>
    requires few { length claims.now ≤ 2 ^ 32 }
    requires before { UnlessEvent told (before ≡ claims_of.broken claims.now
        (claims_of.remote_states (stands_for L.lists machine.now))) }
    ensures { result ≡ claims_of.broken claims.now
        (claims_of.remote_states (stands_for L.lists machine.now)) }
{
    match told {
        Told::Is(_) => broken_at(claims, machine),
        Told::Refused | Told::Stutter => before,
    }
}

impl<'a, L: Links> Player for RunPlayer<'a, L> {
    ghost use Rattle.run_replay.specs.RunTrace.{run_play};

    type Item = Step;

    ghost play = { run_play };

    fn read(&self, line: &[u8]) -> Meaning<Step> {
        read_line(line)
    }

    fn play(&mut self, alloc: Global, item: Step, out: &mut Vec<u8>) -> Result<(), NoMemory> {
        let (told, written) = play_step(alloc, &mut self.machine, (), item, out, Ok(()));
        self.halts_at = broken_after(self.claims, &self.machine, told, self.halts_at);
        written
    }

    fn halts(&self) -> Option<u32> {
        self.halts_at
    }

    fn finish(&self, alloc: Global, out: &mut Vec<u8>) -> Result<(), NoMemory> {
        end_lines(alloc, &self.machine, out)
    }
}

// Replays a schedule of steps on the two controllers of this table, which is that of the protocol
// in some mode.
fn replay_on<Q: Source, O: Sink>(
    alloc: Global,
    checked: &Checked,
    table: &Table,
    n: u8,
    k: u8,
    schedule: &mut Q,
    out: &mut O,
) -> Replayed
    requires remotes { (1 ≤ n) × (n ≤ 64) }
    requires slots { (2 ≤ k) × (k ≤ 64) }
    requires table { table.now ≡ table_in checked.now.protocol table.now.mode }
    ensures stops { IfSome (Q.left schedule.old) (λ text.
        StopsSo run_play schedule_limits (run_start checked.now table.now.mode n k) text
        (Q.left schedule.new) result) }
    ensures writes { IfSome (Q.left schedule.old) (λ text. IfSome (O.taken out.old) (λ before.
        WritesSo run_play schedule_limits (run_start checked.now table.now.mode n k) text
        (Q.left schedule.new) before (O.taken out.new) result)) }
    ensures counts { ReplayCounts (Q.faults schedule.old) (Q.faults schedule.new)
        (O.faults out.old) (O.faults out.new) result }
    ensures wants { ReplayWants (Q.wants schedule.old) (Q.wants schedule.new)
        (O.wants out.old) (O.wants out.new) result }
    ensures taken { TakesAtMost (most_taken schedule_limits)
        (Q.left schedule.old) (Q.left schedule.new) }
    ensures ended { result ≡ Replayed.Done → Q.ended schedule.new ≡ true }
    ensures at_start { EndsAtStart run_play (run_start checked.now table.now.mode n k)
        (schedule.new ≡ schedule.old) (O.taken out.old) (O.taken out.new) result }
{
    match RunPlayer::new(alloc, checked, table, n, k) {
        Ok(mut player) => play_schedule(alloc, SCHEDULE_LIMITS, &mut player, schedule, out),
        Err(NoMemory) => Replayed::NoMemory,
    }
}

/// Replays a schedule of steps on the two controllers of the protocol in this mode, with n remotes,
/// from 1 to 64, and k slots, from 2 to 64, and writes its trace. The answer says how the replay
/// ended, and with it what was taken of the schedule and what was written: at most 257,000,256
/// bytes of the schedule, which are 1,000,000 lines of 256 bytes with their LFs, and 256 bytes. The
/// claims of the protocol are looked at before the first line is read and after each step, in the
/// rendezvous configuration for which the one of the controllers stands. Where one is broken at the
/// start, nothing is asked of the schedule, and the trace is the line that names the claim with the
/// lines that show where all stand, whatever the schedule holds. Where there is no memory for the
/// table or for the controllers at the start, nothing was taken or written.
pub fn replay<Q: Source, O: Sink>(
    alloc: Global,
    checked: &Checked,
    mode: Mode,
    n: u8,
    k: u8,
    schedule: &mut Q,
    out: &mut O,
) -> Replayed
    requires remotes { (1 ≤ n) × (n ≤ 64) }
    requires slots { (2 ≤ k) × (k ≤ 64) }
    ensures stops { IfSome (Q.left schedule.old) (λ text.
        StopsSo run_play schedule_limits (run_start checked.now mode n k) text
        (Q.left schedule.new) result) }
    ensures writes { IfSome (Q.left schedule.old) (λ text. IfSome (O.taken out.old) (λ before.
        WritesSo run_play schedule_limits (run_start checked.now mode n k) text
        (Q.left schedule.new) before (O.taken out.new) result)) }
    ensures counts { ReplayCounts (Q.faults schedule.old) (Q.faults schedule.new)
        (O.faults out.old) (O.faults out.new) result }
    ensures wants { ReplayWants (Q.wants schedule.old) (Q.wants schedule.new)
        (O.wants out.old) (O.wants out.new) result }
    ensures taken { TakesAtMost (most_taken schedule_limits)
        (Q.left schedule.old) (Q.left schedule.new) }
    ensures ended { result ≡ Replayed.Done → Q.ended schedule.new ≡ true }
    ensures at_start { EndsAtStart run_play (run_start checked.now mode n k)
        (schedule.new ≡ schedule.old) (O.taken out.old) (O.taken out.new) result }
{
    match compile(alloc, checked, mode) {
        Ok(table) => replay_on(alloc, checked, &table, n, k, schedule, out),
        Err(NoMemory) => Replayed::NoMemory,
    }
}
