//! Schedules of events, played on the rendezvous meaning of a protocol.

ghost use Rattle.std.specs.Prelude.{◌≡◌, ◌≤◌, true, IfOk, IfSome};
ghost use Rattle.rv_base.specs.Whole.{TakesAtMost};
ghost use Rattle.schedule_replay.specs.Replayed.{StopsSo, WritesSo, ReplayCounts, ReplayWants};
ghost use Rattle.schedule_replay.specs.ScheduleLimits.{schedule_limits, most_taken};
ghost use Rattle.schedule_replay.specs.RvPlay.{rv_play, rv_watched};
ghost use Rattle.schedule_replay.specs.Turns.{EndsAtStart};

use crate::events::read_event_line;
use crate::limits::SCHEDULE_LIMITS;
use crate::player::{Meaning, Player};
use crate::replaying::{Replayed, play_schedule};
use crate::rv_trace::{put_ending, put_outcome};
use proto_model::{Event, NumberedClaim, event_text};
use rendezvous_meaning::{RvMachine, broken};
use rv_base::{NoMemory, Sink, Source};
use star_check::Checked;
use std::alloc::Global;
use std::marker::Model;

/// A machine of the rendezvous meaning, and the claims that are looked at wherever it stands.
/// Contracts see both.
#[derive(Drop)]
pub struct RvPlayer<'a> {
    machine: RvMachine<'a>,
    claims: &'a [NumberedClaim],
}

impl<'a> Model for RvPlayer<'a> {
    ghost use Rattle.std.specs.Prelude.{◌≤◌, length};
    ghost use Rattle.schedule_replay.specs.RvPlay.{Watched};

    ghost Value = { Watched };

    ghost view = { λ player. record { claims = player.claims.now; standing = player.machine } };

    ghost invariant = { λ player. length player.claims.now ≤ 16 };
}

impl<'a> RvPlayer<'a> {
    /// The protocol, which it refers to, with n remotes at the start, and its claims.
    pub fn new(alloc: Global, checked: &'a Checked, n: u8) -> Result<RvPlayer<'a>, NoMemory>
        requires { (1 ≤ n) × (n ≤ 64) }
        ensures { IfOk result (λ player. player ≡ rv_watched checked.now n) }
    {
        let machine = RvMachine::new(alloc, checked, n)?;
        Ok(RvPlayer {
            machine,
            claims: checked.claims(),
        })
    }
}

impl<'a> Player for RvPlayer<'a> {
    ghost use Rattle.schedule_replay.specs.RvPlay.{rv_play};

    type Item = Event;

    ghost play = { rv_play };

    fn read(&self, line: &[u8]) -> Meaning<Event> {
        read_event_line(line)
    }

    fn play(&mut self, alloc: Global, item: Event, out: &mut Vec<u8>) -> Result<(), NoMemory> {
        let moved = self.machine.step(item);
        event_text(alloc, item, out)?;
        put_outcome(alloc, &self.machine, item, moved, out)
    }

    fn halts(&self) -> Option<u32> {
        broken(self.claims, self.machine.config())
    }

    fn finish(&self, alloc: Global, out: &mut Vec<u8>) -> Result<(), NoMemory> {
        put_ending(alloc, &self.machine, out)
    }
}

/// Replays a schedule of events on the protocol's rendezvous meaning with n remotes, and writes its
/// trace. The answer says how the replay ended, and with it what was taken of the schedule and what
/// was written: at most 257,000,256 bytes of the schedule, which are 1,000,000 lines of 256 bytes
/// with their LFs, and 256 bytes. The claims of the protocol are looked at before the first line is
/// read and after each event. Where one is broken at the start, nothing is asked of the schedule,
/// and the trace is the line that names the claim with the lines that show where all stand,
/// whatever the schedule holds. Where there is no memory for the remotes at the start, nothing was
/// taken or written.
pub fn replay_events<Q: Source, O: Sink>(
    alloc: Global,
    checked: &Checked,
    n: u8,
    schedule: &mut Q,
    out: &mut O,
) -> Replayed
    requires { (1 ≤ n) × (n ≤ 64) }
    ensures stops { IfSome (Q.left schedule.old) (λ text.
        StopsSo rv_play schedule_limits (rv_watched checked.now n) text
        (Q.left schedule.new) result) }
    ensures writes { IfSome (Q.left schedule.old) (λ text. IfSome (O.taken out.old) (λ before.
        WritesSo rv_play schedule_limits (rv_watched checked.now n) text
        (Q.left schedule.new) before (O.taken out.new) result)) }
    ensures counts { ReplayCounts (Q.faults schedule.old) (Q.faults schedule.new)
        (O.faults out.old) (O.faults out.new) result }
    ensures wants { ReplayWants (Q.wants schedule.old) (Q.wants schedule.new)
        (O.wants out.old) (O.wants out.new) result }
    ensures taken { TakesAtMost (most_taken schedule_limits)
        (Q.left schedule.old) (Q.left schedule.new) }
    ensures ended { result ≡ Replayed.Done → Q.ended schedule.new ≡ true }
    ensures at_start { EndsAtStart rv_play (rv_watched checked.now n) (schedule.new ≡ schedule.old)
        (O.taken out.old) (O.taken out.new) result }
{
    match RvPlayer::new(alloc, checked, n) {
        Ok(mut player) => play_schedule(alloc, SCHEDULE_LIMITS, &mut player, schedule, out),
        Err(NoMemory) => Replayed::NoMemory,
    }
}
