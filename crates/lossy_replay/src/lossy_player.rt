//! Schedules of steps and of moves of the network, played on the two controllers of a protocol.

ghost use Rattle.std.specs.Prelude.{◌≡◌, ◌≤◌, ◌++◌, true, IfOk, IfSome, OnOk};
ghost use Rattle.rv_base.specs.Whole.{TakesAtMost};
ghost use Rattle.schedule_replay.specs.Replayed.{StopsSo, WritesSo, ReplayCounts, ReplayWants};
ghost use Rattle.schedule_replay.specs.ScheduleLimits.{schedule_limits, most_taken};
ghost use Rattle.controller_table.specs.Sound.{protocol_of};
ghost use Rattle.run_replay.specs.RunTrace.{step_block};
ghost use Rattle.lossy_replay.specs.LossyTrace.{lossy_play, lossy_start, as_run};
ghost use Rattle.lossy_replay.specs.LossyTrace.{after_taken, after_move, net_block, waiting_block};
ghost use Rattle.lossy_replay.specs.Standing.{running_of};

use crate::items::{LossyItem, read_line};
use crate::net_lines::net_block;
use crate::waiting::waits;
use async_machine::{Machine, Step, step_text};
use controller_table::Table;
use faulty_link::{LossyLinks, NetStep};
use home_refine::compile;
use proto_model::Mode;
use run_replay::{end_lines, play_step};
use rv_base::{NoMemory, Sink, Source};
use schedule_replay::{Meaning, Player, Replayed, SCHEDULE_LIMITS, play_schedule};
use star_check::Checked;
use std::alloc::Global;
use std::marker::Model;

/// A machine of the two controllers over links that lose, repeat and reorder frames. Contracts see
/// where it stands: what the controllers were given, their configuration, and the wires.
#[derive(Drop)]
pub struct LossyPlayer<'a> {
    machine: Machine<'a, LossyLinks>,
}

impl<'a> Model for LossyPlayer<'a> {
    ghost use Rattle.lossy_replay.specs.LossyTrace.{LossyRunning};
    ghost use Rattle.lossy_replay.specs.Standing.{running_of};

    ghost Value = { LossyRunning };

    ghost view = { λ player. running_of player.machine };
}

impl<'a> LossyPlayer<'a> {
    /// The two controllers of this table, which it refers to, at the start: with n remotes, from 1
    /// to 64, and k slots, from 2 to 64, over wires on which nothing was put. All memory that steps
    /// and moves take is taken here.
    pub fn new(alloc: Global, table: &'a Table, n: u8, k: u8) -> Result<LossyPlayer<'a>, NoMemory>
        requires remotes { (1 ≤ n) × (n ≤ 64) }
        requires slots { (2 ≤ k) × (k ≤ 64) }
        ensures { IfOk result (λ player. player
            ≡ lossy_start (protocol_of table.now) table.now.mode n k) }
    {
        let links = LossyLinks::new(alloc, n)?;
        let machine = Machine::new(alloc, table, links, k)?;
        Ok(LossyPlayer { machine })
    }
}

// Appends the block of a step that waits.
fn put_waiting(alloc: Global, step: Step, out: &mut Vec<u8>) -> Result<(), NoMemory>
    ensures { OnOk result (out.new.items ≡ out.old.items ++ waiting_block step) }
{
    step_text(alloc, step, out)?;
    out.extend_from_slice(b": waiting\n")?;
    Ok(())
}

// Takes a step that doesn't wait, and appends its block.
fn take_step(
    alloc: Global,
    machine: &mut Machine<LossyLinks>,
    step: Step,
    out: &mut Vec<u8>,
) -> Result<(), NoMemory>
    ensures after { running_of machine.new ≡ after_taken (running_of machine.old) step }
    ensures tells { OnOk result (out.new.items
        ≡ out.old.items ++ step_block (as_run (running_of machine.old)) step) }
{
    let (_, written) = play_step(alloc, machine, (), step, out, Ok(()));
    written
}

// Makes a move of the network, and appends its block.
fn make_move(
    alloc: Global,
    machine: &mut Machine<LossyLinks>,
    step: NetStep,
    out: &mut Vec<u8>,
) -> Result<(), NoMemory>
    ensures after { running_of machine.new ≡ after_move (running_of machine.old) step }
    ensures tells { OnOk result (out.new.items
        ≡ out.old.items ++ net_block machine.old.links step) }
{
    let made = machine.inner(step);
    net_block(alloc, machine.links(), step, made, out)
}

impl<'a> Player for LossyPlayer<'a> {
    ghost use Rattle.lossy_replay.specs.LossyTrace.{lossy_play};

    type Item = LossyItem;

    ghost play = { lossy_play };

    fn read(&self, line: &[u8]) -> Meaning<LossyItem> {
        read_line(line)
    }

    fn play(&mut self, alloc: Global, item: LossyItem, out: &mut Vec<u8>) -> Result<(), NoMemory> {
        match item {
            LossyItem::Takes(step) => {
                if waits(&self.machine, step) {
                    return put_waiting(alloc, step, out);
                }
                take_step(alloc, &mut self.machine, step, out)
            }
            LossyItem::Moves(step) => make_move(alloc, &mut self.machine, step, out),
        }
    }

    fn halts(&self) -> Option<u32> {
        None
    }

    fn finish(&self, alloc: Global, out: &mut Vec<u8>) -> Result<(), NoMemory> {
        end_lines(alloc, &self.machine, out)
    }
}

// Replays a schedule of steps and of moves of the network on the two controllers of this table.
fn replay_on<Q: Source, O: Sink>(
    alloc: Global,
    table: &Table,
    n: u8,
    k: u8,
    schedule: &mut Q,
    out: &mut O,
) -> Replayed
    requires remotes { (1 ≤ n) × (n ≤ 64) }
    requires slots { (2 ≤ k) × (k ≤ 64) }
    ensures stops { IfSome (Q.left schedule.old) (λ text.
        StopsSo lossy_play schedule_limits
        (lossy_start (protocol_of table.now) table.now.mode n k) text
        (Q.left schedule.new) result) }
    ensures writes { IfSome (Q.left schedule.old) (λ text. IfSome (O.taken out.old) (λ before.
        WritesSo lossy_play schedule_limits
        (lossy_start (protocol_of table.now) table.now.mode n k) text
        (Q.left schedule.new) before (O.taken out.new) result)) }
    ensures counts { ReplayCounts (Q.faults schedule.old) (Q.faults schedule.new)
        (O.faults out.old) (O.faults out.new) result }
    ensures wants { ReplayWants (Q.wants schedule.old) (Q.wants schedule.new)
        (O.wants out.old) (O.wants out.new) result }
    ensures taken { TakesAtMost (most_taken schedule_limits)
        (Q.left schedule.old) (Q.left schedule.new) }
    ensures ended { result ≡ Replayed.Done → Q.ended schedule.new ≡ true }
{
    match LossyPlayer::new(alloc, table, n, k) {
        Ok(mut player) => play_schedule(alloc, SCHEDULE_LIMITS, &mut player, schedule, out),
        Err(NoMemory) => Replayed::NoMemory,
    }
}

/// Replays a schedule of steps and of moves of the network on the two controllers of the protocol
/// in this mode, with n remotes, from 1 to 64, and k slots, from 2 to 64, over links that lose,
/// repeat and reorder frames, and writes its trace. The answer says how the replay ended, and with
/// it what was taken of the schedule and what was written: at most 257,000,256 bytes of the
/// schedule, which are 1,000,000 lines of 256 bytes with their LFs, and 256 bytes. Claims of the
/// protocol are not looked at. Where there is no memory for the table, for the controllers or for
/// the wires at the start, nothing was taken or written.
pub fn replay<Q: Source, O: Sink>(
    alloc: Global,
    checked: &Checked,
    mode: Mode,
    n: u8,
    k: u8,
    schedule: &mut Q,
    out: &mut O,
) -> Replayed
    requires remotes { (1 ≤ n) × (n ≤ 64) }
    requires slots { (2 ≤ k) × (k ≤ 64) }
    ensures stops { IfSome (Q.left schedule.old) (λ text.
        StopsSo lossy_play schedule_limits (lossy_start checked.now.protocol mode n k) text
        (Q.left schedule.new) result) }
    ensures writes { IfSome (Q.left schedule.old) (λ text. IfSome (O.taken out.old) (λ before.
        WritesSo lossy_play schedule_limits (lossy_start checked.now.protocol mode n k) text
        (Q.left schedule.new) before (O.taken out.new) result)) }
    ensures counts { ReplayCounts (Q.faults schedule.old) (Q.faults schedule.new)
        (O.faults out.old) (O.faults out.new) result }
    ensures wants { ReplayWants (Q.wants schedule.old) (Q.wants schedule.new)
        (O.wants out.old) (O.wants out.new) result }
    ensures taken { TakesAtMost (most_taken schedule_limits)
        (Q.left schedule.old) (Q.left schedule.new) }
    ensures ended { result ≡ Replayed.Done → Q.ended schedule.new ≡ true }
{
    match compile(alloc, checked, mode) {
        Ok(table) => replay_on(alloc, &table, n, k, schedule, out),
        Err(NoMemory) => Replayed::NoMemory,
    }
}
