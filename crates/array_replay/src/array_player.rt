//! Schedules of steps, played on several cache lines.

ghost use Rattle.std.specs.Prelude.{◌≡◌, ◌≤◌, ◌<◌, ◌++◌, true, length, IfOk, IfSome, OnOk, Some};
ghost use Rattle.rv_base.specs.Whole.{TakesAtMost};
ghost use Rattle.schedule_replay.specs.Replayed.{StopsSo, WritesSo, ReplayCounts, ReplayWants};
ghost use Rattle.schedule_replay.specs.ScheduleLimits.{schedule_limits, most_taken};
ghost use Rattle.controller_table.specs.Sound.{table_in};
ghost use Rattle.line_array.specs.ArrayNext.{meant};
ghost use Rattle.array_replay.specs.ArrayTrace as texts;
ghost use Rattle.array_replay.specs.ArrayTrace.{array_play, array_begin};
ghost use Rattle.array_replay.specs.Standing.{running_of};

use crate::array_trace::{end_texts, put_in_line, refused_line};
use crate::steps::read_array_line;
use async_machine::{Machine, Step, Stepped};
use controller_table::Table;
use home_refine::compile;
use line_array::laws::shared_lists_are_in_step;
use line_array::{Array, LineStep};
use ordered_links::RingLinks;
use proto_model::Mode;
use run_replay::{StepTaker, play_step};
use rv_base::{NoMemory, Sink, Source};
use schedule_replay::{Meaning, Player, Replayed, SCHEDULE_LIMITS, play_schedule};
use star_check::Checked;
use std::alloc::Global;
use std::marker::Model;

// Several cache lines over shared links, as what takes the steps of their machines.
#[derive(Drop)]
struct Lines<'a> {
    array: Array<'a>,
}

// A step of the array that is meant for this cache line.
#[derive(Clone, Copy)]
struct InLine {
    item: LineStep,
    line: u8,
}

impl<'a> StepTaker<RingLinks> for Lines<'a> {
    ghost use Rattle.std.specs.Prelude.{◌≡◌, ◌<◌, length, Some};
    ghost use Rattle.line_array.specs.ArrayNext.{meant};
    ghost use Rattle.array_replay.specs.ArrayTrace.{array_after};
    ghost use Rattle.array_replay.specs.Standing.{running_of, machine_in};

    type At = InLine;

    ghost is_there = { λ lines at. at.line < length lines.array.config.lines };

    ghost machine = { λ lines at. machine_in lines.array at.line };

    ghost is_meant = { λ lines at step. meant lines.array.config at.item ≡ Some (at.line, step) };

    ghost after = { λ old at step new.
        running_of new.array ≡ array_after (running_of old.array) at.item };

    fn machine<'s>(&'s self, at: InLine) -> &'s Machine<'s, RingLinks> {
        self.array.machine(at.line)
    }

    fn take(&mut self, at: InLine, _step: Step) -> Stepped {
        self.array.step(at.item)
    }
}

/// Several cache lines over shared links, on which a schedule of steps is played. Contracts see
/// what the controllers of each were given, and how all of them stand.
#[derive(Drop)]
pub struct ArrayPlayer<'a> {
    lines: Lines<'a>,
}

impl<'a> Model for ArrayPlayer<'a> {
    ghost use Rattle.array_replay.specs.ArrayTrace.{ArrayRunning};
    ghost use Rattle.array_replay.specs.Standing.{running_of};

    ghost Value = { ArrayRunning };

    ghost view = { λ player. running_of player.lines.array };
}

impl<'a> ArrayPlayer<'a> {
    /// So many cache lines, from 1 to 16, at the start: each has two controllers of this table, to
    /// which it refers, with n remotes, from 1 to 64, and k slots, from 2 to 64. The table is that
    /// of the protocol in some mode. All memory that steps take is taken here.
    pub fn new(
        alloc: Global,
        checked: &Checked,
        table: &'a Table,
        n: u8,
        k: u8,
        lines: u8,
    ) -> Result<ArrayPlayer<'a>, NoMemory>
        requires remotes { (1 ≤ n) × (n ≤ 64) }
        requires slots { (2 ≤ k) × (k ≤ 64) }
        requires lines { (1 ≤ lines) × (lines ≤ 16) }
        requires table { table.now ≡ table_in checked.now.protocol table.now.mode }
        ensures { IfOk result (λ player. player
            ≡ array_begin checked.now.protocol table.now.mode n k lines) }
    {
        let array = Array::new(alloc, table, n, k, lines)?;
        Ok(ArrayPlayer {
            lines: Lines { array },
        })
    }
}

// Takes the step, which is meant for this cache line and for this step of its machine, and appends
// what tells of it.
fn play_meant(
    alloc: Global,
    lines: &mut Lines,
    at: InLine,
    step: Step,
    out: &mut Vec<u8>,
) -> Result<(), NoMemory>
    requires meant { meant lines.old.array.config at.item ≡ Some (at.line, step) }
    requires there { at.line < length lines.old.array.config.lines }
    ensures after { running_of lines.new.array
        ≡ texts.array_after (running_of lines.old.array) at.item }
    ensures tells { OnOk result (out.new.items
        ≡ out.old.items ++ texts.array_block (running_of lines.old.array) at.item) }
{
    let so_far = put_in_line(at.line, out);
    let (_, written) = play_step(alloc, lines, at, step, out, so_far);
    written
}

impl<'a> Player for ArrayPlayer<'a> {
    ghost use Rattle.array_replay.specs.ArrayTrace.{array_play};

    type Item = LineStep;

    ghost play = { array_play };

    fn read(&self, line: &[u8]) -> Meaning<LineStep> {
        read_array_line(line)
    }

    fn play(&mut self, alloc: Global, item: LineStep, out: &mut Vec<u8>) -> Result<(), NoMemory> {
        let array = &self.lines.array;
        array.shares();
        shared_lists_are_in_step();
        match array.meant(item) {
            Some((line, step)) => {
                play_meant(alloc, &mut self.lines, InLine { item, line }, step, out)
            }
            None => refused_line(alloc, item, out),
        }
    }

    fn halts(&self) -> Option<u32> {
        None
    }

    fn finish(&self, alloc: Global, out: &mut Vec<u8>) -> Result<(), NoMemory> {
        end_texts(alloc, &self.lines.array, out)
    }
}

// Replays a schedule of steps on so many cache lines whose controllers are those of this table,
// which is that of the protocol in some mode.
fn replay_on<Q: Source, O: Sink>(
    alloc: Global,
    checked: &Checked,
    table: &Table,
    n: u8,
    k: u8,
    lines: u8,
    schedule: &mut Q,
    out: &mut O,
) -> Replayed
    requires remotes { (1 ≤ n) × (n ≤ 64) }
    requires slots { (2 ≤ k) × (k ≤ 64) }
    requires lines { (1 ≤ lines) × (lines ≤ 16) }
    requires table { table.now ≡ table_in checked.now.protocol table.now.mode }
    ensures stops { IfSome (Q.left schedule.old) (λ text.
        StopsSo array_play schedule_limits
        (array_begin checked.now.protocol table.now.mode n k lines) text (Q.left schedule.new)
        result) }
    ensures writes { IfSome (Q.left schedule.old) (λ text. IfSome (O.taken out.old) (λ before.
        WritesSo array_play schedule_limits
        (array_begin checked.now.protocol table.now.mode n k lines) text (Q.left schedule.new)
        before (O.taken out.new) result)) }
    ensures counts { ReplayCounts (Q.faults schedule.old) (Q.faults schedule.new)
        (O.faults out.old) (O.faults out.new) result }
    ensures wants { ReplayWants (Q.wants schedule.old) (Q.wants schedule.new)
        (O.wants out.old) (O.wants out.new) result }
    ensures taken { TakesAtMost (most_taken schedule_limits)
        (Q.left schedule.old) (Q.left schedule.new) }
    ensures ended { result ≡ Replayed.Done → Q.ended schedule.new ≡ true }
{
    match ArrayPlayer::new(alloc, checked, table, n, k, lines) {
        Ok(mut player) => play_schedule(alloc, SCHEDULE_LIMITS, &mut player, schedule, out),
        Err(NoMemory) => Replayed::NoMemory,
    }
}

/// Replays a schedule of steps on so many cache lines, from 1 to 16, over shared links, and writes
/// its trace. Each cache line has the two controllers of the protocol in this mode, with n remotes,
/// from 1 to 64, and k slots, from 2 to 64. The answer says how the replay ended, and with it what
/// was taken of the schedule and what was written: at most 257,000,256 bytes of the schedule, which
/// are 1,000,000 lines of 256 bytes with their LFs, and 256 bytes. The claims of the protocol are
/// not looked at, so no replay ends with a broken one. Where there is no memory for the table or
/// for the cache lines at the start, nothing was taken or written.
pub fn replay<Q: Source, O: Sink>(
    alloc: Global,
    checked: &Checked,
    mode: Mode,
    n: u8,
    k: u8,
    lines: u8,
    schedule: &mut Q,
    out: &mut O,
) -> Replayed
    requires remotes { (1 ≤ n) × (n ≤ 64) }
    requires slots { (2 ≤ k) × (k ≤ 64) }
    requires lines { (1 ≤ lines) × (lines ≤ 16) }
    ensures stops { IfSome (Q.left schedule.old) (λ text.
        StopsSo array_play schedule_limits (array_begin checked.now.protocol mode n k lines) text
        (Q.left schedule.new) result) }
    ensures writes { IfSome (Q.left schedule.old) (λ text. IfSome (O.taken out.old) (λ before.
        WritesSo array_play schedule_limits (array_begin checked.now.protocol mode n k lines) text
        (Q.left schedule.new) before (O.taken out.new) result)) }
    ensures counts { ReplayCounts (Q.faults schedule.old) (Q.faults schedule.new)
        (O.faults out.old) (O.faults out.new) result }
    ensures wants { ReplayWants (Q.wants schedule.old) (Q.wants schedule.new)
        (O.wants out.old) (O.wants out.new) result }
    ensures taken { TakesAtMost (most_taken schedule_limits)
        (Q.left schedule.old) (Q.left schedule.new) }
    ensures ended { result ≡ Replayed.Done → Q.ended schedule.new ≡ true }
{
    match compile(alloc, checked, mode) {
        Ok(table) => replay_on(alloc, checked, &table, n, k, lines, schedule, out),
        Err(NoMemory) => Replayed::NoMemory,
    }
}
