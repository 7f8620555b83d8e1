//! The texts of which a trace of several cache lines is made.
#![tactic(auto, using(proto_model::proofs::Continuing::whole))]

ghost use Rattle.std.specs.Prelude.{◌≡◌, ◌++◌, Ok, codes};
ghost use Rattle.rv_base.specs.Appended.{Appends};
ghost use Rattle.proto_model.specs.Continued.{Continues};
ghost use Rattle.proto_model.specs.Texts.{argument};
ghost use Rattle.controller_table.specs.Sound.{protocol_of};
ghost use Rattle.async_machine.specs.Standing.{config};
ghost use Rattle.async_machine.specs.StepText as step_texts;
ghost use Rattle.run_replay.specs.RunTrace.{run_ending};
ghost use Rattle.array_replay.specs.ArrayLines.{array_text};
ghost use Rattle.array_replay.specs.ArrayTrace as texts;
ghost use Rattle.array_replay.specs.Standing.{running_of};

use async_machine::{Machine, Step, step_text};
use line_array::{Array, LineStep};
use ordered_links::Links;
use proto_model::{Appending, append, append_argument, append_number};
use run_replay::end_lines;
use rv_base::NoMemory;
use std::alloc::Global;

// ---- the text of a step

// Appends the text of a step of one pair of controllers, unless memory ran out before.
#[tactic(auto, using(schedule_replay::proofs::Chained::begun))]
fn put_step_text(alloc: Global, step: Step, out: &mut Vec<u8>, so_far: Appending) -> Appending
    ensures { Continues (step_texts.step_text step) so_far out.old.items result out.new.items }
{
    match so_far {
        Ok(()) => step_text(alloc, step, out),
        Err(failure) => Err(failure),
    }
}

// Appends the words, and behind them a space and a number.
fn put_with(words: &[u8], number: u32, out: &mut Vec<u8>, so_far: Appending) -> Appending
    ensures { Continues (words.now ++ argument number) so_far out.old.items result out.new.items }
{
    let so_far = append(out, so_far, words);
    append_argument(out, so_far, number)
}

// Appends the text of a step.
fn put_array_step(alloc: Global, step: LineStep, out: &mut Vec<u8>, so_far: Appending) -> Appending
    ensures { Continues (array_text step) so_far out.old.items result out.new.items }
{
    match step {
        LineStep::At(line, step) => {
            let so_far = put_with(b"at", line, out, so_far);
            let so_far = append(out, so_far, b" ");
            put_step_text(alloc, step, out, so_far)
        }
        LineStep::Up(remote) => put_with(b"up", remote, out, so_far),
        LineStep::Down(remote) => put_with(b"down", remote, out, so_far),
    }
}

/// Appends what tells of a step that is meant for no cache line: its text and `: refused`, with LF.
/// After `NoMemory` the vector is as before followed by a front of the text.
pub(crate) fn refused_line(alloc: Global, step: LineStep, out: &mut Vec<u8>) -> Result<(), NoMemory>
    ensures { Appends (array_text step ++ codes ": refused\n") result out.old.items out.new.items }
{
    let so_far = put_array_step(alloc, step, out, Ok(()));
    append(out, so_far, b": refused\n")
}

// ---- what tells of a cache line

// Appends `line` and the number of a cache line.
fn put_head(line: u8, out: &mut Vec<u8>, so_far: Appending) -> Appending
    ensures { Continues (texts.line_head line) so_far out.old.items result out.new.items }
{
    let so_far = append(out, so_far, b"line ");
    append_number(out, so_far, u64::from(line))
}

/// Appends what stands before the block of this cache line's controllers, behind the block's
/// number: `line`, the number of the cache line, and one space.
pub(crate) fn put_in_line(line: u8, out: &mut Vec<u8>) -> Appending
    ensures { Continues (texts.line_head line ++ codes " ") (Ok tt) out.old.items result
        out.new.items }
{
    let so_far = put_head(line, out, Ok(()));
    append(out, so_far, b" ")
}

// Appends the last text of one pair of controllers, unless memory ran out before.
#[tactic(auto, using(schedule_replay::proofs::Chained::begun))]
fn put_end_lines<L: Links>(
    alloc: Global,
    machine: &Machine<L>,
    out: &mut Vec<u8>,
    so_far: Appending,
) -> Appending
    ensures { Continues (run_ending (protocol_of machine.now.table) (config L.lists machine.now))
        so_far out.old.items result out.new.items }
{
    match so_far {
        Ok(()) => end_lines(alloc, machine, out),
        Err(failure) => Err(failure),
    }
}

// Appends the last text of this cache line, which has this machine: `line` and its number on a
// line, and the last text of the machine.
fn put_line_ending<L: Links>(
    alloc: Global,
    machine: &Machine<L>,
    line: u8,
    out: &mut Vec<u8>,
    so_far: Appending,
) -> Appending
    ensures { Continues (texts.line_ending (protocol_of machine.now.table) line
        (config L.lists machine.now)) so_far out.old.items result out.new.items }
{
    let so_far = put_head(line, out, so_far);
    let so_far = append(out, so_far, b"\n");
    put_end_lines(alloc, machine, out, so_far)
}

// Appends the last texts of all cache lines, in the order of their numbers.
fn put_endings(alloc: Global, array: &Array, out: &mut Vec<u8>, mut so_far: Appending) -> Appending
    ensures { Continues (texts.array_ending (running_of array.now)) so_far out.old.items result
        out.new.items }
{
    for line in 0..array.lines() {
        so_far = put_line_ending(alloc, array.machine(line), line, out, so_far);
    }
    so_far
}

/// Appends what stands after the last block: the last texts of all cache lines, in the order of
/// their numbers. After `NoMemory` the vector is as before followed by a front of the text.
pub(crate) fn end_texts(alloc: Global, array: &Array, out: &mut Vec<u8>) -> Result<(), NoMemory>
    ensures { Appends (texts.array_ending (running_of array.now)) result out.old.items
        out.new.items }
{
    put_endings(alloc, array, out, Ok(()))
}
