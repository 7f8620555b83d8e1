//! The texts of which a trace of steps is made.
#![tactic(auto, using(proto_model::proofs::Continuing::whole))]

ghost use Rattle.std.specs.Prelude.{◌≡◌, ◌++◌, codes, Option};
ghost use Rattle.rv_base.specs.Appended.{Appends};
ghost use Rattle.proto_model.specs.Continued.{Continues};
ghost use Rattle.controller_table.specs.Sound.{protocol_of};
ghost use Rattle.async_shape.specs.Config.{Config};
ghost use Rattle.async_shape.specs.Site.{site, remote_named};
ghost use Rattle.async_machine.specs.Standing.{setting, config};
ghost use Rattle.async_machine.specs.Effects.{IsStep};
ghost use Rattle.async_machine.specs.StepText as step_texts;
ghost use Rattle.abstraction_map.specs.Abstraction.{abstraction};
ghost use Rattle.abstraction_map.specs.Told as spec;
ghost use Rattle.run_replay.specs.RunTrace as texts;
ghost use Rattle.run_replay.specs.ToldWords.{told_words};

use crate::state_lines::{put_home_line, put_remote_line, put_remote_lines};
use crate::told_words::put_told;
use abstraction_map::{Told, abstract_of};
use async_machine::{Machine, Step, Stepped, step_text};
use ordered_links::Links;
use proto_model::{Appending, append};
use rv_base::NoMemory;
use schedule_replay::rv_lines;
use std::alloc::Global;

/// Appends the first line of a step's block, behind its number: the step, `: ` and what is told of
/// it in the configuration before it, with LF. After `NoMemory` the vector is as before followed by
/// a front of the text.
pub fn told_line<L: Links>(
    alloc: Global,
    machine: &Machine<L>,
    step: Step,
    told: Told,
    out: &mut Vec<u8>,
) -> Result<(), NoMemory>
    requires { told ≡ spec.told (setting machine.now) (config L.lists machine.now) step }
    ensures { Appends (step_texts.step_text step
        ++ (codes ": " ++ (told_words (protocol_of machine.now.table)
        (abstraction (protocol_of machine.now.table) (config L.lists machine.now)) told
        ++ codes "\n"))) result out.old.items out.new.items }
{
    let so_far = step_text(alloc, step, out);
    let so_far = append(out, so_far, b": ");
    let so_far = put_told(alloc, machine, step, told, out, so_far);
    append(out, so_far, b"\n")
}

/// The same, unless memory ran out before.
#[tactic(auto, using(schedule_replay::proofs::Chained::begun))]
pub(crate) fn put_told_line<L: Links>(
    alloc: Global,
    machine: &Machine<L>,
    step: Step,
    told: Told,
    out: &mut Vec<u8>,
    so_far: Appending,
) -> Appending
    requires { told ≡ spec.told (setting machine.now) (config L.lists machine.now) step }
    ensures { Continues (step_texts.step_text step
        ++ (codes ": " ++ (told_words (protocol_of machine.now.table)
        (abstraction (protocol_of machine.now.table) (config L.lists machine.now)) told
        ++ codes "\n"))) so_far out.old.items result out.new.items }
{
    match so_far {
        Ok(()) => told_line(alloc, machine, step, told, out),
        Err(failure) => Err(failure),
    }
}

// Appends the lines of the processes at which the step takes place or a packet of it arrives, and
// that it names: the home's, and then a remote's.
fn put_named_lines<L: Links>(
    alloc: Global,
    machine: &Machine<L>,
    step: Step,
    out: &mut Vec<u8>,
    so_far: Appending,
) -> Appending
    ensures { Continues (texts.home_line_if (protocol_of machine.now.table)
        (config L.lists machine.now) (texts.shows_home (site step))
        ++ texts.remote_line_if (protocol_of machine.now.table) (config L.lists machine.now)
        (remote_named (site step))) so_far out.old.items result out.new.items }
{
    match step {
        Step::HomeTau(_) => put_home_line(alloc, machine, out, so_far),
        Step::HomeTake(j) | Step::HomeSend(_, j) | Step::HomeDrop(j) | Step::Up(j) => {
            let so_far = put_home_line(alloc, machine, out, so_far);
            put_remote_line(alloc, machine, j, out, so_far)
        }
        Step::RemoteTau(j, _)
        | Step::RemoteSend(j)
        | Step::RemoteAnswer(j)
        | Step::RemoteReply(j)
        | Step::Down(j) => put_remote_line(alloc, machine, j, out, so_far),
    }
}

// The same, and then the line of the remote whose request was displaced, if one was.
fn put_moved_lines<L: Links>(
    alloc: Global,
    machine: &Machine<L>,
    step: Step,
    displaced: Option<u8>,
    out: &mut Vec<u8>,
    so_far: Appending,
) -> Appending
    ensures { Continues (texts.lines_after (protocol_of machine.now.table)
        (config L.lists machine.now) step displaced) so_far out.old.items result out.new.items }
{
    let so_far = put_named_lines(alloc, machine, step, out, so_far);
    match displaced {
        Some(j) => put_remote_line(alloc, machine, u32::from(j), out, so_far),
        None => so_far,
    }
}

/// Appends the lines that follow a step that led the machine to where it stands, if it moved, and
/// that displaced the request of this remote, if of any. Nothing is appended where it was refused,
/// or where memory ran out before.
pub(crate) fn put_lines_if_moved<L: Links>(
    alloc: Global,
    machine: &Machine<L>,
    step: Step,
    stepped: Stepped,
    displaced: Option<u8>,
    out: &mut Vec<u8>,
    so_far: Appending,
) -> Appending
    ensures { (before : Config) (after : Option Config)
        → IsStep stepped before (config L.lists machine.now) after
        → Continues (texts.lines_if (protocol_of machine.now.table) step displaced after) so_far
        out.old.items result out.new.items }
{
    match stepped {
        Stepped::Moved => put_moved_lines(alloc, machine, step, displaced, out, so_far),
        Stepped::Refused => so_far,
    }
}

/// Appends the lines that follow a step that moved, and that displaced the request of this remote,
/// if of any. They show the configuration after it. After `NoMemory` the vector is as before
/// followed by a front of the lines.
pub fn moved_lines<L: Links>(
    alloc: Global,
    machine: &Machine<L>,
    step: Step,
    displaced: Option<u8>,
    out: &mut Vec<u8>,
) -> Result<(), NoMemory>
    ensures { Appends (texts.lines_after (protocol_of machine.now.table)
        (config L.lists machine.now) step displaced) result out.old.items out.new.items }
{
    put_moved_lines(alloc, machine, step, displaced, out, Ok(()))
}

// Appends the rendezvous lines of the configuration for which the machine's stands.
fn abstract_lines<L: Links>(
    alloc: Global,
    machine: &Machine<L>,
    out: &mut Vec<u8>,
) -> Result<(), NoMemory>
    ensures { Appends (texts.abstract_lines (protocol_of machine.now.table)
        (config L.lists machine.now)) result out.old.items out.new.items }
{
    let stands = abstract_of(alloc, machine)?;
    let table = machine.table();
    rv_lines(
        alloc,
        &table.home().body,
        &table.remote().body,
        &stands,
        out,
    )
}

// The same, unless memory ran out before.
#[tactic(auto, using(schedule_replay::proofs::Chained::begun))]
fn put_abstract_lines<L: Links>(
    alloc: Global,
    machine: &Machine<L>,
    out: &mut Vec<u8>,
    so_far: Appending,
) -> Appending
    ensures { Continues (texts.abstract_lines (protocol_of machine.now.table)
        (config L.lists machine.now)) so_far out.old.items result out.new.items }
{
    match so_far {
        Ok(()) => abstract_lines(alloc, machine, out),
        Err(failure) => Err(failure),
    }
}

// Appends what stands after the last block, unless memory ran out before.
fn put_ending<L: Links>(
    alloc: Global,
    machine: &Machine<L>,
    out: &mut Vec<u8>,
    so_far: Appending,
) -> Appending
    ensures { Continues (texts.run_ending (protocol_of machine.now.table)
        (config L.lists machine.now)) so_far out.old.items result out.new.items }
{
    let so_far = append(out, so_far, b"end\n");
    let so_far = put_home_line(alloc, machine, out, so_far);
    let so_far = put_remote_lines(alloc, machine, out, so_far);
    let so_far = append(out, so_far, b"abstract\n");
    put_abstract_lines(alloc, machine, out, so_far)
}

/// Appends what stands after the last block. After `NoMemory` the vector is as before followed by a
/// front of the text.
pub fn end_lines<L: Links>(
    alloc: Global,
    machine: &Machine<L>,
    out: &mut Vec<u8>,
) -> Result<(), NoMemory>
    ensures { Appends (texts.run_ending (protocol_of machine.now.table)
        (config L.lists machine.now)) result out.old.items out.new.items }
{
    put_ending(alloc, machine, out, Ok(()))
}
