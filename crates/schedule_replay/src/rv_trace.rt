//! The texts of which a trace of events is made.

ghost use Rattle.std.specs.Prelude.{◌≡◌, ◌<◌, ◌≤◌, ◌++◌, OnOk, None, Some, length, slice_get};
ghost use Rattle.std.specs.Prelude.{option_copied};
ghost use Rattle.std.specs.List.{AllByRecursion};
ghost use Rattle.rv_base.specs.Appended.{Appends};
ghost use Rattle.rv_base.specs.Lists.{flat_from};
ghost use Rattle.proto_model.specs.Continued.{Continues};
ghost use Rattle.proto_model.specs.Rendezvous.{IsPartOf, IsConfigOf};
ghost use Rattle.proto_model.specs.Texts as line;
ghost use Rattle.schedule_replay.specs.RvPlay as texts;

use proto_model::{Appending, Body, Event, Part, RvConfig, rv_line};
use rendezvous_meaning::RvMachine;
use rv_base::NoMemory;
use std::alloc::Global;

/// Appends the rendezvous line of the home, with its LF. After `NoMemory` the vector is as before
/// followed by a front of the line.
pub fn put_home_line(alloc: Global, machine: &RvMachine, out: &mut Vec<u8>) -> Result<(), NoMemory>
    ensures { Appends (texts.home_line machine.now) result out.old.items out.new.items }
{
    let home = &machine.config().home;
    rv_line(alloc, machine.protocol().home(), home, None, out)
}

// Where remote j stands, if there is one.
fn remote_at<'m>(machine: &'m RvMachine, j: u32) -> Option<&'m Part>
    ensures value { option_copied result ≡ slice_get machine.now.config.remotes j }
    ensures standing { IsConfigOf machine.now.protocol machine.now.config }
{
    machine.config().remotes.as_slice().get(j as usize)
}

/// Appends the rendezvous line of remote j, with its LF, if there is such a remote. After
/// `NoMemory` the vector is as before followed by a front of the line.
pub fn put_remote_line(
    alloc: Global,
    machine: &RvMachine,
    j: u32,
    out: &mut Vec<u8>,
) -> Result<(), NoMemory>
    ensures { Appends (texts.remote_line machine.now j) result out.old.items out.new.items }
{
    let Some(part) = remote_at(machine, j) else {
        return Ok(());
    };
    rv_line(alloc, machine.protocol().remote(), part, Some(j as u8), out)
}

// Appends the rendezvous line of remote j, which stands so, unless memory ran out before.
#[tactic(auto, using(crate::proofs::Chained::begun))]
fn put_line(
    alloc: Global,
    body: &Body,
    part: &Part,
    j: u8,
    out: &mut Vec<u8>,
    so_far: Appending,
) -> Appending
    requires state { part.now.state < length body.now.states }
    requires vars { length part.now.vars ≡ length body.now.vars }
    ensures { Continues (line.rv_line body.now part.now (Some j)) so_far out.old.items result
        out.new.items }
{
    match so_far {
        Ok(()) => rv_line(alloc, body, part, Some(j), out),
        Err(failure) => Err(failure),
    }
}

// Appends the rendezvous lines of all remotes, which have this body.
fn put_remotes(
    alloc: Global,
    body: &Body,
    remotes: &[Part],
    out: &mut Vec<u8>,
    mut so_far: Appending,
) -> Appending
    requires standing { AllByRecursion (IsPartOf body.now) remotes.now }
    requires few { length remotes.now ≤ 64 }
    ensures { Continues (flat_from (texts.numbered_line body.now) 0 remotes.now) so_far
        out.old.items result out.new.items }
{
    for (j, part) in remotes.iter().enumerate() {
        so_far = put_line(alloc, body, part, j as u8, out, so_far);
    }
    so_far
}

/// Appends the rendezvous lines of a configuration, each with its LF: the line of the home, which
/// has the first body, and then those of the remotes, which have the second, in the order of their
/// numbers. After `NoMemory` the vector is as before followed by a front of the lines.
pub fn rv_lines(
    alloc: Global,
    home: &Body,
    remote: &Body,
    config: &RvConfig,
    out: &mut Vec<u8>,
) -> Result<(), NoMemory>
    requires home { IsPartOf home.now config.now.home }
    requires remotes { AllByRecursion (IsPartOf remote.now) config.now.remotes }
    requires few { length config.now.remotes ≤ 64 }
    ensures { Appends (line.rv_line home.now config.now.home None
        ++ flat_from (texts.numbered_line remote.now) 0 config.now.remotes) result
        out.old.items out.new.items }
{
    let so_far = rv_line(alloc, home, &config.home, None, out);
    put_remotes(alloc, remote, config.remotes.as_slice(), out, so_far)
}

// Appends the rendezvous lines of all processes.
fn put_all(alloc: Global, machine: &RvMachine, out: &mut Vec<u8>) -> Result<(), NoMemory>
    ensures { OnOk result (out.new.items ≡ out.old.items
        ++ (texts.home_line machine.now ++ texts.remote_lines machine.now)) }
{
    let config = machine.config();
    let (home, remote) = (machine.protocol().home(), machine.protocol().remote());
    rv_lines(alloc, home, remote, config, out)
}

// Appends the lines that follow an event that moved.
fn put_lines_after(
    alloc: Global,
    machine: &RvMachine,
    event: Event,
    out: &mut Vec<u8>,
) -> Result<(), NoMemory>
    ensures { OnOk result (out.new.items ≡ out.old.items
        ++ texts.lines_after machine.now event) }
{
    match event {
        Event::TauHome(_) => put_home_line(alloc, machine, out),
        Event::TauRemote(j, _) => put_remote_line(alloc, machine, j, out),
        Event::Up(j, _, _) | Event::Down(j, _, _) => {
            put_home_line(alloc, machine, out)?;
            put_remote_line(alloc, machine, j, out)
        }
    }
}

/// Appends what follows the text of an event: whether it moved, and the lines after it.
pub(crate) fn put_outcome(
    alloc: Global,
    machine: &RvMachine,
    event: Event,
    moved: bool,
    out: &mut Vec<u8>,
) -> Result<(), NoMemory>
    ensures { OnOk result (out.new.items ≡ out.old.items
        ++ texts.outcome moved machine.now event) }
{
    if !moved {
        out.extend_from_slice(b": refused\n")?;
        return Ok(());
    }
    out.extend_from_slice(b": moved\n")?;
    put_lines_after(alloc, machine, event, out)
}

/// Appends what stands after the last block.
pub(crate) fn put_ending(
    alloc: Global,
    machine: &RvMachine,
    out: &mut Vec<u8>,
) -> Result<(), NoMemory>
    ensures { OnOk result (out.new.items ≡ out.old.items ++ texts.ending machine.now) }
{
    out.extend_from_slice(b"end\n")?;
    put_all(alloc, machine, out)
}
