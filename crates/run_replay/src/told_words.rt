//! What is told of a step.

ghost use Rattle.std.specs.Prelude.{◌≡◌};
ghost use Rattle.std.specs.Option.{option_map};
ghost use Rattle.proto_model.specs.Continued.{Continues};
ghost use Rattle.proto_model.specs.Guards.{part};
ghost use Rattle.proto_model.specs.Texts.{event_text as event_words};
ghost use Rattle.rendezvous_meaning.specs.GivenMessage.{given_by};
ghost use Rattle.controller_table.specs.Sound.{protocol_of};
ghost use Rattle.slot_reserve.specs.Requests.{first_of};
ghost use Rattle.async_machine.specs.Standing.{setting, config};
ghost use Rattle.async_shape.specs.declared.step.Step.TheVariants as step;
ghost use Rattle.abstraction_map.specs.Abstraction.{abstraction};
ghost use Rattle.abstraction_map.specs.Told as of_step;
ghost use Rattle.abstraction_map.specs.declared.told.Told.TheVariants.{Is};
ghost use Rattle.run_replay.specs.MessageBehind as behind;
ghost use Rattle.run_replay.specs.ToldWords as words;

use abstraction_map::Told;
use async_machine::{HomePlace, Machine, Request, Step, given, home_guard, remote_guard};
use controller_table::{Place, Table};
use ordered_links::Links;
use proto_model::{Appending, Event, Value, Vars, append, event_text};
use schedule_replay::put_given;
use slot_reserve::Held;
use std::alloc::Global;

// ---- the message that is given

// The message of the first request of remote j that is held, and its value.
fn held_message(held: &[Held], j: u32) -> Option<(u8, Value)>
    ensures { result ≡ option_map behind.held_message (first_of j held.now) }
{
    let request = held.iter().find(|request| u32::from(request.from) == j)?;
    Some((request.message, request.value))
}

// The message of the request in the slot, and its value.
fn slot_message(slot: Option<Request>) -> Option<(u8, Value)>
    ensures { result ≡ option_map behind.slot_message slot }
{
    let request = slot?;
    Some((request.message, request.value))
}

// The message that the home gives by this guard, with these variables, and its value.
fn home_gives(table: &Table, vars: &Vars, state: u8, g: usize) -> Option<(u8, Value)>
    ensures { result ≡ given_by (protocol_of table.now).messages (protocol_of table.now).home
        (part state vars.now) g }
{
    let (rule, _) = home_guard(table, state, g)?;
    given(table, rule, vars)
}

// The message that a remote gives by this guard, with these variables, and its value.
fn remote_gives(table: &Table, vars: &Vars, state: u8, g: usize) -> Option<(u8, Value)>
    ensures { result ≡ given_by (protocol_of table.now).messages (protocol_of table.now).remote
        (part state vars.now) g }
{
    let (rule, _) = remote_guard(table, state, g)?;
    given(table, rule, vars)
}

// The message that the home, if it is idle, gives by this guard, and its value.
fn home_message<L: Links>(machine: &Machine<L>, g: u32) -> Option<(u8, Value)>
    ensures { result ≡ behind.home_message (protocol_of machine.now.table)
        (config L.lists machine.now) g }
{
    let HomePlace::Idle(state) = machine.home_at() else {
        return None;
    };
    home_gives(machine.table(), machine.home_vars(), state, g as usize)
}

// The message of the request in the slot of remote j, and its value.
fn answered_message<L: Links>(machine: &Machine<L>, j: u32) -> Option<(u8, Value)>
    ensures { result ≡ behind.message_behind (protocol_of machine.now.table)
        (config L.lists machine.now) (step.RemoteAnswer j) }
{
    if j >= u32::from(machine.n()) {
        return None;
    }
    slot_message(machine.slot(j as u8))
}

// The message that remote j is due to send, and its value.
fn replied_message<L: Links>(machine: &Machine<L>, j: u32) -> Option<(u8, Value)>
    ensures { result ≡ behind.message_behind (protocol_of machine.now.table)
        (config L.lists machine.now) (step.RemoteReply j) }
{
    if j >= u32::from(machine.n()) {
        return None;
    }
    let Place::Due(g) = machine.remote_place(j as u8) else {
        return None;
    };
    let vars = machine.remote_vars(j as u8);
    remote_gives(machine.table(), vars, g.state, g.guard as usize)
}

// The message that is given in the event behind the step, and its value.
fn message_behind<L: Links>(machine: &Machine<L>, step: Step) -> Option<(u8, Value)>
    ensures { result ≡ behind.message_behind (protocol_of machine.now.table)
        (config L.lists machine.now) step }
{
    match step {
        Step::HomeTake(j) => held_message(machine.held(), j),
        Step::HomeSend(g, _) => home_message(machine, g),
        Step::RemoteAnswer(j) => answered_message(machine, j),
        Step::RemoteReply(j) => replied_message(machine, j),
        Step::HomeTau(_)
        | Step::HomeDrop(_)
        | Step::RemoteTau(_, _)
        | Step::RemoteSend(_)
        | Step::Up(_)
        | Step::Down(_) => None,
    }
}

// ---- the words

// Appends the words of the event.
#[tactic(auto, using(schedule_replay::proofs::Chained::begun))]
fn put_event_text(alloc: Global, event: Event, out: &mut Vec<u8>, so_far: Appending) -> Appending
    ensures { Continues (event_words event) so_far out.old.items result out.new.items }
{
    match so_far {
        Ok(()) => event_text(alloc, event, out),
        Err(failure) => Err(failure),
    }
}

// Appends the event that is told of the step, and the message that is given in it.
fn put_event<L: Links>(
    alloc: Global,
    machine: &Machine<L>,
    step: Step,
    event: Event,
    out: &mut Vec<u8>,
    so_far: Appending,
) -> Appending
    requires { of_step.told (setting machine.now) (config L.lists machine.now) step ≡ Is event }
    ensures { Continues (words.told_words (protocol_of machine.now.table)
        (abstraction (protocol_of machine.now.table) (config L.lists machine.now)) (Is event))
        so_far out.old.items result out.new.items }
{
    machine.shaped();
    let so_far = put_event_text(alloc, event, out, so_far);
    let messages = machine.table().messages();
    put_given(alloc, messages, message_behind(machine, step), out, so_far)
}

/// Appends what is told of the step where the machine stands so: `refused`, `stutter`, or the event
/// and the message that is given in it. Nothing is appended where memory ran out before.
pub(crate) fn put_told<L: Links>(
    alloc: Global,
    machine: &Machine<L>,
    step: Step,
    told: Told,
    out: &mut Vec<u8>,
    so_far: Appending,
) -> Appending
    requires { told ≡ of_step.told (setting machine.now) (config L.lists machine.now) step }
    ensures { Continues (words.told_words (protocol_of machine.now.table)
        (abstraction (protocol_of machine.now.table) (config L.lists machine.now)) told)
        so_far out.old.items result out.new.items }
{
    match told {
        Told::Refused => append(out, so_far, b"refused"),
        Told::Stutter => append(out, so_far, b"stutter"),
        Told::Is(event) => put_event(alloc, machine, step, event, out, so_far),
    }
}
