//! What is told of a step of a machine: `event_of` computes `told`, and each other function the
//! definition of its own name.

ghost use Rattle.std.specs.Prelude.{◌≡◌, true};
ghost use Rattle.std.specs.Option.{option_map};
ghost use Rattle.proto_model.specs.Numbered.{NumberedProtocol};
ghost use Rattle.controller_table.specs.Sound.{protocol_of};
ghost use Rattle.async_shape.specs.Config.{Config};
ghost use Rattle.async_shape.specs.Next.{is_enabled};
ghost use Rattle.async_machine.specs.Planned.{guard_behind};
ghost use Rattle.async_machine.specs.Standing.{setting, config};
ghost use Rattle.abstraction_map.specs.Meant.{IsMeant};
ghost use Rattle.abstraction_map.specs.Told as spec;

use crate::laws::the_machine_refines;
use async_machine::{HomePlace, Machine, Step};
use ordered_links::Links;
use proto_model::Event;

/// What a step of the asynchronous machine means in the rendezvous meaning.
#[derive(Clone, Copy, Debug, PartialEq, Eq)]
pub enum Told {
    /// The step is not enabled.
    Refused,
    /// The step changes nothing there.
    Stutter,
    /// It is this event.
    Is(Event),
}

// The event behind RemoteAnswer(j) by this guard, if by any, where the home stands so.
fn answer_event<L: Links>(machine: &Machine<L>, j: u32, guard: Option<u8>) -> Option<Event>
    requires { guard ≡ option_map (λ input. input.number)
        (spec.answering (protocol_of machine.now.table) (config L.lists machine.now) j) }
    ensures { result ≡ spec.answer_event j machine.now.home.place
        (spec.answering (protocol_of machine.now.table) (config L.lists machine.now) j) }
{
    let HomePlace::Waits(waiting) = machine.home_at() else {
        return None;
    };
    let number = guard?;
    Some(Event::Down(j, u32::from(waiting.by.guard), u32::from(number)))
}

// The event behind HomeTake(j) by this guard, if by any.
fn take_event(j: u32, guard: Option<u8>) -> Option<Event>
    ensures { (protocol : NumberedProtocol) (c : Config)
        → guard ≡ guard_behind protocol c (Step.HomeTake j)
        → result ≡ spec.take_event protocol c j }
{
    let number = guard?;
    Some(Event::Up(j, u32::from(number), 0))
}

// The event behind HomeSend(g, j).
fn send_event(g: u32, j: u32, owed: Option<u8>) -> Option<Event>
    ensures { result ≡ spec.send_event g j owed }
{
    match owed {
        Some(_) => Some(Event::Down(j, g, 0)),
        None => None,
    }
}

// The event behind a step that is enabled, and that is made by this guard, if by any.
fn event_behind<L: Links>(machine: &Machine<L>, step: Step, guard: Option<u8>) -> Option<Event>
    requires enabled { is_enabled (setting machine.now) (config L.lists machine.now) step ≡ true }
    requires by { guard
        ≡ guard_behind (protocol_of machine.now.table) (config L.lists machine.now) step }
    ensures { result ≡ spec.event_behind (protocol_of machine.now.table)
        (config L.lists machine.now) step }
{
    machine.shaped();
    match step {
        Step::HomeTau(g) => Some(Event::TauHome(g)),
        Step::HomeTake(j) => take_event(j, guard),
        Step::HomeSend(g, j) => send_event(g, j, machine.owed(j as u8)),
        Step::RemoteTau(j, g) => Some(Event::TauRemote(j, g)),
        Step::RemoteAnswer(j) => answer_event(machine, j, guard),
        Step::RemoteReply(j) => Some(Event::Up(j, 0, 0)),
        Step::HomeDrop(_) | Step::RemoteSend(_) | Step::Up(_) | Step::Down(_) => None,
    }
}

/// What is told of the step, as the machine stands: that it is refused, where it isn't enabled; the
/// event of the rendezvous meaning that it is; or that it is a stutter, which changes nothing
/// there. The guards of an event are numbered within the states in which the processes stand in
/// the abstraction. The step means what is told of it: to the abstraction it is that event, or
/// nothing. Takes no memory.
pub fn event_of<L: Links>(machine: &Machine<L>, step: Step) -> Told
    ensures value { result ≡ spec.told (setting machine.now) (config L.lists machine.now) step }
    ensures meant { IsMeant (setting machine.now) (config L.lists machine.now) step }
{
    the_machine_refines(machine);
    let Some(plan) = machine.plan(step) else {
        return Told::Refused;
    };
    match event_behind(machine, step, plan.guard) {
        Some(event) => Told::Is(event),
        None => Told::Stutter,
    }
}
