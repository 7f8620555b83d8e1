//! The plans of the steps at a remote. Each function computes the definition of the same name: how
//! the remote stands after the step, and the packet, if any, that it puts on its up link.

ghost use Rattle.std.specs.Prelude.{◌≡◌, ℕ, None, Some, IfSome};
ghost use Rattle.std.specs.Option.{option_map, option_map_or};
ghost use Rattle.controller_table.specs.Sound.{protocol_of};
ghost use Rattle.async_shape.specs.Guards.{answering_guard};
ghost use Rattle.async_shape.specs.Outcome as outcome;
ghost use Rattle.async_shape.specs.RemoteSteps as steps;
ghost use Rattle.async_machine.specs.Moves.{going, put_said};
ghost use Rattle.async_machine.specs.Planned as plans;
ghost use Rattle.async_machine.specs.Planned.{RemotePlans, Says};
ghost use Rattle.async_machine.specs.Standing.{setting_of};

use crate::choosing::{active_guard, answering_guard};
use crate::controls::{given, remote_guard, reply_of};
use crate::parts::{remote_after, remote_after_ack, remote_after_reply};
use crate::planned::{Change, Planned};
use crate::sending::Sends;
use async_shape::{RemoteState, Request};
use controller_table::{GuardId, Place, Table};
use ordered_links::Packet;
use proto_model::{Part, Value, is_open_tau};

// The remote idle where the part stands.
fn remote_at(remote: &RemoteState, part: Part) -> RemoteState
    ensures { result ≡ outcome.remote_at remote.now part }
{
    RemoteState {
        place: Place::Comm(part.state),
        vars: part.vars,
        slot: remote.slot,
    }
}

/// Remote j takes its local step.
#[tactic(auto, unfolding(async_shape::specs::RemoteSteps::remote_tau))]
pub(crate) fn remote_tau(table: &Table, remote: &RemoteState, j: u8, g: u32) -> Option<Planned>
    ensures value { (k : ℕ) → RemotePlans j result
        (steps.remote_tau (setting_of table.now k) remote.now g) }
    ensures says { IfSome result (Says (Some g) None) }
{
    let Place::Comm(state) = remote.place else {
        return None;
    };
    let guard = remote_guard(table, state, g as usize)?;
    if !is_open_tau(guard.0, &remote.vars) {
        return None;
    }
    let part = remote_after(table, &remote.vars, guard, Value::Unit);
    Some(Planned {
        change: Change::Remote(j, remote_at(remote, part)),
        sends: Sends::Nothing,
        displaced: None,
        guard: Some(g as u8),
        message: None,
    })
}

/// Remote j sends its request.
#[tactic(auto, unfolding(async_shape::specs::RemoteSteps::remote_send))]
pub(crate) fn remote_send(table: &Table, remote: &RemoteState, j: u8) -> Option<Planned>
    ensures value { (k : ℕ) → RemotePlans j result
        (steps.remote_send (setting_of table.now k) j remote.now) }
    ensures says { IfSome result
        (Says (plans.sending_number (protocol_of table.now).remote remote.now) None) }
{
    let Place::Comm(state) = remote.place else {
        return None;
    };
    let (number, guard) = active_guard(table, state)?;
    let (message, value) = given(table, guard.0, &remote.vars)?;
    let by = GuardId {
        state,
        guard: number,
    };
    let waiting = RemoteState {
        place: Place::Trans(by),
        vars: remote.vars,
        slot: None,
    };
    Some(Planned {
        change: Change::Remote(j, waiting),
        sends: Sends::Up(j, Packet::Request(message, value)),
        displaced: None,
        guard: Some(number),
        message: None,
    })
}

// Remote j has completed the guard by which it answers: it acks, or is due to send the reply.
fn answered(j: u8, part: Part, reply: Option<u8>) -> (RemoteState, Sends)
    ensures { outcome.at_remote result.0 (put_said result.1) ≡ steps.answered j part reply }
{
    let (place, sends) = match reply {
        None => (Place::Comm(part.state), Sends::Up(j, Packet::Ack)),
        Some(_) => (
            Place::Due(GuardId {
                state: part.state,
                guard: 0,
            }),
            Sends::Nothing,
        ),
    };
    let remote = RemoteState {
        place,
        vars: part.vars,
        slot: None,
    };
    (remote, sends)
}

// Remote j answers the request in its slot by its first open input of the message, or nacks.
fn answered_by(table: &Table, remote: &RemoteState, j: u8, request: Request) -> Planned
    ensures value { (k : ℕ) → RemotePlans j (Some result) (Some
        (steps.answered_by (setting_of table.now k) j remote.now request
        (answering_guard (protocol_of table.now).remote remote.now))) }
    ensures says { Says (plans.answering_number (protocol_of table.now).remote remote.now)
        (Some (plans.slot_message request)) result }
{
    let message = Some((request.message, request.value));
    let Some((number, guard)) = answering_guard(table, remote) else {
        let emptied = RemoteState {
            place: remote.place,
            vars: remote.vars,
            slot: None,
        };
        return Planned {
            change: Change::Remote(j, emptied),
            sends: Sends::Up(j, Packet::Nack),
            displaced: None,
            guard: None,
            message,
        };
    };
    let part = remote_after(table, &remote.vars, guard, request.value);
    let (now, sends) = answered(j, part, reply_of(table, request.message));
    Planned {
        change: Change::Remote(j, now),
        sends,
        displaced: None,
        guard: Some(number),
        message,
    }
}

/// Remote j answers the request in its slot.
#[tactic(auto, unfolding(async_shape::specs::RemoteSteps::remote_answer))]
pub(crate) fn remote_answer(table: &Table, remote: &RemoteState, j: u8) -> Option<Planned>
    ensures value { (k : ℕ) → RemotePlans j result
        (steps.remote_answer (setting_of table.now k) j remote.now) }
    ensures says { IfSome result
        (Says (plans.answering_number (protocol_of table.now).remote remote.now)
        (option_map plans.slot_message remote.now.slot)) }
{
    let Place::Comm(state) = remote.place else {
        return None;
    };
    let request = remote.slot?;
    match active_guard(table, state) {
        None => Some(answered_by(table, remote, j, request)),
        Some(_) => None,
    }
}

/// Remote j sends the reply that is due.
#[tactic(auto, unfolding(async_shape::specs::RemoteSteps::remote_reply))]
pub(crate) fn remote_reply(table: &Table, remote: &RemoteState, j: u8) -> Option<Planned>
    ensures value { (k : ℕ) → RemotePlans j result
        (steps.remote_reply (setting_of table.now k) j remote.now) }
    ensures says { IfSome result (Says (plans.due_number remote.now.place)
        (plans.due_message (protocol_of table.now) remote.now remote.now.place)) }
{
    let Place::Due(g) = remote.place else {
        return None;
    };
    let guard = remote_guard(table, g.state, g.guard as usize)?;
    let (message, value) = given(table, guard.0, &remote.vars)?;
    let part = remote_after(table, &remote.vars, guard, Value::Unit);
    Some(Planned {
        change: Change::Remote(j, remote_at(remote, part)),
        sends: Sends::Up(j, Packet::Reply(message, value)),
        displaced: None,
        guard: Some(g.guard),
        message: Some((message, value)),
    })
}

// The remote where it stands then, if it stands elsewhere.
fn remote_at_if(remote: &RemoteState, part: Option<Part>) -> RemoteState
    ensures { result ≡ option_map_or (outcome.remote_at remote.now) part remote.now }
{
    match part {
        Some(part) => remote_at(remote, part),
        None => *remote,
    }
}

// A packet arrives at an idle remote.
fn down_idle(remote: &RemoteState, arrived: Packet) -> RemoteState
    ensures { result ≡ steps.down_idle remote.now arrived }
{
    match arrived {
        Packet::Request(message, value) => RemoteState {
            place: remote.place,
            vars: remote.vars,
            slot: Some(Request { message, value }),
        },
        Packet::Ack | Packet::Nack | Packet::Reply(_, _) => *remote,
    }
}

// A packet arrives at a remote that waits by this guard.
fn down_waiting(table: &Table, remote: &RemoteState, g: GuardId, arrived: Packet) -> RemoteState
    ensures { result ≡ steps.down_waiting (protocol_of table.now).remote remote.now g arrived }
{
    match arrived {
        Packet::Request(_, _) => *remote,
        Packet::Ack => remote_at_if(remote, remote_after_ack(table, &remote.vars, g)),
        Packet::Nack => RemoteState {
            place: Place::Comm(g.state),
            vars: remote.vars,
            slot: remote.slot,
        },
        Packet::Reply(_, value) => {
            remote_at_if(remote, remote_after_reply(table, &remote.vars, g, value))
        }
    }
}

// The remote, at which the packet has arrived.
fn arrived_at(table: &Table, remote: &RemoteState, arrived: Packet) -> RemoteState
    ensures { result ≡ steps.down_at (protocol_of table.now).remote remote.now remote.now.place
        arrived }
{
    match remote.place {
        Place::Comm(_) => down_idle(remote, arrived),
        Place::Trans(g) => down_waiting(table, remote, g, arrived),
        Place::Due(_) => *remote,
    }
}

/// The packet arrives at remote j.
#[tactic(auto, unfolding(async_shape::specs::RemoteSteps::down))]
pub(crate) fn down(table: &Table, remote: &RemoteState, j: u8, arrived: Packet) -> Planned
    ensures value { (k : ℕ) → RemotePlans j (Some result) (Some
        (steps.down (setting_of table.now k) remote.now arrived)) }
    ensures says { Says None None result }
{
    Planned {
        change: Change::Remote(j, arrived_at(table, remote, arrived)),
        sends: Sends::Nothing,
        displaced: None,
        guard: None,
        message: None,
    }
}
