//! The rows of local steps and of outputs, which are alike in the controllers of both sides.

ghost use Rattle.std.specs.Prelude.{◌≡◌, ◌++◌, [], ◌∷◌, OnOk};
ghost use Rattle.controller_table.specs.Rows as spec;
ghost use Rattle.controller_table.specs.declared.rows.Trigger.TheVariants as trigger;

use crate::paired_body::PairedBody;
use controller_table::{Does, GuardId, Place, Puts, Row, Trigger};
use proto_model::{Body, Rule, guard_at};
use rv_base::{Items, NoMemory};

// The state to which the first guard of the state at this place goes.
fn next_of_first(body: &Body, state: u8) -> u8
    ensures { result ≡ spec.next_of_first body.now state }
{
    match guard_at(body, state, 0) {
        Some(rule) => rule.next,
        None => 0,
    }
}

/// The row of a local step.
pub fn tau_row(guard: GuardId, rule: &Rule) -> Row
    ensures { result ≡ spec.tau_row guard rule.now }
{
    Row {
        at: Place::Comm(guard.state),
        on: Trigger::Tau(guard.guard),
        puts: Puts::Nothing,
        does: Does::One(guard),
        to: Place::Comm(rule.next),
    }
}

// The row by which an output sends the message at this place.
fn send_row(guard: GuardId, message: u8) -> Row
    ensures { result ≡ spec.send_row guard message }
{
    Row {
        at: Place::Comm(guard.state),
        on: Trigger::Send(guard.guard),
        puts: Puts::Request(message),
        does: Does::Nothing,
        to: Place::Trans(guard),
    }
}

// The row of the answer to the request of an output: an ack, or the reply of its message.
fn answered_row(body: &Body, guard: GuardId, rule: &Rule, reply: Option<u8>) -> Row
    ensures { result ≡ spec.answered_row body.now guard rule.now reply }
{
    match reply {
        None => Row {
            at: Place::Trans(guard),
            on: Trigger::GotAck,
            puts: Puts::Nothing,
            does: Does::One(guard),
            to: Place::Comm(rule.next),
        },
        Some(reply) => Row {
            at: Place::Trans(guard),
            on: Trigger::GotReply(reply),
            puts: Puts::Nothing,
            does: Does::Two(guard, only_guard(rule.next)),
            to: Place::Comm(next_of_first(body, rule.next)),
        },
    }
}

/// The first guard of a state, which is its only one where it sends or awaits a reply.
pub(crate) fn only_guard(state: u8) -> GuardId
    ensures { result ≡ spec.guard_id state 0 }
{
    GuardId { state, guard: 0 }
}

/// The row by which a process, whose request was not granted, stands again where it was.
pub fn back_row(guard: GuardId, on: Trigger) -> Row
    ensures { result ≡ spec.back_row guard on }
{
    Row {
        at: Place::Trans(guard),
        on,
        puts: Puts::Nothing,
        does: Does::Nothing,
        to: Place::Comm(guard.state),
    }
}

/// Pushes the rows that an output of the message at this place has on both sides: its request is
/// sent, answered, or nacked.
pub fn push_sending(
    rows: &mut Items<Row>,
    of: &PairedBody,
    guard: GuardId,
    rule: &Rule,
    message: u8,
) -> Result<(), NoMemory>
    ensures { OnOk result (rows.new ≡ rows.old ++ spec.send_row guard message
        ∷ spec.answered_row of.now.body.now guard rule.now
        (spec.reply_at of.now.replies.now message)
        ∷ spec.back_row guard trigger.GotNack ∷ []) }
{
    rows.push(send_row(guard, message))?;
    rows.push(answered_row(of.body, guard, rule, of.reply(message)))?;
    rows.push(back_row(guard, Trigger::GotNack))
}
