//! The rows of a remote.

ghost use Rattle.std.specs.Prelude.{◌≡◌, ◌++◌, IfOk, OnOk};
ghost use Rattle.proto_model.specs.Proper.{IsProperBody};
ghost use Rattle.proto_model.specs.declared.numbered.Side.TheVariants as side;
ghost use Rattle.request_reply.specs.Pairs.{replies_in};
ghost use Rattle.controller_table.specs.Rows as spec;

use crate::both_sides::{only_guard, push_sending, tau_row};
use crate::paired_body::PairedBody;
use crate::replies::all_replies;
use crate::states::{GuardRows, StateRows, push_guards, push_states};
use controller_table::{Does, GuardId, Place, Puts, Row, Trigger};
use proto_model::{Rule, RuleKind, StateInfo, is_output};
use request_reply::Pairs;
use rv_base::{Items, NoMemory};
use star_check::Checked;
use std::alloc::Global;

// The row by which a remote that is due sends the reply.
fn due_row(guard: GuardId, rule: &Rule, message: u8) -> Row
    ensures { result ≡ spec.due_row guard rule.now message }
{
    Row {
        at: Place::Due(guard),
        on: Trigger::Send(guard.guard),
        puts: Puts::Reply(message),
        does: Does::One(guard),
        to: Place::Comm(rule.next),
    }
}

// The row by which an input answers a request, the message at this place.
fn answer_row(of: &PairedBody, guard: GuardId, rule: &Rule, message: u8) -> Row
    ensures { result ≡ spec.answer_row guard rule.now (spec.reply_at of.now.replies.now message) }
{
    let (puts, to) = match of.reply(message) {
        None => (Puts::Ack, Place::Comm(rule.next)),
        Some(_) => (Puts::Nothing, Place::Due(only_guard(rule.next))),
    };
    Row {
        at: Place::Comm(guard.state),
        on: Trigger::Answer(guard.guard),
        puts,
        does: Does::One(guard),
        to,
    }
}

// The row by which a remote in a passive state refuses a request that no input takes.
fn last_row(state: u8) -> Row
    ensures { result ≡ spec.last_row state }
{
    Row {
        at: Place::Comm(state),
        on: Trigger::AnswerNone,
        puts: Puts::Nack,
        does: Does::Nothing,
        to: Place::Comm(state),
    }
}

// The rows of an output of the message at this place.
fn push_output(
    rows: &mut Items<Row>,
    of: &PairedBody,
    guard: GuardId,
    rule: &Rule,
    message: u8,
) -> Result<(), NoMemory>
    ensures { OnOk result (rows.new ≡ rows.old ++ spec.remote_output_rows of.now.messages.now
        of.now.replies.now of.now.body.now guard rule.now message) }
{
    push_sending(rows, of, guard, rule, message)?;
    if of.is_reply_up(message) {
        rows.push(due_row(guard, rule, message))?;
    }
    Ok(())
}

// Some guard is an output.
fn is_active(info: &StateInfo) -> bool
    ensures { result ≡ spec.is_active info.now }
{
    info.rules.as_slice().iter().any(|rule| is_output(rule))
}

// The controller of a remote.
struct RemoteRows;

impl GuardRows for RemoteRows {
    ghost guard_rows = { λ messages replies body g rule.
        spec.remote_action_rows messages replies body g rule rule.kind };

    fn push_guard(
        rows: &mut Items<Row>,
        of: &PairedBody,
        guard: GuardId,
        rule: &Rule,
    ) -> Result<(), NoMemory> {
        match rule.kind {
            RuleKind::Tau => rows.push(tau_row(guard, rule)),
            RuleKind::Input(_, message, _) => rows.push(answer_row(of, guard, rule, message)),
            RuleKind::Output(_, message, _) => push_output(rows, of, guard, rule, message),
        }
    }
}

impl StateRows for RemoteRows {
    ghost side = { side.Remote };

    ghost state_rows = { spec.remote_state_rows };

    fn push_state(
        rows: &mut Items<Row>,
        of: &PairedBody,
        state: u8,
        info: &StateInfo,
    ) -> Result<(), NoMemory> {
        push_guards::<RemoteRows>(rows, of, state, info)?;
        if !is_active(info) {
            rows.push(last_row(state))?;
        }
        Ok(())
    }
}

/// The rows of the controller of a remote, whose body this is beside the messages of its protocol
/// and their replies. They stand in the order of its states and of their guards. Want of memory
/// alone may keep them from coming.
pub fn remote_rows_of(alloc: Global, of: &PairedBody) -> Result<Items<Row>, NoMemory>
    requires { IsProperBody side.Remote of.now.messages.now of.now.body.now }
    ensures { IfOk result (λ rows. rows
        ≡ spec.remote_rows_of of.now.messages.now of.now.replies.now of.now.body.now) }
{
    let mut rows = Items::new(alloc);
    push_states::<RemoteRows>(&mut rows, of)?;
    Ok(rows)
}

/// The rows of the controller of a remote, where the pairs give each message its reply. They stand
/// in the order of its states and of their guards. Want of memory alone may keep them from coming.
pub fn remote_rows(alloc: Global, checked: &Checked, pairs: &Pairs) -> Result<Items<Row>, NoMemory>
    ensures { IfOk result (λ rows. rows
        ≡ spec.remote_rows_of checked.now.protocol.messages (replies_in pairs.now)
        checked.now.protocol.remote) }
{
    let replies = all_replies(alloc, pairs)?;
    let of = PairedBody {
        messages: checked.messages(),
        replies: replies.as_slice(),
        body: checked.remote(),
    };
    remote_rows_of(alloc, &of)
}
