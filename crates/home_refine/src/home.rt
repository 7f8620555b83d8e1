//! The rows of the home.

ghost use Rattle.std.specs.Prelude.{◌≡◌, ◌++◌, IfOk, OnOk};
ghost use Rattle.proto_model.specs.Proper.{IsProperBody};
ghost use Rattle.proto_model.specs.declared.numbered.Side.TheVariants as side;
ghost use Rattle.request_reply.specs.Pairs.{replies_in};
ghost use Rattle.controller_table.specs.Rows as spec;

use controller_table::{Does, GuardId, Place, Puts, Row, Trigger};
use proto_model::{Rule, RuleKind, StateInfo};
use remote_refine::{
    GuardRows, PairedBody, StateRows, all_replies, back_row, push_guards, push_sending,
    push_states, tau_row,
};
use request_reply::Pairs;
use rv_base::{Items, NoMemory};
use star_check::Checked;
use std::alloc::Global;

// The row by which the home takes a request, the message at this place, by an input.
fn take_row(of: &PairedBody, guard: GuardId, rule: &Rule, message: u8) -> Row
    ensures { result ≡ spec.take_row guard rule.now (spec.reply_at of.now.replies.now message) }
{
    let puts = match of.reply(message) {
        None => Puts::Ack,
        Some(reply) => Puts::Owe(reply),
    };
    Row {
        at: Place::Comm(guard.state),
        on: Trigger::Take(guard.guard),
        puts,
        does: Does::One(guard),
        to: Place::Comm(rule.next),
    }
}

// The row by which the home pays the reply that it owes, the message at this place.
fn pay_row(guard: GuardId, rule: &Rule, message: u8) -> Row
    ensures { result ≡ spec.pay_row guard rule.now message }
{
    Row {
        at: Place::Comm(guard.state),
        on: Trigger::Pay(guard.guard),
        puts: Puts::Reply(message),
        does: Does::One(guard),
        to: Place::Comm(rule.next),
    }
}

// The rows of an output of the message at this place.
fn push_output(
    rows: &mut Items<Row>,
    of: &PairedBody,
    guard: GuardId,
    rule: &Rule,
    message: u8,
) -> Result<(), NoMemory>
    ensures { OnOk result (rows.new ≡ rows.old ++ spec.home_output_rows of.now.messages.now
        of.now.replies.now of.now.body.now guard rule.now message) }
{
    push_sending(rows, of, guard, rule, message)?;
    rows.push(back_row(guard, Trigger::GotRequest))?;
    if of.is_reply_down(message) {
        rows.push(pay_row(guard, rule, message))?;
    }
    Ok(())
}

// The controller of the home.
struct HomeRows;

impl GuardRows for HomeRows {
    ghost guard_rows = { λ messages replies body g rule.
        spec.home_action_rows messages replies body g rule rule.kind };

    fn push_guard(
        rows: &mut Items<Row>,
        of: &PairedBody,
        guard: GuardId,
        rule: &Rule,
    ) -> Result<(), NoMemory> {
        match rule.kind {
            RuleKind::Tau => rows.push(tau_row(guard, rule)),
            RuleKind::Input(_, message, _) => rows.push(take_row(of, guard, rule, message)),
            RuleKind::Output(_, message, _) => push_output(rows, of, guard, rule, message),
        }
    }
}

impl StateRows for HomeRows {
    ghost side = { side.Home };

    ghost state_rows = { spec.home_state_rows };

    fn push_state(
        rows: &mut Items<Row>,
        of: &PairedBody,
        state: u8,
        info: &StateInfo,
    ) -> Result<(), NoMemory> {
        push_guards::<HomeRows>(rows, of, state, info)
    }
}

/// The rows of the controller of the home, whose body this is beside the messages of its protocol
/// and their replies. They stand in the order of its states and of their guards. Want of memory
/// alone may keep them from coming.
pub fn home_rows_of(alloc: Global, of: &PairedBody) -> Result<Items<Row>, NoMemory>
    requires { IsProperBody side.Home of.now.messages.now of.now.body.now }
    ensures { IfOk result (λ rows. rows
        ≡ spec.home_rows_of of.now.messages.now of.now.replies.now of.now.body.now) }
{
    let mut rows = Items::new(alloc);
    push_states::<HomeRows>(&mut rows, of)?;
    Ok(rows)
}

/// The rows of the controller of the home, where the pairs give each message its reply. They stand
/// in the order of its states and of their guards. Want of memory alone may keep them from coming.
pub fn home_rows(alloc: Global, checked: &Checked, pairs: &Pairs) -> Result<Items<Row>, NoMemory>
    ensures { IfOk result (λ rows. rows
        ≡ spec.home_rows_of checked.now.protocol.messages (replies_in pairs.now)
        checked.now.protocol.home) }
{
    let replies = all_replies(alloc, pairs)?;
    let of = PairedBody {
        messages: checked.messages(),
        replies: replies.as_slice(),
        body: checked.home(),
    };
    home_rows_of(alloc, &of)
}
