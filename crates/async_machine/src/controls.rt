//! What the machine asks of its table. A guard is found in the body of its process, which doesn't
//! say where it goes; the rows tell that, and one row is looked up for it.

ghost use Rattle.std.specs.Prelude.{◌≡◌, ◌<◌, ◌≤◌, length, IfSome, Some, option_copied};
ghost use Rattle.std.specs.List.{AllByRecursion};
ghost use Rattle.std.specs.Option.{option_map, option_map_or};
ghost use Rattle.proto_model.specs.Guards as guards;
ghost use Rattle.proto_model.specs.Guards.{bare_body};
ghost use Rattle.proto_model.specs.Pairs.{reply_of};
ghost use Rattle.proto_model.specs.Proper.{AreProperKinds, IsProperCarry};
ghost use Rattle.proto_model.specs.RendezvousNext as next;
ghost use Rattle.proto_model.specs.declared.numbered.Rule.{Rule as ARule};
ghost use Rattle.controller_table.specs.Sound.{IsSound, protocol_of};
ghost use Rattle.controller_table.specs.Sound as sound;
ghost use Rattle.controller_table.specs.Rows.{reply_at};
ghost use Rattle.async_shape.specs.Guards.{guard_by};
ghost use Rattle.async_machine.specs.Keys as keys;
ghost use Rattle.async_machine.specs.Moves.{going};

use controller_table::{Does, GuardId, Place, Row, Table, Trigger};
use proto_model::{Body, MessageInfo, Rule, RuleKind, Value, Vars, given as given_among, guard_at};

/// The body of the home, whose guards don't say where they go.
pub(crate) fn home_body(table: &Table) -> &Body
    ensures bare { result.now ≡ bare_body (protocol_of table.now).home }
    ensures kinds { AreProperKinds result.now.vars }
    ensures few { length result.now.vars ≤ 16 }
    ensures sound { IsSound table.now }
{
    let home = table.home();
    &home.body
}

/// The body of each remote, whose guards don't say where they go.
pub(crate) fn remote_body(table: &Table) -> &Body
    ensures bare { result.now ≡ bare_body (protocol_of table.now).remote }
    ensures kinds { AreProperKinds result.now.vars }
    ensures few { length result.now.vars ≤ 16 }
    ensures sound { IsSound table.now }
{
    let remote = table.remote();
    &remote.body
}

// The reply of the message among all replies.
fn reply_among(replies: &[Option<u8>], message: u8) -> Option<u8>
    ensures { result ≡ reply_at replies.now message }
{
    match replies.get(message as usize) {
        Some(reply) => *reply,
        None => None,
    }
}

/// The message that is the reply to this one; none where it is answered by an ack.
pub(crate) fn reply_of(table: &Table, message: u8) -> Option<u8>
    ensures { result ≡ reply_of (protocol_of table.now) table.now.mode message }
{
    reply_among(table.replies(), message)
}

// The place and the trigger of the row that completes the output when its request is answered.
fn answered_key(g: GuardId, reply: Option<u8>) -> (Place, Trigger)
    ensures { result ≡ keys.answered_key g reply }
{
    match reply {
        None => (Place::Trans(g), Trigger::GotAck),
        Some(p) => (Place::Trans(g), Trigger::GotReply(p)),
    }
}

fn home_key(replies: &[Option<u8>], g: GuardId, kind: RuleKind) -> (Place, Trigger)
    ensures { result ≡ keys.home_key replies.now g kind }
{
    match kind {
        RuleKind::Tau => (Place::Comm(g.state), Trigger::Tau(g.guard)),
        RuleKind::Input(_, _, _) => (Place::Comm(g.state), Trigger::Take(g.guard)),
        RuleKind::Output(_, m, _) => answered_key(g, reply_among(replies, m)),
    }
}

fn remote_key(replies: &[Option<u8>], g: GuardId, kind: RuleKind) -> (Place, Trigger)
    ensures { result ≡ keys.remote_key replies.now g kind }
{
    match kind {
        RuleKind::Tau => (Place::Comm(g.state), Trigger::Tau(g.guard)),
        RuleKind::Input(_, _, _) => (Place::Comm(g.state), Trigger::Answer(g.guard)),
        RuleKind::Output(_, m, _) => answered_key(g, reply_among(replies, m)),
    }
}

fn state_of(place: Place) -> u8
    ensures { result ≡ sound.state_of place }
{
    match place {
        Place::Comm(state) => state,
        Place::Trans(g) => g.state,
        Place::Due(g) => g.state,
    }
}

// The state to which the first guard goes that the row completes.
fn goes_to(does: Does, to: Place) -> u8
    ensures { result ≡ sound.goes_to does to }
{
    match does {
        Does::Nothing => state_of(to),
        Does::One(_) => state_of(to),
        Does::Two(_, second) => second.state,
    }
}

// The state that the row tells, if there is one.
fn next_told(row: Option<&Row>) -> u8
    ensures { result ≡ option_map_or (λ row. sound.goes_to row.does row.to)
        (option_copied row.entry) 0 }
{
    match row {
        Some(row) => goes_to(row.does, row.to),
        None => 0,
    }
}

// The state to which this guard of the home goes, where the guard is of this kind.
fn home_next(table: &Table, g: GuardId, kind: RuleKind) -> u8
    ensures { (rule : ARule) → guard_by (protocol_of table.now).home g ≡ Some rule
        → rule.kind ≡ kind → result ≡ rule.next }
{
    let (at, on) = home_key(table.replies(), g, kind);
    next_told(table.home_row(at, on))
}

// The state to which this guard of a remote goes, where the guard is of this kind.
fn remote_next(table: &Table, g: GuardId, kind: RuleKind) -> u8
    ensures { (rule : ARule) → guard_by (protocol_of table.now).remote g ≡ Some rule
        → rule.kind ≡ kind → result ≡ rule.next }
{
    let (at, on) = remote_key(table.replies(), g, kind);
    next_told(table.remote_row(at, on))
}

/// The guard with this number, counted from 0, in the state of the home, and the state to which it
/// goes. None where there is no such guard; the number of a guard is below 16.
pub fn home_guard(table: &Table, state: u8, number: usize) -> Option<(&Rule, u8)>
    ensures value { option_map (λ x. going x.0.now x.1) result
        ≡ guards.guard_at (protocol_of table.now).home state number }
    ensures few { IfSome result (λ x. number < 16) }
{
    let rule = guard_at(home_body(table), state, number)?;
    let g = GuardId {
        state,
        guard: number as u8,
    };
    Some((rule, home_next(table, g, rule.kind)))
}

/// The guard with this number, counted from 0, in the state of a remote, and the state to which it
/// goes. None where there is no such guard; the number of a guard is below 16.
pub fn remote_guard(table: &Table, state: u8, number: usize) -> Option<(&Rule, u8)>
    ensures value { option_map (λ x. going x.0.now x.1) result
        ≡ guards.guard_at (protocol_of table.now).remote state number }
    ensures few { IfSome result (λ x. number < 16) }
{
    let rule = guard_at(remote_body(table), state, number)?;
    let g = GuardId {
        state,
        guard: number as u8,
    };
    Some((rule, remote_next(table, g, rule.kind)))
}

/// The number of the message that the guard gives, and its value, by these variables. None where
/// the guard is no output, and where the table has no such message.
pub fn given(table: &Table, rule: &Rule, vars: &Vars) -> Option<(u8, Value)>
    ensures { result ≡ next.given table.now.messages vars.now rule.now.kind }
{
    given_among(proper_messages(table), rule, vars)
}

// The messages of the table.
fn proper_messages(table: &Table) -> &[MessageInfo]
    ensures value { result.now ≡ table.now.messages }
    ensures carries { AllByRecursion (λ m. IsProperCarry m.carries) result.now }
{
    table.messages()
}
