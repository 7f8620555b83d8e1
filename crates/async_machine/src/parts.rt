//! Where a process stands after it has completed guards.

ghost use Rattle.std.specs.Prelude.{◌≡◌};
ghost use Rattle.proto_model.specs.Guards as guards;
ghost use Rattle.proto_model.specs.Proper.{AreProperKinds};
ghost use Rattle.controller_table.specs.Sound.{protocol_of};
ghost use Rattle.async_shape.specs.Guards as spec;
ghost use Rattle.std.specs.Option.{option_map};
ghost use Rattle.async_machine.specs.Moves.{going};

use crate::controls::{home_body, home_guard, remote_body, remote_guard};
use controller_table::{GuardId, Table};
use proto_model::{Body, Part, Rule, Value, Vars, complete, guards_of};

// The process after it has completed the guard, which goes to this state.
fn after_guard(body: &Body, vars: &Vars, guard: (&Rule, u8), partner: u8, value: Value) -> Part
    requires { AreProperKinds body.now.vars }
    ensures { result ≡ guards.after_guard body.now vars.now guard.entry.0.now guard.entry.1 partner
        value }
{
    let (rule, next) = guard;
    let mut vars = *vars;
    complete(rule, body.vars.as_slice(), &mut vars, partner, value);
    Part { state: next, vars }
}

/// The home after it has completed the guard, which goes to this state, with this partner and this
/// value.
pub(crate) fn home_after(
    table: &Table,
    vars: &Vars,
    guard: (&Rule, u8),
    partner: u8,
    value: Value,
) -> Part
    ensures { result ≡ guards.after_guard (protocol_of table.now).home vars.now guard.entry.0.now
        guard.entry.1 partner value }
{
    after_guard(home_body(table), vars, guard, partner, value)
}

/// A remote after it has completed the guard, which goes to this state, with this value.
pub(crate) fn remote_after(table: &Table, vars: &Vars, guard: (&Rule, u8), value: Value) -> Part
    ensures { result ≡ guards.after_guard (protocol_of table.now).remote vars.now guard.entry.0.now
        guard.entry.1 0 value }
{
    after_guard(remote_body(table), vars, guard, 0, value)
}

/// The home, with these variables, after an ack to the request that it sent by the guard `g` to
/// remote `partner`: it has completed the guard. None where the table has no such guard.
pub fn home_after_ack(table: &Table, vars: &Vars, g: GuardId, partner: u8) -> Option<Part>
    ensures { result ≡ spec.after_ack (protocol_of table.now).home vars.now g partner }
{
    let guard = home_guard(table, g.state, g.guard as usize)?;
    Some(home_after(table, vars, guard, partner, Value::Unit))
}

/// A remote, with these variables, after an ack to the request that it sent by the guard `g`: it
/// has completed the guard. None where the table has no such guard.
pub fn remote_after_ack(table: &Table, vars: &Vars, g: GuardId) -> Option<Part>
    ensures { result ≡ spec.after_ack (protocol_of table.now).remote vars.now g 0 }
{
    let guard = remote_guard(table, g.state, g.guard as usize)?;
    Some(remote_after(table, vars, guard, Value::Unit))
}

// The only guard of the home's state.
fn home_only(table: &Table, state: u8) -> Option<(&Rule, u8)>
    ensures { option_map (λ x. going x.0.now x.1) result
        ≡ guards.only_of (guards.guards_of (protocol_of table.now).home state) }
{
    if guards_of(home_body(table), state).len() != 1 {
        return None;
    }
    home_guard(table, state, 0)
}

// The only guard of the remote's state.
fn remote_only(table: &Table, state: u8) -> Option<(&Rule, u8)>
    ensures { option_map (λ x. going x.0.now x.1) result
        ≡ guards.only_of (guards.guards_of (protocol_of table.now).remote state) }
{
    if guards_of(remote_body(table), state).len() != 1 {
        return None;
    }
    remote_guard(table, state, 0)
}

/// The home, with these variables, after a reply with this value to the request that it sent by the
/// guard `g` to remote `partner`: it has completed the guard, and then, with the value, the only
/// guard of the next state. None where the table has no such guards.
pub fn home_after_reply(
    table: &Table,
    vars: &Vars,
    g: GuardId,
    partner: u8,
    value: Value,
) -> Option<Part>
    ensures { result ≡ spec.after_reply (protocol_of table.now).home vars.now g partner value }
{
    let first = home_after_ack(table, vars, g, partner)?;
    let second = home_only(table, first.state)?;
    Some(home_after(table, &first.vars, second, partner, value))
}

/// A remote, with these variables, after a reply with this value to the request that it sent by the
/// guard `g`: it has completed the guard, and then, with the value, the only guard of the next
/// state. None where the table has no such guards.
pub fn remote_after_reply(table: &Table, vars: &Vars, g: GuardId, value: Value) -> Option<Part>
    ensures { result ≡ spec.after_reply (protocol_of table.now).remote vars.now g 0 value }
{
    let first = remote_after_ack(table, vars, g)?;
    let second = remote_only(table, first.state)?;
    Some(remote_after(table, &first.vars, second, value))
}
