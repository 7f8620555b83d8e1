//! The guards of a state, and what each of them does, gives or accepts. Nothing here looks at where
//! a guard leads, so all of it holds of guards that don't say it as well.

ghost use Rattle.std.specs.Prelude.{◌≡◌, ◌&&◌, option_copied};
ghost use Rattle.std.specs.List.{AllByRecursion};
ghost use Rattle.proto_model.specs.Guards as guards;
ghost use Rattle.proto_model.specs.Proper.{IsProperCarry, is_output_kind};
ghost use Rattle.proto_model.specs.RendezvousNext as next;
ghost use Rattle.proto_model.specs.Values.{is_open};

use crate::numbered::{Body, MessageInfo, Rule, RuleKind, Value};
use crate::values::{Vars, guard_open, send_value};

/// The guards of the state at this place of the body, counted from 0, in file order. None of them
/// past the last state.
pub fn guards_of(body: &Body, state: u8) -> &[Rule]
    ensures { result.now ≡ guards.guards_of body.now state }
{
    match body.states.as_slice().get(state as usize) {
        Some(info) => info.rules.as_slice(),
        None => &[],
    }
}

/// The guard with this number in the state at this place, both counted from 0. `None` where there
/// is no such state, or no such guard in it.
pub fn guard_at(body: &Body, state: u8, number: usize) -> Option<&Rule>
    ensures { option_copied result ≡ guards.guard_at body.now state number }
{
    let info = body.states.as_slice().get(state as usize)?;
    info.rules.as_slice().get(number)
}

/// Whether the guard is a local step that is open with these variables.
pub fn is_open_tau(rule: &Rule, vars: &Vars) -> bool
    ensures { result ≡ (next.is_tau rule.now.kind && is_open vars.now rule.now) }
{
    matches!(rule.kind, RuleKind::Tau) && guard_open(rule, vars)
}

/// Whether the guard is an output.
pub fn is_output(rule: &Rule) -> bool
    ensures { result ≡ is_output_kind rule.now.kind }
{
    matches!(rule.kind, RuleKind::Output(_, _, _))
}

/// The place of the message that the guard gives among these messages, and the value that it gives
/// with it, by these variables. `None` where the guard is no output, and where there is no message
/// at its place. Whether the guard is open isn't asked.
pub fn given(messages: &[MessageInfo], rule: &Rule, vars: &Vars) -> Option<(u8, Value)>
    requires { AllByRecursion (λ m. IsProperCarry m.carries) messages.now }
    ensures { result ≡ next.given messages.now vars.now rule.now.kind }
{
    let RuleKind::Output(_, place, _) = rule.kind else {
        return None;
    };
    let message = messages.get(place as usize)?;
    Some((place, send_value(rule, vars, message.carries)))
}

/// Whether the guard is an input of the message at this place that is open with these variables.
pub fn accepts(rule: &Rule, vars: &Vars, message: u8) -> bool
    ensures { result ≡ next.accepts vars.now rule.now message }
{
    match rule.kind {
        RuleKind::Input(_, place, _) => place == message && guard_open(rule, vars),
        RuleKind::Tau | RuleKind::Output(_, _, _) => false,
    }
}
