//! The least code of an item.

ghost use Rattle.std.specs.Prelude.{◌≡◌, ◌<◌, ◌||◌, map, length, IfNone};
ghost use Rattle.std.specs.List.{list_any};
ghost use Rattle.proto_model.specs.Faults as spec;
ghost use Rattle.star_check.specs.Scopes.{scope_seen};

use crate::declared::{Declaration, Declared};
use crate::fault::{
    ACTIVE_CONDITION, ACTIVE_MIXED, BAD_NUMBER, DUPLICATE, NAME_TOO_LONG, NOT_STAR, TOO_MANY,
    UNKNOWN, WRONG_DIRECTION, WRONG_TYPE,
};
use crate::large_numbers::{is_large_claim, is_large_guard};
use crate::scope::Scope;
use proto_model::{
    Carry, Claim, Guard, GuardKind, Initial, Message, Name, Partner, Side, State, Var, VarKind,
};

// How long a declared name may be, in bytes.
const LONGEST_NAME: usize = 32;
// How many messages a protocol may have.
const MOST_MESSAGES: usize = 64;
// How many states a process may have.
const MOST_STATES: usize = 64;
// How many variables a process may have.
const MOST_VARS: usize = 16;
// How many guards a state may have.
const MOST_GUARDS: usize = 16;
// How many conditions a guard may have, and how many assignments.
const MOST_PARTS: usize = 8;
// How many claims a protocol may have.
const MOST_CLAIMS: usize = 16;
// How many states a claim may name.
const MOST_NAMED: usize = 64;

/// The code of the declared name.
pub(crate) fn name_code(name: &Name) -> Option<u8>
    ensures { result ≡ spec.first (spec.name_codes name.now) }
{
    if name.bytes().len() > LONGEST_NAME {
        Some(NAME_TOO_LONG)
    } else {
        None
    }
}

fn declaration_code<T: Declaration>(
    declared: &Declared<T>,
    most: usize,
    place: usize,
    name: &Name,
) -> Option<u8>
    ensures code { result ≡ spec.first (spec.declaration_codes most (map T.name_of declared.now)
        place name.now) }
    ensures few { IfNone result (place < most) }
{
    if place >= most {
        return Some(TOO_MANY);
    }
    if let Some(code) = name_code(name) {
        return Some(code);
    }
    if declared.has_before(place, name) {
        return Some(DUPLICATE);
    }
    None
}

fn is_bad_bound(bound: u32) -> bool
    ensures { result ≡ spec.is_bad_bound bound }
{
    bound < 2 || bound > 65536
}

fn is_bad_carry(carries: Carry) -> bool
    ensures { result ≡ spec.is_bad_carry carries }
{
    match carries {
        Carry::Int(bound) => is_bad_bound(bound),
        Carry::Nothing | Carry::Node | Carry::Set => false,
    }
}

/// The least code of the message at this place.
pub(crate) fn message_code(
    messages: &Declared<Message>,
    place: usize,
    message: &Message,
) -> Option<u8>
    ensures code { result ≡ spec.first (spec.message_codes messages.now place message.now) }
    ensures few { IfNone result (place < 64) }
{
    if let Some(code) = declaration_code(messages, MOST_MESSAGES, place, &message.name) {
        return Some(code);
    }
    if is_bad_carry(message.carries) {
        return Some(BAD_NUMBER);
    }
    None
}

fn is_first_of(kind: VarKind, first: Initial) -> bool
    ensures { result ≡ spec.is_first_of kind first }
{
    match kind {
        VarKind::Int(_) => match first {
            Initial::Number(_) => true,
            Initial::Nowhere | Initial::Empty => false,
        },
        VarKind::Node => match first {
            Initial::Nowhere => true,
            Initial::Number(_) | Initial::Empty => false,
        },
        VarKind::Set => match first {
            Initial::Empty => true,
            Initial::Number(_) | Initial::Nowhere => false,
        },
    }
}

fn is_bad_number(kind: VarKind, first: Initial) -> bool
    ensures { result ≡ (spec.is_bad_kind kind || spec.is_past_bound kind first) }
{
    match kind {
        VarKind::Int(bound) => match first {
            Initial::Number(number) => is_bad_bound(bound) || number >= bound,
            Initial::Nowhere | Initial::Empty => is_bad_bound(bound),
        },
        VarKind::Node | VarKind::Set => false,
    }
}

/// The least code of the variable at this place.
pub(crate) fn var_code(vars: &Declared<Var>, place: usize, var: &Var) -> Option<u8>
    ensures code { result ≡ spec.first (spec.var_codes vars.now place var.now) }
    ensures few { IfNone result (place < 16) }
{
    if let Some(code) = declaration_code(vars, MOST_VARS, place, &var.name) {
        return Some(code);
    }
    if !is_first_of(var.kind, var.first) {
        return Some(WRONG_TYPE);
    }
    if is_bad_number(var.kind, var.first) {
        return Some(BAD_NUMBER);
    }
    None
}

/// The code of the start of a process.
pub(crate) fn start_code(states: &Declared<State>, start: &Name) -> Option<u8>
    ensures { result ≡ spec.first (spec.start_codes states.now start.now) }
{
    if states.has(start) {
        None
    } else {
        Some(UNKNOWN)
    }
}

fn is_output(kind: &GuardKind) -> bool
    ensures { result ≡ spec.is_output_action kind.now }
{
    match kind {
        GuardKind::Output(_, _, _) => true,
        GuardKind::Tau | GuardKind::Input(_, _, _) => false,
    }
}

fn has_output(guards: &[Guard]) -> bool
    ensures { result ≡ list_any (λ g. spec.is_output_action g.kind) guards.now }
{
    guards.iter().any(|guard| is_output(&guard.kind))
}

fn is_mixed(side: Side, guards: &[Guard]) -> bool
    ensures { result ≡ spec.is_mixed side guards.now }
{
    match side {
        Side::Home => false,
        Side::Remote => has_output(guards) && guards.len() > 1,
    }
}

/// The least code of the state at this place, apart from its guards.
pub(crate) fn state_code(
    side: Side,
    states: &Declared<State>,
    place: usize,
    state: &State,
) -> Option<u8>
    ensures code { result ≡ spec.first (spec.state_codes side states.now place state.now) }
    ensures few { IfNone result (place < 64) }
{
    if let Some(code) = declaration_code(states, MOST_STATES, place, &state.name) {
        return Some(code);
    }
    if is_mixed(side, state.guards.as_slice()) {
        return Some(ACTIVE_MIXED);
    }
    None
}

fn is_star_partner(side: Side, partner: &Partner) -> bool
    ensures { result ≡ spec.is_star_partner side partner.now }
{
    match side {
        Side::Home => match partner {
            Partner::Home => false,
            Partner::Any(_) | Partner::Member(_, _) | Partner::Named(_) => true,
        },
        Side::Remote => match partner {
            Partner::Home => true,
            Partner::Any(_) | Partner::Member(_, _) | Partner::Named(_) => false,
        },
    }
}

fn is_star(side: Side, kind: &GuardKind) -> bool
    ensures { result ≡ spec.is_star side kind.now }
{
    match kind {
        GuardKind::Tau => true,
        GuardKind::Input(partner, _, _) | GuardKind::Output(partner, _, _) => {
            is_star_partner(side, partner)
        }
    }
}

fn is_conditioned_output(side: Side, guard: &Guard) -> bool
    ensures { result ≡ spec.is_conditioned_output side guard.now }
{
    match side {
        Side::Home => false,
        Side::Remote => is_output(&guard.kind) && !guard.conds.as_slice().is_empty(),
    }
}

fn is_guard_too_many(place: usize, guard: &Guard) -> bool
    ensures { result ≡ spec.is_guard_too_many place guard.now }
{
    place >= MOST_GUARDS
        || guard.conds.as_slice().len() > MOST_PARTS
        || guard.assigns.as_slice().len() > MOST_PARTS
}

/// The least code of the guard at this place of its state.
pub(crate) fn guard_code(scope: &Scope, place: usize, guard: &Guard) -> Option<u8>
    ensures code { result ≡ spec.first (spec.guard_codes (scope_seen scope.now) place guard.now) }
    ensures few { IfNone result (place < 16) }
{
    if is_guard_too_many(place, guard) {
        return Some(TOO_MANY);
    }
    if !scope.knows_guard(guard) {
        return Some(UNKNOWN);
    }
    if !scope.guard_agrees(guard) {
        return Some(WRONG_TYPE);
    }
    if !scope.is_directed(&guard.kind) {
        return Some(WRONG_DIRECTION);
    }
    if !is_star(scope.side, &guard.kind) {
        return Some(NOT_STAR);
    }
    if is_conditioned_output(scope.side, guard) {
        return Some(ACTIVE_CONDITION);
    }
    if is_large_guard(guard) {
        return Some(BAD_NUMBER);
    }
    None
}

fn is_claim_too_many(place: usize, claim: &Claim) -> bool
    ensures { result ≡ spec.is_claim_too_many place claim.now }
{
    match claim {
        Claim::AtMost(_, states) => { place >= MOST_CLAIMS || states.as_slice().len() > MOST_NAMED }
        Claim::Apart(_, _) => place >= MOST_CLAIMS,
    }
}

/// The least code of the claim at this place, whose states are those of a remote.
pub(crate) fn claim_code(states: &Declared<State>, place: usize, claim: &Claim) -> Option<u8>
    ensures code { result ≡ spec.first (spec.claim_codes states.now place claim.now) }
    ensures few { IfNone result (place < 16) }
{
    if is_claim_too_many(place, claim) {
        return Some(TOO_MANY);
    }
    if !states.knows_claim(claim) {
        return Some(UNKNOWN);
    }
    if is_large_claim(claim) {
        return Some(BAD_NUMBER);
    }
    None
}
