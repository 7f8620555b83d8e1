//! Which guard a process takes, and what becomes of a request that comes to the home.

ghost use Rattle.std.specs.Prelude.{◌≡◌, length, IsTrue, option_copied};
ghost use Rattle.std.specs.List.{position, list_any, range_with_len};
ghost use Rattle.std.specs.Option.{option_map};
ghost use Rattle.proto_model.specs.Guards.{guards_of as spec_guards_of};
ghost use Rattle.proto_model.specs.NumberSets.{has_number as has_member};
ghost use Rattle.proto_model.specs.Proper.{is_output_kind};
ghost use Rattle.proto_model.specs.RendezvousNext.{accepts as spec_accepts};
ghost use Rattle.proto_model.specs.Values as values;
ghost use Rattle.controller_table.specs.Sound.{protocol_of};
ghost use Rattle.slot_reserve.specs.Requests.{first_of};
ghost use Rattle.async_shape.specs.Guards as guards;
ghost use Rattle.async_shape.specs.HomeSteps as steps;
ghost use Rattle.async_shape.specs.Requests as requests;
ghost use Rattle.async_shape.specs.Setting.{Setting};
ghost use Rattle.async_machine.specs.Moves.{chosen};

use crate::controls::{home_body, home_guard, remote_body, remote_guard};
use async_shape::{HomePlace, HomeState, RemoteState};
use controller_table::{Place, Table};
use proto_model::{
    Body, Rule, RuleKind, RulePartner, Value, Vars, accepts, guard_open, guards_of, is_output,
    is_target,
};
use slot_reserve::Held;

/// A guard that was chosen: its number in its state, the guard, and the state to which it goes.
pub(crate) type Chosen<'a> = (u8, (&'a Rule, u8));

// ---- the home

/// The communication state in which the home is or, while it waits, which it has left.
pub(crate) fn state_of_home(place: HomePlace) -> u8
    ensures { result ≡ requests.state_of_home place }
{
    match place {
        HomePlace::Idle(state) => state,
        HomePlace::Waits(waiting) => waiting.by.state,
    }
}

/// Whether the home waits for an answer.
pub(crate) fn is_waiting(place: HomePlace) -> bool
    ensures { result ≡ requests.is_waiting place }
{
    matches!(place, HomePlace::Waits(_))
}

/// Whether remote j is one of n, and a target of the guard.
pub(crate) fn is_target_of(n: u8, vars: &Vars, rule: &Rule, j: u8) -> bool
    ensures { result ≡ requests.is_target_of n vars.now rule.now j }
{
    j < n && is_target(rule, vars, j)
}

fn completes_guard(n: u8, vars: &Vars, request: &Held, rule: &Rule) -> bool
    ensures { result ≡ requests.completes_guard n vars.now request.now rule.now }
{
    accepts(rule, vars, request.message) && is_target_of(n, vars, rule, request.from)
}

// The number of the first of the guards that the request completes.
fn first_completed(n: u8, vars: &Vars, request: &Held, rules: &[Rule]) -> Option<usize>
    ensures { result ≡ position (requests.completes_guard n vars.now request.now) rules.now }
{
    rules
        .iter()
        .position(|rule| completes_guard(n, vars, request, rule))
}

/// The first guard of the home's communication state that the request completes.
pub(crate) fn taking_guard<'a>(
    table: &'a Table,
    n: u8,
    home: &HomeState,
    request: &Held,
) -> Option<Chosen<'a>>
    ensures { option_map (λ x. chosen x.0 x.1.0.now x.1.1) result
        ≡ requests.taking_guard n (protocol_of table.now).home home.now request.now }
{
    let state = state_of_home(home.place);
    let rules = guards_of(home_body(table), state);
    let number = first_completed(n, &home.vars, request, rules)?;
    let guard = home_guard(table, state, number)?;
    Some((number as u8, guard))
}

// Whether the request completes one of the guards.
fn completes_some(n: u8, vars: &Vars, request: &Held, rules: &[Rule]) -> bool
    ensures { result ≡ list_any (requests.completes_guard n vars.now request.now) rules.now }
{
    rules
        .iter()
        .any(|rule| completes_guard(n, vars, request, rule))
}

/// Whether the request completes a guard of the home's communication state.
pub(crate) fn completes(table: &Table, n: u8, home: &HomeState, request: &Held) -> bool
    ensures { result ≡ requests.completes n (protocol_of table.now).home home.now request.now }
{
    let rules = guards_of(home_body(table), state_of_home(home.place));
    completes_some(n, &home.vars, request, rules)
}

/// Whether some held request completes a guard.
pub(crate) fn some_completes(table: &Table, n: u8, home: &HomeState, held: &[Held]) -> bool
    ensures { result ≡ requests.some_completes n (protocol_of table.now).home home.now held.now }
{
    held.iter()
        .any(|request| completes(table, n, home, request))
}

/// The first request of remote j that is held.
pub(crate) fn first_held(held: &[Held], j: u8) -> Option<&Held>
    ensures { option_copied result ≡ first_of j held.now }
{
    held.iter().find(|request| request.from == j)
}

/// Whether the request would displace the last held one.
pub(crate) fn displaces(
    table: &Table,
    n: u8,
    home: &HomeState,
    k: u8,
    held: &[Held],
    request: &Held,
) -> bool
    ensures value { result
        ≡ requests.displaces n (protocol_of table.now).home home.now k held.now request.now }
    ensures full { IsTrue result → length held.now ≡ k }
{
    !is_waiting(home.place)
        && (held.len() == k as usize
            && (completes(table, n, home, request) && !some_completes(table, n, home, held)))
}

// ---- reasons to drop a held request

// Whether the set has a remote below n.
fn has_number_below(set: u64, n: u8) -> bool
    ensures { result ≡ list_any (has_member set) (range_with_len 0 n) }
{
    set != 0 && set.trailing_zeros() < u32::from(n)
}

// Whether the value is a set that has a remote below n.
fn has_remote_below(value: Value, n: u8) -> bool
    ensures { result ≡ list_any (values.is_set_with value) (range_with_len 0 n) }
{
    match value {
        Value::Set(set) => has_number_below(set, n),
        _ => false,
    }
}

// Whether the value is a remote below n.
fn is_remote_below(value: Value, n: u8) -> bool
    ensures { result ≡ list_any (values.is_node value) (range_with_len 0 n) }
{
    match value {
        Value::Node(node) => node < n,
        _ => false,
    }
}

// Whether some of n remotes is a target of the partner. No remote is tried.
fn has_partner(n: u8, vars: &Vars, partner: RulePartner) -> bool
    ensures { result ≡ list_any (values.is_target vars.now partner) (range_with_len 0 n) }
{
    match partner {
        RulePartner::Home => false,
        RulePartner::Any(_) => n > 0,
        RulePartner::Member(_, set) => has_remote_below(vars.at(set).unwrap_or(Value::Unit), n),
        RulePartner::Named(place) => is_remote_below(vars.at(place).unwrap_or(Value::Unit), n),
    }
}

// Whether some of n remotes is a target of the guard.
fn has_target(n: u8, vars: &Vars, rule: &Rule) -> bool
    ensures { result ≡ steps.has_target n vars.now rule.now }
{
    match rule.kind {
        RuleKind::Tau => false,
        RuleKind::Input(partner, _, _) | RuleKind::Output(partner, _, _) => {
            has_partner(n, vars, partner)
        }
    }
}

fn meets_some(n: u8, vars: &Vars, rules: &[Rule]) -> bool
    ensures { result ≡ list_any (steps.is_open_output vars.now (steps.has_target n vars.now))
        rules.now }
{
    rules.iter().any(|rule| is_output(rule)
        && (guard_open(rule, vars) && has_target(n, vars, rule)))
}

fn meets(n: u8, vars: &Vars, rules: &[Rule], j: u8) -> bool
    ensures { result ≡ list_any (steps.is_open_output vars.now
        (λ rule. requests.is_target_of n vars.now rule j)) rules.now }
{
    rules.iter().any(|rule| {
        is_output(rule) && (guard_open(rule, vars) && is_target_of(n, vars, rule, j))
    })
}

/// Whether the home has reason to drop the request of j: some open output of these has a target,
/// and either at least k - 1 requests are held, or j is a target of an open output.
pub(crate) fn may_drop(n: u8, home: &HomeState, k: u8, held: &[Held], j: u8, rules: &[Rule]) -> bool
    ensures { (setting : Setting) → setting.slots ≡ k
        → result ≡ steps.may_drop setting n home.now held.now j rules.now }
{
    meets_some(n, &home.vars, rules)
        && (k as usize <= held.len() + 1 || meets(n, &home.vars, rules, j))
}

// ---- a remote

fn first_output(rules: &[Rule]) -> Option<usize>
    ensures { result ≡ position (λ rule. is_output_kind rule.kind) rules.now }
{
    rules.iter().position(|rule| is_output(rule))
}

fn first_accepting(vars: &Vars, message: u8, rules: &[Rule]) -> Option<usize>
    ensures { result ≡ position (λ rule. spec_accepts vars.now rule message) rules.now }
{
    rules.iter().position(|rule| accepts(rule, vars, message))
}

/// The output of an active state of a remote; none where the state is passive.
pub(crate) fn active_guard<'a>(table: &'a Table, state: u8) -> Option<Chosen<'a>>
    ensures { option_map (λ x. chosen x.0 x.1.0.now x.1.1) result
        ≡ guards.active_guard (spec_guards_of (protocol_of table.now).remote state) }
{
    let rules = guards_of(remote_body(table), state);
    let number = first_output(rules)?;
    let guard = remote_guard(table, state, number)?;
    Some((number as u8, guard))
}

/// The guard by which an idle remote answers the request in its slot.
pub(crate) fn answering_guard<'a>(table: &'a Table, remote: &RemoteState) -> Option<Chosen<'a>>
    ensures { option_map (λ x. chosen x.0 x.1.0.now x.1.1) result
        ≡ guards.answering_guard (protocol_of table.now).remote remote.now }
{
    let Place::Comm(state) = remote.place else {
        return None;
    };
    let request = remote.slot?;
    let rules = guards_of(remote_body(table), state);
    let number = first_accepting(&remote.vars, request.message, rules)?;
    let guard = remote_guard(table, state, number)?;
    Some((number as u8, guard))
}
