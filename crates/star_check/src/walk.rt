//! The first fault of a protocol, item by item in file order.

ghost use Rattle.std.specs.Prelude.{[], ◌∷◌, ◌++◌, ◌≡◌, ◌+◌, ◌<◌, ◌≤◌, ℕ, List, length, IfNone};
ghost use Rattle.std.specs.Prelude.{IfOk};
ghost use Rattle.rv_base.specs.Lists.{map_from};
ghost use Rattle.proto_model.specs.Faults as spec;
ghost use Rattle.star_check.specs.Passes.{Passes, Finds};
ghost use Rattle.star_check.specs.Scopes.{scope_seen};

use crate::declared::Declared;
use crate::fault::Fault;
use crate::item_codes::{
    claim_code, guard_code, message_code, name_code, start_code, state_code, var_code,
};
use crate::scope::Scope;
use proto_model::{Claim, Guard, Message, Name, State, Var};

// Items of one kind that stand one after another. Each past the 64th has a code.
trait Series {
    type Item;

    ghost items_of: { Self → List Self.Item };

    ghost codes_at: { Self → ℕ → Self.Item → List ℕ };

    // The items in file order.
    fn listed(&self) -> &[Self::Item]
        ensures { result.now ≡ items_of self.now };

    // The least code of the item at this place of the series.
    fn code(&self, place: usize, item: &Self::Item) -> Option<u8>
        ensures code { result ≡ spec.first (codes_at self.now place item.now) }
        ensures few { IfNone result (place < 64) };
}

impl Series for Declared<'_, Message> {
    type Item = Message;

    ghost items_of = { λ messages. messages };

    ghost codes_at = { spec.message_codes };

    fn listed(&self) -> &[Message] {
        self.items()
    }

    fn code(&self, place: usize, message: &Message) -> Option<u8> {
        message_code(self, place, message)
    }
}

impl Series for Declared<'_, Var> {
    type Item = Var;

    ghost items_of = { λ vars. vars };

    ghost codes_at = { spec.var_codes };

    fn listed(&self) -> &[Var] {
        self.items()
    }

    fn code(&self, place: usize, var: &Var) -> Option<u8> {
        var_code(self, place, var)
    }
}

// The guards of a state of this process.
#[derive(Clone, Copy)]
struct Guards<'s, 'm, 'a> {
    scope: &'s Scope<'m, 'a>,
    guards: &'s [Guard],
}

impl Series for Guards<'_, '_, '_> {
    type Item = Guard;

    ghost items_of = { λ g. g.guards.now };

    ghost codes_at = { λ g. spec.guard_codes (scope_seen g.scope.now) };

    fn listed(&self) -> &[Guard] {
        self.guards
    }

    fn code(&self, place: usize, guard: &Guard) -> Option<u8> {
        guard_code(self.scope, place, guard)
    }
}

// The claims on the states of a remote.
#[derive(Clone, Copy)]
struct Claims<'s, 'a> {
    states: &'s Declared<'a, State>,
    claims: &'s [Claim],
}

impl Series for Claims<'_, '_> {
    type Item = Claim;

    ghost items_of = { λ c. c.claims.now };

    ghost codes_at = { λ c. spec.claim_codes c.states.now };

    fn listed(&self) -> &[Claim] {
        self.claims
    }

    fn code(&self, place: usize, claim: &Claim) -> Option<u8> {
        claim_code(self.states, place, claim)
    }
}

// Passes over a series whose first item has this number. Answers the number behind its last item.
fn check_series<S: Series>(series: &S, start: u32) -> Result<u32, Fault>
    requires { start < 10000 }
    ensures passes { Passes result start (map_from (S.codes_at series.now) 0
        (S.items_of series.now)) }
    ensures few { IfOk result (λ next. next ≤ start + 64) }
{
    let items = series.listed();
    for (place, item) in items.iter().enumerate() {
        if let Some(code) = series.code(place, item) {
            let item = start + place as u32;
            return Err(Fault { code, item });
        }
    }
    Ok(start + items.len() as u32)
}

fn check_guards(scope: &Scope, guards: &[Guard], start: u32) -> Result<u32, Fault>
    requires { start < 10000 }
    ensures passes { Passes result start (map_from (spec.guard_codes (scope_seen scope.now)) 0
        guards.now) }
    ensures few { IfOk result (λ next. next ≤ start + 64) }
{
    check_series(
        &Guards {
            scope: &*scope,
            guards,
        },
        start,
    )
}

// Passes over the states of a process and their guards.
fn check_states(scope: &Scope, start: u32) -> Result<u32, Fault>
    requires { start < 5100 }
    ensures passes { Passes result start (spec.states_from (scope_seen scope.now) 0
        scope.now.states) }
    ensures few { IfOk result (λ next. next ≤ start + 4160) }
{
    let mut next = start;
    for (place, state) in scope.states.items().iter().enumerate() {
        if let Some(code) = state_code(scope.side, &scope.states, place, state) {
            return Err(Fault { code, item: next });
        }
        next = check_guards(scope, state.guards.as_slice(), next + 1)?;
    }
    Ok(next)
}

// Passes over the items of a process behind its first word.
fn check_process(scope: &Scope, first: u32) -> Result<u32, Fault>
    requires { first < 5000 }
    ensures passes { Passes result first (spec.process_codes (scope_seen scope.now)
        scope.now.start.now) }
    ensures few { IfOk result (λ next. next ≤ first + 4225) }
{
    let start = check_series(&scope.vars, first)?;
    if let Some(code) = start_code(&scope.states, scope.start) {
        return Err(Fault { code, item: start });
    }
    check_states(&*scope, start + 1)
}

// Passes over the claims on the states of the remote.
fn check_claims(remote: &Scope, claims: &[Claim], start: u32) -> Result<u32, Fault>
    requires { start < 10000 }
    ensures { Passes result start (map_from (spec.claim_codes remote.now.states) 0 claims.now) }
{
    check_series(
        &Claims {
            states: &remote.states,
            claims,
        },
        start,
    )
}

/// Passes over all items of a protocol of this name, up to the first fault.
pub(crate) fn check_items(
    name: &Name,
    messages: &Declared<Message>,
    home: &Scope,
    remote: &Scope,
    claims: &[Claim],
) -> Result<(), Fault>
    ensures { Finds result
        (spec.name_codes name.now ∷ (map_from (spec.message_codes messages.now) 0 messages.now
        ++ [] ∷ (spec.process_codes (scope_seen home.now) home.now.start.now
        ++ [] ∷ (spec.process_codes (scope_seen remote.now) remote.now.start.now
        ++ map_from (spec.claim_codes remote.now.states) 0 claims.now)))) }
{
    if let Some(code) = name_code(name) {
        return Err(Fault { code, item: 0 });
    }
    let home_word = check_series(messages, 1)?;
    let remote_word = check_process(&*home, home_word + 1)?;
    let first_claim = check_process(&*remote, remote_word + 1)?;
    check_claims(&*remote, claims, first_claim)?;
    Ok(())
}
