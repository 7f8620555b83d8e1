//! The numbered form: each name that is used is replaced by the place of its first declaration.

ghost use Rattle.std.specs.Prelude.{◌≡◌, ◌<◌, ◌≤◌, ◌||◌, Bool, true, false, length, map, IfOk};
ghost use Rattle.std.specs.List.{list_any};
ghost use Rattle.std.specs.Option.{option_map};
ghost use Rattle.proto_model.specs.Faults as faults;
ghost use Rattle.proto_model.specs.Numbered as spec;
ghost use Rattle.star_check.specs.Scopes.{IsNumberable, process_seen, is_large_initial};

use crate::declared::{Declaration, Declared};
use crate::scope::Scope;
use proto_model::{
    Assign, Atom, Body, Claim, Expr, Guard, GuardKind, Initial, Message, MessageInfo, Name,
    NumberedClaim, Partner, Rule, RuleAssign, RuleAtom, RuleExpr, RuleKind, RulePartner, RuleTerm,
    State, StateInfo, Term, Value, Var, VarInfo,
};
use rv_base::{Items, NoMemory};
use std::alloc::Global;

impl<T: Declaration> Declared<'_, T> {
    // The place of what the name means, 0 where it is not declared.
    fn number(&self, name: &Name) -> u8
        requires { length self.now ≤ 64 }
        ensures value { result ≡ spec.place_or_zero name.now (map T.name_of self.now) }
        ensures small { result < 64 }
    {
        match self.place(name) {
            Some(place) => place as u8,
            None => 0,
        }
    }
}

impl Declared<'_, Var> {
    fn number_term(&self, term: &Term) -> RuleTerm
        requires few { length self.now ≤ 64 }
        requires fits { faults.is_large_term term.now ≡ false }
        ensures { result ≡ spec.numbered_term self.now term.now }
    {
        match term {
            Term::Number(number) => RuleTerm::Number(*number as u16),
            Term::Named(name) => RuleTerm::Var(self.number(name)),
            Term::Nowhere => RuleTerm::Nowhere,
            Term::Empty => RuleTerm::Empty,
        }
    }

    fn number_expr(&self, expr: &Expr) -> RuleExpr
        requires few { length self.now ≤ 64 }
        requires fits { faults.is_large_expr expr.now ≡ false }
        ensures { result ≡ spec.numbered_expr self.now expr.now }
    {
        match expr {
            Expr::One(term) => RuleExpr::One(self.number_term(term)),
            Expr::Plus(left, right) => {
                RuleExpr::Plus(self.number_term(left), self.number_term(right))
            }
            Expr::Minus(left, right) => {
                RuleExpr::Minus(self.number_term(left), self.number_term(right))
            }
        }
    }

    fn number_partner(&self, partner: &Partner) -> RulePartner
        requires { length self.now ≤ 64 }
        ensures { result ≡ spec.numbered_partner self.now partner.now }
    {
        match partner {
            Partner::Home => RulePartner::Home,
            Partner::Any(node) => RulePartner::Any(self.number(node)),
            Partner::Member(node, set) => {
                RulePartner::Member(self.number(node), self.number(set))
            }
            Partner::Named(node) => RulePartner::Named(self.number(node)),
        }
    }
}

impl Declared<'_, State> {
    // The set of the states that the names mean.
    fn number_set(&self, names: &[Name]) -> u64
        requires { length self.now ≤ 64 }
        ensures { result ≡ spec.state_set self.now names.now }
    {
        let mut set = 0;
        for name in names {
            set |= 1 << self.number(name);
        }
        set
    }
}

// What has a numbered form in a scope `S` of names.
trait Numbered<S> {
    type Form: Drop;

    ghost form: { S → Self → Self.Form };

    // Whether it writes a number that does not fit its numbered form.
    ghost is_large: { Self → Bool };

    // The scope has few enough names for their places to fit.
    ghost is_small: { S → Type 0 };

    // Its numbered form.
    fn numbered(&self, alloc: Global, scope: &S) -> Result<Self::Form, NoMemory>
        requires small { is_small scope.now }
        requires fits { is_large self.now ≡ false }
        ensures { IfOk result (λ f. f ≡ form scope.now self.now) };
}

// The numbered forms of the items, in order.
fn numbered_items<S, T: Numbered<S>>(
    alloc: Global,
    scope: &S,
    items: &[T],
) -> Result<Items<T::Form>, NoMemory>
    requires small { T.is_small scope.now }
    requires fits { list_any T.is_large items.now ≡ false }
    ensures { IfOk result (λ forms. forms ≡ map (T.form scope.now) items.now) }
{
    let mut forms = Items::new(alloc);
    for item in items {
        forms.push(item.numbered(alloc, scope)?)?;
    }
    Ok(forms)
}

impl Numbered<Declared<'_, Var>> for Atom {
    type Form = RuleAtom;

    ghost form = { spec.numbered_atom };

    ghost is_large = { faults.is_large_atom };

    ghost is_small = { λ vars. length vars ≤ 64 };

    fn numbered(&self, _alloc: Global, vars: &Declared<'_, Var>) -> Result<RuleAtom, NoMemory> {
        Ok(RuleAtom {
            left: vars.number_expr(&self.left),
            rel: self.rel,
            right: vars.number_expr(&self.right),
        })
    }
}

impl Numbered<Declared<'_, Var>> for Assign {
    type Form = RuleAssign;

    ghost form = { spec.numbered_assign };

    ghost is_large = { faults.is_large_assign };

    ghost is_small = { λ vars. length vars ≤ 64 };

    fn numbered(&self, _alloc: Global, vars: &Declared<'_, Var>) -> Result<RuleAssign, NoMemory> {
        Ok(RuleAssign {
            var: vars.number(&self.var),
            value: vars.number_expr(&self.value),
        })
    }
}

impl Scope<'_, '_> {
    ghost use Rattle.star_check.specs.Scopes.{IsSmallScope};

    fn number_bound(&self, bound: &Option<Name>) -> Option<u8>
        requires { IsSmallScope self.now }
        ensures { result ≡ option_map (spec.numbered_var self.now.vars) bound.now }
    {
        match bound {
            Some(name) => Some(self.vars.number(name)),
            None => None,
        }
    }

    fn number_action(&self, kind: &GuardKind) -> RuleKind
        requires small { IsSmallScope self.now }
        requires fits { faults.is_large_action kind.now ≡ false }
        ensures { result ≡ spec.numbered_action self.now.vars self.now.messages.now kind.now }
    {
        match kind {
            GuardKind::Tau => RuleKind::Tau,
            GuardKind::Input(partner, message, bound) => RuleKind::Input(
                self.vars.number_partner(partner),
                self.messages.number(message),
                self.number_bound(bound),
            ),
            GuardKind::Output(partner, message, None) => RuleKind::Output(
                self.vars.number_partner(partner),
                self.messages.number(message),
                None,
            ),
            GuardKind::Output(partner, message, Some(value)) => RuleKind::Output(
                self.vars.number_partner(partner),
                self.messages.number(message),
                Some(self.vars.number_expr(value)),
            ),
        }
    }
}

impl<'m, 'a> Numbered<Scope<'m, 'a>> for Guard {
    ghost use Rattle.star_check.specs.Scopes.{IsSmallScope};

    type Form = Rule;

    ghost form = { λ s. spec.numbered_guard s.messages.now s.vars s.states };

    ghost is_large = { faults.is_large_guard };

    ghost is_small = { IsSmallScope };

    fn numbered(&self, alloc: Global, scope: &Scope<'m, 'a>) -> Result<Rule, NoMemory> {
        Ok(Rule {
            kind: scope.number_action(&self.kind),
            conds: numbered_items(alloc, &scope.vars, self.conds.as_slice())?,
            assigns: numbered_items(alloc, &scope.vars, self.assigns.as_slice())?,
            next: scope.states.number(&self.next),
        })
    }
}

impl<'m, 'a> Numbered<Scope<'m, 'a>> for State {
    ghost use Rattle.star_check.specs.Scopes.{IsSmallScope};

    type Form = StateInfo;

    ghost form = { λ s. spec.numbered_state s.messages.now s.vars s.states };

    ghost is_large = { λ s. list_any faults.is_large_guard s.guards };

    ghost is_small = { IsSmallScope };

    fn numbered(&self, alloc: Global, scope: &Scope<'m, 'a>) -> Result<StateInfo, NoMemory> {
        Ok(StateInfo {
            name: self.name.copy(alloc)?,
            rules: numbered_items(alloc, scope, self.guards.as_slice())?,
        })
    }
}

fn number_first(first: Initial) -> Value
    requires { is_large_initial first ≡ false }
    ensures { result ≡ spec.numbered_first first }
{
    match first {
        Initial::Number(number) => Value::Int(number as u16),
        Initial::Nowhere => Value::Nowhere,
        Initial::Empty => Value::Set(0),
    }
}

impl Numbered<()> for Var {
    type Form = VarInfo;

    ghost form = { λ _. spec.numbered_declaration };

    ghost is_large = { λ v. is_large_initial v.first };

    ghost is_small = { λ _. Unit {0} };

    fn numbered(&self, alloc: Global, _scope: &()) -> Result<VarInfo, NoMemory> {
        Ok(VarInfo {
            name: self.name.copy(alloc)?,
            kind: self.kind,
            first: number_first(self.first),
        })
    }
}

impl Numbered<()> for Message {
    type Form = MessageInfo;

    ghost form = { λ _. spec.numbered_message };

    ghost is_large = { λ _. false };

    ghost is_small = { λ _. Unit {0} };

    fn numbered(&self, alloc: Global, _scope: &()) -> Result<MessageInfo, NoMemory> {
        Ok(MessageInfo {
            name: self.name.copy(alloc)?,
            up: self.up,
            carries: self.carries,
        })
    }
}

impl<'a> Numbered<Declared<'a, State>> for Claim {
    type Form = NumberedClaim;

    ghost form = { spec.numbered_claim };

    ghost is_large = { faults.is_large_claim };

    ghost is_small = { λ states. length states ≤ 64 };

    fn numbered(
        &self,
        _alloc: Global,
        states: &Declared<'a, State>,
    ) -> Result<NumberedClaim, NoMemory> {
        match self {
            Claim::AtMost(most, names) => {
                let set = states.number_set(names.as_slice());
                Ok(NumberedClaim::AtMost(*most as u8, set))
            }
            Claim::Apart(one, other) => {
                Ok(NumberedClaim::Apart(states.number(one), states.number(other)))
            }
        }
    }
}

/// The numbered messages.
pub(crate) fn number_messages(
    alloc: Global,
    messages: &Declared<Message>,
) -> Result<Items<MessageInfo>, NoMemory>
    ensures { IfOk result (λ infos. infos ≡ map spec.numbered_message messages.now) }
{
    numbered_items(alloc, &(), messages.items())
}

/// The body of the process of this scope.
pub(crate) fn number_body(alloc: Global, scope: &Scope) -> Result<Body, NoMemory>
    requires { IsNumberable scope.now }
    ensures { IfOk result (λ body. body ≡ spec.numbered_process scope.now.messages.now
        (process_seen scope.now)) }
{
    Ok(Body {
        vars: numbered_items(alloc, &(), scope.vars.items())?,
        start: scope.states.number(scope.start),
        states: numbered_items(alloc, &*scope, scope.states.items())?,
    })
}

/// The numbered claims on these states of the remote.
pub(crate) fn number_claims(
    alloc: Global,
    states: &Declared<State>,
    claims: &[Claim],
) -> Result<Items<NumberedClaim>, NoMemory>
    requires few { length states.now ≤ 64 }
    requires fits { list_any faults.is_large_claim claims.now ≡ false }
    ensures { IfOk result (λ rules. rules ≡ map (spec.numbered_claim states.now) claims.now) }
{
    numbered_items(alloc, states, claims)
}
