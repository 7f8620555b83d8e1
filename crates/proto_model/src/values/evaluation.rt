//! What expressions are worth, which rules are open, whom they may meet, and what they send.

ghost use Rattle.std.specs.Prelude.{◌≡◌, ℕ, ◌≤◌, ◌&&◌, nat_lt, List};
ghost use Rattle.proto_model.specs.NumberSets.{has_number as has_member};
ghost use Rattle.proto_model.specs.Proper.{IsBound, IsProperCarry};
ghost use Rattle.proto_model.specs.Values as values;
ghost use Rattle.proto_model.specs.ValueTypes.{IsCarried, IsTyped, Offers};
ghost use Rattle.proto_model.specs.declared.numbered.MessageInfo.{MessageInfo};
ghost use Rattle.proto_model.specs.declared.numbered.VarInfo.{VarInfo};

use crate::guard::Rel;
use crate::numbered::{Rule, RuleAtom, RuleExpr, RuleKind, RulePartner, RuleTerm, Value};
use crate::protocol::Carry;
use crate::values::number_sets::{has_number, with_number, without_number};
use crate::values::vars::Vars;

// The value of the variable at this place; `Unit` past the end.
fn var_value(vars: &Vars, place: u8) -> Value
    ensures { result ≡ values.var_value vars.now place }
{
    vars.at(place).unwrap_or(Value::Unit)
}

fn term_value(term: RuleTerm, vars: &Vars) -> Value
    ensures { result ≡ values.term_value vars.now term }
{
    match term {
        RuleTerm::Number(number) => Value::Int(number),
        RuleTerm::Var(place) => var_value(vars, place),
        RuleTerm::Nowhere => Value::Nowhere,
        RuleTerm::Empty => Value::Set(0),
    }
}

fn plus(left: Value, right: Value) -> Value
    ensures { result ≡ values.plus left right }
{
    match (left, right) {
        (Value::Int(a), Value::Int(b)) => Value::Int(a.wrapping_add(b)),
        (Value::Set(set), Value::Node(node)) => Value::Set(with_number(set, node)),
        (left, _) => left,
    }
}

fn minus(left: Value, right: Value) -> Value
    ensures { result ≡ values.minus left right }
{
    match (left, right) {
        (Value::Int(a), Value::Int(b)) => Value::Int(a.wrapping_sub(b)),
        (Value::Set(set), Value::Node(node)) => Value::Set(without_number(set, node)),
        (left, _) => left,
    }
}

/// What the expression is worth with these variables. Ints are modulo 65,536.
pub fn eval(expr: &RuleExpr, vars: &Vars) -> Value
    ensures { result ≡ values.value_of vars.now expr.now }
{
    match *expr {
        RuleExpr::One(term) => term_value(term, vars),
        RuleExpr::Plus(left, right) => plus(term_value(left, vars), term_value(right, vars)),
        RuleExpr::Minus(left, right) => minus(term_value(left, vars), term_value(right, vars)),
    }
}

/// Whether the two values are the same.
pub fn same_value(left: Value, right: Value) -> bool
    ensures { result ≡ values.same_value left right }
{
    match (left, right) {
        (Value::Unit, Value::Unit) => true,
        (Value::Int(a), Value::Int(b)) => a == b,
        (Value::Nowhere, Value::Nowhere) => true,
        (Value::Node(a), Value::Node(b)) => a == b,
        (Value::Set(a), Value::Set(b)) => a == b,
        _ => false,
    }
}

/// Whether the two values are ints, the first of them below the second.
pub fn is_below(left: Value, right: Value) -> bool
    ensures { result ≡ values.is_below left right }
{
    match (left, right) {
        (Value::Int(a), Value::Int(b)) => a < b,
        _ => false,
    }
}

/// Whether the two values are ints, the first of them at most the second.
pub fn is_at_most(left: Value, right: Value) -> bool
    ensures { result ≡ values.is_at_most left right }
{
    match (left, right) {
        (Value::Int(a), Value::Int(b)) => a <= b,
        _ => false,
    }
}

/// Whether the one value is a node and the other a set that has it.
pub fn is_in(left: Value, right: Value) -> bool
    ensures { result ≡ values.is_in left right }
{
    match (left, right) {
        (Value::Node(node), Value::Set(set)) => has_number(set, node),
        _ => false,
    }
}

fn is_related(rel: Rel, left: Value, right: Value) -> bool
    ensures { result ≡ values.is_related rel left right }
{
    match rel {
        Rel::Eq => same_value(left, right),
        Rel::Ne => !same_value(left, right),
        Rel::Lt => is_below(left, right),
        Rel::Le => is_at_most(left, right),
        Rel::Inside => is_in(left, right),
        Rel::Outside => !is_in(left, right),
    }
}

fn holds(atom: &RuleAtom, vars: &Vars) -> bool
    ensures { result ≡ values.holds vars.now atom.now }
{
    is_related(atom.rel, eval(&atom.left, vars), eval(&atom.right, vars))
}

/// Whether the rule is open: whether all its conditions are true.
pub fn guard_open(rule: &Rule, vars: &Vars) -> bool
    ensures { result ≡ values.is_open vars.now rule.now }
{
    rule.conds.as_slice().iter().all(|atom| holds(atom, vars))
}

fn is_target_of(partner: RulePartner, vars: &Vars, node: u8) -> bool
    ensures { result ≡ values.is_target vars.now partner node }
{
    match partner {
        RulePartner::Home => false,
        RulePartner::Any(_) => true,
        RulePartner::Member(_, set) => match var_value(vars, set) {
            Value::Set(set) => has_number(set, node),
            _ => false,
        },
        RulePartner::Named(place) => match var_value(vars, place) {
            Value::Node(named) => named == node,
            _ => false,
        },
    }
}

/// Whether the remote is a target of the rule. A local step and a rule whose partner is the home
/// have none.
pub fn is_target(rule: &Rule, vars: &Vars, node: u8) -> bool
    ensures { result ≡ values.may_meet vars.now rule.now.kind node }
{
    match rule.kind {
        RuleKind::Tau => false,
        RuleKind::Input(partner, _, _) | RuleKind::Output(partner, _, _) => {
            is_target_of(partner, vars, node)
        }
    }
}

/// The targets of the rule among the remotes below n, as a set: bit j stands for remote j.
pub fn targets(rule: &Rule, vars: &Vars, n: u8) -> u64
    requires { n ≤ 64 }
    ensures value { result ≡ values.target_set vars.now rule.now n }
    ensures members { (j : ℕ) → has_member result j ≡ (nat_lt j n && values.may_meet vars.now
        rule.now.kind j) }
{
    let mut set = 0;
    for node in 0..n {
        if is_target(rule, vars, node) {
            set += 1 << node;
        }
    }
    set
}

/// An int modulo this bound; no other value changes.
pub(super) fn modulo(value: Value, bound: u32) -> Value
    requires { IsBound bound }
    ensures { result ≡ values.modulo bound value }
{
    match value {
        Value::Int(number) => Value::Int((u32::from(number) % bound) as u16),
        value => value,
    }
}

// The value as a message that carries this sends it.
fn reduced(carries: Carry, value: Value) -> Value
    requires { IsProperCarry carries }
    ensures { result ≡ values.reduced carries value }
{
    match carries {
        Carry::Int(bound) => modulo(value, bound),
        Carry::Nothing | Carry::Node | Carry::Set => value,
    }
}

// The value of what stands behind an output; `Unit` where nothing does.
fn offered(sent: Option<RuleExpr>, vars: &Vars) -> Value
    ensures { result ≡ values.offered vars.now sent }
{
    match sent {
        Some(expr) => eval(&expr, vars),
        None => Value::Unit,
    }
}

/// The value that an output of a message that carries this sends, reduced modulo n where the
/// message carries `int n`. Where the rule is proper and the variables are of their types, it is of
/// the type of the message.
pub fn send_value(rule: &Rule, vars: &Vars, carries: Carry) -> Value
    requires { IsProperCarry carries }
    ensures value { result ≡ values.sends vars.now rule.now.kind carries }
    ensures carried { (messages : List MessageInfo) (infos : List VarInfo)
        → IsTyped messages infos vars.now rule.now → Offers messages rule.now carries → IsCarried
        carries result }
{
    match rule.kind {
        RuleKind::Output(_, _, sent) => reduced(carries, offered(sent, vars)),
        _ => Value::Unit,
    }
}
