//! The numbered form of a protocol: each name that a guard uses is replaced by the place, counted
//! from 0, of what it means among its own kind.

use crate::guard::Rel;
use crate::name::Name;
use crate::protocol::{Carry, VarKind};
use rv_base::Items;

/// The two kinds of process of a protocol: the home, and the remotes, which are all alike.
#[derive(Clone, Copy, Debug, PartialEq, Eq, Drop)]
pub enum Side {
    Home,
    Remote,
}

/// The types of values. All ints are of one type, whatever the bound of a variable or message.
#[derive(Clone, Copy, Debug, PartialEq, Eq, Drop)]
pub enum ValueType {
    Int,
    Node,
    Set,
}

/// A value. `Unit` is the value of a message that carries nothing. A node is none (`Nowhere`) or
/// the number of a remote. Bit j of a set stands for remote j.
#[derive(Clone, Copy, Debug, PartialEq, Eq, Drop)]
pub enum Value {
    Unit,
    Int(u16),
    Nowhere,
    Node(u8),
    Set(u64),
}

/// A number, the variable at a place, `none` (`Nowhere`) or `empty`.
#[derive(Clone, Copy, Debug, PartialEq, Eq, Drop)]
pub enum RuleTerm {
    Number(u16),
    Var(u8),
    Nowhere,
    Empty,
}

/// A term, the sum of two or the difference of two.
#[derive(Clone, Copy, Debug, PartialEq, Eq, Drop)]
pub enum RuleExpr {
    One(RuleTerm),
    Plus(RuleTerm, RuleTerm),
    Minus(RuleTerm, RuleTerm),
}

/// A condition: two expressions stand in a relation.
#[derive(Clone, Copy, Debug, PartialEq, Eq, Drop)]
pub struct RuleAtom {
    pub left: RuleExpr,
    pub rel: Rel,
    pub right: RuleExpr,
}

/// The variable at a place gets the value of an expression.
#[derive(Clone, Copy, Debug, PartialEq, Eq, Drop)]
pub struct RuleAssign {
    pub var: u8,
    pub value: RuleExpr,
}

/// With whom a rule meets: `home`, `any x`, `any x in s` (`Member(x, s)`), or the remote that a
/// variable names. The numbers are places of variables.
#[derive(Clone, Copy, Debug, PartialEq, Eq, Drop)]
pub enum RulePartner {
    Home,
    Any(u8),
    Member(u8, u8),
    Named(u8),
}

/// What a rule does: a local step; an input of the message at a place, whose value the variable at
/// a place may get; or an output of the message at a place, which may have a value.
#[derive(Clone, Copy, Debug, PartialEq, Eq, Drop)]
pub enum RuleKind {
    Tau,
    Input(RulePartner, u8, Option<u8>),
    Output(RulePartner, u8, Option<RuleExpr>),
}

/// A guard in numbered form. `next` is the place of the next state.
#[derive(Debug, Drop)]
pub struct Rule {
    pub kind: RuleKind,
    pub conds: Items<RuleAtom>,
    pub assigns: Items<RuleAssign>,
    pub next: u8,
}

/// A state with its rules in file order.
#[derive(Debug, Drop)]
pub struct StateInfo {
    pub name: Name,
    pub rules: Items<Rule>,
}

/// A variable with its first value.
#[derive(Debug, Drop)]
pub struct VarInfo {
    pub name: Name,
    pub kind: VarKind,
    pub first: Value,
}

/// A message, which goes `up` from a remote to the home, or down from the home to a remote.
#[derive(Debug, Drop)]
pub struct MessageInfo {
    pub name: Name,
    pub up: bool,
    pub carries: Carry,
}

/// A process in numbered form: its variables, the place of the state in which it starts, its
/// states.
#[derive(Debug, Drop)]
pub struct Body {
    pub vars: Items<VarInfo>,
    pub start: u8,
    pub states: Items<StateInfo>,
}

/// A claim in numbered form. `AtMost(m, states)`: at most m remotes stand in one of the states,
/// where bit s of the set stands for the state at place s of the remote. `Apart(x, y)`: no two
/// different remotes stand the one in the state at place x and the other in that at place y.
#[derive(Clone, Copy, Debug, PartialEq, Eq, Drop)]
pub enum NumberedClaim {
    AtMost(u8, u64),
    Apart(u8, u8),
}
