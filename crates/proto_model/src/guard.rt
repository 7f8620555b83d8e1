//! The guards of a state, with names as they are written.

use crate::name::Name;
use rv_base::Items;

/// A number, a variable, `none` (`Nowhere`) or `empty`.
#[derive(Debug, Drop)]
pub enum Term {
    Number(u32),
    Named(Name),
    Nowhere,
    Empty,
}

/// A term, the sum of two or the difference of two.
#[derive(Debug, Drop)]
pub enum Expr {
    One(Term),
    Plus(Term, Term),
    Minus(Term, Term),
}

/// The relations `eq`, `ne`, `lt`, `le`, `in` (`Inside`) and `notin` (`Outside`).
#[derive(Clone, Copy, Debug, PartialEq, Eq, Drop)]
pub enum Rel {
    Eq,
    Ne,
    Lt,
    Le,
    Inside,
    Outside,
}

/// A condition: two expressions stand in a relation.
#[derive(Debug, Drop)]
pub struct Atom {
    pub left: Expr,
    pub rel: Rel,
    pub right: Expr,
}

/// A variable gets the value of an expression.
#[derive(Debug, Drop)]
pub struct Assign {
    pub var: Name,
    pub value: Expr,
}

/// With whom a guard meets: `home`, `any x`, `any x in s` (`Member(x, s)`), or the remote that a
/// variable names.
#[derive(Debug, Drop)]
pub enum Partner {
    Home,
    Any(Name),
    Member(Name, Name),
    Named(Name),
}

/// What a guard does: a local step, an input of a message, whose value a variable may get, or an
/// output of a message, which may have a value.
#[derive(Debug, Drop)]
pub enum GuardKind {
    Tau,
    Input(Partner, Name, Option<Name>),
    Output(Partner, Name, Option<Expr>),
}

/// A guard, with its conditions and assignments in file order and the name of the next state.
#[derive(Debug, Drop)]
pub struct Guard {
    pub kind: GuardKind,
    pub conds: Items<Atom>,
    pub assigns: Items<Assign>,
    pub next: Name,
}
