//! The named form of a protocol: what its file says, with names as they are written.

use crate::guard::Guard;
use crate::name::Name;
use rv_base::Items;

/// What a message carries: nothing, or one value of a type. `Int(n)` is the type of the numbers
/// below n.
#[derive(Clone, Copy, Debug, PartialEq, Eq, Drop)]
pub enum Carry {
    Nothing,
    Int(u32),
    Node,
    Set,
}

/// A message, which goes `up` from a remote to the home, or down from the home to a remote.
#[derive(Debug, Drop)]
pub struct Message {
    pub name: Name,
    pub up: bool,
    pub carries: Carry,
}

/// The type of a variable. `Int(n)` is the type of the numbers below n.
#[derive(Clone, Copy, Debug, PartialEq, Eq, Drop)]
pub enum VarKind {
    Int(u32),
    Node,
    Set,
}

/// The first value of a variable: a number, `none` or `empty`.
#[derive(Clone, Copy, Debug, PartialEq, Eq, Drop)]
pub enum Initial {
    Number(u32),
    Nowhere,
    Empty,
}

/// A variable of a process.
#[derive(Debug, Drop)]
pub struct Var {
    pub name: Name,
    pub kind: VarKind,
    pub first: Initial,
}

/// A state of a process, with its guards in file order.
#[derive(Debug, Drop)]
pub struct State {
    pub name: Name,
    pub guards: Items<Guard>,
}

/// The home or the remotes: the variables, the name of the state in which it starts, the states.
#[derive(Debug, Drop)]
pub struct Process {
    pub vars: Items<Var>,
    pub start: Name,
    pub states: Items<State>,
}

/// What must hold of the states in which the remotes stand. `AtMost(m, states)`: at most m remotes
/// stand in one of the states. `Apart(x, y)`: no two different remotes stand the one in x and the
/// other in y.
#[derive(Debug, Drop)]
pub enum Claim {
    AtMost(u32, Items<Name>),
    Apart(Name, Name),
}

/// A protocol as its file names it. `version` is that of the language, 1 or 2 in a file. `claims`
/// are in file order; a file of version 1 has none.
#[derive(Debug, Drop)]
pub struct Protocol {
    pub name: Name,
    pub version: u8,
    pub messages: Items<Message>,
    pub home: Process,
    pub remote: Process,
    pub claims: Items<Claim>,
}
