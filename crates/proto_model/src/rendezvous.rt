//! The configurations of the rendezvous meaning, and the events that lead from one to the next.

use crate::values::Vars;
use rv_base::Items;

/// Where a process stands: the place of its state in its body, and the values of its variables.
#[derive(Clone, Copy)]
pub struct Part {
    pub state: u8,
    pub vars: Vars,
}

/// Where the home and each remote stand, the remotes in the order of their numbers.
#[derive(Drop)]
pub struct RvConfig {
    pub home: Part,
    pub remotes: Items<Part>,
}

/// An event of the rendezvous meaning. Rules are numbered from 0 within the state in which their
/// process stands.
#[derive(Clone, Copy, Debug, PartialEq, Eq)]
pub enum Event {
    /// The home takes the local step of its rule.
    TauHome(u32),
    /// The remote (first) takes the local step of its rule (second).
    TauRemote(u32, u32),
    /// The remote (first) sends to the home: the home's input (second) meets its output (third).
    Up(u32, u32, u32),
    /// The home sends to the remote (first): its output (second) meets the remote's input (third).
    Down(u32, u32, u32),
}
