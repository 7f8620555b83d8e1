//! A request at the home, and what becomes of it.

use proto_model::Value;

/// A request that the home holds: the remote that sent it, its message and the message's value.
#[derive(Clone, Copy, Debug, PartialEq, Eq, Drop)]
pub struct Held {
    pub from: u8,
    pub message: u8,
    pub value: Value,
}

/// What becomes of a request that comes: it gets a slot, or its sender is told that it got none.
#[derive(Clone, Copy, Debug, PartialEq, Eq, Drop)]
pub enum Admitted {
    Kept,
    Nacked,
}
