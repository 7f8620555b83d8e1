//! Where the processes of an asynchronous configuration stand.

use controller_table::{GuardId, Place};
use proto_model::{Value, Vars};
use rv_base::Items;

/// That the home has sent a request and waits for the answer.
#[derive(Clone, Copy, Debug, PartialEq, Eq, Drop)]
pub struct Waiting {
    /// The output by which it sent the request, in the state that it left.
    pub by: GuardId,
    /// The remote on which it waits.
    pub on: u8,
    /// The value that it sent.
    pub sent: Value,
}

/// The place of the home: idle in a communication state, or waiting.
#[derive(Clone, Copy, Debug, PartialEq, Eq, Drop)]
pub enum HomePlace {
    Idle(u8),
    Waits(Waiting),
}

/// The home: its place, its variables, and for each remote the message that the home owes to it.
#[derive(Drop)]
pub struct HomeState {
    pub place: HomePlace,
    pub vars: Vars,
    pub owed: Items<Option<u8>>,
}

/// A request: its message, by its number, and its value.
#[derive(Clone, Copy, Debug, PartialEq, Eq, Drop)]
pub struct Request {
    pub message: u8,
    pub value: Value,
}

/// A remote: its place, its variables, and the request of the home in its slot.
#[derive(Clone, Copy)]
pub struct RemoteState {
    pub place: Place,
    pub vars: Vars,
    pub slot: Option<Request>,
}
