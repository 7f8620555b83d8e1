//! What a step does, as it is planned before anything changes.

use crate::sending::Sends;
use async_shape::{HomePlace, RemoteState};
use proto_model::{Value, Vars};
use slot_reserve::Held;

/// The message that the home owes to a remote then, by its number, or that it owes it none.
#[derive(Clone, Copy, Debug, PartialEq, Eq, Drop)]
pub struct Debt {
    /// The remote.
    pub to: u8,
    /// The message that is owed; none where the debt is paid.
    pub message: Option<u8>,
}

/// Where the home stands then, with which variables, and which of its debts changes, if one does.
#[derive(Clone, Copy)]
pub struct HomeChange {
    pub place: HomePlace,
    pub vars: Vars,
    pub debt: Option<Debt>,
}

/// What becomes of the requests that the home holds.
#[derive(Clone, Copy, Debug, PartialEq, Eq, Drop)]
pub enum HeldChange {
    /// They stay.
    Stays,
    /// The first request of this remote leaves.
    Leaves(u8),
    /// This request is held last, in a slot that is free.
    Joins(Held),
    /// The last one makes room for this request.
    MakesRoom(Held),
}

/// What a step changes of the processes.
#[derive(Clone, Copy)]
pub enum Change {
    /// The home stands so, and what it holds changes so.
    Home(HomeChange, HeldChange),
    /// This remote stands so.
    Remote(u8, RemoteState),
}

/// What an enabled step does. It is found by `Machine::plan`, which changes nothing, and done by
/// `Machine::perform`.
#[derive(Clone, Copy)]
pub struct Planned {
    /// What it changes of the processes.
    pub change: Change,
    /// The packet that it puts on a link, if it puts one.
    pub sends: Sends,
    /// The remote whose held request it displaces, if it displaces one.
    pub displaced: Option<u8>,
    /// The number of the guard that its process completes or sends by, in the state where it
    /// stands. None where a packet arrives, and where a request is dropped or nacked.
    pub guard: Option<u8>,
    /// The message, by its number, and the value that pass between the home and a remote in it: of
    /// the request that is taken or answered, or of what the home or a remote due to reply sends.
    /// None in the other steps.
    pub message: Option<(u8, Value)>,
}
