//! The home's slots for requests of its remotes.
//!
//! The home has k slots and holds in them the requests that it can't serve yet, in the order in
//! which they came. Two slots are kept back, for requests without which nothing might go on:
//!
//! - the *ack slot*, while the home waits for the answer to a request of its own: the remote that
//!   it waits on may send a request in place of an answer, and that one must be held;
//! - the *progress slot*, the last free one besides it: it is given only to a request that
//!   completes a guard of the home's state.
//!
//! The idea of the two reserved slots is from R. Nalumasu and G. Gopalakrishnan, "Deriving
//! Efficient Cache Coherence Protocols through Refinement".
//!
//! - `held`: a request that is held, and what an arriving one gets.
//! - `slots`: the slots themselves.
#![tactic(auto)]

mod held;
mod slots;

pub use held::{Admitted, Held};
pub use slots::Slots;
