//! The rendezvous meaning of a protocol: a machine that takes one event at a time.
//!
//! The home and n remotes stand in states. An event is a local step of one process, or a
//! rendezvous, in which the home and a remote move together; no message is ever in transit.
//! Whatever is said of the protocol when its messages travel is measured against this machine.
//!
//! - `moves`: where the processes that an event names stand after it.
//! - `machine`: the machine, which stands in a configuration of its protocol at each moment.
//! - `claims`: which claim of a protocol is broken where its remotes stand.
//! - `laws`: that the step as a relation and the step as it is computed are the same, and that the
//!   claim told as broken is the first whose words, remote by remote, aren't so.
//!
//! What a step is, as a relation between two configurations, is defined in `proto_model`.
#![tactic(auto)]

mod claims;
mod laws;
mod machine;
mod moves;

pub use claims::{InState, broken, broken_among};
pub use laws::{a_broken_claim_is_the_first_that_does_not_hold, next_is_the_step};
pub use machine::RvMachine;
