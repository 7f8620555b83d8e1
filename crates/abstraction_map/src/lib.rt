//! The abstraction: what an asynchronous configuration and a step of it mean in the rendezvous
//! meaning.
//!
//! - `abstracted`: the rendezvous configuration for which the configuration of a machine stands.
//! - `fate`: what became of the request by which a process waits.
//! - `told`: what is told of a step.
//! - `laws`: what the abstraction is for.
//! - `worked_told`: what is told of the steps of worked runs.
//! - `worked_meaning`: the rendezvous configurations for which their moments stand.
//!
//! The definitions stand in `specs/`.
#![tactic(auto)]

mod abstracted;
mod fate;
mod laws;
mod told;
pub mod worked_meaning;
pub mod worked_told;

pub use abstracted::{abstract_of, abstract_states};
pub use laws::{every_run_refines, the_machine_refines, the_start_means_the_start};
pub use told::{Told, event_of};
