//! Both ways: which events the controllers carry out, by which steps, and that the events told
//! along their runs are these and no others. There is no code here, only definitions and laws of
//! them, each of them the contract of a function that does nothing.
#![tactic(auto)]

mod laws;

pub use laws::{carried_is_computed, what_is_told_is_carried};
