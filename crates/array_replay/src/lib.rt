//! Schedules of steps, played on several cache lines whose controllers share the links between the
//! home and its remotes: what the controllers of a line do at each step, and what it means in the
//! rendezvous meaning.
//!
//! - `steps`: what a line of a schedule says.
//! - `array_trace`: the texts of which a trace is made.
//! - `array_player`: the cache lines, and the call that plays a schedule on them.
//! - `laws`: that what a schedule plays is a run, and that each block tells of one cache line.
#![tactic(auto)]

mod array_player;
mod array_trace;
pub mod laws;
mod steps;

pub use array_player::{ArrayPlayer, replay};
pub use steps::read_array_line;
