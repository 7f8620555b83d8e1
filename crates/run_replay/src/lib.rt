//! Schedules of steps, played on the two controllers of a protocol: what they do at each step, and
//! what it means in the rendezvous meaning.
//!
//! - `steps`: what a line of a schedule of steps says.
//! - `state_lines`: the lines that show where the home and the remotes stand.
//! - `told_words`: what is told of a step.
//! - `run_trace`: the texts of which a trace is made.
//! - `played_step`: one step, taken by whatever takes it, with its block.
//! - `run_player`: the machine, its claims, and the call that plays a schedule on it.
//! - `laws`: that what a schedule plays is a run; `stops`: where it stops.
#![tactic(auto)]

pub mod laws;
mod played_step;
mod run_player;
mod run_trace;
mod state_lines;
mod steps;
pub mod stops;
mod told_words;

pub use played_step::{StepTaker, play_step};
pub use run_player::{RunPlayer, replay};
pub use run_trace::{end_lines, moved_lines, told_line};
pub use steps::read_line;
