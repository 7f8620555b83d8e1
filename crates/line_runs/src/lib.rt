//! Tests of lines: how a source is cut into them, and what a line of each kind of schedule says.
//!
//! - `lines`: the lines of a source.
//! - `event_lines`: schedules of events.
//! - `step_lines`: schedules of steps.
//! - `array_lines`: schedules of steps of several cache lines.
//! - `net_lines`: moves of the network.
//! - `lossy_lines`: schedules of steps and of moves of the network.
#![tactic(auto)]

#[cfg(test)]
mod array_lines;
#[cfg(test)]
mod event_lines;
#[cfg(test)]
mod lines;
#[cfg(test)]
mod lossy_lines;
#[cfg(test)]
mod net_lines;
#[cfg(test)]
mod step_lines;
