//! Tests of the command `audit`: whole runs in memory.
//!
//! - `words`: how many remotes there may be.
//! - `traces`: a trace that is accepted, line by line.
//! - `accepted`: traces of `run`.
//! - `changed`: one line of a trace changed.
//! - `parts`: traces that end early, or go on.
//! - `lengths`: how long a trace and its lines may be, and how much of it is read.
//! - `faults`: reads and writes that fail.
#![tactic(auto)]

#[cfg(test)]
mod accepted;
#[cfg(test)]
mod changed;
#[cfg(test)]
mod faults;
#[cfg(test)]
mod lengths;
#[cfg(test)]
mod parts;
#[cfg(test)]
mod traces;
#[cfg(test)]
mod words;
