//! Tests of the command `lines`: whole runs in memory, whose trace is given to the byte.
//!
//! - `words`: how many remotes, slots and cache lines there may be, and in which mode.
//! - `shared`: deliveries in the order of the puts over all cache lines.
//! - `refused`: steps that are meant for no cache line, or that its controllers refuse.
//! - `lines`: lines that are no step.
//! - `many`: sixteen cache lines.
//! - `faults`: reads and writes that fail in the middle of a run.
#![tactic(auto)]

#[cfg(test)]
mod faults;
#[cfg(test)]
mod lines;
#[cfg(test)]
mod many;
#[cfg(test)]
mod refused;
#[cfg(test)]
mod shared;
#[cfg(test)]
mod words;
