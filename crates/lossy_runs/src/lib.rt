//! Tests of the command `lossy`: whole runs in memory, whose trace is given to the byte.
//!
//! - `words`: how many remotes and slots there may be, and in which mode.
//! - `lost`: a request that is lost and sent again, and packets that overtake one another.
//! - `flights`: how many frames a flight holds, and which of them resending and passing take.
//! - `refused`: moves of the network that aren't possible.
//! - `lines`: lines that are neither a step nor a move.
//! - `faults`: reads and writes that fail in the middle of a run.
#![tactic(auto)]

#[cfg(test)]
mod faults;
#[cfg(test)]
mod flights;
#[cfg(test)]
mod lines;
#[cfg(test)]
mod lost;
#[cfg(test)]
mod refused;
#[cfg(test)]
mod words;
