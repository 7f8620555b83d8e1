//! Tests of the command `run`: whole runs in memory, whose trace is given to the byte.
//!
//! - `stepped`: the words of runs of `run`.
//! - `migration`: one remote that gets the line, step by step.
//! - `recall`: the home asks for the line back, and what may cross that.
//! - `slots`: requests that a home with few slots holds, nacks, drops and displaces.
//! - `links`: what is under way on a link, and guards that have no target.
//! - `claims`: where a claim is broken.
//! - `words`: how many remotes and slots there may be, and in which mode.
//! - `lines`: lines that say nothing, or no step.
//! - `lengths`: how long a schedule may be, and how much of it is read.
//! - `faults`: reads and writes that fail in the middle of a run.
#![tactic(auto)]

#[cfg(test)]
mod claims;
#[cfg(test)]
mod faults;
#[cfg(test)]
mod lengths;
#[cfg(test)]
mod lines;
#[cfg(test)]
mod links;
#[cfg(test)]
mod migration;
#[cfg(test)]
mod recall;
#[cfg(test)]
mod slots;
#[cfg(test)]
mod stepped;
#[cfg(test)]
mod words;
