//! Tests of the command `rv`: whole runs in memory.
//!
//! - `replayed`: a run of `rv`, and how it must end.
//! - `rv`: events replayed on a protocol.
//! - `lines`: lines that say nothing, or say no event.
//! - `lengths`: how long a line and a schedule may be, and what is read of them.
//! - `remotes`: how many remotes there may be.
//! - `claims`: where a claim is broken.
//! - `calls`: reads and writes that fail in the middle of a replay.
#![tactic(auto)]

#[cfg(test)]
mod calls;
#[cfg(test)]
mod claims;
#[cfg(test)]
mod lengths;
#[cfg(test)]
mod lines;
#[cfg(test)]
mod remotes;
#[cfg(test)]
mod replayed;
#[cfg(test)]
mod rv;
