//! Tests of `drive`, and of the ready list.
//!
//! - `counted`: what is counted over a run.
//! - `words`: how many remotes, slots and turns there may be, in which mode, and which seeds.
//! - `refused`: files that are not driven.
//! - `calls`: reads and writes that fail.
//! - `ready_steps`: which steps are enabled where a machine stands.
//! - `generator`: the first number that follows a seed.
#![tactic(auto)]

#[cfg(test)]
mod calls;
#[cfg(test)]
mod counted;
pub mod generator;
#[cfg(test)]
mod ready_steps;
#[cfg(test)]
mod refused;
#[cfg(test)]
mod words;
