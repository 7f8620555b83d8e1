//! Tests of the commands that write controllers and examples: whole runs in memory.
//!
//! - `rows`: the rows of a table.
//! - `pairs`: protocols of which each shows one thing about messages and their replies.
//! - `json`: the same rows as JSON.
//! - `examples`: protocols to start from.
//! - `refused`: files that have no table.
//! - `claims`: files with claims.
//! - `calls`: reads and writes that fail.
#![tactic(auto)]

#[cfg(test)]
mod calls;
#[cfg(test)]
mod claims;
#[cfg(test)]
mod examples;
#[cfg(test)]
mod json;
#[cfg(test)]
mod pairs;
#[cfg(test)]
mod refused;
#[cfg(test)]
mod rows;
