//! Tests of the commands that tell of a file: whole runs in memory.
//!
//! - `print`: a protocol laid out.
//! - `syntax`: files that spell no protocol, and words of no form.
//! - `check`: protocols with one fault.
//! - `limits`: protocols at each limit, and one past it.
//! - `claims`: files with claims.
//! - `calls`: reads and writes that fail.
#![tactic(auto)]

#[cfg(test)]
mod calls;
#[cfg(test)]
mod check;
#[cfg(test)]
mod claims;
#[cfg(test)]
mod limits;
#[cfg(test)]
mod print;
#[cfg(test)]
mod syntax;
