//! Tests of searches of classes: how many there are, and how deep.
//!
//! - `library`, `locks`: protocols.
//! - `searches`: what a search of a protocol's classes finds.
//! - `counts`: how many classes the protocols have.
#![tactic(auto)]

#[cfg(test)]
mod counts;
#[cfg(test)]
mod library;
#[cfg(test)]
mod locks;
#[cfg(test)]
mod searches;
