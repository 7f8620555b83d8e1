//! Tests of the parts of which the machine is made, and of those of an image: single calls.
//!
//! - `slots`: the home's slots.
//! - `rings`: links that are rings.
//! - `lossy_links`: links over a network that loses, repeats and reorders.
//! - `row_words`: rows as words.
//! - `heads`: the head of an image.
#![tactic(auto)]

#[cfg(test)]
mod heads;
#[cfg(test)]
mod lossy_links;
#[cfg(test)]
mod rings;
#[cfg(test)]
mod row_words;
#[cfg(test)]
mod slots;
