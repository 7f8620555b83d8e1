//! Tests of what a protocol is made of and says: values, texts and claims.
//!
//! - `numbers` and `numerals`: numbers as decimal text, both ways.
//! - `words`: the words of a line.
//! - `sources` and `sinks`: calls that fail in mid-stream.
//! - `whole`: a source read to its end, and a text written whole.
//! - `layout`: the laid-out texts of two protocols, which use every rule of the grammar.
//! - `texts`: the texts of values, messages, processes and events.
//! - `values`: how expressions and guards compute.
//! - `lexemes`: files with awkward bytes.
//! - `live`: the variables of a protocol that are live in each state.
//! - `claims`: which claim of a protocol doesn't hold.
#![tactic(auto)]

#[cfg(test)]
mod claims;
#[cfg(test)]
mod layout;
#[cfg(test)]
mod lexemes;
#[cfg(test)]
mod live;
#[cfg(test)]
mod numbers;
#[cfg(test)]
mod numerals;
#[cfg(test)]
mod sinks;
#[cfg(test)]
mod sources;
#[cfg(test)]
mod texts;
#[cfg(test)]
mod values;
#[cfg(test)]
mod whole;
#[cfg(test)]
mod words;
