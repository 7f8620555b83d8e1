//! What every other crate stands on.
//!
//! The compiler computes over values and meets the world in two places: it reads bytes and it
//! writes them. This layer has what all of that shares, and knows nothing of protocols.
//!
//! - `items`: a list that contracts see as the list of its items.
//! - `no_memory`: the one error of a call that allocates.
//! - `numbers` and `numerals`: numbers written as decimal text, and read from it.
//! - `outside`: sources and sinks of bytes, as traits. A contract speaks of the bytes left or
//!   taken, where they are told, of a count of faults and one of calls without memory, and of
//!   whether the last read answered the end: a call may answer that reading or writing failed only
//!   where the count of faults of that source or sink rose, and that a source is at its end only
//!   where its last read said so.
//! - `memory`: sources and sinks in memory, which do exactly as they are told, failing calls
//!   included.
//! - `whole`: the two loops over the outside, a file read to its end and a text written whole.
//! - `words`: the words of a line of text, one after the other or by their place.
//!
//! The definitions that the contracts cite are in `specs/`, a file for each idea.
#![tactic(auto)]

mod items;
mod memory;
mod no_memory;
mod numbers;
mod numerals;
mod outside;
mod whole;
mod words;

pub use items::Items;
pub use memory::{MemorySink, MemorySource, SteadySink, SteadySource};
pub use no_memory::NoMemory;
pub use numbers::put_number;
pub use numerals::read_number;
pub use outside::{ReadAnswer, Sink, Source, WriteAnswer};
pub use whole::{FILE_LIMIT, Gathered, Wrote, read_whole, write_whole};
pub use words::{next_word, word_at};
