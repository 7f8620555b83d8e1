//! Sources and sinks in memory, for tests and for callers that hold the bytes already.

mod calls;
mod sinks;
mod sources;

pub use sinks::{MemorySink, SteadySink};
pub use sources::{MemorySource, SteadySource};
