//! Runs of `rvc` in memory, for the crates of tests.
//!
//! - `cases`: what a run is given, and how it must end.
//! - `runs`: one run over sources and a sink in memory.
//! - `ended`: how a run ended, compared with how it must.
//! - `expected`: runs that must end as their cases say.
//! - `faults`: runs of which each call fails in turn.
//! - `endless`: runs over a source that never ends.
//! - `protocols`: protocols that several tests read.
//!
//! Nothing here is proved but that it is safe: what it is for are the values that tests compare.
#![tactic(auto)]

mod cases;
mod ended;
mod endless;
mod expected;
mod faults;
mod protocols;
mod runs;

pub use cases::{Case, Reads, Text, Wrong, begins, closes, over_file, over_nothing, over_schedule};
pub use endless::{ends_over_endless_file, ends_over_endless_schedule};
pub use expected::{each_file_ends, ends, ends_by, left_after, schedule_ends};
pub use faults::{each_file_read_fails, each_schedule_read_fails, each_write_fails};
pub use protocols::{
    ARITH, HOLD, HOLD_LINE, INVALIDATE, MIGRATORY, MIGRATORY_2, SMALL, STILL, STILL_LINE, THREE,
    migratory_body,
};
pub use runs::joined;
