//! Traces of `run`, checked line by line with the rendezvous meaning alone.
//!
//! A trace says of each step what it means in the rendezvous meaning: nothing, or an event with
//! the message that is given in it. Whoever doesn't trust the one who wrote it can have it audited
//! here: each event that is told must take place in the configuration to which those before it
//! lead, its message must be the one that the sender gives there, and the abstraction that ends the
//! trace must be the configuration reached. No table and no controller is known here.
//!
//! - `step_line`: what the line of a step tells.
//! - `auditor`: what is kept of a trace, and what each line does to it.
//! - `auditing`: the loop over the lines, and how it ends.
//! - `laws`: that a trace which is accepted prints a run of the meaning, and its last
//!   configuration, and that lines and events are read exactly.
#![tactic(auto)]

mod auditing;
mod auditor;
pub mod laws;
mod step_line;

pub use auditing::{AUDIT_LIMITS, Audited, audit};
pub use auditor::Section;
