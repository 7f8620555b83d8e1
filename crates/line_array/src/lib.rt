//! Many cache lines over shared links: machines of one table, one for each line, whose packets
//! between the home and a remote travel in one order.
//!
//! Between the home and each remote lie two shared links. On each, the packets of all lines are
//! delivered in the order in which they were put; so a delivery names no line, and the line whose
//! packet is the next one is told by the shared link. All other steps name their line.
//!
//! - `line_step`: the steps of an array.
//! - `shared`: the shared links, rings of line numbers.
//! - `noting`: a step of one machine, with the link on which it put a packet.
//! - `array`: the array.
//! - `worked_lines`: what the definition of a step says of worked arrays.
//! - `laws`: each line runs as if alone, and deliveries keep the order of the puts.
#![tactic(auto)]

mod array;
pub mod laws;
mod line_step;
mod noting;
mod shared;
pub mod worked_lines;

pub use array::Array;
pub use async_machine::Stepped;
pub use line_step::LineStep;
