//! The table of the two controllers that a protocol compiles to.
//!
//! - `rows`: what a row is.
//! - `controller`: the rows of one process, with its body.
//! - `table`: the table, which finds the one row with a place and a trigger by an `index` of each
//!   controller; its bodies are `bare`, since the rows alone tell where a guard goes.
//! - `laws`: what follows from the definitions alone.
//!
//! Which rows a protocol has, and when a table is sound, is defined in `specs/`.
#![tactic(auto)]

mod bare;
mod controller;
mod index;
mod laws;
mod rows;
mod table;

pub use controller::Controller;
pub use laws::{no_two_rows_share_a_key, rows_tell_the_protocol};
pub use rows::{Does, GuardId, Place, Puts, Row, Trigger};
pub use table::Table;
