//! The checks: whether a protocol is well-formed, its first fault, and its numbered form.
//!
//! - `declared`: the declarations of a kind, looked up by name.
//! - `scope`: what the guards of a process can name, and what a guard may say there.
//! - `known`, `types`, `large_numbers`: what is asked of the names, types and numbers of a guard,
//!   and of the names and numbers of a claim.
//! - `item_codes`: the least code of an item.
//! - `fault`: a fault, and the codes.
//! - `walk`: the first fault of a protocol, item by item.
//! - `number`: the numbered form.
//! - `checked`: the call that checks, and the protocol that was checked.
//! - `laws`: that what was checked is proper, and what the set of a claim has.
#![tactic(auto)]

mod checked;
mod declared;
mod fault;
mod item_codes;
mod known;
mod large_numbers;
mod laws;
mod number;
mod scope;
mod types;
mod walk;

pub use checked::{CheckError, Checked, check};
pub use fault::Fault;
pub use laws::{state_set_by_names, well_formed_is_proper};
