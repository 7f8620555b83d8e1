//! The rows of the controller of the home, and the table of a protocol.
//!
//! - `home`: the rows of the home.
//! - `compiling`: the table of a protocol in a mode.
#![tactic(auto)]

mod compiling;
mod home;

pub use compiling::compile;
pub use home::home_rows;
