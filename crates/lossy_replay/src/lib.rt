//! Schedules of steps and of moves of the network, played on the two controllers of a protocol over
//! links that lose, repeat and reorder frames.
//!
//! - `items`: what a line of such a schedule says.
//! - `waiting`: which deliveries wait, since nothing has arrived.
//! - `net_lines`: the texts that tell of a move of the network.
//! - `lossy_player`: the machine, and the call that plays a schedule on it.
//! - `laws`: that what a schedule plays is a run, whatever the network does.
#![tactic(auto)]

mod items;
pub mod laws;
mod lossy_player;
mod net_lines;
mod waiting;

pub use items::{LossyItem, read_line};
pub use lossy_player::{LossyPlayer, replay};
