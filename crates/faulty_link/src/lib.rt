//! Links over a network that loses, repeats and reorders.
//!
//! Each link is a wire: its packets are numbered and travel in frames. What lies on a link is what
//! was received and not taken yet, and then what was put and not received yet; so whatever happens
//! to frames changes no link, and these are links like any others. Nothing is acknowledged over the
//! network: a link holds few packets, so each packet older than these was received.
//!
//! - `frame`: what travels.
//! - `net_step`: what the network does.
//! - `wire`: one wire.
//! - `lossy_links`: the links.
//! - `net_lines`: what the network does, as lines of a schedule have it.
//! - `laws`: that nothing is lost, repeated or reordered for whoever takes packets.
#![tactic(auto)]

mod frame;
mod laws;
mod lossy_links;
mod net_lines;
mod net_step;
mod wire;

pub use frame::Frame;
pub use laws::{
    every_wire_is_whole, moves_change_no_list, the_next_packet_is_received,
    what_is_handed_over_was_put,
};
pub use lossy_links::LossyLinks;
pub use net_lines::{net_text, read_net_line};
pub use net_step::{NetStep, Way};
