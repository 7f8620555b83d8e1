//! Frames.

use ordered_links::Packet;

/// What travels over the network: a packet, with the number under which it was put on its wire,
/// counted from 0.
#[derive(Clone, Copy, Debug, PartialEq, Eq, Drop)]
pub struct Frame {
    pub number: u64,
    pub packet: Packet,
}
