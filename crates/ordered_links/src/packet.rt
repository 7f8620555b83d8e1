//! Packets.

use proto_model::Value;

/// What travels on a link. A request and a reply name their message, and carry its value. An ack
/// says that a request was taken, a nack that it wasn't.
#[derive(Clone, Copy, Debug, PartialEq, Eq, Drop)]
pub enum Packet {
    Request(u8, Value),
    Ack,
    Nack,
    Reply(u8, Value),
}
