//! What became of the request by which a process waits.

ghost use Rattle.std.specs.Prelude.{◌≡◌, ◌<◌, ◌≤◌, length, slice_get};
ghost use Rattle.ordered_links.specs.Lists.{packets_on};
ghost use Rattle.abstraction_map.specs.Abstraction.{fate_in, granted_if};
ghost use Rattle.abstraction_map.specs.Fates.{fate_said, link_to};

use ordered_links::{Links, Packet};
use proto_model::Value;

/// What became of a request: it was not granted, or not yet; it was granted; or it was, and its
/// reply with this value is under way.
#[derive(Clone, Copy)]
pub(crate) enum Fate {
    NotGranted,
    Granted,
    Replied(Value),
}

/// The way of a link: up to the home, or down to the remote.
#[derive(Clone, Copy)]
pub(crate) enum Way {
    Up,
    Down,
}

// The packet at this place of the link of remote j.
fn packet_at<L: Links>(links: &L, way: Way, j: u8, place: usize) -> Option<Packet>
    requires { j < length (L.lists links.now) }
    ensures { result ≡ slice_get (packets_on (link_to way j) (L.lists links.now)) place }
{
    match way {
        Way::Up => links.up_at(j, place),
        Way::Down => links.down_at(j, place),
    }
}

fn granted_if(granted: bool) -> Fate
    ensures { fate_said result ≡ granted_if granted }
{
    if granted {
        Fate::Granted
    } else {
        Fate::NotGranted
    }
}

/// The fate by the packets on the link of remote j, at most 3, and by whether the request was
/// granted otherwise.
pub(crate) fn fate_on<L: Links>(links: &L, way: Way, j: u8, otherwise: bool) -> Fate
    requires remote { j < length (L.lists links.now) }
    requires few { length (packets_on (link_to way j) (L.lists links.now)) ≤ 3 }
    ensures { fate_said result
        ≡ fate_in (packets_on (link_to way j) (L.lists links.now)) otherwise }
{
    let mut granted = otherwise;
    for place in 0..3 {
        let Some(packet) = packet_at(links, way, j, place) else {
            return granted_if(granted);
        };
        match packet {
            Packet::Request(_, _) => {}
            Packet::Ack => granted = true,
            Packet::Nack => {}
            Packet::Reply(_, value) => return Fate::Replied(value),
        }
    }
    granted_if(granted)
}
