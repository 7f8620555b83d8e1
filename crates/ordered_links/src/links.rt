//! What links are.

ghost use Rattle.std.specs.Prelude.{◌≡◌, ◌<◌, ◌↔◌, [], ℕ, List, Option, length, slice_get};
ghost use Rattle.std.specs.Prelude.{IsNone, IfNone};
ghost use Rattle.ordered_links.specs.declared.packet.Packet.{Packet};
ghost use Rattle.ordered_links.specs.Link.{Link, Up, Down};
ghost use Rattle.ordered_links.specs.Lists.{LinkPair, packets_on, first_packet};
ghost use Rattle.ordered_links.specs.Lists.{after_put, after_take};

use crate::packet::Packet;

/// An up link and a down link for each remote. Contracts see the list of the remotes' pairs of
/// lists of packets. A put appends to one list and a take removes the first packet of one list;
/// no other list changes in any call, and the number of remotes stays. No call takes memory: an
/// up link has room for 2 packets and a down link for 3, and a put is made only where there is
/// room.
pub trait Links: Drop {
    /// The packets on each remote's two links.
    ghost lists: { Self → List LinkPair };

    /// The effect of a put: what else it says of the links before it, the link that it names, the
    /// packet, and the links after it.
    ghost put_effect: { Self → Link → Packet → Self → Type 0 };

    /// The effect of a take: what else it says of the links before it, the link that it names, the
    /// answer, and the links after it.
    ghost take_effect: { Self → Link → Option Packet → Self → Type 0 };

    /// The number of remotes.
    fn count(&self) -> u8
        ensures { result ≡ length (lists self.now) };

    /// Puts the packet on the up link of remote j.
    fn put_up(&mut self, j: u8, packet: Packet)
        requires remote { j < length (lists self.old) }
        requires room { length (packets_on (Up j) (lists self.old)) < 2 }
        ensures lists { lists self.new ≡ after_put (Up j) packet (lists self.old) }
        ensures effect { put_effect self.old (Up j) packet self.new };

    /// Puts the packet on the down link of remote j.
    fn put_down(&mut self, j: u8, packet: Packet)
        requires remote { j < length (lists self.old) }
        requires room { length (packets_on (Down j) (lists self.old)) < 3 }
        ensures lists { lists self.new ≡ after_put (Down j) packet (lists self.old) }
        ensures effect { put_effect self.old (Down j) packet self.new };

    /// Takes the first packet of the up link of remote j. None exactly where there is none, and
    /// then no list changes.
    fn take_up(&mut self, j: u8) -> Option<Packet>
        requires { j < length (lists self.old) }
        ensures value { result ≡ first_packet (packets_on (Up j) (lists self.old)) }
        ensures none { IsNone result ↔ (packets_on (Up j) (lists self.old) ≡ []) }
        ensures lists { lists self.new ≡ after_take (Up j) (lists self.old) }
        ensures unchanged { IfNone result (lists self.new ≡ lists self.old) }
        ensures effect { take_effect self.old (Up j) result self.new };

    /// Takes the first packet of the down link of remote j. None exactly where there is none, and
    /// then no list changes.
    fn take_down(&mut self, j: u8) -> Option<Packet>
        requires { j < length (lists self.old) }
        ensures value { result ≡ first_packet (packets_on (Down j) (lists self.old)) }
        ensures none { IsNone result ↔ (packets_on (Down j) (lists self.old) ≡ []) }
        ensures lists { lists self.new ≡ after_take (Down j) (lists self.old) }
        ensures unchanged { IfNone result (lists self.new ≡ lists self.old) }
        ensures effect { take_effect self.old (Down j) result self.new };

    /// The packet at this place of the up link of remote j, counted from 0. None exactly past the
    /// end.
    fn up_at(&self, j: u8, place: usize) -> Option<Packet>
        requires { j < length (lists self.now) }
        ensures { result ≡ slice_get (packets_on (Up j) (lists self.now)) place };

    /// The packet at this place of the down link of remote j, counted from 0. None exactly past the
    /// end.
    fn down_at(&self, j: u8, place: usize) -> Option<Packet>
        requires { j < length (lists self.now) }
        ensures { result ≡ slice_get (packets_on (Down j) (lists self.now)) place };
}
