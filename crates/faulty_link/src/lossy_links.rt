//! Links over a network that loses, repeats and reorders.

ghost use Rattle.std.specs.Prelude.{◌≡◌, ◌<◌, ◌≤◌, ◌++◌, ◌∷◌, [], drop, length, replicate, nat_lt};
ghost use Rattle.std.specs.Prelude.{slice_get, IfOk, IfNone};
ghost use Rattle.std.specs.Option.{option_map};
ghost use Rattle.ordered_links.specs.Lists.{packets_on, first_packet, after_put, after_take};
ghost use Rattle.faulty_link.specs.Wire.{no_wires, on_wire, wire_on, pair_lists, wire_lists};
ghost use Rattle.faulty_link.specs.Wire.{room_of};
ghost use Rattle.faulty_link.specs.Moves.{wire_after_put, wire_after_take, link_on, wire_that_goes};
ghost use Rattle.faulty_link.specs.Moves.{pair_with, room_that_goes, moved_pair};
ghost use Rattle.faulty_link.specs.Moves.{IsWirePut, IsWireTaken, IsAnswered};
ghost use Rattle.faulty_link.specs.Whole.{IsWire};

use crate::net_step::{NetStep, Way};
use crate::wire::Ends;
use ordered_links::{Links, MovingLinks, Packet};
use rv_base::NoMemory;
use std::alloc::Global;
use std::marker::Model;

// The two wires of one remote.
#[derive(Drop)]
struct Pair {
    up: Ends,
    down: Ends,
}

impl Model for Pair {
    ghost use Rattle.std.specs.Prelude.{◌≡◌};
    ghost use Rattle.faulty_link.specs.Wire.{WirePair};

    ghost Value = { WirePair };

    ghost view = { λ pair. record { up = pair.up.wire; down = pair.down.wire } };

    ghost invariant = { λ pair. (pair.up.room ≡ 2) × (pair.down.room ≡ 3) };
}

impl Pair {
    fn new(alloc: Global) -> Result<Pair, NoMemory>
        ensures { IfOk result (λ pair. pair ≡ no_wires) }
    {
        Ok(Pair {
            up: Ends::new(alloc, 2)?,
            down: Ends::new(alloc, 3)?,
        })
    }

    // Puts the packet on the wire that goes this way: there is room for it.
    fn put(&mut self, way: Way, packet: Packet)
        requires { length (on_wire (wire_that_goes way self.old)) < room_that_goes way }
        ensures after { self.new ≡ pair_with way
            (wire_after_put (room_that_goes way) packet (wire_that_goes way self.old)) self.old }
        ensures list { on_wire (wire_that_goes way self.new)
            ≡ on_wire (wire_that_goes way self.old) ++ packet ∷ [] }
    {
        match way {
            Way::Up => self.up.put(packet),
            Way::Down => self.down.put(packet),
        }
    }

    // Takes the first packet of the wire that goes this way, if there is one.
    fn take(&mut self, way: Way) -> Option<Packet>
        ensures value { result ≡ first_packet (on_wire (wire_that_goes way self.old)) }
        ensures after { self.new
            ≡ pair_with way (wire_after_take (wire_that_goes way self.old)) self.old }
        ensures list { on_wire (wire_that_goes way self.new)
            ≡ drop 1 (on_wire (wire_that_goes way self.old)) }
    {
        match way {
            Way::Up => self.up.take(),
            Way::Down => self.down.take(),
        }
    }

    // Makes the move of the wire that it names. It is refused, and nothing changes, exactly where
    // it isn't enabled. The packets on both wires stay.
    fn own_move(&mut self, step: NetStep) -> bool
        ensures answer { IsAnswered result self.old self.new (moved_pair step self.old) }
        ensures lists { pair_lists self.new ≡ pair_lists self.old }
    {
        match step.way() {
            Way::Up => self.up.own_move(step),
            Way::Down => self.down.own_move(step),
        }
    }

    // The wire that goes this way.
    fn wire(&self, way: Way) -> &Ends
        ensures wire { result.now.wire ≡ wire_that_goes way self.now }
        ensures room { result.now.room ≡ room_that_goes way }
    {
        match way {
            Way::Up => &self.up,
            Way::Down => &self.down,
        }
    }
}

/// Links between the home and from 1 to 64 remotes, each of them a wire over a network that may
/// lose, repeat and reorder what travels. Contracts see the list of the remotes' pairs of wires. No
/// call but `new` takes memory.
#[derive(Drop)]
pub struct LossyLinks {
    pairs: Vec<Pair>,
}

impl Model for LossyLinks {
    ghost use Rattle.std.specs.Prelude.{◌≤◌, List, length};
    ghost use Rattle.faulty_link.specs.Wire.{WirePair};

    ghost Value = { List WirePair };

    ghost view = { λ links. links.pairs.items };

    ghost invariant = { λ links. (1 ≤ length links.pairs.items) × (length links.pairs.items ≤ 64) };
}

impl LossyLinks {
    /// Links between the home and n remotes, with nothing put on any wire. All room is taken here.
    pub fn new(alloc: Global, n: u8) -> Result<LossyLinks, NoMemory>
        requires { (1 ≤ n) × (n ≤ 64) }
        ensures { IfOk result (λ links. links ≡ replicate n no_wires) }
    {
        let mut pairs = Vec::with_capacity(alloc, n as usize)?;
        for made in 0..n {
            pairs.push(Pair::new(alloc)?)?;
        }
        Ok(LossyLinks { pairs })
    }

    // Remote j's wire that goes this way.
    fn wire(&self, j: u8, way: Way) -> &Ends
        requires { j < length self.now }
        ensures wire { result.now.wire ≡ wire_on (link_on j way) self.now }
        ensures room { result.now.room ≡ room_of (link_on j way) }
    {
        let pair = &self.pairs[j as usize];
        pair.wire(way)
    }

    // Puts the packet on the wire of remote j that goes this way: there is room for it.
    fn put(&mut self, j: u8, way: Way, packet: Packet)
        requires remote { j < length self.old }
        requires room { length (packets_on (link_on j way) (wire_lists self.old))
            < room_of (link_on j way) }
        ensures lists { wire_lists self.new
            ≡ after_put (link_on j way) packet (wire_lists self.old) }
        ensures effect { IsWirePut self.old (link_on j way) packet self.new }
    {
        let pair = &mut self.pairs[j as usize];
        pair.put(way, packet);
    }

    // Takes the first packet of the wire of remote j that goes this way, if there is one.
    fn take(&mut self, j: u8, way: Way) -> Option<Packet>
        requires { j < length self.old }
        ensures value { result ≡ first_packet (packets_on (link_on j way) (wire_lists self.old)) }
        ensures lists { wire_lists self.new ≡ after_take (link_on j way) (wire_lists self.old) }
        ensures unchanged { IfNone result (wire_lists self.new ≡ wire_lists self.old) }
        ensures effect { IsWireTaken self.old (link_on j way) result self.new }
    {
        let pair = &mut self.pairs[j as usize];
        pair.take(way)
    }

    // The packet at this place of the wire of remote j that goes this way.
    fn packet_at(&self, j: u8, way: Way, place: usize) -> Option<Packet>
        requires { j < length self.now }
        ensures { result ≡ slice_get (packets_on (link_on j way) (wire_lists self.now)) place }
    {
        self.wire(j, way).packet_at(place)
    }

    /// Remote j's wire that goes this way is whole: so there are at most 8 frames in its flight.
    pub fn whole(&self, j: u8, way: Way)
        requires { j < length self.now }
        ensures { IsWire (room_of (link_on j way)) (wire_on (link_on j way) self.now) }
    {
        self.wire(j, way).whole();
    }

    /// Whether the inbox of remote j's wire that goes this way holds a packet: one that was
    /// received and not taken yet.
    pub fn arrived(&self, j: u8, way: Way) -> bool
        requires { j < length self.now }
        ensures { result ≡ nat_lt 0 (length (wire_on (link_on j way) self.now).inbox) }
    {
        self.wire(j, way).arrived()
    }

    /// How many packets were put on remote j's wire that goes this way, since its numbers last
    /// began.
    pub fn put_count(&self, j: u8, way: Way) -> u64
        requires { j < length self.now }
        ensures { result ≡ (wire_on (link_on j way) self.now).put }
    {
        self.wire(j, way).put_count()
    }

    /// How many packets were received from remote j's wire that goes this way, since its numbers
    /// last began.
    pub fn got_count(&self, j: u8, way: Way) -> u64
        requires { j < length self.now }
        ensures { result ≡ (wire_on (link_on j way) self.now).got }
    {
        self.wire(j, way).got_count()
    }

    /// The number of the frame at this place of the flight of remote j's wire that goes this way,
    /// counted from 0. `None` exactly at and past the end of the flight.
    pub fn flight_at(&self, j: u8, way: Way, place: usize) -> Option<u64>
        requires { j < length self.now }
        ensures { result ≡ option_map (λ frame. frame.number)
            (slice_get (wire_on (link_on j way) self.now).flight place) }
    {
        self.wire(j, way).flight_at(place)
    }
}

impl Links for LossyLinks {
    ghost use Rattle.faulty_link.specs.Wire.{wire_lists};
    ghost use Rattle.faulty_link.specs.Moves.{IsWirePut, IsWireTaken};

    ghost lists = { wire_lists };

    ghost put_effect = { IsWirePut };

    ghost take_effect = { IsWireTaken };

    fn count(&self) -> u8 {
        self.pairs.len() as u8
    }

    fn put_up(&mut self, j: u8, packet: Packet) {
        self.put(j, Way::Up, packet);
    }

    fn put_down(&mut self, j: u8, packet: Packet) {
        self.put(j, Way::Down, packet);
    }

    fn take_up(&mut self, j: u8) -> Option<Packet> {
        self.take(j, Way::Up)
    }

    fn take_down(&mut self, j: u8) -> Option<Packet> {
        self.take(j, Way::Down)
    }

    fn up_at(&self, j: u8, place: usize) -> Option<Packet> {
        self.packet_at(j, Way::Up, place)
    }

    fn down_at(&self, j: u8, place: usize) -> Option<Packet> {
        self.packet_at(j, Way::Down, place)
    }
}

impl MovingLinks for LossyLinks {
    ghost use Rattle.faulty_link.specs.Moves.{IsWireMove};

    type Move = NetStep;

    ghost move_effect = { IsWireMove };

    /// Makes the move. It is refused, and nothing changes, exactly where it isn't enabled, and
    /// where there is no such remote.
    fn own_move(&mut self, step: NetStep) -> bool {
        let remote = step.remote() as usize;
        if remote >= self.pairs.len() {
            return false;
        }
        let pair = &mut self.pairs[remote];
        pair.own_move(step)
    }
}
