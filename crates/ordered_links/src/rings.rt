//! Links that are rings.

ghost use Rattle.std.specs.Prelude.{◌≡◌, ◌<◌, ◌≤◌, ◌++◌, ◌∷◌, [], drop, length, replicate};
ghost use Rattle.std.specs.Prelude.{slice_get, IfOk};
ghost use Rattle.ordered_links.specs.Lists.{LinkPair, no_packets, first_packet};

use crate::links::Links;
use crate::packet::Packet;
use circular_buffer::HeapCircularBuffer;
use rv_base::NoMemory;
use std::alloc::Global;
use std::marker::Model;

// The two links of one remote. A ring that is full would give up its first packet, so each is as
// large as a link's list can get.
#[derive(Drop)]
struct Pair {
    up: HeapCircularBuffer<Packet>,
    down: HeapCircularBuffer<Packet>,
}

impl Model for Pair {
    ghost use Rattle.std.specs.Prelude.{◌≡◌};
    ghost use Rattle.ordered_links.specs.Lists.{LinkPair};

    ghost Value = { LinkPair };

    ghost view = { λ pair. record { up = pair.up.items; down = pair.down.items } };

    ghost invariant = { λ pair. (pair.up.capacity ≡ 2) × (pair.down.capacity ≡ 3) };
}

impl Pair {
    fn new(alloc: Global) -> Result<Pair, NoMemory>
        ensures { IfOk result (λ pair. pair ≡ no_packets) }
    {
        Ok(Pair {
            up: HeapCircularBuffer::with_capacity(alloc, 2)?,
            down: HeapCircularBuffer::with_capacity(alloc, 3)?,
        })
    }

    fn put_up(&mut self, packet: Packet)
        requires { length self.old.up < 2 }
        ensures { self.new ≡ record self.old { up = self.old.up ++ packet ∷ [] } }
    {
        let _ = self.up.push_back(packet);
    }

    fn put_down(&mut self, packet: Packet)
        requires { length self.old.down < 3 }
        ensures { self.new ≡ record self.old { down = self.old.down ++ packet ∷ [] } }
    {
        let _ = self.down.push_back(packet);
    }

    fn take_up(&mut self) -> Option<Packet>
        ensures value { result ≡ first_packet self.old.up }
        ensures rest { self.new ≡ record self.old { up = drop 1 self.old.up } }
    {
        self.up.pop_front()
    }

    fn take_down(&mut self) -> Option<Packet>
        ensures value { result ≡ first_packet self.old.down }
        ensures rest { self.new ≡ record self.old { down = drop 1 self.old.down } }
    {
        self.down.pop_front()
    }

    fn up_at(&self, place: usize) -> Option<Packet>
        ensures { result ≡ slice_get self.now.up place }
    {
        self.up.get(place).copied()
    }

    fn down_at(&self, place: usize) -> Option<Packet>
        ensures { result ≡ slice_get self.now.down place }
    {
        self.down.get(place).copied()
    }
}

/// The links between the home and from 1 to 64 remotes, each a ring that has room for as many
/// packets as may be put on it. Contracts see the list of the remotes' pairs of lists. No call but
/// `new` takes memory.
#[derive(Drop)]
pub struct RingLinks {
    pairs: Vec<Pair>,
}

impl Model for RingLinks {
    ghost use Rattle.std.specs.Prelude.{◌≤◌, List, length};
    ghost use Rattle.ordered_links.specs.Lists.{LinkPair};

    ghost Value = { List LinkPair };

    ghost view = { λ links. links.pairs.items };

    ghost invariant = { λ links. (1 ≤ length links.pairs.items) × (length links.pairs.items ≤ 64) };
}

impl RingLinks {
    /// Links between the home and n remotes, with nothing under way. All room is taken here.
    pub fn new(alloc: Global, n: u8) -> Result<RingLinks, NoMemory>
        requires { (1 ≤ n) × (n ≤ 64) }
        ensures { IfOk result (λ links. links ≡ replicate n no_packets) }
    {
        let mut pairs = Vec::with_capacity(alloc, n as usize)?;
        for made in 0..n {
            pairs.push(Pair::new(alloc)?)?;
        }
        Ok(RingLinks { pairs })
    }
}

impl Links for RingLinks {
    ghost use Rattle.ordered_links.specs.Lists.{IsPut, IsTaken};

    ghost lists = { λ links. links };

    ghost put_effect = { IsPut };

    ghost take_effect = { IsTaken };

    fn count(&self) -> u8 {
        self.pairs.len() as u8
    }

    fn put_up(&mut self, j: u8, packet: Packet) {
        let pair = &mut self.pairs[j as usize];
        pair.put_up(packet);
    }

    fn put_down(&mut self, j: u8, packet: Packet) {
        let pair = &mut self.pairs[j as usize];
        pair.put_down(packet);
    }

    fn take_up(&mut self, j: u8) -> Option<Packet> {
        let pair = &mut self.pairs[j as usize];
        pair.take_up()
    }

    fn take_down(&mut self, j: u8) -> Option<Packet> {
        let pair = &mut self.pairs[j as usize];
        pair.take_down()
    }

    fn up_at(&self, j: u8, place: usize) -> Option<Packet> {
        let pair = &self.pairs[j as usize];
        pair.up_at(place)
    }

    fn down_at(&self, j: u8, place: usize) -> Option<Packet> {
        let pair = &self.pairs[j as usize];
        pair.down_at(place)
    }
}
