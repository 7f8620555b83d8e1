//! Links that count the packets of each kind that are put on them.

ghost use Rattle.std.specs.Prelude.{◌≡◌, ◌≤◌, replicate, IfOk};
ghost use Rattle.ordered_links.specs.Lists.{no_packets};
ghost use Rattle.drive_report.specs.Counted.{with_packet};

use ordered_links::{Links, Packet, RingLinks};
use rv_base::NoMemory;
use std::alloc::Global;
use std::marker::Model;

/// How many packets of each kind were put on links, modulo 2^64.
#[derive(Clone, Copy, Debug, PartialEq, Eq)]
pub(crate) struct PacketCounts {
    pub(crate) requests: u64,
    pub(crate) acks: u64,
    pub(crate) nacks: u64,
    pub(crate) replies: u64,
}

impl PacketCounts {
    /// The counts with one more packet.
    pub(crate) fn with(self, packet: Packet) -> PacketCounts
        ensures { result ≡ with_packet packet self }
    {
        let mut counts = self;
        match packet {
            Packet::Request(_, _) => counts.requests = self.requests.wrapping_add(1),
            Packet::Ack => counts.acks = self.acks.wrapping_add(1),
            Packet::Nack => counts.nacks = self.nacks.wrapping_add(1),
            Packet::Reply(_, _) => counts.replies = self.replies.wrapping_add(1),
        }
        counts
    }
}

/// Rings that count what is put on them.
#[derive(Drop)]
pub(crate) struct CountedLinks {
    rings: RingLinks,
    counts: PacketCounts,
}

impl Model for CountedLinks {
    ghost use Rattle.drive_report.specs.Counted.{Counted};

    ghost Value = { Counted };

    ghost view = { λ links. record { lists = links.rings; counts = links.counts } };
}

impl CountedLinks {
    /// Links between the home and n remotes, on which nothing was put.
    pub(crate) fn new(alloc: Global, n: u8) -> Result<CountedLinks, NoMemory>
        requires { (1 ≤ n) × (n ≤ 64) }
        ensures { IfOk result (λ links. links ≡ record {
          lists = replicate n no_packets;
          counts = record { requests = 0; acks = 0; nacks = 0; replies = 0 };
        }) }
    {
        Ok(CountedLinks {
            rings: RingLinks::new(alloc, n)?,
            counts: PacketCounts {
                requests: 0,
                acks: 0,
                nacks: 0,
                replies: 0,
            },
        })
    }

    /// What was put so far.
    pub(crate) fn counts(&self) -> PacketCounts
        ensures { result ≡ self.now.counts }
    {
        self.counts
    }
}

impl Links for CountedLinks {
    ghost use Rattle.std.specs.Prelude.{◌≡◌};
    ghost use Rattle.drive_report.specs.Counted.{lists_of, with_packet};

    ghost lists = { lists_of };

    ghost put_effect = { λ old link packet new. new.counts ≡ with_packet packet old.counts };

    ghost take_effect = { λ old link answer new. new.counts ≡ old.counts };

    fn count(&self) -> u8 {
        self.rings.count()
    }

    fn put_up(&mut self, j: u8, packet: Packet) {
        self.rings.put_up(j, packet);
        self.counts = self.counts.with(packet);
    }

    fn put_down(&mut self, j: u8, packet: Packet) {
        self.rings.put_down(j, packet);
        self.counts = self.counts.with(packet);
    }

    fn take_up(&mut self, j: u8) -> Option<Packet> {
        self.rings.take_up(j)
    }

    fn take_down(&mut self, j: u8) -> Option<Packet> {
        self.rings.take_down(j)
    }

    fn up_at(&self, j: u8, place: usize) -> Option<Packet> {
        self.rings.up_at(j, place)
    }

    fn down_at(&self, j: u8, place: usize) -> Option<Packet> {
        self.rings.down_at(j, place)
    }
}
