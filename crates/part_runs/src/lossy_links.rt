//! Links over a network that loses, repeats and reorders.

use faulty_link::{LossyLinks, NetStep, Way};
use ordered_links::{Links, MovingLinks, Packet};
use proto_model::Value;
use std::test::Fail;

// A wire with room for 2 packets, as its rules tell it: how many packets were put, received
// and taken, and the numbers of the frames in flight.
#[derive(Drop)]
struct Told {
    put: u64,
    got: u64,
    taken: u64,
    flight: Vec<u64>,
}

// The packet that is put under this number.
fn packet(number: u64) -> Packet {
    Packet::Request((number % 64) as u8, Value::Unit)
}

impl Told {
    // A frame of this number comes behind the others.
    fn send(&mut self, number: u64) -> bool {
        if self.flight.len() >= 8 {
            let _ = self.flight.remove(0);
        }
        self.flight.push(number).is_ok()
    }

    fn put(&mut self) -> bool {
        let number = self.put;
        self.put = number.wrapping_add(1);
        self.send(number)
    }

    fn take(&mut self) -> Option<Packet> {
        if self.taken == self.put {
            return None;
        }
        let number = self.taken;
        self.taken = number.wrapping_add(1);
        if self.got < self.taken {
            self.got = self.taken;
        }
        Some(packet(number))
    }

    fn resend(&mut self, place: u64) -> bool {
        let kept = if self.put < 2 { self.put } else { 2 };
        place < kept && self.send(self.put.wrapping_sub(kept).wrapping_add(place))
    }

    fn lose(&mut self, place: usize) -> bool {
        if place >= self.flight.len() {
            return false;
        }
        let _ = self.flight.remove(place);
        true
    }

    fn copy(&mut self, place: usize) -> bool {
        let Some(number) = self.flight.get(place).copied() else {
            return false;
        };
        self.send(number)
    }

    fn pass(&mut self, place: usize) -> bool {
        if place >= self.flight.len() {
            return false;
        }
        let number = self.flight.remove(place);
        if number == self.got {
            self.got = number.wrapping_add(1);
        }
        true
    }

    // Whether the packet at this place is the one that is told.
    fn has_packet(&self, links: &LossyLinks, place: usize) -> bool {
        let number = self.taken.wrapping_add(place as u64);
        let told = if number < self.put {
            Some(packet(number))
        } else {
            None
        };
        links.count() > 0 && links.up_at(0, place) == told
    }

    // Whether the frame at this place is the one that is told.
    fn has_frame(&self, links: &LossyLinks, place: usize) -> bool {
        links.count() > 0 && links.flight_at(0, Way::Up, place) == self.flight.get(place).copied()
    }

    // Whether the wire is as it is told.
    fn is(&self, links: &LossyLinks) -> bool {
        if links.count() == 0 {
            return false;
        }
        let counts = links.put_count(0, Way::Up) == self.put
            && links.got_count(0, Way::Up) == self.got
            && links.arrived(0, Way::Up) == (self.taken < self.got);
        counts
            && (0..3usize).all(|place| self.has_packet(links, place))
            && (0..9usize).all(|place| self.has_frame(links, place))
    }
}

// Puts a packet on the first up link, where there is room for one; else none is put.
fn put(links: &mut LossyLinks, number: u64) -> bool {
    if links.count() == 0 || links.up_at(0, 1).is_some() {
        return false;
    }
    links.put_up(0, packet(number));
    true
}

fn take(links: &mut LossyLinks) -> Option<Packet> {
    if links.count() == 0 {
        return None;
    }
    links.take_up(0)
}

// Does this to both. Whether they answer the same.
fn act(links: &mut LossyLinks, told: &mut Told, kind: u64, place: u32) -> bool {
    let at = place as usize;
    match kind {
        0 => !put(links, told.put) || told.put(),
        1 => take(links) == told.take(),
        2 => links.own_move(NetStep::Resend(0, Way::Up, place)) == told.resend(place as u64),
        3 => links.own_move(NetStep::Lose(0, Way::Up, place)) == told.lose(at),
        4 => links.own_move(NetStep::Copy(0, Way::Up, place)) == told.copy(at),
        _ => links.own_move(NetStep::Pass(0, Way::Up, place)) == told.pass(at),
    }
}

// So many acts, which numbers choose. Whether the wire is as it is told after each.
fn acts(links: &mut LossyLinks, told: &mut Told, count: u32) -> bool {
    let mut x: u64 = 7;
    for _ in 0..count {
        x = x
            .wrapping_mul(6_364_136_223_846_793_005)
            .wrapping_add(1_442_695_040_888_963_407);
        let place = ((x >> 40) % 9) as u32;
        if !act(links, told, (x >> 33) % 6, place) || !told.is(links) {
            return false;
        }
    }
    true
}

#[test]
fn a_thousand_acts_go_as_told(rt: HostRuntime) -> Result<(), Fail> {
    let mut links = LossyLinks::new(rt.alloc(), 1)?;
    let flight = Vec::new(rt.alloc());
    let mut told = Told {
        put: 0,
        got: 0,
        taken: 0,
        flight,
    };
    assert!(rt; acts(&mut links, &mut told, 1_000));
    assert!(rt; told.taken > 50);
    Ok(())
}

#[test]
fn a_move_without_its_packet_or_remote_is_refused(rt: HostRuntime) -> Result<(), Fail> {
    let mut links = LossyLinks::new(rt.alloc(), 64)?;
    assert!(rt; put(&mut links, 0));
    let refused = [
        NetStep::Resend(0, Way::Up, 1),
        NetStep::Resend(63, Way::Down, 0),
        NetStep::Lose(0, Way::Up, 1),
        NetStep::Lose(64, Way::Up, 0),
        NetStep::Copy(0, Way::Down, 0),
        NetStep::Copy(4_294_967_295, Way::Up, 0),
        NetStep::Pass(1, Way::Up, 0),
        NetStep::Pass(64, Way::Down, 0),
    ];
    for step in refused {
        assert!(rt; !links.own_move(step));
    }
    assert!(rt; links.own_move(NetStep::Pass(0, Way::Up, 0)));
    Ok(())
}

#[test]
fn a_ninth_frame_removes_the_first(rt: HostRuntime) -> Result<(), Fail> {
    let mut links = LossyLinks::new(rt.alloc(), 1)?;
    assert!(rt; put(&mut links, 0) && put(&mut links, 1));
    for _ in 0..7u8 {
        assert!(rt; links.own_move(NetStep::Copy(0, Way::Up, 1)));
    }
    let told = Told {
        put: 2,
        got: 0,
        taken: 0,
        flight: vec![in rt.alloc(); 1; 8]?,
    };
    assert!(rt; told.is(&links));
    Ok(())
}
