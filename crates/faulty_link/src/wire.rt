//! One wire.

ghost use Rattle.std.specs.Prelude.{◌≡◌, ◌<◌, ◌≤◌, ◌-◌, ◌^◌, ◌++◌, ◌∷◌, [], length, drop, nat_lt};
ghost use Rattle.std.specs.Prelude.{slice_get, vec_capacity, IfOk};
ghost use Rattle.std.specs.Option.{option_map};
ghost use Rattle.circular_buffer.specs.Buffer.{buffer};
ghost use Rattle.ordered_links.specs.Lists.{first_packet};
ghost use Rattle.faulty_link.specs.Fitted.{unused};
ghost use Rattle.faulty_link.specs.Wire.{last_of, on_wire};
ghost use Rattle.faulty_link.specs.Whole.{IsWire};
ghost use Rattle.faulty_link.specs.Moves as moves;
ghost use Rattle.faulty_link.specs.Moves.{wire_after_put, wire_after_take, with_number};
ghost use Rattle.faulty_link.specs.Moves.{IsAnswered, moved_wire, onto_flight};

use crate::frame::Frame;
use crate::net_step::NetStep;
use circular_buffer::HeapCircularBuffer;
use ordered_links::Packet;
use rv_base::NoMemory;
use std::alloc::Global;
use std::marker::Model;

// The most frames in a flight.
const FLIGHT: usize = 8;

/// What the two ends of a wire keep, and the frames between them. The window is a ring that gives
/// up its oldest packet where it is full.
#[derive(Drop)]
pub(crate) struct Ends {
    put: u64,
    got: u64,
    window: HeapCircularBuffer<Packet>,
    inbox: HeapCircularBuffer<Packet>,
    flight: Vec<Frame>,
}

impl Model for Ends {
    ghost use Rattle.std.specs.Prelude.{vec_capacity};
    ghost use Rattle.faulty_link.specs.Fitted.{Fitted, IsFitted};

    ghost Value = { Fitted };

    ghost view = { λ ends. record {
      room = ends.window.capacity;
      wire = record {
        put = ends.put;
        got = ends.got;
        window = ends.window.items;
        inbox = ends.inbox.items;
        flight = ends.flight.items;
      };
    } };

    ghost invariant = { λ ends. IsFitted (record {
      room = ends.window.capacity;
      wire = record {
        put = ends.put;
        got = ends.got;
        window = ends.window.items;
        inbox = ends.inbox.items;
        flight = ends.flight.items;
      };
    }) ends.inbox.capacity (vec_capacity ends.flight) };
}

// Puts the frame behind those in the flight; of 8 the first one makes room for it.
fn push_frame(flight: &mut Vec<Frame>, frame: Frame)
    requires room { 8 ≤ vec_capacity flight.old }
    requires few { length flight.old.items ≤ 8 }
    ensures items { flight.new.items ≡ onto_flight flight.old.items frame }
    ensures room { 8 ≤ vec_capacity flight.new }
{
    if flight.len() >= FLIGHT {
        let _ = flight.remove(0);
    }
    match flight.push(frame) {
        Ok(()) => {}
        Err(_) => unreachable!(),
    }
}

// Gives up the packets at the front of the window, so that this many are left.
fn keep_last(window: &mut HeapCircularBuffer<Packet>, count: usize)
    requires { count ≤ length window.old.items }
    ensures { window.new ≡ buffer (last_of count window.old.items) window.old.capacity }
{
    let more = window.len() - count;
    for _ in 0..more {
        let _ = window.pop_front();
    }
}

impl Ends {
    /// A wire of a link that has room for so many packets, on which nothing was put.
    pub(crate) fn new(alloc: Global, room: usize) -> Result<Ends, NoMemory>
        requires { room ≤ 3 }
        ensures { IfOk result (λ ends. ends ≡ unused room) }
    {
        Ok(Ends {
            put: 0,
            got: 0,
            window: HeapCircularBuffer::with_capacity(alloc, room)?,
            inbox: HeapCircularBuffer::with_capacity(alloc, room)?,
            flight: Vec::with_capacity(alloc, FLIGHT)?,
        })
    }

    // Begins to count again where the numbers are at their end.
    fn renumber(&mut self)
        ensures after { self.new ≡ record self.old { wire = with_number self.old.wire } }
        ensures number { self.new.wire.put < 2 ^ 64 - 1 }
        ensures list { on_wire self.new.wire ≡ on_wire self.old.wire }
    {
        if self.put != u64::MAX {
            return;
        }
        let waiting = self.put - self.got;
        keep_last(&mut self.window, waiting as usize);
        self.flight.clear();
        self.put = waiting;
        self.got = 0;
    }

    /// Puts the packet on the wire: there is room for it.
    pub(crate) fn put(&mut self, packet: Packet)
        requires { length (on_wire self.old.wire) < self.old.room }
        ensures after { self.new
            ≡ record self.old { wire = wire_after_put self.old.room packet self.old.wire } }
        ensures list { on_wire self.new.wire ≡ on_wire self.old.wire ++ packet ∷ [] }
    {
        self.renumber();
        let _ = self.window.push_back(packet);
        let number = self.put;
        push_frame(&mut self.flight, Frame { number, packet });
        self.put = number + 1;
    }

    // Receives the oldest packet that waits, if there is one.
    fn take_waiting(&mut self) -> Option<Packet>
        requires { self.old.wire.inbox ≡ [] }
        ensures value { result ≡ first_packet (on_wire self.old.wire) }
        ensures after { self.new ≡ record self.old { wire = wire_after_take self.old.wire } }
    {
        let waiting = (self.put - self.got) as usize;
        if waiting == 0 {
            return None;
        }
        let oldest = self.window.get(self.window.len() - waiting).copied();
        self.got += 1;
        oldest
    }

    /// Takes the first packet of the wire, if there is one.
    pub(crate) fn take(&mut self) -> Option<Packet>
        ensures value { result ≡ first_packet (on_wire self.old.wire) }
        ensures after { self.new ≡ record self.old { wire = wire_after_take self.old.wire } }
        ensures list { on_wire self.new.wire ≡ drop 1 (on_wire self.old.wire) }
    {
        if self.inbox.is_empty() {
            return self.take_waiting();
        }
        self.inbox.pop_front()
    }

    /// The packet at this place of the wire.
    pub(crate) fn packet_at(&self, place: usize) -> Option<Packet>
        ensures { result ≡ slice_get (on_wire self.now.wire) place }
    {
        let arrived = self.inbox.len();
        if place < arrived {
            return self.inbox.get(place).copied();
        }
        let waiting = (self.put - self.got) as usize;
        let behind = place - arrived;
        if behind >= waiting {
            return None;
        }
        let first = self.window.len() - waiting;
        self.window.get(first + behind).copied()
    }

    // The packet at this place of the window.
    fn window_at(&self, place: usize) -> Option<Packet>
        ensures { result ≡ slice_get self.now.wire.window place }
    {
        self.window.get(place).copied()
    }

    // The frame at this place of the flight.
    fn frame_at(&self, place: usize) -> Option<Frame>
        ensures { result ≡ slice_get self.now.wire.flight place }
    {
        self.flight.get(place).copied()
    }

    // Sends the packet at this place of the window once more.
    fn resend(&mut self, place: usize) -> bool
        ensures answer { IsAnswered result self.old.wire self.new.wire
            (moves.resend place self.old.wire) }
        ensures room { self.new.room ≡ self.old.room }
    {
        let Some(packet) = self.window_at(place) else {
            return false;
        };
        let number = self.put - self.window.len() as u64 + place as u64;
        push_frame(&mut self.flight, Frame { number, packet });
        true
    }

    // Loses the frame at this place of the flight.
    fn lose(&mut self, place: usize) -> bool
        ensures answer { IsAnswered result self.old.wire self.new.wire
            (moves.lose place self.old.wire) }
        ensures room { self.new.room ≡ self.old.room }
    {
        if place >= self.flight.len() {
            return false;
        }
        let _ = self.flight.remove(place);
        true
    }

    // Repeats the frame at this place of the flight.
    fn copy(&mut self, place: usize) -> bool
        ensures answer { IsAnswered result self.old.wire self.new.wire
            (moves.copy place self.old.wire) }
        ensures room { self.new.room ≡ self.old.room }
    {
        let Some(frame) = self.frame_at(place) else {
            return false;
        };
        push_frame(&mut self.flight, frame);
        true
    }

    // Brings the frame at this place of the flight to the other end.
    fn pass(&mut self, place: usize) -> bool
        ensures answer { IsAnswered result self.old.wire self.new.wire
            (moves.pass place self.old.wire) }
        ensures room { self.new.room ≡ self.old.room }
    {
        let Some(frame) = self.frame_at(place) else {
            return false;
        };
        let _ = self.flight.remove(place);
        if frame.number == self.got {
            let _ = self.inbox.push_back(frame.packet);
            self.got += 1;
        }
        true
    }

    // Does what the move does to this wire.
    fn make(&mut self, step: NetStep) -> bool
        ensures answer { IsAnswered result self.old.wire self.new.wire
            (moved_wire step self.old.wire) }
        ensures room { self.new.room ≡ self.old.room }
    {
        match step {
            NetStep::Resend(_, _, place) => self.resend(place as usize),
            NetStep::Lose(_, _, place) => self.lose(place as usize),
            NetStep::Copy(_, _, place) => self.copy(place as usize),
            NetStep::Pass(_, _, place) => self.pass(place as usize),
        }
    }

    /// Makes the move on this wire, whatever wire it names. It is refused, and nothing changes,
    /// exactly where it isn't enabled. The packets on the wire stay.
    pub(crate) fn own_move(&mut self, step: NetStep) -> bool
        ensures answer { IsAnswered result self.old.wire self.new.wire
            (moved_wire step self.old.wire) }
        ensures room { self.new.room ≡ self.old.room }
        ensures list { on_wire self.new.wire ≡ on_wire self.old.wire }
    {
        let _ = &self.put;
        self.make(step)
    }

    /// The wire is whole.
    pub(crate) fn whole(&self)
        ensures { IsWire self.now.room self.now.wire }
    {
        let _ = &self.put;
    }

    /// Whether the inbox holds a packet.
    pub(crate) fn arrived(&self) -> bool
        ensures { result ≡ nat_lt 0 (length self.now.wire.inbox) }
    {
        self.inbox.len() > 0
    }

    /// How many packets were put, since the numbers last began.
    pub(crate) fn put_count(&self) -> u64
        ensures { result ≡ self.now.wire.put }
    {
        self.put
    }

    /// How many packets were received, since the numbers last began.
    pub(crate) fn got_count(&self) -> u64
        ensures { result ≡ self.now.wire.got }
    {
        self.got
    }

    /// The number of the frame at this place of the flight.
    pub(crate) fn flight_at(&self, place: usize) -> Option<u64>
        ensures { result ≡ option_map (λ frame. frame.number)
            (slice_get self.now.wire.flight place) }
    {
        let frame = self.frame_at(place)?;
        Some(frame.number)
    }
}
