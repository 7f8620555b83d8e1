//! The slots.

ghost use Rattle.std.specs.Prelude.{◌≡◌, ◌<◌, ◌≤◌, ◌↔◌, ◌+◌, [], ◌∷◌, ◌++◌, true, false, Some};
ghost use Rattle.std.specs.Prelude.{length, IsTrue, IsNone, IfOk, IfNone};
ghost use Rattle.std.specs.List.{find, position};
ghost use Rattle.slot_reserve.specs.Admission as admission;
ghost use Rattle.slot_reserve.specs.Admission.{admits};
ghost use Rattle.slot_reserve.specs.Requests.{is_sent_by, first_of, without_first, last_of};
ghost use Rattle.slot_reserve.specs.Requests.{displaced, HasNone};

use crate::held::{Admitted, Held};
use rv_base::NoMemory;
use std::alloc::Global;
use std::marker::Model;

/// From 2 to 64 slots, and the requests held in them in the order in which they came. Contracts see
/// how many slots there are, and the list of the requests. No call but `new` takes memory.
#[derive(Drop)]
pub struct Slots {
    requests: Vec<Held>,
    size: u8,
}

impl Model for Slots {
    ghost use Rattle.std.specs.Prelude.{vec_capacity};
    ghost use Rattle.slot_reserve.specs.Reserve.{Reserve, IsReserve};

    ghost Value = { Reserve };

    ghost view = { λ s. record { size = s.size; held = s.requests.items } };

    ghost invariant = { λ s. IsReserve s.size s.requests.items (vec_capacity s.requests) };
}

impl Slots {
    /// So many slots, with nothing held. All room is taken here.
    pub fn new(alloc: Global, k: u8) -> Result<Slots, NoMemory>
        requires { (2 ≤ k) × (k ≤ 64) }
        ensures { IfOk result (λ slots. slots ≡ record { size = k; held = [] }) }
    {
        Ok(Slots {
            requests: Vec::with_capacity(alloc, k as usize)?,
            size: k,
        })
    }

    /// The held requests, in the order in which they came.
    pub fn held(&self) -> &[Held]
        ensures value { result.now ≡ self.now.held }
        ensures fits { length self.now.held ≤ self.now.size }
    {
        self.requests.as_slice()
    }

    /// How many slots there are.
    pub fn size(&self) -> u8
        ensures value { result ≡ self.now.size }
        ensures bounds { (2 ≤ self.now.size) × (self.now.size ≤ 64) }
    {
        self.size
    }

    // How many slots can be given to a request that comes now.
    fn free(&self, waiting: bool) -> usize
        requires { IsTrue waiting → length self.now.held < self.now.size }
        ensures { result ≡ admission.free self.now.size (length self.now.held) waiting }
    {
        let size = self.size as usize;
        if waiting {
            size - 1 - self.requests.len()
        } else {
            size - self.requests.len()
        }
    }

    /// Whether a request that comes now would be held, which completes a guard of the home's state
    /// or doesn't, at a home that waits for an answer or doesn't. Else it would be nacked.
    pub fn admits(&self, completes: bool, waiting: bool) -> bool
        requires { IsTrue waiting → length self.now.held < self.now.size }
        ensures { result
            ≡ admits (admission.free self.now.size (length self.now.held) waiting) completes }
    {
        let free = self.free(waiting);
        free >= 2 || free == 1 && completes
    }

    /// A request comes, which completes a guard of the home's state or doesn't, to a home that
    /// waits for an answer or doesn't. It is held last, or nacked, and then nothing changes.
    pub fn admit(&mut self, request: Held, completes: bool, waiting: bool) -> Admitted
        requires { IsTrue waiting → length self.old.held < self.old.size }
        ensures kept { result ≡ Admitted.Kept
            → (admits (admission.free self.old.size (length self.old.held) waiting) completes
            ≡ true)
            × (self.new ≡ record self.old { held = self.old.held ++ request ∷ [] }) }
        ensures nacked { result ≡ Admitted.Nacked
            → (admits (admission.free self.old.size (length self.old.held) waiting) completes
            ≡ false)
            × (self.new ≡ self.old) }
    {
        if self.admits(completes, waiting) {
            self.hold(request);
            Admitted::Kept
        } else {
            Admitted::Nacked
        }
    }

    /// A request comes that crossed the home's own: the remote that the home waits on sent it in
    /// place of an answer. It is held last, in the ack slot, whatever it completes.
    pub fn cross(&mut self, request: Held)
        requires { length self.old.held < self.old.size }
        ensures { self.new ≡ record self.old { held = self.old.held ++ request ∷ [] } }
    {
        self.hold(request);
    }

    /// Holds the request last, in a slot that is free.
    pub fn hold(&mut self, request: Held)
        requires { length self.old.held < self.old.size }
        ensures { self.new ≡ record self.old { held = self.old.held ++ request ∷ [] } }
    {
        match self.requests.push(request) {
            Ok(()) => {}
            Err(_) => unreachable!(),
        }
    }

    /// Removes the first request of this remote; the others keep their order. None exactly where
    /// the remote has none, and then nothing changes.
    pub fn take(&mut self, from: u8) -> Option<Held>
        ensures value { result ≡ first_of from self.old.held }
        ensures rest { self.new ≡ record self.old { held = without_first from self.old.held } }
        ensures none { IsNone result ↔ HasNone from self.old.held }
        ensures unchanged { IfNone result (self.new ≡ self.old) }
    {
        let place = first_place(&self.requests, from)?;
        Some(self.requests.remove(place))
    }

    /// Whether the home may send a request of its own: at least two slots are free.
    pub fn room_to_send(&self) -> bool
        ensures { result ≡ admission.room_to_send self.now.size (length self.now.held) }
    {
        self.requests.len() + 2 <= self.size as usize
    }

    /// Holds the request last in place of the one that was last, and answers that one.
    pub fn displace(&mut self, request: Held) -> Held
        requires { length self.old.held ≡ self.old.size }
        ensures value { last_of self.old.held ≡ Some result }
        ensures held { self.new ≡ record self.old { held = displaced self.old.held request } }
    {
        let last = self.requests.len() - 1;
        let removed = self.requests.remove(last);
        self.hold(request);
        removed
    }
}

// The place of the first request of this remote.
fn first_place(held: &[Held], from: u8) -> Option<usize>
    ensures { result ≡ position (is_sent_by from) held.now }
{
    held.iter().position(|request| request.from == from)
}
