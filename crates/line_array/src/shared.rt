//! The shared links: on each, the numbers of the lines whose packets are under way.

ghost use Rattle.std.specs.Prelude.{◌≡◌, ◌<◌, ◌≤◌, ◌++◌, ◌∷◌, [], drop, length, replicate, IfOk};
ghost use Rattle.std.specs.Prelude.{◌*◌, IfSome};
ghost use Rattle.async_shape.specs.Site.{site, arrival_link};
ghost use Rattle.line_array.specs.Noted.{link_of, link_if, remote_of, most_on};
ghost use Rattle.line_array.specs.NumberRings.{empty_rings};
ghost use Rattle.line_array.specs.SharedLists.{no_entries, shared_on, with_shared, first_line};
ghost use Rattle.line_array.specs.SharedLists.{shared_after};

use async_shape::Step;
use circular_buffer::HeapCircularBuffer;
use rv_base::NoMemory;
use std::alloc::Global;
use std::marker::Model;

/// The name of a shared link: the one up from this remote, or the one down to it.
#[derive(Clone, Copy, Debug, PartialEq, Eq)]
pub(crate) enum SharedLink {
    Up(u32),
    Down(u32),
}

// The numbers of lines on the two shared links of one remote.
#[derive(Drop)]
struct NumberRings {
    up: HeapCircularBuffer<u8>,
    down: HeapCircularBuffer<u8>,
}

impl NumberRings {
    // Rings for so many lines, with nothing on them: an up link has room for 2 numbers of each
    // line, and a down link for 3.
    fn new(alloc: Global, lines: u8) -> Result<NumberRings, NoMemory>
        requires { lines ≤ 16 }
        ensures { IfOk result (λ rings. rings ≡ empty_rings lines) }
    {
        Ok(NumberRings {
            up: HeapCircularBuffer::with_capacity(alloc, 2 * lines as usize)?,
            down: HeapCircularBuffer::with_capacity(alloc, 3 * lines as usize)?,
        })
    }
}

/// The shared links of from 1 to 64 remotes, with room for the packets of from 1 to 16 lines.
/// Contracts see how many lines there are, and the list of the remotes' pairs of lists. No call but
/// `new` takes memory.
#[derive(Drop)]
pub(crate) struct SharedLinks {
    lines: u8,
    rings: Vec<NumberRings>,
}

impl Model for SharedLinks {
    ghost use Rattle.std.specs.Prelude.{map};
    ghost use Rattle.line_array.specs.Noted.{Shared};
    ghost use Rattle.line_array.specs.NumberRings.{pair_of, HaveRoom};

    ghost Value = { Shared };

    ghost view = { λ links. record { lines = links.lines; pairs = map pair_of links.rings.items } };

    ghost invariant = { λ links. HaveRoom links.lines links.rings.items };
}

impl SharedLinks {
    /// Shared links of n remotes and so many lines, with nothing under way. All room is taken here.
    pub(crate) fn new(alloc: Global, n: u8, lines: u8) -> Result<SharedLinks, NoMemory>
        requires { lines ≤ 16 }
        ensures { IfOk result (λ links. links
            ≡ record { lines = lines; pairs = replicate n no_entries }) }
    {
        let mut rings = Vec::with_capacity(alloc, n as usize)?;
        for made in 0..n {
            rings.push(NumberRings::new(alloc, lines)?)?;
        }
        Ok(SharedLinks { lines, rings })
    }

    /// The first number on the link; none where there is none, and past the last remote.
    pub(crate) fn first(&self, link: SharedLink) -> Option<u8>
        ensures { result ≡ first_line (link_of link) self.now.pairs }
    {
        match link {
            SharedLink::Up(j) => {
                let rings = self.rings.get(j as usize)?;
                rings.up.front().copied()
            }
            SharedLink::Down(j) => {
                let rings = self.rings.get(j as usize)?;
                rings.down.front().copied()
            }
        }
    }

    /// Puts the number of line a at the end of the link.
    pub(crate) fn put(&mut self, link: SharedLink, a: u8)
        requires remote { remote_of (link_of link) < length self.old.pairs }
        requires room { length (shared_on (link_of link) self.old.pairs)
            < most_on self.old.lines (link_of link) }
        ensures pairs { self.new.pairs ≡ with_shared (link_of link)
            (shared_on (link_of link) self.old.pairs ++ a ∷ []) self.old.pairs }
        ensures kept { self.new.lines ≡ self.old.lines }
    {
        match link {
            SharedLink::Up(j) => {
                let rings = &mut self.rings[j as usize];
                let _ = rings.up.push_back(a);
            }
            SharedLink::Down(j) => {
                let rings = &mut self.rings[j as usize];
                let _ = rings.down.push_back(a);
            }
        }
    }

    /// Takes the first number off the link, if there is one.
    pub(crate) fn take(&mut self, link: SharedLink)
        requires { remote_of (link_of link) < length self.old.pairs }
        ensures pairs { self.new.pairs ≡ with_shared (link_of link)
            (drop 1 (shared_on (link_of link) self.old.pairs)) self.old.pairs }
        ensures kept { self.new.lines ≡ self.old.lines }
    {
        match link {
            SharedLink::Up(j) => {
                let rings = &mut self.rings[j as usize];
                let _ = rings.up.pop_front();
            }
            SharedLink::Down(j) => {
                let rings = &mut self.rings[j as usize];
                let _ = rings.down.pop_front();
            }
        }
    }

    /// Notes a step of line a, which put a packet on this link, if on any: its number ends the
    /// link. Where the step is a delivery, the first number of the link from which it took a
    /// packet is gone then.
    pub(crate) fn note(&mut self, a: u8, link: Option<SharedLink>, step: Step)
        requires put { IfSome link (λ l. (remote_of (link_of l) < length self.old.pairs)
            × (length (shared_on (link_of l) self.old.pairs)
            < most_on self.old.lines (link_of l))) }
        requires take { IfSome (arrival_link (site step)) (λ l.
            remote_of l < length self.old.pairs) }
        ensures pairs { self.new.pairs ≡ shared_after a (link_if link) (arrival_link (site step))
            self.old.pairs }
        ensures kept { self.new.lines ≡ self.old.lines }
    {
        if let Some(link) = link {
            self.put(link, a);
        }
        match step {
            Step::Up(j) => self.take(SharedLink::Up(j)),
            Step::Down(j) => self.take(SharedLink::Down(j)),
            _ => {}
        }
    }
}
