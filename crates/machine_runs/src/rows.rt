//! What a run is given, and how each of its steps must go.

use async_machine::{HomePlace, Request, Step};
use controller_table::Place;
use ordered_links::Packet;
use proto_model::{Event, Mode, Value};
use rv_base::NoMemory;
use slot_reserve::Held;

/// What a step must do.
#[derive(Clone, Copy)]
pub enum Goes {
    /// It is refused.
    Refused,
    /// It moves the machine, and is a stutter.
    Stutters,
    /// The same, and the request that the home holds last, of this remote, is displaced.
    Displaces(u8),
    /// It moves the machine, and is this event.
    Is(Event),
}

/// Where a process must stand, in the order of a line of a trace.
#[derive(Clone, Copy)]
pub enum Line<'a> {
    /// The home: its place, its variables, the requests that it holds, and for each remote the
    /// message that it owes to it.
    Home(HomePlace, &'a [Value], &'a [Held], &'a [Option<u8>]),
    /// The remote with this number: its place, its variables, the request in its slot, and the
    /// packets on its up link and on its down link.
    Remote(u8, Place, &'a [Value], Option<Request>, &'a [Packet], &'a [Packet]),
}

/// A step, what it must do, and where processes must stand after it, as far as the row says.
pub type Turn<'a> = (Step, Goes, &'a [Line<'a>]);

/// The state in which a process must stand in the rendezvous meaning, and its variables.
pub type Meant<'a> = (u8, &'a [Value]);

/// A run of a machine from its start.
#[derive(Clone, Copy)]
pub struct Row<'a> {
    /// The bytes of the protocol file.
    pub file: &'a [u8],
    pub mode: Mode,
    /// How many remotes there are.
    pub n: u8,
    /// How many slots the home has.
    pub k: u8,
    pub turns: &'a [Turn<'a>],
    /// What the machine must mean after the last turn, the home first; nothing where the row
    /// doesn't say.
    pub meant: &'a [Meant<'a>],
}

/// Why a run isn't as it must be.
#[derive(Clone, Copy, Debug)]
pub enum Wrong {
    /// There was no memory for it.
    NoMemory,
    /// The file holds no protocol that has a table.
    NoTable,
    /// The turn with this number, counted from 1, went otherwise.
    Turn(usize),
    /// The machine means something else after the last turn.
    Meaning,
}

impl From<NoMemory> for Wrong {
    fn from(_: NoMemory) -> Wrong {
        Wrong::NoMemory
    }
}
