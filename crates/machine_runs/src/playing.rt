//! A row, played on a machine.

ghost use Rattle.std.specs.Prelude.{◌≤◌};

use crate::rows::{Goes, Meant, Row, Turn, Wrong};
use crate::standing::{is_meant, stands};
use abstraction_map::{Told, abstract_of, event_of};
use async_machine::{Machine, Stepped};
use controller_table::Table;
use home_refine::compile;
use ordered_links::RingLinks;
use proto_model::{Mode, Part, Protocol, RvConfig};
use protocol_reader::{ReadError, read};
use star_check::{CheckError, check};
use std::alloc::Global;

// The protocol that the bytes spell.
fn protocol_in(alloc: Global, file: &[u8]) -> Result<Protocol, Wrong> {
    match read(alloc, file) {
        Ok(spelled) => Ok(spelled.protocol),
        Err(ReadError::NoMemory) => Err(Wrong::NoMemory),
        Err(_) => Err(Wrong::NoTable),
    }
}

// The table of the protocol in this mode.
fn table_of(alloc: Global, protocol: Protocol, mode: Mode) -> Result<Table, Wrong> {
    match check(alloc, protocol) {
        Ok(checked) => Ok(compile(alloc, &checked, mode)?),
        Err(CheckError::NoMemory) => Err(Wrong::NoMemory),
        Err(CheckError::Refused(_)) => Err(Wrong::NoTable),
    }
}

// A machine over the table at its start, with n remotes and k slots.
fn machine_over(alloc: Global, table: &Table, n: u8, k: u8) -> Result<Machine<'_, RingLinks>, Wrong>
    requires remotes { (1 ≤ n) × (n ≤ 64) }
    requires slots { (2 ≤ k) × (k ≤ 64) }
{
    let links = RingLinks::new(alloc, n)?;
    Ok(Machine::new(alloc, table, links, k)?)
}

impl Goes {
    // What must be told of the step.
    fn told(self) -> Told {
        match self {
            Goes::Refused => Told::Refused,
            Goes::Stutters | Goes::Displaces(_) => Told::Stutter,
            Goes::Is(event) => Told::Is(event),
        }
    }

    // The remote whose request the step must displace.
    fn displaced(self) -> Option<u8> {
        match self {
            Goes::Displaces(j) => Some(j),
            Goes::Refused | Goes::Stutters | Goes::Is(_) => None,
        }
    }

    // What must become of the step.
    fn stepped(self) -> Stepped {
        match self {
            Goes::Refused => Stepped::Refused,
            Goes::Stutters | Goes::Displaces(_) | Goes::Is(_) => Stepped::Moved,
        }
    }
}

// Takes the step of the turn, and answers whether it went as it must.
fn goes(machine: &mut Machine<'_, RingLinks>, turn: Turn<'_>) -> bool {
    let (step, must, lines) = turn;
    if event_of(machine, step) != must.told() {
        return false;
    }
    if machine.would_displace(step) != must.displaced() {
        return false;
    }
    if machine.step(step) != must.stepped() {
        return false;
    }
    lines.iter().all(|line| stands(machine, *line))
}

// Takes the steps of the turns, each of which must go as it must.
fn all_go(machine: &mut Machine<'_, RingLinks>, turns: &[Turn<'_>]) -> Result<(), Wrong> {
    let mut number: usize = 0;
    for turn in turns {
        number = number.saturating_add(1);
        if !goes(machine, *turn) {
            return Err(Wrong::Turn(number));
        }
    }
    Ok(())
}

// Whether the remotes stand so in the rendezvous meaning.
fn are_meant(remotes: &[Part], meant: &[Meant<'_>]) -> bool {
    remotes.len() == meant.len()
        && remotes
            .iter()
            .zip(meant)
            .all(|(part, meant)| is_meant(part, *meant))
}

// Whether the home and the remotes stand so in the rendezvous meaning.
fn all_meant(config: &RvConfig, meant: &[Meant<'_>]) -> bool {
    match meant {
        [home, remotes @ ..] => {
            is_meant(&config.home, *home) && are_meant(config.remotes.as_slice(), remotes)
        }
        [] => true,
    }
}

// That the machine means what it must.
fn means(
    alloc: Global,
    machine: &Machine<'_, RingLinks>,
    meant: &[Meant<'_>],
) -> Result<(), Wrong> {
    let config = abstract_of(alloc, machine)?;
    if all_meant(&config, meant) {
        Ok(())
    } else {
        Err(Wrong::Meaning)
    }
}

// That the row's run over this table is as it must be.
fn plays_over(alloc: Global, table: &Table, row: &Row<'_>) -> Result<(), Wrong>
    requires remotes { (1 ≤ row.now.n) × (row.now.n ≤ 64) }
    requires slots { (2 ≤ row.now.k) × (row.now.k ≤ 64) }
{
    let mut machine = machine_over(alloc, table, row.n, row.k)?;
    all_go(&mut machine, row.turns)?;
    means(alloc, &machine, row.meant)
}

/// That the row's run is as it must be.
pub fn plays(alloc: Global, row: &Row<'_>) -> Result<(), Wrong>
    requires remotes { (1 ≤ row.now.n) × (row.now.n ≤ 64) }
    requires slots { (2 ≤ row.now.k) × (row.now.k ≤ 64) }
{
    let protocol = protocol_in(alloc, row.file)?;
    let table = table_of(alloc, protocol, row.mode)?;
    plays_over(alloc, &table, row)
}
