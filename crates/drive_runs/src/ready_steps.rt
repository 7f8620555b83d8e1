//! Which steps are enabled where a machine stands.

use async_machine::{Machine, Step, Stepped};
use controller_table::Table;
use drive_report::ready;
use home_refine::compile;
use memory_runs::HOLD;
use ordered_links::RingLinks;
use proto_model::{Mode, Protocol};
use protocol_reader::{ReadError, read};
use rv_base::NoMemory;
use star_check::{CheckError, check};
use std::alloc::Global;

// Why the ready list isn't as it must be.
#[derive(Clone, Copy, Debug)]
enum Wrong {
    // There was no memory for it.
    NoMemory,
    // The file holds no protocol that has a table.
    NoTable,
    // A step before is not enabled.
    Refused,
    // It is another list, of so many steps.
    Ready(usize),
}

impl From<NoMemory> for Wrong {
    fn from(_: NoMemory) -> Wrong {
        Wrong::NoMemory
    }
}

// The table of the protocol, in mode plain.
fn compiled(alloc: Global, protocol: Protocol) -> Result<Table, Wrong> {
    match check(alloc, protocol) {
        Ok(checked) => Ok(compile(alloc, &checked, Mode::Plain)?),
        Err(CheckError::NoMemory) => Err(Wrong::NoMemory),
        Err(CheckError::Refused(_)) => Err(Wrong::NoTable),
    }
}

// The table of `hold`.
fn table_of_hold(alloc: Global) -> Result<Table, Wrong> {
    match read(alloc, HOLD) {
        Ok(spelled) => compiled(alloc, spelled.protocol),
        Err(ReadError::NoMemory) => Err(Wrong::NoMemory),
        Err(_) => Err(Wrong::NoTable),
    }
}

// Takes the steps, and answers whether each was enabled.
fn all_move(machine: &mut Machine<'_, RingLinks>, steps: &[Step]) -> bool {
    for step in steps {
        if machine.step(*step) == Stepped::Refused {
            return false;
        }
    }
    true
}

// The steps that are enabled behind these.
fn ready_behind(alloc: Global, table: &Table, steps: &[Step]) -> Result<Vec<Step>, Wrong> {
    let links = RingLinks::new(alloc, 1)?;
    let mut machine = Machine::new(alloc, table, links, 2)?;
    if !all_move(&mut machine, steps) {
        return Err(Wrong::Refused);
    }
    Ok(ready(alloc, &machine)?)
}

// That behind these steps those are enabled, in this order, and no other.
fn are_ready(alloc: Global, table: &Table, steps: &[Step], enabled: &[Step]) -> Result<(), Wrong> {
    let found = ready_behind(alloc, table, steps)?;
    if found.as_slice() == enabled {
        Ok(())
    } else {
        Err(Wrong::Ready(found.len()))
    }
}

// Steps of `hold` with one remote and two slots, and those that are enabled behind them.
const READY: [(&[Step], &[Step]); 2] = [
    (&[], &[Step::HomeSend(0, 0), Step::RemoteSend(0)]),
    (&[Step::RemoteSend(0), Step::Up(0)], &[Step::HomeDrop(0)]),
];

#[test]
fn what_is_held_can_only_be_dropped(rt: HostRuntime) -> Result<(), Wrong> {
    let table = table_of_hold(rt.alloc())?;
    for (steps, enabled) in READY {
        are_ready(rt.alloc(), &table, steps, enabled)?;
    }
    Ok(())
}
