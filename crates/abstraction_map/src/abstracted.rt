//! The rendezvous configuration for which the configuration of a machine stands.

ghost use Rattle.std.specs.Prelude.{◌≡◌, ◌<◌, ◌≤◌, length, take, drop, map, IfOk};
ghost use Rattle.proto_model.specs.Rendezvous.{IsConfigOf};
ghost use Rattle.proto_model.specs.declared.rendezvous.Part.{Part};
ghost use Rattle.controller_table.specs.Sound.{protocol_of};
ghost use Rattle.async_shape.specs.View.{view_at};
ghost use Rattle.async_machine.specs.Standing as standing;
ghost use Rattle.abstraction_map.specs.Abstraction as spec;
ghost use Rattle.abstraction_map.specs.Fates.{fate_said};

use crate::fate::{Fate, Way, fate_on};
use crate::laws::the_machine_refines;
use async_machine::{
    HomePlace, Machine, home_after_ack, home_after_reply, remote_after_ack, remote_after_reply,
};
use controller_table::{GuardId, Place, Table};
use ordered_links::Links;
use proto_model::{Part, RvConfig, Vars};
use rv_base::{Items, NoMemory};
use std::alloc::Global;

// What became of the request by which remote j waits.
fn remote_fate<L: Links>(machine: &Machine<L>, j: u8) -> Fate
    requires { j < length machine.now.remotes }
    ensures { fate_said result ≡ spec.remote_fate (view_at (protocol_of machine.now.table)
        (standing.config L.lists machine.now) j) }
{
    machine.shaped();
    let owed = machine.owed(j).is_some();
    fate_on(machine.links(), Way::Down, j, owed)
}

// What became of the request by which the home waits, on remote j.
fn awaited_fate<L: Links>(machine: &Machine<L>, j: u8) -> Fate
    requires { j < length machine.now.remotes }
    ensures { fate_said result ≡ spec.awaited_fate (view_at (protocol_of machine.now.table)
        (standing.config L.lists machine.now) j) }
{
    machine.shaped();
    let due = matches!(machine.remote_place(j), Place::Due(_));
    fate_on(machine.links(), Way::Up, j, due)
}

// Where a remote stands that waits by this guard.
fn remote_waiting(table: &Table, vars: &Vars, g: GuardId, fate: Fate) -> Part
    ensures { result
        ≡ spec.waiting_part (protocol_of table.now).remote vars.now g 0 (fate_said fate) }
{
    let left = Part {
        state: g.state,
        vars: *vars,
    };
    match fate {
        Fate::NotGranted => left,
        Fate::Granted => remote_after_ack(table, vars, g).unwrap_or(left),
        Fate::Replied(value) => remote_after_reply(table, vars, g, value).unwrap_or(left),
    }
}

// Where the home stands that waits by this guard on this remote.
fn home_waiting(table: &Table, vars: &Vars, g: GuardId, on: u8, fate: Fate) -> Part
    ensures { result
        ≡ spec.waiting_part (protocol_of table.now).home vars.now g on (fate_said fate) }
{
    let left = Part {
        state: g.state,
        vars: *vars,
    };
    match fate {
        Fate::NotGranted => left,
        Fate::Granted => home_after_ack(table, vars, g, on).unwrap_or(left),
        Fate::Replied(value) => home_after_reply(table, vars, g, on, value).unwrap_or(left),
    }
}

// Where remote j stands.
fn remote_part<L: Links>(machine: &Machine<L>, j: u8) -> Part
    requires { j < length machine.now.remotes }
    ensures { result ≡ spec.part_in_view (protocol_of machine.now.table).remote
        (view_at (protocol_of machine.now.table) (standing.config L.lists machine.now) j) }
{
    let vars = *machine.remote_vars(j);
    match machine.remote_place(j) {
        Place::Comm(state) => Part { state, vars },
        Place::Trans(g) => remote_waiting(machine.table(), &vars, g, remote_fate(machine, j)),
        Place::Due(g) => Part {
            state: g.state,
            vars,
        },
    }
}

// Where the home stands.
fn home_part<L: Links>(machine: &Machine<L>) -> Part
    ensures { result ≡ (spec.abstraction (protocol_of machine.now.table)
        (standing.config L.lists machine.now)).home }
{
    machine.shaped();
    let vars = *machine.home_vars();
    match machine.home_at() {
        HomePlace::Idle(state) => Part { state, vars },
        HomePlace::Waits(waiting) => {
            let fate = awaited_fate(machine, waiting.on);
            home_waiting(machine.table(), &vars, waiting.by, waiting.on, fate)
        }
    }
}

/// The rendezvous configuration for which the configuration of the machine stands: a process whose
/// request was granted stands behind its guard, though it doesn't know yet, and one whose reply is
/// under way behind the guard that takes the reply too. It is a configuration of the protocol. The
/// machine stays as it is; memory is taken for the remotes' list alone.
pub fn abstract_of<L: Links>(alloc: Global, machine: &Machine<L>) -> Result<RvConfig, NoMemory>
    ensures value { IfOk result (λ config. config
        ≡ spec.abstraction (protocol_of machine.now.table)
        (standing.config L.lists machine.now)) }
    ensures standing { IfOk result (λ config. IsConfigOf (protocol_of machine.now.table) config) }
{
    the_machine_refines(machine);
    let mut remotes = Items::new(alloc);
    for j in 0..machine.n() {
        remotes.push(remote_part(machine, j))?;
    }
    Ok(RvConfig {
        home: home_part(machine),
        remotes,
    })
}

/// Writes the states in which the remotes stand in that configuration to the first places of the
/// slice, in the order of the remotes. The other places stay. Takes no memory.
pub fn abstract_states<L: Links>(machine: &Machine<L>, states: &mut [u8])
    requires { length machine.now.remotes ≤ length states.old }
    ensures states { take (length machine.now.remotes) states.new
        ≡ map (λ (part : Part). part.state) (spec.abstraction (protocol_of machine.now.table)
        (standing.config L.lists machine.now)).remotes }
    ensures rest { drop (length machine.now.remotes) states.new
        ≡ drop (length machine.now.remotes) states.old }
    ensures room { length states.new ≡ length states.old }
{
    for place in 0..machine.n() {
        states[place as usize] = remote_part(machine, place).state;
    }
}
