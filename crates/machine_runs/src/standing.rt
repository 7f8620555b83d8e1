//! Where a machine stands, compared with where it must.

use crate::rows::{Line, Meant};
use async_machine::{HomePlace, Machine, Request};
use controller_table::Place;
use ordered_links::{Links, Packet, RingLinks};
use proto_model::{Part, Value, Vars};
use slot_reserve::Held;

// Whether these are the values of the variables.
fn are(vars: &Vars, values: &[Value]) -> bool {
    for place in 0..vars.len() {
        if vars.at(place) != values.get(place as usize).copied() {
            return false;
        }
    }
    vars.len() as usize == values.len()
}

// Whether the home stands at this place.
fn home_is(machine: &Machine<'_, RingLinks>, place: HomePlace) -> bool {
    match place {
        HomePlace::Idle(state) => {
            machine.home_place() == Place::Comm(state) && machine.waiting_on().is_none()
        }
        HomePlace::Waits(waiting) => {
            machine.home_place() == Place::Trans(waiting.by)
                && machine.waiting_on() == Some(waiting.on)
                && machine.sent() == waiting.sent
        }
    }
}

// Whether the home owes these messages.
fn owes(machine: &Machine<'_, RingLinks>, owed: &[Option<u8>]) -> bool {
    for j in 0..machine.n() {
        if Some(machine.owed(j)) != owed.get(j as usize).copied() {
            return false;
        }
    }
    machine.n() as usize == owed.len()
}

// Whether remote j has these packets on its up link and on its down link, each of which has at most
// three.
fn brings(links: &RingLinks, j: u8, up: &[Packet], down: &[Packet]) -> bool {
    if j >= links.count() {
        return false;
    }
    for place in 0..4 {
        if links.up_at(j, place) != up.get(place).copied() {
            return false;
        }
        if links.down_at(j, place) != down.get(place).copied() {
            return false;
        }
    }
    true
}

// Whether remote j stands at this place, with these variables and this slot.
fn remote_is(
    machine: &Machine<'_, RingLinks>,
    j: u8,
    place: Place,
    vars: &[Value],
    slot: Option<Request>,
) -> bool {
    j < machine.n()
        && machine.remote_place(j) == place
        && are(machine.remote_vars(j), vars)
        && machine.slot(j) == slot
}

/// Whether the process stands as the line says.
pub fn stands(machine: &Machine<'_, RingLinks>, line: Line<'_>) -> bool {
    match line {
        Line::Home(place, vars, held, owed) => {
            home_is(machine, place)
                && are(machine.home_vars(), vars)
                && machine.held() == held
                && owes(machine, owed)
        }
        Line::Remote(j, place, vars, slot, up, down) => {
            remote_is(machine, j, place, vars, slot) && brings(machine.links(), j, up, down)
        }
    }
}

/// Whether the process stands in this state, with these variables.
pub fn is_meant(part: &Part, meant: Meant<'_>) -> bool {
    part.state == meant.0 && are(&part.vars, meant.1)
}
