//! The guards by which requests are taken and answered.

ghost use Rattle.std.specs.Prelude.{◌≡◌, length, slice_get, option_copied};
ghost use Rattle.std.specs.Option.{option_map, option_and_then};
ghost use Rattle.controller_table.specs.Sound.{protocol_of};
ghost use Rattle.slot_reserve.specs.Requests.{first_of};
ghost use Rattle.async_shape.specs.Guards as guards;
ghost use Rattle.async_shape.specs.Requests as requests;

use crate::choosing::{answering_guard, taking_guard};
use crate::machine::Machine;
use async_shape::{HomeState, RemoteState};
use controller_table::Table;
use ordered_links::Links;
use slot_reserve::Held;

// The first request of remote j that is held.
fn held_of(held: &[Held], j: u32) -> Option<&Held>
    ensures { option_copied result ≡ first_of j held.now }
{
    held.iter().find(|request| u32::from(request.from) == j)
}

// The number of the guard by which the home takes the first held request of remote j.
fn takes(table: &Table, n: u8, home: &HomeState, held: &[Held], j: u32) -> Option<u8>
    ensures { result ≡ option_map (λ what. what.guard.number)
        (requests.taking n (protocol_of table.now).home home.now held.now j) }
{
    let request = held_of(held, j)?;
    let (number, _) = taking_guard(table, n, home, request)?;
    Some(number)
}

// The number of the guard by which the remote answers the request in its slot.
fn answers(table: &Table, remote: &RemoteState) -> Option<u8>
    ensures { result ≡ option_map (λ input. input.number)
        (guards.answering_guard (protocol_of table.now).remote remote.now) }
{
    let (number, _) = answering_guard(table, remote)?;
    Some(number)
}

impl<'a, L: Links> Machine<'a, L> {
    /// The number of the guard by which the home, idle or waiting, takes the request of remote j.
    /// None where it holds no request of j, where no guard takes it, and where there is no such
    /// remote.
    pub fn takes_by(&self, j: u32) -> Option<u8>
        ensures { result ≡ option_map (λ what. what.guard.number)
            (requests.taking (length self.now.remotes) (protocol_of self.now.table).home
            self.now.home self.now.held j) }
    {
        takes(self.table, self.n(), &self.home, self.slots.held(), j)
    }

    /// The number of the guard by which remote j answers the request in its slot. None where the
    /// remote isn't idle or its slot is empty, where no guard takes the request, and where there is
    /// no remote j.
    pub fn answers_by(&self, j: u32) -> Option<u8>
        ensures { result ≡ option_map (λ input. input.number)
            (option_and_then (guards.answering_guard (protocol_of self.now.table).remote)
            (slice_get self.now.remotes j)) }
    {
        let remote = self.remotes.as_slice().get(j as usize)?;
        answers(self.table, remote)
    }
}
