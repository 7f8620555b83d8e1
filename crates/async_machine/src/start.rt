//! Where the home and the remotes stand at the start.

ghost use Rattle.std.specs.Prelude.{◌≡◌, ℕ, replicate, None, IfOk};
ghost use Rattle.controller_table.specs.Sound.{IsSound, protocol_of};
ghost use Rattle.async_shape.specs.Config.{start};

use crate::controls::{home_body, remote_body};
use async_shape::{HomePlace, HomeState, RemoteState};
use controller_table::{Place, Table};
use proto_model::{Body, first_vars};
use rv_base::{Items, NoMemory};
use std::alloc::Global;

// No debts to so many remotes.
fn no_debts(alloc: Global, n: u8) -> Result<Items<Option<u8>>, NoMemory>
    ensures { IfOk result (λ debts. debts ≡ replicate n None) }
{
    let mut debts = Items::new(alloc);
    for _made in 0..n {
        debts.push(None)?;
    }
    Ok(debts)
}

/// The home at the start, with so many remotes.
pub(crate) fn start_home(alloc: Global, table: &Table, n: u8) -> Result<HomeState, NoMemory>
    ensures value { IfOk result (λ home. home ≡ (start (protocol_of table.now) n).home) }
    ensures sound { IsSound table.now }
{
    let body = home_body(table);
    Ok(HomeState {
        place: HomePlace::Idle(body.start),
        vars: first_vars(body.vars.as_slice()),
        owed: no_debts(alloc, n)?,
    })
}

// Each remote at the start.
fn start_remote(table: &Table) -> RemoteState
    ensures { (n : ℕ) → (start (protocol_of table.now) n).remotes ≡ replicate n result }
{
    let body = remote_body(table);
    RemoteState {
        place: Place::Comm(body.start),
        vars: first_vars(body.vars.as_slice()),
        slot: None,
    }
}

/// So many remotes at the start.
pub(crate) fn start_remotes(
    alloc: Global,
    table: &Table,
    n: u8,
) -> Result<Items<RemoteState>, NoMemory>
    ensures { IfOk result (λ remotes. remotes ≡ (start (protocol_of table.now) n).remotes) }
{
    let mut remotes = Items::new(alloc);
    for _made in 0..n {
        remotes.push(start_remote(table))?;
    }
    Ok(remotes)
}
