//! The plan of a step, of any kind.

ghost use Rattle.std.specs.Prelude.{◌≡◌, ◌<◌, List, length, slice_get, Some, IsTrue};
ghost use Rattle.ordered_links.specs.Lists.{LinkPair};
ghost use Rattle.async_shape.specs.Requests.{is_waiting};
ghost use Rattle.async_shape.specs.Site.{site, arrival_link};
ghost use Rattle.async_machine.specs.Arriving.{IsLinked, arriving_on};
ghost use Rattle.async_machine.specs.Planned.{IsPlan};
ghost use Rattle.async_machine.specs.Standing.{setting_of, config_of};

use crate::home::{home_drop, home_send, home_take, home_tau, up};
use crate::planned::Planned;
use crate::remote::{down, remote_answer, remote_reply, remote_send, remote_tau};
use async_shape::{HomeState, RemoteState, Step};
use controller_table::Table;
use ordered_links::Packet;
use slot_reserve::Slots;

// Remote j.
fn remote_at(remotes: &[RemoteState], j: u32) -> &RemoteState
    requires { j < length remotes.now }
    ensures { slice_get remotes.now j ≡ Some result.now }
{
    &remotes[j as usize]
}

/// The plan of the step, where the remote that it names is there and this packet arrives in it, if
/// one does. None where the step is not enabled.
pub(crate) fn plan_of(
    table: &Table,
    home: &HomeState,
    slots: &Slots,
    remotes: &[RemoteState],
    arrived: Option<Packet>,
    step: Step,
) -> Option<Planned>
    requires linked { IsLinked (length remotes.now) step }
    requires room { IsTrue (is_waiting home.now.place) → length slots.now.held < slots.now.size }
    ensures { (links : List LinkPair) → arriving_on links step ≡ arrived
        → IsPlan (setting_of table.now slots.now.size)
        (config_of home.now slots.now.held remotes.now links) (arrival_link (site step)) step
        result }
{
    let n = remotes.len() as u8;
    match step {
        Step::HomeTau(g) => home_tau(table, home, slots, g),
        Step::HomeTake(j) => home_take(table, n, home, slots, j as u8),
        Step::HomeSend(g, j) => home_send(table, n, home, slots, g, j as u8),
        Step::HomeDrop(j) => home_drop(table, n, home, slots, j as u8),
        Step::RemoteTau(j, g) => remote_tau(table, remote_at(remotes, j), j as u8, g),
        Step::RemoteSend(j) => remote_send(table, remote_at(remotes, j), j as u8),
        Step::RemoteAnswer(j) => remote_answer(table, remote_at(remotes, j), j as u8),
        Step::RemoteReply(j) => remote_reply(table, remote_at(remotes, j), j as u8),
        Step::Up(j) => Some(up(table, n, home, slots, j as u8, arrived?)),
        Step::Down(j) => Some(down(table, remote_at(remotes, j), j as u8, arrived?)),
    }
}
