//! The lines that show where the home and the remotes stand, what the home holds and owes, and what
//! is under way.

ghost use Rattle.std.specs.Prelude.{◌≡◌, ◌<◌, ◌++◌, List, true, false, codes, length};
ghost use Rattle.std.specs.Prelude.{◌&&◌, None, is_none, map, slice_index_or};
ghost use Rattle.rv_base.specs.Lists.{flat_from};
ghost use Rattle.proto_model.specs.Continued.{Continues};
ghost use Rattle.proto_model.specs.Texts as model_texts;
ghost use Rattle.proto_model.specs.Texts.{separator};
ghost use Rattle.controller_table.specs.Sound.{protocol_of};
ghost use Rattle.ordered_links.specs.declared.packet.Packet.{Packet as APacket};
ghost use Rattle.ordered_links.specs.Lists.{links_at};
ghost use Rattle.async_shape.specs.View.{nobody};
ghost use Rattle.async_machine.specs.Standing.{config};
ghost use Rattle.run_replay.specs.Listed.{AreAll, further, joined, packet_texts};
ghost use Rattle.run_replay.specs.Listed.{remote_standing};
ghost use Rattle.run_replay.specs.StateLines as texts;

use async_machine::{HomePlace, Machine, Request};
use controller_table::{Place, Table};
use ordered_links::{Links, Packet};
use proto_model::{
    Appending, Body, MessageInfo, Vars, append, append_number, message_name, separator, state_name,
    vars_text,
};
use schedule_replay::put_message;
use slot_reserve::Held;
use std::alloc::Global;

// ---- names, numbers and messages

// The name of the home's state with this number.
fn home_state_name(table: &Table, state: u8) -> &[u8]
    ensures { result.now ≡ model_texts.state_name (protocol_of table.now).home state }
{
    let home = table.home();
    state_name(&home.body, state)
}

// The name of the remotes' state with this number.
fn remote_state_name(table: &Table, state: u8) -> &[u8]
    ensures { result.now ≡ model_texts.state_name (protocol_of table.now).remote state }
{
    let remote = table.remote();
    state_name(&remote.body, state)
}

// Appends the variables of the body with these values.
#[tactic(auto, using(schedule_replay::proofs::Chained::begun))]
fn put_vars(
    alloc: Global,
    body: &Body,
    vars: &Vars,
    out: &mut Vec<u8>,
    so_far: Appending,
) -> Appending
    requires { length vars.now ≡ length body.now.vars }
    ensures { Continues (model_texts.vars_text body.now.vars vars.now) so_far out.old.items result
        out.new.items }
{
    match so_far {
        Ok(()) => vars_text(alloc, body, vars, out),
        Err(failure) => Err(failure),
    }
}

// ---- places

fn put_home_place(
    table: &Table,
    place: HomePlace,
    out: &mut Vec<u8>,
    so_far: Appending,
) -> Appending
    ensures { Continues (texts.home_place_text (protocol_of table.now).home place)
        so_far out.old.items result out.new.items }
{
    match place {
        HomePlace::Idle(state) => append(out, so_far, home_state_name(table, state)),
        HomePlace::Waits(waiting) => {
            let so_far = append(out, so_far, home_state_name(table, waiting.by.state));
            let so_far = append(out, so_far, b"/");
            let so_far = append_number(out, so_far, u64::from(waiting.by.guard));
            let so_far = append(out, so_far, b">");
            append_number(out, so_far, u64::from(waiting.on))
        }
    }
}

fn put_remote_place(table: &Table, place: Place, out: &mut Vec<u8>, so_far: Appending) -> Appending
    ensures { Continues (texts.remote_place_text (protocol_of table.now).remote place)
        so_far out.old.items result out.new.items }
{
    match place {
        Place::Comm(state) => append(out, so_far, remote_state_name(table, state)),
        Place::Trans(g) => {
            let so_far = append(out, so_far, remote_state_name(table, g.state));
            append(out, so_far, b"*")
        }
        Place::Due(g) => {
            let so_far = append(out, so_far, remote_state_name(table, g.state));
            append(out, so_far, b"!")
        }
    }
}

// ---- lists

// A held request, the first of the list or a later one.
fn put_held(
    alloc: Global,
    messages: &[MessageInfo],
    first: bool,
    held: Held,
    out: &mut Vec<u8>,
    so_far: Appending,
) -> Appending
    ensures { Continues (separator first ++ texts.held_text messages.now held)
        so_far out.old.items result out.new.items }
{
    let so_far = append(out, so_far, separator(first));
    let so_far = append_number(out, so_far, u64::from(held.from));
    let so_far = append(out, so_far, b":");
    put_message(alloc, messages, held.message, held.value, out, so_far)
}

fn put_all_held(
    alloc: Global,
    messages: &[MessageInfo],
    held: &[Held],
    out: &mut Vec<u8>,
    mut so_far: Appending,
) -> Appending
    ensures { Continues (joined (map (texts.held_text messages.now) held.now))
        so_far out.old.items result out.new.items }
{
    for place in 0..held.len() {
        so_far = put_held(alloc, messages, place == 0, held[place], out, so_far);
    }
    so_far
}

// The debt to remote j, if there is one, the first of the list or a later one.
fn put_debt(
    messages: &[MessageInfo],
    first: bool,
    j: u8,
    owed: Option<u8>,
    out: &mut Vec<u8>,
    so_far: Appending,
) -> Appending
    ensures { Continues (further first (texts.debt_texts messages.now j owed)) so_far
        out.old.items result out.new.items }
{
    let Some(message) = owed else {
        return so_far;
    };
    let so_far = append(out, so_far, separator(first));
    let so_far = append_number(out, so_far, u64::from(j));
    let so_far = append(out, so_far, b":");
    append(out, so_far, message_name(messages, message))
}

// Whether the next debt is the first of the list, as `first` says of this one.
fn still_first(first: bool, owed: Option<u8>) -> bool
    ensures { result ≡ (first && is_none owed) }
{
    first && owed.is_none()
}

fn put_debts<L: Links>(machine: &Machine<L>, out: &mut Vec<u8>, mut so_far: Appending) -> Appending
    ensures { Continues (joined (flat_from (texts.debt_texts machine.now.table.messages) 0
        machine.now.home.owed)) so_far out.old.items result out.new.items }
{
    machine.shaped();
    let messages = machine.table().messages();
    let mut first = true;
    for j in 0..machine.n() {
        let owed = machine.owed(j);
        so_far = put_debt(messages, first, j, owed, out, so_far);
        first = still_first(first, owed);
    }
    so_far
}

fn put_packet(
    alloc: Global,
    messages: &[MessageInfo],
    packet: Packet,
    out: &mut Vec<u8>,
    so_far: Appending,
) -> Appending
    ensures { Continues (texts.packet_text messages.now packet) so_far out.old.items result
        out.new.items }
{
    match packet {
        Packet::Request(message, value) => {
            let so_far = append(out, so_far, b"?");
            put_message(alloc, messages, message, value, out, so_far)
        }
        Packet::Ack => append(out, so_far, b"+"),
        Packet::Nack => append(out, so_far, b"-"),
        Packet::Reply(message, value) => {
            let so_far = append(out, so_far, b"=");
            put_message(alloc, messages, message, value, out, so_far)
        }
    }
}

// The packet, if there is one, the first of the list or a later one.
fn put_packet_if(
    alloc: Global,
    messages: &[MessageInfo],
    first: bool,
    packet: Option<Packet>,
    out: &mut Vec<u8>,
    so_far: Appending,
) -> Appending
    ensures { Continues (further first (packet_texts messages.now packet))
        so_far out.old.items result out.new.items }
{
    let Some(packet) = packet else {
        return so_far;
    };
    let so_far = append(out, so_far, separator(first));
    put_packet(alloc, messages, packet, out, so_far)
}

// The packets that there are, in brackets.
fn put_three(
    alloc: Global,
    messages: &[MessageInfo],
    first: Option<Packet>,
    second: Option<Packet>,
    third: Option<Packet>,
    out: &mut Vec<u8>,
    so_far: Appending,
) -> Appending
    ensures { Continues (codes "[" ++ (further true (packet_texts messages.now first)
        ++ (further false (packet_texts messages.now second)
        ++ (further false (packet_texts messages.now third) ++ codes "]")))) so_far out.old.items
        result out.new.items }
{
    let so_far = append(out, so_far, b"[");
    let so_far = put_packet_if(alloc, messages, true, first, out, so_far);
    let so_far = put_packet_if(alloc, messages, false, second, out, so_far);
    let so_far = put_packet_if(alloc, messages, false, third, out, so_far);
    append(out, so_far, b"]")
}

// The packets on a link, in brackets: up to three, the first one first.
fn put_packets(
    alloc: Global,
    messages: &[MessageInfo],
    first: Option<Packet>,
    second: Option<Packet>,
    third: Option<Packet>,
    out: &mut Vec<u8>,
    so_far: Appending,
) -> Appending
    ensures { (packets : List APacket) → AreAll packets first second third
        → Continues (texts.bracketed (map (texts.packet_text messages.now) packets)) so_far
        out.old.items result out.new.items }
{
    put_three(alloc, messages, first, second, third, out, so_far)
}

fn put_up<L: Links>(
    alloc: Global,
    machine: &Machine<L>,
    j: u8,
    out: &mut Vec<u8>,
    so_far: Appending,
) -> Appending
    requires { j < length machine.now.remotes }
    ensures { Continues (texts.bracketed
        (map (texts.packet_text (protocol_of machine.now.table).messages)
        (links_at (L.lists machine.now.links) j).up)) so_far out.old.items result
        out.new.items }
{
    machine.shaped();
    let links = machine.links();
    let (first, second, third) = (links.up_at(j, 0), links.up_at(j, 1), links.up_at(j, 2));
    put_packets(
        alloc,
        machine.table().messages(),
        first,
        second,
        third,
        out,
        so_far,
    )
}

fn put_down<L: Links>(
    alloc: Global,
    machine: &Machine<L>,
    j: u8,
    out: &mut Vec<u8>,
    so_far: Appending,
) -> Appending
    requires { j < length machine.now.remotes }
    ensures { Continues (texts.bracketed
        (map (texts.packet_text (protocol_of machine.now.table).messages)
        (links_at (L.lists machine.now.links) j).down)) so_far out.old.items result
        out.new.items }
{
    machine.shaped();
    let links = machine.links();
    let (first, second, third) = (
        links.down_at(j, 0),
        links.down_at(j, 1),
        links.down_at(j, 2),
    );
    put_packets(
        alloc,
        machine.table().messages(),
        first,
        second,
        third,
        out,
        so_far,
    )
}

fn put_slot(
    alloc: Global,
    messages: &[MessageInfo],
    slot: Option<Request>,
    out: &mut Vec<u8>,
    so_far: Appending,
) -> Appending
    ensures { Continues (texts.bracketed (texts.slot_texts messages.now slot))
        so_far out.old.items result out.new.items }
{
    let Some(request) = slot else {
        return append(out, so_far, b"[]");
    };
    let so_far = append(out, so_far, b"[");
    let so_far = put_message(alloc, messages, request.message, request.value, out, so_far);
    append(out, so_far, b"]")
}

// ---- lines

// What the home's line begins with: its place and its variables.
fn put_home_standing<L: Links>(
    alloc: Global,
    machine: &Machine<L>,
    out: &mut Vec<u8>,
    so_far: Appending,
) -> Appending
    ensures { Continues (model_texts.process_text None
        ++ (texts.home_place_text (protocol_of machine.now.table).home machine.now.home.place
        ++ model_texts.vars_text (protocol_of machine.now.table).home.vars
        machine.now.home.vars)) so_far out.old.items result out.new.items }
{
    machine.shaped();
    let table = machine.table();
    let so_far = append(out, so_far, b"  home ");
    let so_far = put_home_place(table, machine.home_at(), out, so_far);
    put_vars(alloc, &table.home().body, machine.home_vars(), out, so_far)
}

// The requests that the home holds, in order of arrival.
fn put_held_list<L: Links>(
    alloc: Global,
    machine: &Machine<L>,
    out: &mut Vec<u8>,
    so_far: Appending,
) -> Appending
    ensures { Continues (codes " held" ++ texts.bracketed
        (map (texts.held_text (protocol_of machine.now.table).messages)
        (config L.lists machine.now).held)) so_far out.old.items result out.new.items }
{
    let messages = machine.table().messages();
    let so_far = append(out, so_far, b" held[");
    let so_far = put_all_held(alloc, messages, machine.held(), out, so_far);
    append(out, so_far, b"]")
}

// The debts of the home, in the order of the remotes.
fn put_owed_list<L: Links>(machine: &Machine<L>, out: &mut Vec<u8>, so_far: Appending) -> Appending
    ensures { Continues (codes " owed" ++ texts.bracketed
        (flat_from (texts.debt_texts machine.now.table.messages) 0 machine.now.home.owed)) so_far
        out.old.items result out.new.items }
{
    let so_far = append(out, so_far, b" owed[");
    let so_far = put_debts(machine, out, so_far);
    append(out, so_far, b"]")
}

/// Appends the line of the home: its place, its variables, the requests that it holds in order of
/// arrival, and its debts in the order of the remotes. Nothing is appended where memory ran out
/// before.
pub(crate) fn put_home_line<L: Links>(
    alloc: Global,
    machine: &Machine<L>,
    out: &mut Vec<u8>,
    so_far: Appending,
) -> Appending
    ensures { Continues (texts.home_state_line (protocol_of machine.now.table)
        (config L.lists machine.now))
        so_far out.old.items result out.new.items }
{
    let so_far = put_home_standing(alloc, machine, out, so_far);
    let so_far = put_held_list(alloc, machine, out, so_far);
    let so_far = put_owed_list(machine, out, so_far);
    append(out, so_far, b"\n")
}

// What the line of remote j begins with: its place and its variables.
fn put_standing<L: Links>(
    alloc: Global,
    machine: &Machine<L>,
    j: u8,
    out: &mut Vec<u8>,
    so_far: Appending,
) -> Appending
    requires { j < length machine.now.remotes }
    ensures { Continues (remote_standing (protocol_of machine.now.table).remote j
        (slice_index_or machine.now.remotes j nobody)) so_far out.old.items result
        out.new.items }
{
    machine.shaped();
    let table = machine.table();
    let so_far = append(out, so_far, b"  remote ");
    let so_far = append_number(out, so_far, u64::from(j));
    let so_far = append(out, so_far, b" ");
    let so_far = put_remote_place(table, machine.remote_place(j), out, so_far);
    put_vars(
        alloc,
        &table.remote().body,
        machine.remote_vars(j),
        out,
        so_far,
    )
}

// The slot of remote j, in brackets.
fn put_slot_of<L: Links>(
    alloc: Global,
    machine: &Machine<L>,
    j: u8,
    out: &mut Vec<u8>,
    so_far: Appending,
) -> Appending
    requires { j < length machine.now.remotes }
    ensures { Continues (texts.bracketed (texts.slot_texts
        (protocol_of machine.now.table).messages
        (slice_index_or machine.now.remotes j nobody).slot)) so_far out.old.items result
        out.new.items }
{
    let messages = machine.table().messages();
    put_slot(alloc, messages, machine.slot(j), out, so_far)
}

// The packets on the links of remote j.
fn put_links<L: Links>(
    alloc: Global,
    machine: &Machine<L>,
    j: u8,
    out: &mut Vec<u8>,
    so_far: Appending,
) -> Appending
    requires { j < length machine.now.remotes }
    ensures { Continues (codes " up" ++ (texts.bracketed
        (map (texts.packet_text (protocol_of machine.now.table).messages)
        (links_at (L.lists machine.now.links) j).up)
        ++ (codes " down" ++ texts.bracketed
        (map (texts.packet_text (protocol_of machine.now.table).messages)
        (links_at (L.lists machine.now.links) j).down)))) so_far out.old.items result
        out.new.items }
{
    let so_far = append(out, so_far, b" up");
    let so_far = put_up(alloc, machine, j, out, so_far);
    let so_far = append(out, so_far, b" down");
    put_down(alloc, machine, j, out, so_far)
}

// Appends the line of remote j, which is there.
fn put_line_of<L: Links>(
    alloc: Global,
    machine: &Machine<L>,
    j: u8,
    out: &mut Vec<u8>,
    so_far: Appending,
) -> Appending
    requires { j < length machine.now.remotes }
    ensures { Continues (texts.remote_line_of (protocol_of machine.now.table)
        (L.lists machine.now.links) j (slice_index_or machine.now.remotes j nobody))
        so_far out.old.items result out.new.items }
{
    let so_far = put_standing(alloc, machine, j, out, so_far);
    let so_far = append(out, so_far, b" slot");
    let so_far = put_slot_of(alloc, machine, j, out, so_far);
    let so_far = put_links(alloc, machine, j, out, so_far);
    append(out, so_far, b"\n")
}

/// Appends the line of remote j, if there is one: its place, its variables, its slot, and the
/// packets on its links, the first one first. Nothing is appended where memory ran out before.
pub(crate) fn put_remote_line<L: Links>(
    alloc: Global,
    machine: &Machine<L>,
    j: u32,
    out: &mut Vec<u8>,
    so_far: Appending,
) -> Appending
    ensures { Continues (texts.remote_state_line (protocol_of machine.now.table)
        (config L.lists machine.now) j) so_far out.old.items result out.new.items }
{
    if j >= u32::from(machine.n()) {
        return so_far;
    }
    put_line_of(alloc, machine, j as u8, out, so_far)
}

/// Appends the lines of all remotes, in the order of their numbers. Nothing is appended where
/// memory ran out before.
pub(crate) fn put_remote_lines<L: Links>(
    alloc: Global,
    machine: &Machine<L>,
    out: &mut Vec<u8>,
    mut so_far: Appending,
) -> Appending
    ensures { Continues (texts.remote_state_lines (protocol_of machine.now.table)
        (config L.lists machine.now)) so_far out.old.items result
        out.new.items }
{
    for j in 0..machine.n() {
        so_far = put_remote_line(alloc, machine, u32::from(j), out, so_far);
    }
    so_far
}
