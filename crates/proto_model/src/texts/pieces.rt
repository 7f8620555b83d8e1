//! The pieces of the texts. Each call is handed what came of the ones before it, appends its piece
//! unless memory ran out there, and answers what came of them all.

ghost use Rattle.std.specs.Prelude.{◌≡◌, ◌<◌, length};
ghost use Rattle.proto_model.specs.Continued.{Continues};
ghost use Rattle.proto_model.specs.Texts as texts;

use crate::appending::{Appending, append, append_number};
use crate::numbered::{Body, MessageInfo, Value, VarInfo};
use crate::protocol::Carry;
use crate::rendezvous::{Event, Part};
use crate::texts::names::state_name;
use crate::values::{Vars, has_number};

/// What stands before an item of a list, as a member of a set: nothing before the first one, and a
/// comma before each later one.
pub fn separator(first: bool) -> &'static [u8]
    ensures { result.now ≡ texts.separator first }
{
    if first { b"" } else { b"," }
}

// A member of a set, the first or a later one.
fn put_member(out: &mut Vec<u8>, so_far: Appending, first: bool, node: u8) -> Appending
    ensures { Continues (texts.member_text first node) so_far out.old.items result out.new.items }
{
    let so_far = append(out, so_far, separator(first));
    append_number(out, so_far, u64::from(node))
}

fn put_members(out: &mut Vec<u8>, mut so_far: Appending, set: u64) -> Appending
    ensures { Continues (texts.members_text set) so_far out.old.items result out.new.items }
{
    let mut first = true;
    for node in 0..64 {
        if has_number(set, node) {
            so_far = put_member(out, so_far, first, node);
            first = false;
        }
    }
    so_far
}

fn put_value(out: &mut Vec<u8>, so_far: Appending, value: Value) -> Appending
    ensures { Continues (texts.value_text value) so_far out.old.items result out.new.items }
{
    match value {
        Value::Unit => so_far,
        Value::Int(number) => append_number(out, so_far, u64::from(number)),
        Value::Nowhere => append(out, so_far, b"none"),
        Value::Node(node) => {
            let so_far = append(out, so_far, b"#");
            append_number(out, so_far, u64::from(node))
        }
        Value::Set(set) => {
            let so_far = append(out, so_far, b"{");
            let so_far = put_members(out, so_far, set);
            append(out, so_far, b"}")
        }
    }
}

// The value in brackets, where the message carries one.
fn put_carried(out: &mut Vec<u8>, so_far: Appending, carries: Carry, value: Value) -> Appending
    ensures { Continues (texts.carried_text carries value) so_far out.old.items result
        out.new.items }
{
    match carries {
        Carry::Nothing => so_far,
        Carry::Int(_) | Carry::Node | Carry::Set => {
            let so_far = append(out, so_far, b"(");
            let so_far = put_value(out, so_far, value);
            append(out, so_far, b")")
        }
    }
}

pub(super) fn put_message(
    out: &mut Vec<u8>,
    so_far: Appending,
    message: &MessageInfo,
    value: Value,
) -> Appending
    ensures { Continues (texts.message_text message.now value) so_far out.old.items result
        out.new.items }
{
    let so_far = append(out, so_far, message.name.bytes());
    put_carried(out, so_far, message.carries, value)
}

fn put_var(out: &mut Vec<u8>, so_far: Appending, info: &VarInfo, value: Value) -> Appending
    ensures { Continues (texts.var_text info.now value) so_far out.old.items result out.new.items }
{
    let so_far = append(out, so_far, b" ");
    let so_far = append(out, so_far, info.name.bytes());
    let so_far = append(out, so_far, b"=");
    put_value(out, so_far, value)
}

pub(super) fn put_vars(
    out: &mut Vec<u8>,
    mut so_far: Appending,
    infos: &[VarInfo],
    vars: &Vars,
) -> Appending
    requires { length vars.now ≡ length infos.now }
    ensures { Continues (texts.vars_text infos.now vars.now) so_far out.old.items result
        out.new.items }
{
    for place in 0..vars.len() {
        let value = vars.at(place).unwrap_or(Value::Unit);
        so_far = put_var(out, so_far, &infos[place as usize], value);
    }
    so_far
}

// What the line of the remote of this number, or of the home, begins with.
fn put_process(out: &mut Vec<u8>, so_far: Appending, remote: Option<u8>) -> Appending
    ensures { Continues (texts.process_text remote) so_far out.old.items result out.new.items }
{
    match remote {
        None => append(out, so_far, b"  home "),
        Some(remote) => {
            let so_far = append(out, so_far, b"  remote ");
            let so_far = append_number(out, so_far, u64::from(remote));
            append(out, so_far, b" ")
        }
    }
}

pub(super) fn put_line(
    out: &mut Vec<u8>,
    so_far: Appending,
    body: &Body,
    part: &Part,
    remote: Option<u8>,
) -> Appending
    requires state { part.now.state < length body.now.states }
    requires vars { length part.now.vars ≡ length body.now.vars }
    ensures { Continues (texts.rv_line body.now part.now remote) so_far out.old.items result
        out.new.items }
{
    let so_far = put_process(out, so_far, remote);
    let so_far = append(out, so_far, state_name(body, part.state));
    let so_far = put_vars(out, so_far, body.vars.as_slice(), &part.vars);
    append(out, so_far, b"\n")
}

/// Appends a space and a number, as an event's first words are followed by, unless memory ran out
/// before.
pub fn append_argument(out: &mut Vec<u8>, so_far: Appending, number: u32) -> Appending
    ensures { Continues (texts.argument number) so_far out.old.items result out.new.items }
{
    let so_far = append(out, so_far, b" ");
    append_number(out, so_far, u64::from(number))
}

pub(super) fn put_event(out: &mut Vec<u8>, so_far: Appending, event: Event) -> Appending
    ensures { Continues (texts.event_text event) so_far out.old.items result out.new.items }
{
    match event {
        Event::TauHome(rule) => {
            let so_far = append(out, so_far, b"tau home");
            append_argument(out, so_far, rule)
        }
        Event::TauRemote(remote, rule) => {
            let so_far = append(out, so_far, b"tau");
            let so_far = append_argument(out, so_far, remote);
            append_argument(out, so_far, rule)
        }
        Event::Up(remote, input, output) => {
            let so_far = append(out, so_far, b"up");
            let so_far = append_argument(out, so_far, remote);
            let so_far = append_argument(out, so_far, input);
            append_argument(out, so_far, output)
        }
        Event::Down(remote, output, input) => {
            let so_far = append(out, so_far, b"down");
            let so_far = append_argument(out, so_far, remote);
            let so_far = append_argument(out, so_far, output);
            append_argument(out, so_far, input)
        }
    }
}
