//! The table as lines of text.

ghost use Rattle.std.specs.Prelude.{◌≡◌, string_bytes, IfOk};
ghost use Rattle.rv_base.specs.Appended.{Appends};
ghost use Rattle.controller_table.specs.Rows.{reply_at as the_reply_at};
ghost use Rattle.table_printer.specs.TableText as texts;

use crate::names::name_text;
use crate::rows::{does_text, place_text, puts_text, trigger_text};
use controller_table::{Controller, Row, Table};
use proto_model::{Body, Carry, MessageInfo, Mode, Name, message_name};
use rv_base::NoMemory;
use std::alloc::{AllocError, Global};

/// The name of the mode.
pub(crate) fn mode_text(mode: Mode) -> &'static str
    ensures { result.now ≡ texts.mode_text mode }
{
    match mode {
        Mode::Plain => "plain",
        Mode::Lean => "lean",
    }
}

// The way that a message goes.
fn way_text(up: bool) -> &'static str
    ensures { result.now ≡ texts.way_text up }
{
    if up { "up" } else { "down" }
}

/// What a message carries.
pub(crate) fn carries_text(alloc: Global, carries: Carry) -> Result<String, AllocError>
    ensures { IfOk result (λ t. string_bytes t ≡ texts.carries_text carries) }
{
    match carries {
        Carry::Nothing => String::from_str(alloc, "nothing"),
        Carry::Int(bound) => format!(in alloc; "int {bound}"),
        Carry::Node => String::from_str(alloc, "node"),
        Carry::Set => String::from_str(alloc, "set"),
    }
}

// One space and the type, where a message carries a value.
fn type_text(alloc: Global, carries: Carry) -> Result<String, AllocError>
    ensures { IfOk result (λ t. string_bytes t ≡ texts.type_text carries) }
{
    match carries {
        Carry::Nothing => Ok(String::new(alloc)),
        Carry::Int(_) | Carry::Node | Carry::Set => {
            let carries = carries_text(alloc, carries)?;
            format!(in alloc; " {carries}")
        }
    }
}

/// The reply of the message at this place, where it has one.
pub(crate) fn reply_at(replies: &[Option<u8>], message: usize) -> Option<u8>
    ensures { result ≡ the_reply_at replies.now message }
{
    match replies.get(message) {
        Some(reply) => *reply,
        None => None,
    }
}

// ` reply ` and the name of the reply, where a message has one.
fn reply_text(
    alloc: Global,
    messages: &[MessageInfo],
    reply: Option<u8>,
) -> Result<String, AllocError>
    ensures { IfOk result (λ t. string_bytes t ≡ texts.reply_text messages.now reply) }
{
    match reply {
        None => Ok(String::new(alloc)),
        Some(reply) => {
            let name = name_text(message_name(messages, reply));
            format!(in alloc; " reply {name}")
        }
    }
}

// The line of the message at this place.
fn message_line(
    alloc: Global,
    messages: &[MessageInfo],
    replies: &[Option<u8>],
    message: usize,
    info: &MessageInfo,
) -> Result<String, AllocError>
    ensures { IfOk result (λ t. string_bytes t ≡ texts.message_line messages.now replies.now message
        info.now) }
{
    let name = name_text(info.name.bytes());
    let way = way_text(info.up);
    let carries = type_text(alloc, info.carries)?;
    let reply = reply_text(alloc, messages, reply_at(replies, message))?;
    format!(in alloc; "message {name} {way}{carries}{reply}\n")
}

// The lines of the messages.
fn message_lines(
    alloc: Global,
    messages: &[MessageInfo],
    replies: &[Option<u8>],
) -> Result<String, AllocError>
    ensures { IfOk result (λ t. string_bytes t ≡ texts.message_lines messages.now replies.now) }
{
    let mut text = String::new(alloc);
    for (message, info) in messages.iter().enumerate() {
        text.push_str(&message_line(alloc, messages, replies, message, info)?)?;
    }
    Ok(text)
}

// The line of a row.
fn row_line(
    alloc: Global,
    messages: &[MessageInfo],
    body: &Body,
    row: &Row,
) -> Result<String, AllocError>
    ensures { IfOk result (λ t. string_bytes t ≡ texts.row_line messages.now body.now row.now) }
{
    let at = place_text(alloc, body, row.at)?;
    let on = trigger_text(alloc, messages, row.on)?;
    let puts = puts_text(alloc, messages, row.puts)?;
    let does = does_text(alloc, body, row.does)?;
    let to = place_text(alloc, body, row.to)?;
    format!(in alloc; "  {at} {on}: {puts}, {does}, {to}\n")
}

// The lines of a controller's rows.
fn row_lines(
    alloc: Global,
    messages: &[MessageInfo],
    controller: &Controller,
) -> Result<String, AllocError>
    ensures { IfOk result (λ t. string_bytes t ≡ texts.row_lines messages.now controller.now) }
{
    let mut text = String::new(alloc);
    for row in controller.rows.as_slice() {
        text.push_str(&row_line(alloc, messages, &controller.body, row)?)?;
    }
    Ok(text)
}

// The first line: the name of the protocol and the mode.
fn first_line(alloc: Global, name: &Name, mode: Mode) -> Result<String, AllocError>
    ensures { IfOk result (λ t. string_bytes t ≡ texts.first_line name.now mode) }
{
    let name = name_text(name.bytes());
    let mode = mode_text(mode);
    format!(in alloc; "table {name} {mode}\n")
}

// The whole text.
fn whole_text(alloc: Global, table: &Table) -> Result<String, AllocError>
    ensures { IfOk result (λ t. string_bytes t ≡ texts.table_text table.now) }
{
    let first = first_line(alloc, table.name(), table.mode())?;
    let messages = message_lines(alloc, table.messages(), table.replies())?;
    let home = row_lines(alloc, table.messages(), table.home())?;
    let remote = row_lines(alloc, table.messages(), table.remote())?;
    format!(in alloc; "{first}{messages}home\n{home}remote\n{remote}")
}

/// Appends the text of the table. After `NoMemory` the vector is as before followed by a front of
/// the text.
pub fn table_text(alloc: Global, table: &Table, out: &mut Vec<u8>) -> Result<(), NoMemory>
    ensures { Appends (texts.table_text table.now) result out.old.items out.new.items }
{
    let text = whole_text(alloc, table)?;
    out.extend_from_slice(text.as_bytes())?;
    Ok(())
}
