//! The table as JSON.

ghost use Rattle.std.specs.Prelude.{◌≡◌, IfOk};
ghost use Rattle.rv_base.specs.Appended.{Appends};
ghost use Rattle.serde_json.specs.View.{view};
ghost use Rattle.table_printer.specs.TableJson as json;

use crate::names::name_text;
use crate::rows::{does_text, place_text, puts_text, trigger_text};
use crate::text::{carries_text, mode_text, reply_at};
use controller_table::{Controller, Row, Table};
use proto_model::{Body, MessageInfo, message_name};
use rv_base::NoMemory;
use serde_json::{Map, Value, put};
use std::alloc::{AllocError, Global};

// A row: an object of its five texts.
fn row_value(
    alloc: Global,
    messages: &[MessageInfo],
    body: &Body,
    row: &Row,
) -> Result<Value, AllocError>
    ensures { IfOk result (λ v. view v ≡ json.row_data messages.now body.now row.now) }
{
    let mut texts = Map::new(alloc);
    let at = place_text(alloc, body, row.at)?;
    put(&mut texts, alloc, "at", Value::String(at))?;
    let does = does_text(alloc, body, row.does)?;
    put(&mut texts, alloc, "does", Value::String(does))?;
    let on = trigger_text(alloc, messages, row.on)?;
    put(&mut texts, alloc, "on", Value::String(on))?;
    let what = puts_text(alloc, messages, row.puts)?;
    put(&mut texts, alloc, "puts", Value::String(what))?;
    let to = place_text(alloc, body, row.to)?;
    put(&mut texts, alloc, "to", Value::String(to))?;
    Ok(Value::Object(texts))
}

// The rows of a controller: an array.
fn rows_value(
    alloc: Global,
    messages: &[MessageInfo],
    controller: &Controller,
) -> Result<Value, AllocError>
    ensures { IfOk result (λ v. view v ≡ json.rows_data messages.now controller.now) }
{
    let mut values = Vec::new(alloc);
    for row in controller.rows.as_slice() {
        values.push(row_value(alloc, messages, &controller.body, row)?)?;
    }
    Ok(Value::Array(values))
}

// The name of a reply, or null.
fn reply_value(
    alloc: Global,
    messages: &[MessageInfo],
    reply: Option<u8>,
) -> Result<Value, AllocError>
    ensures { IfOk result (λ v. view v ≡ json.reply_data messages.now reply) }
{
    match reply {
        None => Ok(Value::Null),
        Some(reply) => Value::try_from_str(alloc, name_text(message_name(messages, reply))),
    }
}

// The message at this place: an object.
fn message_value(
    alloc: Global,
    messages: &[MessageInfo],
    replies: &[Option<u8>],
    message: usize,
    info: &MessageInfo,
) -> Result<Value, AllocError>
    ensures { IfOk result (λ v. view v ≡ json.message_data messages.now replies.now message
        info.now) }
{
    let mut parts = Map::new(alloc);
    let carries = carries_text(alloc, info.carries)?;
    put(&mut parts, alloc, "carries", Value::String(carries))?;
    let name = Value::try_from_str(alloc, name_text(info.name.bytes()))?;
    put(&mut parts, alloc, "name", name)?;
    let reply = reply_value(alloc, messages, reply_at(replies, message))?;
    put(&mut parts, alloc, "reply", reply)?;
    put(&mut parts, alloc, "up", Value::Bool(info.up))?;
    Ok(Value::Object(parts))
}

// The messages: an array.
fn messages_value(
    alloc: Global,
    messages: &[MessageInfo],
    replies: &[Option<u8>],
) -> Result<Value, AllocError>
    ensures { IfOk result (λ v. view v ≡ json.messages_data messages.now replies.now) }
{
    let mut values = Vec::new(alloc);
    for (message, info) in messages.iter().enumerate() {
        values.push(message_value(alloc, messages, replies, message, info)?)?;
    }
    Ok(Value::Array(values))
}

// The table: an object.
fn table_value(alloc: Global, table: &Table) -> Result<Value, AllocError>
    ensures { IfOk result (λ v. view v ≡ json.table_data table.now) }
{
    let mut parts = Map::new(alloc);
    let home = rows_value(alloc, table.messages(), table.home())?;
    put(&mut parts, alloc, "home", home)?;
    let messages = messages_value(alloc, table.messages(), table.replies())?;
    put(&mut parts, alloc, "messages", messages)?;
    let mode = Value::try_from_str(alloc, mode_text(table.mode()))?;
    put(&mut parts, alloc, "mode", mode)?;
    let name = Value::try_from_str(alloc, name_text(table.name().bytes()))?;
    put(&mut parts, alloc, "name", name)?;
    let remote = rows_value(alloc, table.messages(), table.remote())?;
    put(&mut parts, alloc, "remote", remote)?;
    Ok(Value::Object(parts))
}

// The whole JSON, with its LF.
fn whole_json(alloc: Global, table: &Table) -> Result<Vec<u8>, AllocError>
    ensures { IfOk result (λ bytes. bytes.items ≡ json.table_json table.now) }
{
    let mut bytes = table_value(alloc, table)?.to_vec(alloc)?;
    bytes.push(b'\n')?;
    Ok(bytes)
}

/// Appends the JSON of the table, with its LF. After `NoMemory` the vector is as before followed by
/// a front of the text.
pub fn table_json(alloc: Global, table: &Table, out: &mut Vec<u8>) -> Result<(), NoMemory>
    ensures { Appends (json.table_json table.now) result out.old.items out.new.items }
{
    let text = whole_json(alloc, table)?;
    out.extend_from_slice(text.as_slice())?;
    Ok(())
}
