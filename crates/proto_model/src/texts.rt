//! The texts of values, messages with their values, variables, rendezvous lines and events.
#![tactic(auto, using(crate::proofs::Continuing::whole))]

ghost use Rattle.std.specs.Prelude.{◌≡◌, ◌<◌, length};
ghost use Rattle.rv_base.specs.Appended.{Appends};
ghost use Rattle.proto_model.specs.Texts as texts;

mod names;
mod pieces;

use crate::numbered::{Body, MessageInfo, Value};
use crate::rendezvous::{Event, Part};
use crate::texts::pieces::{put_event, put_line, put_message, put_vars};
use crate::values::Vars;
pub use names::{message_name, state_name};
pub use pieces::{append_argument, separator};
use rv_base::NoMemory;
use std::alloc::Global;

/// Appends the message with this value: its name, and the value in brackets where it carries one.
/// After `NoMemory` the vector is as before followed by a front of the text.
pub fn message_text(
    _alloc: Global,
    message: &MessageInfo,
    value: Value,
    out: &mut Vec<u8>,
) -> Result<(), NoMemory>
    ensures { Appends (texts.message_text message.now value) result out.old.items out.new.items }
{
    put_message(out, Ok(()), message, value)
}

/// Appends the variables of the body with these values, as many as it has: for each one space, its
/// name, `=` and its value. After `NoMemory` the vector is as before followed by a front of the
/// text.
pub fn vars_text(
    _alloc: Global,
    body: &Body,
    vars: &Vars,
    out: &mut Vec<u8>,
) -> Result<(), NoMemory>
    requires { length vars.now ≡ length body.now.vars }
    ensures { Appends (texts.vars_text body.now.vars vars.now) result out.old.items out.new.items }
{
    put_vars(out, Ok(()), body.vars.as_slice(), vars)
}

/// Appends the rendezvous line of the process of this body that stands so, with its LF: the remote
/// of this number, or the home where there is no number. After `NoMemory` the vector is as before
/// followed by a front of the line.
pub fn rv_line(
    _alloc: Global,
    body: &Body,
    part: &Part,
    remote: Option<u8>,
    out: &mut Vec<u8>,
) -> Result<(), NoMemory>
    requires state { part.now.state < length body.now.states }
    requires vars { length part.now.vars ≡ length body.now.vars }
    ensures { Appends (texts.rv_line body.now part.now remote) result out.old.items out.new.items }
{
    put_line(out, Ok(()), body, part, remote)
}

/// Appends the event's words with one space between them. After `NoMemory` the vector is as before
/// followed by a front of the text.
pub fn event_text(_alloc: Global, event: Event, out: &mut Vec<u8>) -> Result<(), NoMemory>
    ensures { Appends (texts.event_text event) result out.old.items out.new.items }
{
    put_event(out, Ok(()), event)
}
