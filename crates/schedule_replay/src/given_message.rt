//! The message that is given in an event, as a trace tells of it.

ghost use Rattle.proto_model.specs.Continued.{Continues};
ghost use Rattle.proto_model.specs.Texts as model_texts;
ghost use Rattle.rendezvous_meaning.specs.GivenMessage as texts;

use proto_model::{Appending, MessageInfo, Value, append, message_text};
use std::alloc::Global;

// Appends the message and its value.
#[tactic(auto, using(crate::proofs::Chained::begun))]
fn put_message_text(
    alloc: Global,
    info: &MessageInfo,
    value: Value,
    out: &mut Vec<u8>,
    so_far: Appending,
) -> Appending
    ensures { Continues (model_texts.message_text info.now value) so_far out.old.items result
        out.new.items }
{
    match so_far {
        Ok(()) => message_text(alloc, info, value, out),
        Err(failure) => Err(failure),
    }
}

/// Appends the message with this number, if there is one, and its value. Nothing is
/// appended where memory ran out before.
pub fn put_message(
    alloc: Global,
    messages: &[MessageInfo],
    message: u8,
    value: Value,
    out: &mut Vec<u8>,
    so_far: Appending,
) -> Appending
    ensures { Continues (texts.message_by_number messages.now message value)
        so_far out.old.items result out.new.items }
{
    match messages.get(message as usize) {
        Some(info) => put_message_text(alloc, info, value, out, so_far),
        None => so_far,
    }
}

/// Appends a space and the message with this number and its value, where one is given. Nothing is
/// appended where memory ran out before.
pub fn put_given(
    alloc: Global,
    messages: &[MessageInfo],
    given: Option<(u8, Value)>,
    out: &mut Vec<u8>,
    so_far: Appending,
) -> Appending
    ensures { Continues (texts.given_text messages.now given) so_far out.old.items result
        out.new.items }
{
    let Some((message, value)) = given else {
        return so_far;
    };
    let so_far = append(out, so_far, b" ");
    put_message(alloc, messages, message, value, out, so_far)
}
