//! The five texts of a row.

ghost use Rattle.std.specs.Prelude.{◌≡◌, ◌++◌, decimal, string_bytes, IfOk};
ghost use Rattle.proto_model.specs.Texts.{message_name as name_of};
ghost use Rattle.table_printer.specs.RowText as texts;

use crate::names::name_text;
use controller_table::{Does, GuardId, Place, Puts, Trigger};
use proto_model::{Body, MessageInfo, message_name, state_name};
use std::alloc::{AllocError, Global};

// The guard: the name of its state, `/` and its number.
fn guard_text(alloc: Global, body: &Body, guard: GuardId) -> Result<String, AllocError>
    ensures { IfOk result (λ t. string_bytes t ≡ texts.guard_text body.now guard) }
{
    let state = name_text(state_name(body, guard.state));
    let number = guard.guard;
    format!(in alloc; "{state}/{number}")
}

/// Where the row stands, or stands then.
pub(crate) fn place_text(alloc: Global, body: &Body, place: Place) -> Result<String, AllocError>
    ensures { IfOk result (λ t. string_bytes t ≡ texts.place_text body.now place) }
{
    match place {
        Place::Comm(state) => String::from_str(alloc, name_text(state_name(body, state))),
        Place::Trans(guard) => {
            let mut text = guard_text(alloc, body, guard)?;
            text.push_str("*")?;
            Ok(text)
        }
        Place::Due(guard) => {
            let mut text = guard_text(alloc, body, guard)?;
            text.push_str("!")?;
            Ok(text)
        }
    }
}

// The word and the number behind it.
fn numbered(alloc: Global, word: &str, number: u8) -> Result<String, AllocError>
    ensures { IfOk result (λ t. string_bytes t ≡ word.now ++ decimal number) }
{
    format!(in alloc; "{word}{number}")
}

// The word and the name of the message behind it.
fn with_name(
    alloc: Global,
    word: &str,
    messages: &[MessageInfo],
    message: u8,
) -> Result<String, AllocError>
    ensures { IfOk result (λ t. string_bytes t ≡ word.now ++ name_of messages.now message) }
{
    let name = name_text(message_name(messages, message));
    format!(in alloc; "{word}{name}")
}

/// What makes the row move.
pub(crate) fn trigger_text(
    alloc: Global,
    messages: &[MessageInfo],
    trigger: Trigger,
) -> Result<String, AllocError>
    ensures { IfOk result (λ t. string_bytes t ≡ texts.trigger_text messages.now trigger) }
{
    match trigger {
        Trigger::Tau(guard) => numbered(alloc, "tau ", guard),
        Trigger::Send(guard) => numbered(alloc, "send ", guard),
        Trigger::Pay(guard) => numbered(alloc, "pay ", guard),
        Trigger::Take(guard) => numbered(alloc, "take ", guard),
        Trigger::Answer(guard) => numbered(alloc, "answer ", guard),
        Trigger::AnswerNone => String::from_str(alloc, "answer none"),
        Trigger::GotAck => String::from_str(alloc, "got ack"),
        Trigger::GotNack => String::from_str(alloc, "got nack"),
        Trigger::GotReply(message) => with_name(alloc, "got reply ", messages, message),
        Trigger::GotRequest => String::from_str(alloc, "got request"),
    }
}

/// What the row puts on a link, or owes.
pub(crate) fn puts_text(
    alloc: Global,
    messages: &[MessageInfo],
    puts: Puts,
) -> Result<String, AllocError>
    ensures { IfOk result (λ t. string_bytes t ≡ texts.puts_text messages.now puts) }
{
    match puts {
        Puts::Nothing => String::from_str(alloc, "nothing"),
        Puts::Request(message) => with_name(alloc, "request ", messages, message),
        Puts::Ack => String::from_str(alloc, "ack"),
        Puts::Nack => String::from_str(alloc, "nack"),
        Puts::Reply(message) => with_name(alloc, "reply ", messages, message),
        Puts::Owe(message) => with_name(alloc, "owe ", messages, message),
    }
}

/// The guards that the row completes.
pub(crate) fn does_text(alloc: Global, body: &Body, does: Does) -> Result<String, AllocError>
    ensures { IfOk result (λ t. string_bytes t ≡ texts.does_text body.now does) }
{
    match does {
        Does::Nothing => String::from_str(alloc, "none"),
        Does::One(guard) => guard_text(alloc, body, guard),
        Does::Two(guard, then) => {
            let first = guard_text(alloc, body, guard)?;
            let second = guard_text(alloc, body, then)?;
            format!(in alloc; "{first} {second}")
        }
    }
}
