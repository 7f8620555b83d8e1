//! The names of states and messages, by their numbers.

ghost use Rattle.std.specs.Prelude.{◌≡◌};
ghost use Rattle.proto_model.specs.Texts as texts;
ghost use Rattle.proto_model.specs.Tokens.{AllWord};

use crate::numbered::{Body, MessageInfo};

/// The name of the state with this number. Empty where there is none, which a sound table has
/// nowhere.
pub fn state_name(body: &Body, state: u8) -> &[u8]
    ensures value { result.now ≡ texts.state_name body.now state }
    ensures word { AllWord result.now }
{
    match body.states.as_slice().get(state as usize) {
        Some(info) => info.name.bytes(),
        None => b"",
    }
}

/// The name of the message with this number. Empty where there is none, which a sound table has
/// nowhere.
pub fn message_name(messages: &[MessageInfo], message: u8) -> &[u8]
    ensures value { result.now ≡ texts.message_name messages.now message }
    ensures word { AllWord result.now }
{
    match messages.get(message as usize) {
        Some(info) => info.name.bytes(),
        None => b"",
    }
}
