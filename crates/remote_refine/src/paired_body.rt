//! A body whose messages have replies.

ghost use Rattle.std.specs.Prelude.{◌≡◌, ◌==◌, false};
ghost use Rattle.std.specs.Option.{option_map_or};
ghost use Rattle.controller_table.specs.Rows as rows;

use proto_model::{Body, MessageInfo};

/// A body, with the messages of its protocol and the reply of each.
#[derive(Clone, Copy)]
pub struct PairedBody<'a> {
    pub messages: &'a [MessageInfo],
    pub replies: &'a [Option<u8>],
    pub body: &'a Body,
}

// The reply is this message.
fn is_message(reply: Option<u8>, message: u8) -> bool
    ensures { result ≡ option_map_or (λ r. r == message) reply false }
{
    match reply {
        Some(other) => other == message,
        None => false,
    }
}

impl PairedBody<'_> {
    /// The reply of the message at this place.
    pub fn reply(&self, message: u8) -> Option<u8>
        ensures { result ≡ rows.reply_at self.now.replies.now message }
    {
        match self.replies.get(message as usize) {
            Some(reply) => *reply,
            None => None,
        }
    }

    /// The message at this place is the reply of some up message.
    pub fn is_reply_down(&self, message: u8) -> bool
        ensures { result ≡ rows.is_reply_down self.now.messages.now self.now.replies.now message }
    {
        self.messages
            .iter()
            .zip(self.replies)
            .any(|(info, reply)| info.up && is_message(*reply, message))
    }

    /// The message at this place is the reply of some down message.
    pub fn is_reply_up(&self, message: u8) -> bool
        ensures { result ≡ rows.is_reply_up self.now.messages.now self.now.replies.now message }
    {
        self.messages
            .iter()
            .zip(self.replies)
            .any(|(info, reply)| !info.up && is_message(*reply, message))
    }
}
