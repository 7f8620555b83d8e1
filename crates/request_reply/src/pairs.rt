//! The pairs of a protocol.

ghost use Rattle.std.specs.Prelude.{◌≡◌, replicate, IfOk};
ghost use Rattle.proto_model.specs.declared.mode.Mode.TheVariants.{Lean};
ghost use Rattle.request_reply.specs.Pairs.{up_replies, down_replies, ArePairs};

use crate::look::Look;
use proto_model::Mode;
use rv_base::{Items, NoMemory};
use star_check::Checked;
use std::alloc::Global;

/// The reply of each message that goes up, and of each that goes down, in file order. A message
/// without a reply, or one that goes the other way, has none.
#[derive(Debug, Drop)]
pub struct Pairs {
    pub up: Items<Option<u8>>,
    pub down: Items<Option<u8>>,
}

/// The message with which each up message is paired, in file order. One without a pair has none,
/// and so has each down message.
pub fn up_pairs(alloc: Global, checked: &Checked) -> Result<Items<Option<u8>>, NoMemory>
    ensures { IfOk result (λ pairs. pairs ≡ up_replies checked.now.protocol Lean) }
{
    let count = checked.messages().len();
    let outputs = Look::RemoteOutputs.candidates(alloc, checked.remote(), count)?;
    let mut replies = Items::new(alloc);
    for place in 0..count {
        let left = outputs.as_slice()[place];
        replies.push(left.only_reply())?;
    }
    Ok(replies)
}

/// The message with which each down message is paired, in file order. One without a pair has none,
/// and so has each up message.
pub fn down_pairs(alloc: Global, checked: &Checked) -> Result<Items<Option<u8>>, NoMemory>
    ensures { IfOk result (λ pairs. pairs ≡ down_replies checked.now.protocol Lean) }
{
    let count = checked.messages().len();
    let outputs = Look::HomeOutputs.candidates(alloc, checked.home(), count)?;
    let inputs = Look::RemoteInputs.candidates(alloc, checked.remote(), count)?;
    let mut replies = Items::new(alloc);
    for place in 0..count {
        let left = outputs.as_slice()[place].agreed(inputs.as_slice()[place]);
        replies.push(left.only_reply())?;
    }
    Ok(replies)
}

// No message has a reply.
fn no_pairs(alloc: Global, count: usize) -> Result<Items<Option<u8>>, NoMemory>
    ensures { IfOk result (λ replies. replies ≡ replicate count None) }
{
    let mut replies = Items::new(alloc);
    for _ in 0..count {
        replies.push(None)?;
    }
    Ok(replies)
}

/// The reply of each message in this mode: in mode plain none has one, in mode lean each has the
/// one with which it is paired.
pub fn pairs_in(alloc: Global, checked: &Checked, mode: Mode) -> Result<Pairs, NoMemory>
    ensures { IfOk result (λ pairs. ArePairs checked.now.protocol mode pairs) }
{
    match mode {
        Mode::Plain => {
            let count = checked.messages().len();
            Ok(Pairs {
                up: no_pairs(alloc, count)?,
                down: no_pairs(alloc, count)?,
            })
        }
        Mode::Lean => Ok(Pairs {
            up: up_pairs(alloc, checked)?,
            down: down_pairs(alloc, checked)?,
        }),
    }
}
