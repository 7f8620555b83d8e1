//! The reply of each message.

ghost use Rattle.std.specs.Prelude.{◌≡◌, IfOk};
ghost use Rattle.request_reply.specs.Pairs.{replies_in};

use request_reply::Pairs;
use rv_base::{Items, NoMemory};
use std::alloc::Global;

/// The reply of each message in file order, whichever way the message goes.
pub fn all_replies(alloc: Global, pairs: &Pairs) -> Result<Items<Option<u8>>, NoMemory>
    ensures { IfOk result (λ replies. replies ≡ replies_in pairs.now) }
{
    let mut replies = Items::new(alloc);
    for (up, down) in pairs.up.as_slice().iter().zip(pairs.down.as_slice()) {
        replies.push(up.or(*down))?;
    }
    Ok(replies)
}
