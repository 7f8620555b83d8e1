//! The table of a protocol.

ghost use Rattle.std.specs.Prelude.{◌≡◌, IfOk};
ghost use Rattle.controller_table.specs.Rows as spec;
ghost use Rattle.controller_table.specs.Sound.{IsSound, protocol_of, table_in};

use crate::home::home_rows_of;
use controller_table::{Controller, Table};
use proto_model::{MessageInfo, Mode};
use remote_refine::{PairedBody, all_replies, remote_rows_of};
use request_reply::pairs_in;
use rv_base::{Items, NoMemory};
use star_check::Checked;
use std::alloc::Global;

// A list of copies of the messages, in order.
fn copied_messages(alloc: Global, messages: &[MessageInfo]) -> Result<Items<MessageInfo>, NoMemory>
    ensures { IfOk result (λ copies. copies ≡ messages.now) }
{
    let mut copies = Items::new(alloc);
    for message in messages {
        copies.push(message.copy(alloc)?)?;
    }
    Ok(copies)
}

// The home's controller, where these are the replies of the messages.
fn home_controller(
    alloc: Global,
    checked: &Checked,
    replies: &[Option<u8>],
) -> Result<Controller, NoMemory>
    ensures body { IfOk result (λ home. home.body ≡ checked.now.protocol.home) }
    ensures rows { IfOk result (λ home. home.rows
        ≡ spec.home_rows_of checked.now.protocol.messages replies.now checked.now.protocol.home) }
{
    let of = PairedBody {
        messages: checked.messages(),
        replies,
        body: checked.home(),
    };
    Ok(Controller {
        body: of.body.copy(alloc)?,
        rows: home_rows_of(alloc, &of)?,
    })
}

// The controller of a remote, where these are the replies of the messages.
fn remote_controller(
    alloc: Global,
    checked: &Checked,
    replies: &[Option<u8>],
) -> Result<Controller, NoMemory>
    ensures body { IfOk result (λ remote. remote.body ≡ checked.now.protocol.remote) }
    ensures rows { IfOk result (λ remote. remote.rows
        ≡ spec.remote_rows_of checked.now.protocol.messages replies.now
        checked.now.protocol.remote) }
{
    let of = PairedBody {
        messages: checked.messages(),
        replies,
        body: checked.remote(),
    };
    Ok(Controller {
        body: of.body.copy(alloc)?,
        rows: remote_rows_of(alloc, &of)?,
    })
}

/// The table of the protocol in this mode. Want of memory alone may keep it from coming.
pub fn compile(alloc: Global, checked: &Checked, mode: Mode) -> Result<Table, NoMemory>
    ensures table { IfOk result (λ table. table ≡ table_in checked.now.protocol mode) }
    ensures sound { IfOk result IsSound }
    ensures protocol { IfOk result (λ table. protocol_of table ≡ checked.now.protocol) }
    ensures mode { IfOk result (λ table. table.mode ≡ mode) }
{
    let pairs = pairs_in(alloc, checked, mode)?;
    let replies = all_replies(alloc, &pairs)?;
    let home = home_controller(alloc, checked, replies.as_slice())?;
    let remote = remote_controller(alloc, checked, replies.as_slice())?;
    let table = Table::new(
        alloc,
        checked.name().copy(alloc)?,
        mode,
        copied_messages(alloc, checked.messages())?,
        replies,
        home,
        remote,
    )?;
    // This tells the contract that the table is sound.
    let _sound = table.messages();
    Ok(table)
}
