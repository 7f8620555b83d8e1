//! The table.

ghost use Rattle.std.specs.Prelude.{◌≡◌, IfOk, option_copied};
ghost use Rattle.controller_table.specs.Sound.{IsSound, MakesTable, protocol_of, protocol_with};
ghost use Rattle.controller_table.specs.Sound.{table_of};
ghost use Rattle.controller_table.specs.OneRow.{IsOnlyRow};

use crate::controller::Controller;
use crate::index::Index;
use crate::rows::{Place, Row, Trigger};
use proto_model::{MessageInfo, Mode, Name};
use rv_base::{Items, NoMemory};
use std::alloc::Global;
use std::marker::Model;

/// The two controllers of a protocol in a mode. Where a guard leads is told by the rows alone:
/// `next` of each guard in the bodies is 0. Contracts see the parts of the table, which is sound:
/// its replies and its rows are those of the protocol that its rows tell, which is proper.
#[derive(Debug, Drop)]
pub struct Table {
    name: Name,
    mode: Mode,
    messages: Items<MessageInfo>,
    replies: Items<Option<u8>>,
    home: Controller,
    remote: Controller,
    home_index: Index,
    remote_index: Index,
}

impl Model for Table {
    ghost use Rattle.controller_table.specs.Indexed.{IsIndexOf};
    ghost use Rattle.controller_table.specs.Sound.{Tabled, IsSound};

    ghost Value = { Tabled };

    ghost view = { λ t. record {
      name = t.name;
      mode = t.mode;
      messages = t.messages;
      replies = t.replies;
      home = t.home;
      remote = t.remote;
    } };

    ghost invariant = { λ t. IsSound (record {
      name = t.name;
      mode = t.mode;
      messages = t.messages;
      replies = t.replies;
      home = t.home;
      remote = t.remote;
    })
        × IsIndexOf t.home.rows t.home_index × IsIndexOf t.remote.rows t.remote_index };
}

impl Table {
    /// The table of these parts, the reply of each message among them. The parts are given up.
    pub fn new(
        alloc: Global,
        name: Name,
        mode: Mode,
        messages: Items<MessageInfo>,
        replies: Items<Option<u8>>,
        mut home: Controller,
        mut remote: Controller,
    ) -> Result<Table, NoMemory>
        requires { MakesTable name mode messages replies home remote }
        ensures parts { IfOk result (λ t. t ≡ table_of name mode messages replies home remote) }
        ensures protocol { IfOk result (λ t. protocol_of t ≡ protocol_with name messages home
            remote) }
    {
        let home_index = Index::new(alloc, home.rows.as_slice())?;
        let remote_index = Index::new(alloc, remote.rows.as_slice())?;
        home.clear();
        remote.clear();
        Ok(Table {
            name,
            mode,
            messages,
            replies,
            home,
            remote,
            home_index,
            remote_index,
        })
    }

    /// The name of the protocol.
    pub fn name(&self) -> &Name
        ensures { result.now ≡ self.now.name }
    {
        &self.name
    }

    /// The mode in which it was compiled.
    pub fn mode(&self) -> Mode
        ensures { result ≡ self.now.mode }
    {
        self.mode
    }

    /// The messages in file order.
    pub fn messages(&self) -> &[MessageInfo]
        ensures value { result.now ≡ self.now.messages }
        ensures sound { IsSound self.now }
    {
        self.messages.as_slice()
    }

    /// The reply of each message.
    pub fn replies(&self) -> &[Option<u8>]
        ensures value { result.now ≡ self.now.replies }
        ensures sound { IsSound self.now }
    {
        self.replies.as_slice()
    }

    /// The controller of the home.
    pub fn home(&self) -> &Controller
        ensures value { result.now ≡ self.now.home }
        ensures sound { IsSound self.now }
    {
        &self.home
    }

    /// The controller of each remote.
    pub fn remote(&self) -> &Controller
        ensures value { result.now ≡ self.now.remote }
        ensures sound { IsSound self.now }
    {
        &self.remote
    }

    /// The row of the home with this place and trigger, if there is one.
    pub fn home_row(&self, at: Place, on: Trigger) -> Option<&Row>
        ensures { IsOnlyRow self.now.home.rows at on (option_copied result) }
    {
        self.home_index.row(self.home.rows.as_slice(), at, on)
    }

    /// The row of a remote with this place and trigger, if there is one.
    pub fn remote_row(&self, at: Place, on: Trigger) -> Option<&Row>
        ensures { IsOnlyRow self.now.remote.rows at on (option_copied result) }
    {
        self.remote_index.row(self.remote.rows.as_slice(), at, on)
    }
}
