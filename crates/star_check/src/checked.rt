//! A protocol that was checked.

ghost use Rattle.std.specs.Prelude.{◌≡◌, IfOk, IfErr};
ghost use Rattle.proto_model.specs.Faults.{IsWellFormed, first_fault};
ghost use Rattle.proto_model.specs.Numbered.{numbered};
ghost use Rattle.proto_model.specs.Proper.{IsProper, IsProperChecked};
ghost use Rattle.proto_model.specs.declared.numbered.Side.TheVariants as side;
ghost use Rattle.star_check.specs.Scopes.{IsScopeOf};
ghost use Rattle.star_check.specs.Tells.{Tells, Checks};
ghost use Rattle.star_check.specs.declared.checked.CheckError.TheVariants as check_error;

use crate::declared::Declared;
use crate::fault::Fault;
use crate::number::{number_body, number_claims, number_messages};
use crate::scope::Scope;
use crate::walk::check_items;
use proto_model::{Body, Message, MessageInfo, Name, NumberedClaim, Protocol, Side};
use rv_base::{Items, NoMemory};
use std::alloc::Global;
use std::marker::Model;

/// A well-formed protocol in numbered form: each name that a guard or a claim uses is replaced by
/// its place in file order, counted from 0. Contracts see what the file says, in numbered form: the
/// protocol and its claims, which are proper.
#[derive(Debug, Drop)]
pub struct Checked {
    name: Name,
    messages: Items<MessageInfo>,
    home: Body,
    remote: Body,
    claims: Items<NumberedClaim>,
}

impl Model for Checked {
    ghost use Rattle.proto_model.specs.Numbered.{CheckedProtocol};
    ghost use Rattle.proto_model.specs.Proper.{IsProperChecked};

    ghost Value = { CheckedProtocol };

    ghost view = { λ c. record {
      protocol = record { name = c.name; messages = c.messages; home = c.home; remote = c.remote };
      claims = c.claims;
    } };

    ghost invariant = { λ c. IsProperChecked (record {
      protocol = record { name = c.name; messages = c.messages; home = c.home; remote = c.remote };
      claims = c.claims;
    }) };
}

impl Checked {
    /// The name of the protocol.
    pub fn name(&self) -> &Name
        ensures { result.now ≡ self.now.protocol.name }
    {
        &self.name
    }

    /// The messages in file order.
    pub fn messages(&self) -> &[MessageInfo]
        ensures value { result.now ≡ self.now.protocol.messages }
        ensures proper { IsProper self.now.protocol }
    {
        self.messages.as_slice()
    }

    /// The process of the home.
    pub fn home(&self) -> &Body
        ensures value { result.now ≡ self.now.protocol.home }
        ensures proper { IsProper self.now.protocol }
    {
        &self.home
    }

    /// The process of each remote.
    pub fn remote(&self) -> &Body
        ensures value { result.now ≡ self.now.protocol.remote }
        ensures proper { IsProper self.now.protocol }
    {
        &self.remote
    }

    /// The claims in file order.
    pub fn claims(&self) -> &[NumberedClaim]
        ensures value { result.now ≡ self.now.claims }
        ensures proper { IsProperChecked self.now }
    {
        self.claims.as_slice()
    }
}

/// Why a protocol was not checked: it has a fault, the first of which is told, or there was no
/// memory.
#[derive(Clone, Copy, Debug, PartialEq, Eq, Drop)]
pub enum CheckError {
    Refused(Fault),
    NoMemory,
}

impl From<NoMemory> for CheckError {
    ghost from_gives = { λ _ e. e ≡ check_error.NoMemory };

    fn from(_: NoMemory) -> CheckError {
        CheckError::NoMemory
    }
}

impl From<Fault> for CheckError {
    ghost from_gives = { λ f e. e ≡ check_error.Refused f };

    fn from(fault: Fault) -> CheckError {
        CheckError::Refused(fault)
    }
}

/// Checks the protocol, which is given up in each case. Answers its numbered form exactly where no
/// item has a fault; else `Refused` with the fault of the least item that has one, and the least
/// code of that item. Want of memory alone may keep either from coming.
pub fn check(alloc: Global, protocol: Protocol) -> Result<Checked, CheckError>
    ensures ok { IfOk result (λ checked. IsWellFormed protocol × (checked ≡ numbered protocol)) }
    ensures refused { IfErr result (λ error. Tells error (first_fault protocol)) }
{
    check_protocol(alloc, &protocol)
}

fn check_protocol(alloc: Global, protocol: &Protocol) -> Result<Checked, CheckError>
    ensures { Checks result protocol.now }
{
    let messages = Declared::new(alloc, protocol.messages.as_slice())?;
    check_named(alloc, protocol, &messages)
}

fn check_named(
    alloc: Global,
    protocol: &Protocol,
    messages: &Declared<Message>,
) -> Result<Checked, CheckError>
    requires { messages.now ≡ protocol.now.messages }
    ensures { Checks result protocol.now }
{
    let home = Scope::new(alloc, Side::Home, messages, &protocol.home)?;
    let remote = Scope::new(alloc, Side::Remote, messages, &protocol.remote)?;
    check_scopes(alloc, protocol, &home, &remote)
}

fn check_scopes(
    alloc: Global,
    protocol: &Protocol,
    home: &Scope,
    remote: &Scope,
) -> Result<Checked, CheckError>
    requires home { IsScopeOf home.now side.Home protocol.now.messages protocol.now.home }
    requires remote { IsScopeOf remote.now side.Remote protocol.now.messages protocol.now.remote }
    ensures { Checks result protocol.now }
{
    check_items(
        &protocol.name,
        home.messages,
        home,
        remote,
        protocol.claims.as_slice(),
    )?;
    let checked = number(alloc, protocol, home, remote)?;
    Ok(checked)
}

fn number(
    alloc: Global,
    protocol: &Protocol,
    home: &Scope,
    remote: &Scope,
) -> Result<Checked, NoMemory>
    requires well_formed { IsWellFormed protocol.now }
    requires home { IsScopeOf home.now side.Home protocol.now.messages protocol.now.home }
    requires remote { IsScopeOf remote.now side.Remote protocol.now.messages protocol.now.remote }
    ensures { IfOk result (λ checked. checked ≡ numbered protocol.now) }
{
    Ok(Checked {
        name: protocol.name.copy(alloc)?,
        messages: number_messages(alloc, home.messages)?,
        home: number_body(alloc, home)?,
        remote: number_body(alloc, remote)?,
        claims: number_claims(alloc, &remote.states, protocol.claims.as_slice())?,
    })
}
