//! The machine.

ghost use Rattle.std.specs.Prelude.{◌≡◌, ◌≤◌, length, true, replicate, slice_get, IfOk};
ghost use Rattle.std.specs.Bool.{OnTrue, OnFalse};
ghost use Rattle.proto_model.specs.Proper.{IsProper};
ghost use Rattle.proto_model.specs.Rendezvous as rendezvous;
ghost use Rattle.proto_model.specs.Rendezvous.{rv_start, RvStep, IsConfigOf};
ghost use Rattle.proto_model.specs.RendezvousNext.{rv_next};
ghost use Rattle.proto_model.specs.declared.rendezvous.RvConfig.{RvConfig as Configuration};
ghost use Rattle.rendezvous_meaning.specs.Stepped.{Stepped};
ghost use Rattle.rendezvous_meaning.specs.GivenMessage.{given_in};

use crate::moves::{down_parts, given_by, tau_part, up_parts};
use proto_model::{Body, Event, Part, RvConfig, Value, first_vars};
use rv_base::{Items, NoMemory};
use star_check::Checked;
use std::alloc::Global;
use std::marker::Model;

/// A machine that takes the events of a protocol one at a time. Contracts see the protocol and the
/// configuration in which the machine stands, which is one of that protocol: from 1 to 64 remotes,
/// each state number in range, the variables of each process as many as its body's and of their
/// types.
#[derive(Drop)]
pub struct RvMachine<'a> {
    protocol: &'a Checked,
    config: RvConfig,
}

impl<'a> Model for RvMachine<'a> {
    ghost use Rattle.rendezvous_meaning.specs.Standing.{Standing, IsStanding};

    ghost Value = { Standing };

    ghost view = { λ m. record { protocol = m.protocol.now.protocol; config = m.config } };

    ghost invariant = { λ m. IsStanding m.protocol.now.protocol m.config };
}

impl<'a> RvMachine<'a> {
    /// A machine over this protocol, which it refers to, with n remotes, at the start: each process
    /// stands in its start state with its first values.
    pub fn new(alloc: Global, checked: &'a Checked, n: u8) -> Result<RvMachine<'a>, NoMemory>
        requires { (1 ≤ n) × (n ≤ 64) }
        ensures protocol { IfOk result (λ m. m.protocol ≡ checked.now.protocol) }
        ensures start { IfOk result (λ m. m.config ≡ rv_start checked.now.protocol n) }
    {
        let config = start(alloc, checked, n)?;
        Ok(RvMachine {
            protocol: checked,
            config,
        })
    }

    /// Takes the event. Answers whether it takes place: then the machine stands in the one
    /// configuration that it leads to, and else nothing changes. A number out of range is no event
    /// that takes place.
    pub fn step(&mut self, event: Event) -> bool
        ensures protocol { self.new.protocol ≡ self.old.protocol }
        ensures moved { OnTrue result (RvStep self.old.protocol self.old.config event
            self.new.config) }
        ensures refused { OnFalse result (self.new.config ≡ self.old.config) }
        ensures only { (next : Configuration)
            → RvStep self.old.protocol self.old.config event next → (result ≡ true) ×
            (self.new.config ≡ next) }
        ensures computed { Stepped result self.old.config self.new.config
            (rv_next self.old.protocol self.old.config event) }
    {
        take(self.protocol, &mut self.config, event)
    }

    /// The number of the message that is given in the event where the machine stands, and its
    /// value. `None` in a local step, and where the sender is not there or gives no message by this
    /// guard.
    pub fn given(&self, event: Event) -> Option<(u8, Value)>
        ensures { result ≡ given_in self.now.protocol self.now.config event }
    {
        given_in(self.protocol, &self.config, event)
    }

    /// The protocol whose events the machine takes.
    pub fn protocol(&self) -> &'a Checked
        ensures { result.now.protocol ≡ self.now.protocol }
    {
        self.protocol
    }

    /// The configuration in which the machine stands.
    pub fn config(&self) -> &RvConfig
        ensures value { result.now ≡ self.now.config }
        ensures standing { IsConfigOf self.now.protocol self.now.config }
    {
        &self.config
    }
}

fn start_part(body: &Body) -> Part
    requires { length body.now.vars ≤ 16 }
    ensures { result ≡ rendezvous.start_part body.now }
{
    Part {
        state: body.start,
        vars: first_vars(body.vars.as_slice()),
    }
}

// So many remotes at the start.
fn start_remotes(alloc: Global, body: &Body, n: u8) -> Result<Items<Part>, NoMemory>
    requires { length body.now.vars ≤ 16 }
    ensures { IfOk result (λ remotes. remotes ≡ replicate n (rendezvous.start_part body.now)) }
{
    let mut remotes = Items::new(alloc);
    for _made in 0..n {
        remotes.push(start_part(body))?;
    }
    Ok(remotes)
}

// The home and n remotes at the start.
fn start(alloc: Global, protocol: &Checked, n: u8) -> Result<RvConfig, NoMemory>
    ensures value { IfOk result (λ config. config ≡ rv_start protocol.now.protocol n) }
    ensures proper { IsProper protocol.now.protocol }
{
    let remotes = start_remotes(alloc, protocol.remote(), n)?;
    Ok(RvConfig {
        home: start_part(protocol.home()),
        remotes,
    })
}

fn tau_home(protocol: &Checked, config: &mut RvConfig, rule: u32) -> bool
    ensures { Stepped result config.old config.new (rv_next protocol.now.protocol config.old
        (Event.TauHome rule)) }
{
    let Some(home) = tau_part(protocol.home(), &config.home, rule) else {
        return false;
    };
    config.home = home;
    true
}

// Remote j, if there is one.
fn remote_at(config: &RvConfig, j: u32) -> Option<Part>
    ensures { result ≡ slice_get config.now.remotes j }
{
    config.remotes.as_slice().get(j as usize).copied()
}

fn tau_remote(protocol: &Checked, config: &mut RvConfig, j: u32, rule: u32) -> bool
    ensures { Stepped result config.old config.new (rv_next protocol.now.protocol config.old
        (Event.TauRemote j rule)) }
{
    let Some(remote) = remote_at(config, j) else {
        return false;
    };
    let Some(part) = tau_part(protocol.remote(), &remote, rule) else {
        return false;
    };
    config.remotes.set(j as usize, part);
    true
}

fn up(protocol: &Checked, config: &mut RvConfig, j: u32, h: u32, r: u32) -> bool
    requires { length config.old.remotes ≤ 64 }
    ensures { Stepped result config.old config.new (rv_next protocol.now.protocol config.old
        (Event.Up j h r)) }
{
    let Some(remote) = remote_at(config, j) else {
        return false;
    };
    let Some((home, remote)) = up_parts(protocol, &config.home, &remote, j as u8, h, r) else {
        return false;
    };
    config.home = home;
    config.remotes.set(j as usize, remote);
    true
}

fn down(protocol: &Checked, config: &mut RvConfig, j: u32, h: u32, r: u32) -> bool
    requires { length config.old.remotes ≤ 64 }
    ensures { Stepped result config.old config.new (rv_next protocol.now.protocol config.old
        (Event.Down j h r)) }
{
    let Some(remote) = remote_at(config, j) else {
        return false;
    };
    let Some((home, remote)) = down_parts(protocol, &config.home, &remote, j as u8, h, r) else {
        return false;
    };
    config.home = home;
    config.remotes.set(j as usize, remote);
    true
}

// The number of the message that is given in the event in this configuration, and its value.
fn given_in(protocol: &Checked, config: &RvConfig, event: Event) -> Option<(u8, Value)>
    ensures { result ≡ given_in protocol.now.protocol config.now event }
{
    match event {
        Event::TauHome(_) | Event::TauRemote(_, _) => None,
        Event::Up(j, _, r) => {
            let remote = remote_at(config, j)?;
            given_by(protocol, protocol.remote(), &remote, r)
        }
        Event::Down(_, h, _) => given_by(protocol, protocol.home(), &config.home, h),
    }
}

// Takes the event in this configuration, and answers whether it takes place.
fn take(protocol: &Checked, config: &mut RvConfig, event: Event) -> bool
    requires { length config.old.remotes ≤ 64 }
    ensures { Stepped result config.old config.new (rv_next protocol.now.protocol config.old
        event) }
{
    match event {
        Event::TauHome(rule) => tau_home(protocol, config, rule),
        Event::TauRemote(j, rule) => tau_remote(protocol, config, j, rule),
        Event::Up(j, h, r) => up(protocol, config, j, h, r),
        Event::Down(j, h, r) => down(protocol, config, j, h, r),
    }
}
