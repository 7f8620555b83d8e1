//! The machine.

ghost use Rattle.std.specs.Prelude.{◌≡◌, ◌<◌, ◌≤◌, length, replicate, slice_index_or, IfOk, IfSome};
ghost use Rattle.std.specs.Prelude.{Some};
ghost use Rattle.std.specs.Option.{option_map};
ghost use Rattle.ordered_links.specs.Lists.{no_packets};
ghost use Rattle.controller_table.specs.Sound.{protocol_of};
ghost use Rattle.async_shape.specs.Config as of_config;
ghost use Rattle.async_shape.specs.Admitting.{IsAdmitting};
ghost use Rattle.async_shape.specs.Bounded.{IsBounded};
ghost use Rattle.async_shape.specs.Fired.{ByRow, row_place};
ghost use Rattle.async_shape.specs.Next.{next, outcome, is_enabled, is_in_range, put_of, take_of};
ghost use Rattle.async_shape.specs.Next.{displaced_sender};
ghost use Rattle.async_shape.specs.Shape.{IsShaped};
ghost use Rattle.async_shape.specs.View.{nobody};
ghost use Rattle.async_machine.specs.Arriving.{IsLinked};
ghost use Rattle.async_machine.specs.Effects.{Changed, ChangedBy, IsStep};
ghost use Rattle.async_machine.specs.Planned.{planned_outcome, guard_behind, message_behind, Fits};
ghost use Rattle.async_machine.specs.Standing.{setting, config, waited_on, sent_by};

use crate::performing::make;
use crate::planned::Planned;
use crate::planning::plan_of;
use crate::sending::{arriving, send, take};
use crate::start::{start_home, start_remotes};
use crate::stepped::Stepped;
use async_shape::{HomePlace, HomeState, RemoteState, Request, Step};
use controller_table::{Place, Table};
use ordered_links::Links;
use proto_model::{Value, Vars};
use rv_base::{Items, NoMemory};
use slot_reserve::{Held, Slots};
use std::alloc::Global;
use std::marker::Model;

/// A machine that takes the steps of the home and its remotes, one at a time, as the rows of a
/// table tell them, over links. What the steps are stems from Nalumasu and Gopalakrishnan,
/// "Deriving Efficient Cache Coherence Protocols through Refinement". Contracts see where it
/// stands: its table, how many slots the home has, the home, the requests that it holds, the
/// remotes and the links. Its table is sound, and each configuration in which it stands has the
/// shape.
#[derive(Drop)]
pub struct Machine<'a, L: Links> {
    pub(crate) table: &'a Table,
    pub(crate) home: HomeState,
    pub(crate) slots: Slots,
    pub(crate) remotes: Items<RemoteState>,
    pub(crate) links: L,
}

impl<'a, L: Links> Model for Machine<'a, L> {
    ghost use Rattle.async_machine.specs.Standing.{Standing, IsStanding, config_of};

    ghost Value = { Standing L };

    ghost view = { λ m. record {
      table = m.table.now;
      slots = m.slots.size;
      home = m.home;
      held = m.slots.held;
      remotes = m.remotes;
      links = m.links;
    } };

    ghost invariant = { λ m. IsStanding m.table.now m.slots.size
        (config_of m.home m.slots.held m.remotes (L.lists m.links)) };
}

impl<'a, L: Links> Machine<'a, L> {
    /// A machine over this table, which it refers to, at the start: each process in its start state
    /// with its first values, and nothing held, owed or under way. There are as many remotes as the
    /// links are for, from 1 to 64, and the links are empty; the home has k slots, from 2 to 64.
    /// All memory is taken here. After `NoMemory` the links are given up.
    pub fn new(alloc: Global, table: &'a Table, links: L, k: u8) -> Result<Machine<'a, L>, NoMemory>
        requires count { (1 ≤ length (L.lists links)) × (length (L.lists links) ≤ 64) }
        requires empty { L.lists links ≡ replicate (length (L.lists links)) no_packets }
        requires slots { (2 ≤ k) × (k ≤ 64) }
        ensures parts { IfOk result (λ m. (m.table ≡ table.now) × (m.slots ≡ k) × (m.links ≡
            links)) }
        ensures start { IfOk result (λ m. config L.lists m
            ≡ of_config.start (protocol_of table.now) (length (L.lists links))) }
    {
        let n = links.count();
        Ok(Machine {
            table,
            home: start_home(alloc, table, n)?,
            slots: Slots::new(alloc, k)?,
            remotes: start_remotes(alloc, table, n)?,
            links,
        })
    }

    /// Whether each remote that the step names is there.
    pub(crate) fn names_some(&self, step: Step) -> bool
        ensures { result ≡ is_in_range (config L.lists self.now) step }
    {
        let n = self.remotes.as_slice().len();
        match step {
            Step::HomeTau(_) => true,
            Step::HomeTake(j)
            | Step::HomeSend(_, j)
            | Step::HomeDrop(j)
            | Step::RemoteTau(j, _)
            | Step::RemoteSend(j)
            | Step::RemoteAnswer(j)
            | Step::RemoteReply(j)
            | Step::Up(j)
            | Step::Down(j) => (j as usize) < n,
        }
    }

    /// What the step does, of which nothing is done yet: performed, the plan does what the step is
    /// defined to do. None exactly where the step is not enabled, which it also isn't where a number
    /// of a remote or of a guard in it is out of range. The plan says the guard and the message that
    /// stand behind the step. Takes no memory. The work grows with the requests that are held and
    /// the guards of one state, not with n.
    pub fn plan(&self, step: Step) -> Option<Planned>
        ensures does { option_map (planned_outcome (config L.lists self.now) step) result
            ≡ outcome (setting self.now) (config L.lists self.now) step }
        ensures guard { IfSome result (λ plan. plan.guard
            ≡ guard_behind (protocol_of self.now.table) (config L.lists self.now) step) }
        ensures message { IfSome result (λ plan. plan.message
            ≡ message_behind (protocol_of self.now.table) (config L.lists self.now) step) }
        ensures fits { IfSome result (Fits self.now.slots (config L.lists self.now)) }
    {
        if !self.names_some(step) {
            return None;
        }
        let arrived = arriving(&self.links, step);
        plan_of(
            self.table,
            &self.home,
            &self.slots,
            self.remotes.as_slice(),
            arrived,
            step,
        )
    }

    /// Performs the plan of this step, as the machine stands: then it stands in the next
    /// configuration. One row of its table explains how a process changed, or none fired and each
    /// process stays where it is. At most one packet is put on a link, and then at most one is
    /// taken, each with the effect of the links. Takes no memory.
    pub fn perform(&mut self, step: Step, plan: &Planned)
        requires does { outcome (setting self.old) (config L.lists self.old) step
            ≡ Some (planned_outcome (config L.lists self.old) step plan.now) }
        requires fits { Fits self.old.slots (config L.lists self.old) plan.now }
        ensures step { next (setting self.old) (config L.lists self.old) step
            ≡ Some (config L.lists self.new) }
        ensures row { ByRow (setting self.old) (config L.lists self.old) (config L.lists self.new)
            step self.old.table.home.rows self.old.table.remote.rows }
        ensures kept { (self.new.table ≡ self.old.table) × (self.new.slots ≡ self.old.slots) }
        ensures effect { Changed L.put_effect L.take_effect self.old.links
            (put_of (setting self.old) (config L.lists self.old) step)
            (take_of (setting self.old) (config L.lists self.old) step) self.new.links }
    {
        make(
            &mut self.home,
            &mut self.slots,
            &mut self.remotes,
            &plan.change,
        );
        send(&mut self.links, plan.sends);
        take(&mut self.links, step);
    }

    /// Takes the step. It moved exactly where there is a next configuration, in which the machine
    /// stands then; else it is refused and nothing changed. It is refused where it is not enabled,
    /// and where a number of a remote or of a guard in it is out of range. Where it moved, one row of
    /// its table explains how a process changed, or none fired and each process stays where it is.
    /// At most one packet is put on a link, and then at most one is taken, each with the effect of
    /// the links. Takes no memory.
    pub fn step(&mut self, step: Step) -> Stepped
        ensures step { IsStep result (config L.lists self.old) (config L.lists self.new)
            (next (setting self.old) (config L.lists self.old) step) }
        ensures row { result ≡ Stepped.Moved → ByRow (setting self.old) (config L.lists self.old)
            (config L.lists self.new) step self.old.table.home.rows self.old.table.remote.rows }
        ensures kept { (self.new.table ≡ self.old.table) × (self.new.slots ≡ self.old.slots) }
        ensures refused { result ≡ Stepped.Refused → self.new ≡ self.old }
        ensures effect { ChangedBy L.put_effect L.take_effect result self.old.links
            (put_of (setting self.old) (config L.lists self.old) step)
            (take_of (setting self.old) (config L.lists self.old) step) self.new.links }
    {
        let Some(plan) = self.plan(step) else {
            return Stepped::Refused;
        };
        self.perform(step, &plan);
        Stepped::Moved
    }

    /// Whether the step is enabled. Takes no memory. The work grows with the requests that are
    /// held and the guards of one state, not with n.
    pub fn is_enabled(&self, step: Step) -> bool
        ensures { result ≡ is_enabled (setting self.now) (config L.lists self.now) step }
    {
        self.plan(step).is_some()
    }

    /// The remote whose held request the step would displace, counted from 0; none where it would
    /// displace none. Only a request that arrives at a full home displaces one.
    pub fn would_displace(&self, step: Step) -> Option<u8>
        ensures { result ≡ displaced_sender (setting self.now) (config L.lists self.now) step }
    {
        self.plan(step)?.displaced
    }

    /// Each configuration in which the machine stands has the shape.
    pub fn shaped(&self)
        ensures { IsShaped (setting self.now) (config L.lists self.now) }
    {
        let _ = &self.home;
    }

    /// Each configuration in which the machine stands is bounded: at most k requests are held, and
    /// at most k - 1 while the home waits; at most 2 packets are on an up link and 3 on a down link;
    /// and what arrives next is expected where it arrives.
    pub fn bounded(&self)
        ensures { IsBounded (setting self.now) (config L.lists self.now) }
    {
        let _ = &self.home;
    }

    /// In each configuration in which the machine stands a request that arrives is nacked although
    /// it completes a guard only where the slots are full and some held request completes one; and a
    /// request that may be dropped or displaced completes none.
    pub fn admitting(&self)
        ensures { IsAdmitting (setting self.now) (config L.lists self.now) }
    {
        let _ = &self.home;
    }

    /// The table that it runs.
    pub fn table(&self) -> &'a Table
        ensures { result.now ≡ self.now.table }
    {
        self.table
    }

    /// How many remotes there are, from 1 to 64.
    pub fn n(&self) -> u8
        ensures { result ≡ length self.now.remotes }
    {
        self.remotes.as_slice().len() as u8
    }

    /// How many slots the home has, from 2 to 64.
    pub fn k(&self) -> u8
        ensures { result ≡ self.now.slots }
    {
        self.slots.size()
    }

    /// Where the home stands: idle, or waiting, and by which guard, on which remote and with which
    /// value.
    pub fn home_at(&self) -> HomePlace
        ensures { result ≡ self.now.home.place }
    {
        self.home.place
    }

    /// Where the home stands, as the rows name it.
    pub fn home_place(&self) -> Place
        ensures { result ≡ row_place self.now.home.place }
    {
        match self.home.place {
            HomePlace::Idle(state) => Place::Comm(state),
            HomePlace::Waits(waiting) => Place::Trans(waiting.by),
        }
    }

    /// The remote on which the home waits; none where it is idle.
    pub fn waiting_on(&self) -> Option<u8>
        ensures { result ≡ waited_on self.now.home.place }
    {
        match self.home.place {
            HomePlace::Idle(_) => None,
            HomePlace::Waits(waiting) => Some(waiting.on),
        }
    }

    /// The value of the request to which the home waits for an answer; `Unit` where it is idle.
    pub fn sent(&self) -> Value
        ensures { result ≡ sent_by self.now.home.place }
    {
        match self.home.place {
            HomePlace::Idle(_) => Value::Unit,
            HomePlace::Waits(waiting) => waiting.sent,
        }
    }

    /// The variables of the home.
    pub fn home_vars(&self) -> &Vars
        ensures { result.now ≡ self.now.home.vars }
    {
        &self.home.vars
    }

    /// The requests that the home holds, in order of arrival.
    pub fn held(&self) -> &[Held]
        ensures { result.now ≡ self.now.held }
    {
        self.slots.held()
    }

    /// The message that the home owes to remote j; none where it owes none, and past the last one.
    pub fn owed(&self, j: u8) -> Option<u8>
        ensures { result ≡ of_config.owed_to self.now.home j }
    {
        crate::home::owed_to(&self.home, j)
    }

    /// The links.
    pub fn links(&self) -> &L
        ensures { result.now ≡ self.now.links }
    {
        &self.links
    }

    // Remote j.
    fn remote(&self, j: u8) -> &RemoteState
        requires { j < length self.now.remotes }
        ensures { result.now ≡ slice_index_or self.now.remotes j nobody }
    {
        &self.remotes.as_slice()[j as usize]
    }

    /// Where remote j stands, counted from 0, as the rows name it.
    pub fn remote_place(&self, j: u8) -> Place
        requires { j < length self.now.remotes }
        ensures { result ≡ (slice_index_or self.now.remotes j nobody).place }
    {
        self.remote(j).place
    }

    /// The variables of remote j.
    pub fn remote_vars(&self, j: u8) -> &Vars
        requires { j < length self.now.remotes }
        ensures { result.now ≡ (slice_index_or self.now.remotes j nobody).vars }
    {
        &self.remote(j).vars
    }

    /// The request of the home in the slot of remote j; none where the slot is empty.
    pub fn slot(&self, j: u8) -> Option<Request>
        requires { j < length self.now.remotes }
        ensures { result ≡ (slice_index_or self.now.remotes j nobody).slot }
    {
        self.remote(j).slot
    }
}
