//! The array.

ghost use Rattle.std.specs.Prelude.{◌≡◌, ◌<◌, ◌≤◌, length, Some, slice_get, IfOk};
ghost use Rattle.controller_table.specs.Sound.{protocol_of, IsSound};
ghost use Rattle.async_shape.specs.Config.{start};
ghost use Rattle.async_machine.specs.Effects.{IsStep};
ghost use Rattle.line_array.specs.ArrayConfig.{array_start};
ghost use Rattle.line_array.specs.ArrayNext as array_of;
ghost use Rattle.line_array.specs.InStep.{IsSharing};
ghost use Rattle.line_array.specs.Standing.{array_setting, ring_config, line_standing};

use crate::line_step::{LineStep, is_delivery};
use crate::noting::{Noted, step_noting};
use crate::shared::{SharedLink, SharedLinks};
use async_machine::{Machine, Stepped};
use async_shape::Step;
use controller_table::Table;
use ordered_links::RingLinks;
use rv_base::NoMemory;
use std::alloc::Global;
use std::marker::Model;

/// From 1 to 16 lines over shared links: for each line a machine of the same table, with the same
/// numbers of remotes and of slots. Contracts see the table, the number of slots, and the
/// configuration in which the array stands. Its table is sound, each line's configuration has the
/// shape, and the shared links have the order of what is under way on the lines' own links. No call
/// but `new` takes memory.
#[derive(Drop)]
pub struct Array<'a> {
    table: &'a Table,
    slots: u8,
    machines: Vec<Machine<'a, RingLinks>>,
    shared: SharedLinks,
}

impl<'a> Model for Array<'a> {
    ghost use Rattle.std.specs.Prelude.{map};
    ghost use Rattle.line_array.specs.Standing.{ArrayStanding, IsArray, array_config};

    ghost Value = { ArrayStanding };

    ghost view = { λ array. record {
      table = array.table.now;
      slots = array.slots;
      config = array_config array.machines.items array.shared.pairs;
    } };

    ghost invariant = { λ array.
        IsArray array.table.now array.slots array.machines.items array.shared };
}

// One line at the start: a machine over rings.
fn line_at_start<'a>(
    alloc: Global,
    table: &'a Table,
    n: u8,
    k: u8,
) -> Result<Machine<'a, RingLinks>, NoMemory>
    requires remotes { (1 ≤ n) × (n ≤ 64) }
    requires slots { (2 ≤ k) × (k ≤ 64) }
    ensures { IfOk result (λ machine. machine
        ≡ line_standing table.now k (start (protocol_of table.now) n)) }
{
    let links = RingLinks::new(alloc, n)?;
    Machine::new(alloc, table, links, k)
}

impl<'a> Array<'a> {
    /// An array of so many lines, from 1 to 16, over this table, to which it refers, at the start:
    /// each line with n remotes, from 1 to 64, and k slots, from 2 to 64. All memory is taken here.
    pub fn new(
        alloc: Global,
        table: &'a Table,
        n: u8,
        k: u8,
        lines: u8,
    ) -> Result<Array<'a>, NoMemory>
        requires remotes { (1 ≤ n) × (n ≤ 64) }
        requires slots { (2 ≤ k) × (k ≤ 64) }
        requires lines { (1 ≤ lines) × (lines ≤ 16) }
        ensures { IfOk result (λ array. array ≡ record {
          table = table.now;
          slots = k;
          config = array_start (protocol_of table.now) n lines;
        }) }
    {
        let _ = table.home();
        let shared = SharedLinks::new(alloc, n, lines)?;
        let mut machines = Vec::with_capacity(alloc, lines as usize)?;
        for made in 0..lines {
            machines.push(line_at_start(alloc, table, n, k)?)?;
        }
        Ok(Array {
            table,
            slots: k,
            machines,
            shared,
        })
    }

    /// How many lines there are, from 1 to 16.
    pub fn lines(&self) -> u8
        ensures count { result ≡ length self.now.config.lines }
        ensures within { (1 ≤ result) × (result ≤ 16) }
    {
        self.machines.len() as u8
    }

    /// The machine of line a, counted from 0.
    pub fn machine(&self, a: u8) -> &Machine<'a, RingLinks>
        requires { a < length self.now.config.lines }
        ensures line { slice_get self.now.config.lines a ≡ Some (ring_config result.now) }
        ensures kept { (result.now.table ≡ self.now.table) × (result.now.slots ≡ self.now.slots) }
    {
        &self.machines[a as usize]
    }

    /// The number of the line and the step of its machine that the step means. Of a delivery it is
    /// the line whose number is the first on the shared link. None exactly where the line that `At`
    /// names isn't there, where `At` holds a delivery, where the remote of a delivery isn't there,
    /// and where nothing is under way on its shared link.
    pub fn meant(&self, step: LineStep) -> Option<(u8, Step)>
        ensures { result ≡ array_of.meant self.now.config step }
    {
        match step {
            LineStep::At(a, own) => {
                if a < self.machines.len() as u32 && !is_delivery(own) {
                    Some((a as u8, own))
                } else {
                    None
                }
            }
            LineStep::Up(j) => Some((self.shared.first(SharedLink::Up(j))?, Step::Up(j))),
            LineStep::Down(j) => Some((self.shared.first(SharedLink::Down(j))?, Step::Down(j))),
        }
    }

    /// Takes the step. It moved exactly where a step of a line is meant that is enabled there, and
    /// then the array stands in the one configuration that it leads to; else it is refused and
    /// nothing changed. That a delivery that is meant is enabled is a law,
    /// `shared_lists_are_in_step`.
    pub fn step(&mut self, step: LineStep) -> Stepped
        ensures step { IsStep result self.old.config self.new.config
            (array_of.next_array (array_setting self.old) self.old.config step) }
        ensures kept { (self.new.table ≡ self.old.table) × (self.new.slots ≡ self.old.slots) }
    {
        let Some((a, own)) = self.meant(step) else {
            return Stepped::Refused;
        };
        match step_noting(&mut self.machines[a as usize], own) {
            Noted::Moved(link) => {
                self.shared.note(a, link, own);
                Stepped::Moved
            }
            Noted::Refused => Stepped::Refused,
        }
    }

    /// The table is sound. In the configuration in which the array stands, each line's own has the
    /// shape, and on each shared link packets are under way of which it has the line numbers, in
    /// order, and the lines' own links the packets.
    pub fn shares(&self)
        ensures sound { IsSound self.now.table }
        ensures shares { IsSharing (array_setting self.now) self.now.config }
    {
        let _ = &self.machines;
    }
}
