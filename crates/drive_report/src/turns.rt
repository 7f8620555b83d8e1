//! One turn of a run that a number chooses.

ghost use Rattle.std.specs.Prelude.{◌≡◌, ◌<◌, ◌≤◌, max, true, length};
ghost use Rattle.ordered_links.specs.Link.{Up, Down};
ghost use Rattle.ordered_links.specs.Lists.{packets_on};
ghost use Rattle.async_shape.specs.Next.{is_enabled};
ghost use Rattle.async_shape.specs.Run.{after_step};
ghost use Rattle.async_machine.specs.Standing.{setting, config};
ghost use Rattle.drive_report.specs.Counted.{counted_config};
ghost use Rattle.drive_report.specs.Drive as drive;
ghost use Rattle.drive_report.specs.Turns as turns;

use crate::counted::CountedLinks;
use crate::summary::Summary;
use abstraction_map::{Told, event_of};
use async_machine::{HomePlace, Machine, Step};
use ordered_links::{Links, Packet};

// ---- the generator

/// The number that follows x.
pub(crate) fn number_after(x: u64) -> u64
    ensures { result ≡ drive.number_after x }
{
    x.wrapping_mul(6_364_136_223_846_793_005)
        .wrapping_add(1_442_695_040_888_963_407)
}

// The greater of two numbers.
fn greater(a: u64, b: u64) -> u64
    ensures { result ≡ max a b }
{
    if a < b { b } else { a }
}

// One where it holds.
fn one_if(b: bool) -> u64
    ensures { result ≡ turns.one_if b }
{
    if b { 1 } else { 0 }
}

// ---- what is counted of a step

// The step is told as an event.
fn is_event<L: Links>(machine: &Machine<L>, step: Step) -> bool
    ensures { result
        ≡ drive.tells_event (setting machine.now) (config L.lists machine.now, step) }
{
    matches!(event_of(machine, step), Told::Is(_))
}

// A request arrives in the step at a home that waits on its sender.
fn crosses<L: Links>(machine: &Machine<L>, step: Step) -> bool
    ensures { result ≡ drive.crosses_at (config L.lists machine.now) step }
{
    let Step::Up(j) = step else {
        return false;
    };
    let HomePlace::Waits(waiting) = machine.home_at() else {
        return false;
    };
    if u32::from(waiting.on) != j {
        return false;
    }
    machine.shaped();
    matches!(
        machine.links().up_at(waiting.on, 0),
        Some(Packet::Request(_, _))
    )
}

// How many packets are on the up link of remote j, of which there are at most 3.
fn up_count<L: Links>(links: &L, j: u8) -> u64
    requires remote { j < length (L.lists links.now) }
    requires few { length (packets_on (Up j) (L.lists links.now)) ≤ 3 }
    ensures { result ≡ length (packets_on (Up j) (L.lists links.now)) }
{
    if links.up_at(j, 0).is_none() {
        return 0;
    }
    if links.up_at(j, 1).is_none() {
        return 1;
    }
    if links.up_at(j, 2).is_none() {
        return 2;
    }
    3
}

// How many packets are on the down link of remote j, of which there are at most 3.
fn down_count<L: Links>(links: &L, j: u8) -> u64
    requires remote { j < length (L.lists links.now) }
    requires few { length (packets_on (Down j) (L.lists links.now)) ≤ 3 }
    ensures { result ≡ length (packets_on (Down j) (L.lists links.now)) }
{
    if links.down_at(j, 0).is_none() {
        return 0;
    }
    if links.down_at(j, 1).is_none() {
        return 1;
    }
    if links.down_at(j, 2).is_none() {
        return 2;
    }
    3
}

// The greatest number of packets on one up link.
fn longest_up<L: Links>(machine: &Machine<L>) -> u64
    ensures { result ≡ drive.longest_up (L.lists machine.now.links) }
{
    machine.shaped();
    let links = machine.links();
    let mut longest = 0;
    for j in 0..machine.n() {
        longest = greater(longest, up_count(links, j));
    }
    longest
}

// The greatest number of packets on one down link.
fn longest_down<L: Links>(machine: &Machine<L>) -> u64
    ensures { result ≡ drive.longest_down (L.lists machine.now.links) }
{
    machine.shaped();
    let links = machine.links();
    let mut longest = 0;
    for j in 0..machine.n() {
        longest = greater(longest, down_count(links, j));
    }
    longest
}

// ---- a turn

/// Takes the step, which is enabled, and answers what is counted with it.
pub(crate) fn take(machine: &mut Machine<CountedLinks>, step: Step, so_far: Summary) -> Summary
    requires enabled { is_enabled (setting machine.old)
        (counted_config machine.old) step ≡ true }
    requires packets { machine.old.links.counts ≡ turns.packets_counted so_far }
    requires few { turns.IsAtMost 100000 so_far }
    ensures step { counted_config machine.new ≡ after_step (setting machine.old)
        (counted_config machine.old) step }
    ensures kept { (machine.new.table ≡ machine.old.table)
        × (machine.new.slots ≡ machine.old.slots) }
    ensures counted { result ≡ turns.counted (setting machine.old) so_far
        (counted_config machine.old) step }
    ensures packets { machine.new.links.counts ≡ turns.packets_counted result }
{
    let event = one_if(is_event(machine, step));
    let crossed = one_if(crosses(machine, step));
    let _ = machine.step(step);
    let counts = machine.links().counts();
    Summary {
        steps: so_far.steps + 1,
        events: so_far.events + event,
        requests: counts.requests,
        acks: counts.acks,
        nacks: counts.nacks,
        replies: counts.replies,
        crossed: so_far.crossed + crossed,
        most_held: greater(so_far.most_held, machine.held().len() as u64),
        most_up: greater(so_far.most_up, longest_up(machine)),
        most_down: greater(so_far.most_down, longest_down(machine)),
        stopped: so_far.stopped,
    }
}
