//! The enabled steps, kept from turn to turn in a row for each form. After a step the rows are
//! asked again of those steps alone that it can have enabled or disabled.

ghost use Rattle.std.specs.Prelude.{◌≡◌, ◌<◌, ◌≤◌, ◌++◌, [], ◌∷◌, length, map, slice_get, IfOk};
ghost use Rattle.std.specs.Prelude.{OnOk};
ghost use Rattle.std.specs.List.{range_with_len};
ghost use Rattle.async_shape.specs.Config.{count_of};
ghost use Rattle.async_machine.specs.Standing.{setting, config};
ghost use Rattle.drive_report.specs.Drive.{step_chosen};
ghost use Rattle.drive_report.specs.Forms.{form_of};
ghost use Rattle.drive_report.specs.Ready.{ready_list};
ghost use Rattle.drive_report.specs.Rows as rows;

use crate::changes::{Change, change_of};
use crate::forms::{Form, Pair};
use crate::ready_list::MOST_GUARDS;
use crate::silent::is_silent;
use async_machine::{Machine, Step};
use ordered_links::Links;
use proto_model::has_number;
use rv_base::NoMemory;
use std::alloc::Global;

// ---- a row

/// A form, the number of its steps, and the set of the numbers of those that are enabled.
#[derive(Clone, Copy)]
pub(crate) struct Row {
    form: Form,
    count: u8,
    enabled: u64,
}

// The set of the numbers below the count whose steps of this form are enabled.
fn enabled_of<L: Links>(machine: &Machine<L>, form: Form, count: u8) -> u64
    requires { count ≤ 64 }
    ensures { result
        ≡ rows.enabled_of (setting machine.now) (config L.lists machine.now) form count }
{
    if is_silent(machine, form) {
        return 0;
    }
    let mut set = 0;
    for number in 0..count {
        if machine.is_enabled(form.step(u32::from(number))) {
            set += 1 << number;
        }
    }
    set
}

// The set, with the number where it is to have it, and else without it.
fn with_answer(set: u64, number: u8, answer: bool) -> u64
    requires { number < 64 }
    ensures { result ≡ rows.with_answer set number answer }
{
    if answer {
        set | 1 << number
    } else if has_number(set, number) {
        set - (1 << number)
    } else {
        set
    }
}

impl Row {
    // The row of this form, as the machine stands.
    fn ready<L: Links>(machine: &Machine<L>, form: Form, count: u8) -> Row
        requires { count ≤ 64 }
        ensures { result
            ≡ rows.ready_row (setting machine.now) (config L.lists machine.now) (form, count) }
    {
        Row {
            form,
            count,
            enabled: enabled_of(machine, form, count),
        }
    }

    // How many of its steps are enabled.
    fn len(self) -> usize
        requires { rows.IsSmall self }
        ensures value { result ≡ length (rows.steps_of self) }
        ensures few { result ≤ 64 }
    {
        self.enabled.count_ones() as usize
    }

    // The enabled step at this place.
    fn step_at(self, place: usize) -> Option<Step>
        ensures { result ≡ slice_get (rows.steps_of self) place }
    {
        let mut left = place;
        for number in 0..self.count {
            if has_number(self.enabled, number) {
                if left == 0 {
                    return Some(self.form.step(u32::from(number)));
                }
                left -= 1;
            }
        }
        None
    }

    // The row, asked again whether its step with this number is enabled.
    fn asked<L: Links>(self, machine: &Machine<L>, number: u8) -> Row
        requires { number < 64 }
        ensures { result
            ≡ rows.asked (setting machine.now) (config L.lists machine.now) number self }
    {
        let answer = machine.is_enabled(self.form.step(u32::from(number)));
        Row {
            form: self.form,
            count: self.count,
            enabled: with_answer(self.enabled, number, answer),
        }
    }

    // The row after the step that was taken: asked again of what this can have changed.
    fn refreshed<L: Links>(self, machine: &Machine<L>, step: Step) -> Row
        requires { self.count ≤ 64 }
        ensures { result
            ≡ rows.refreshed (setting machine.now) (config L.lists machine.now) step self }
    {
        match change_of(step, self.form) {
            Change::Nothing => self,
            Change::One(number) => {
                if number < u32::from(self.count) {
                    self.asked(machine, number as u8)
                } else {
                    self
                }
            }
            Change::All => Row::ready(machine, self.form, self.count),
        }
    }
}

// ---- all rows

// How many remotes there are.
fn remotes_of<L: Links>(machine: &Machine<L>) -> u8
    ensures value { result ≡ count_of (config L.lists machine.now) }
    ensures few { result ≤ 64 }
{
    machine.shaped();
    machine.n()
}

fn push_row<L: Links>(
    machine: &Machine<L>,
    form: Form,
    count: u8,
    all: &mut Vec<Row>,
) -> Result<(), NoMemory>
    requires { count ≤ 64 }
    ensures { OnOk result (all.new.items ≡ all.old.items
        ++ rows.ready_row (setting machine.now) (config L.lists machine.now) (form, count) ∷ []) }
{
    all.push(Row::ready(machine, form, count))?;
    Ok(())
}

fn push_rows<L: Links>(
    machine: &Machine<L>,
    pair: Pair,
    firsts: u8,
    count: u8,
    all: &mut Vec<Row>,
) -> Result<(), NoMemory>
    requires { count ≤ 64 }
    ensures { OnOk result (all.new.items ≡ all.old.items
        ++ map (rows.ready_row (setting machine.now) (config L.lists machine.now))
        (map (λ first. (form_of pair first, count)) (range_with_len 0 firsts))) }
{
    for first in 0..firsts {
        push_row(machine, pair.form(u32::from(first)), count, all)?;
    }
    Ok(())
}

/// The rows of all forms, as the machine stands.
pub(crate) fn ready_rows<L: Links>(
    alloc: Global,
    machine: &Machine<L>,
) -> Result<Vec<Row>, NoMemory>
    ensures { IfOk result (λ all. all.items
        ≡ rows.ready_rows (setting machine.now) (config L.lists machine.now)) }
{
    let n = remotes_of(machine);
    let guards = MOST_GUARDS as u8;
    let mut all = Vec::new(alloc);
    push_row(machine, Form::HomeTau, guards, &mut all)?;
    push_row(machine, Form::HomeTake, n, &mut all)?;
    push_rows(machine, Pair::HomeSend, guards, n, &mut all)?;
    push_row(machine, Form::HomeDrop, n, &mut all)?;
    push_rows(machine, Pair::RemoteTau, n, guards, &mut all)?;
    push_row(machine, Form::RemoteSend, n, &mut all)?;
    push_row(machine, Form::RemoteAnswer, n, &mut all)?;
    push_row(machine, Form::RemoteReply, n, &mut all)?;
    push_row(machine, Form::Up, n, &mut all)?;
    push_row(machine, Form::Down, n, &mut all)?;
    Ok(all)
}

/// Asks again of the rows what the step, which was taken, can have changed.
pub(crate) fn refresh<L: Links>(machine: &Machine<L>, step: Step, all: &mut [Row])
    requires { rows.AreFew all.old }
    ensures { all.new
        ≡ map (rows.refreshed (setting machine.now) (config L.lists machine.now) step) all.old }
{
    for row in all.iter_mut() {
        *row = row.refreshed(machine, step);
    }
}

// How many steps the rows hold.
fn total(all: &[Row]) -> usize
    requires { rows.AreFew all.now }
    ensures { result ≡ length (rows.steps_in all.now) }
{
    let mut sum = 0;
    for row in all {
        sum += row.len();
    }
    sum
}

// The step at this place of all that the rows hold.
fn step_at(all: &[Row], place: usize) -> Option<Step>
    requires { rows.AreFew all.now }
    ensures { result ≡ slice_get (rows.steps_in all.now) place }
{
    let mut left = place;
    for row in all {
        let count = row.len();
        if left < count {
            return row.step_at(left);
        }
        left -= count;
    }
    None
}

// The step that the number chooses among those that the rows hold; none where they hold none.
fn chosen_in(x: u64, all: &[Row]) -> Option<Step>
    requires { rows.AreFew all.now }
    ensures { result ≡ step_chosen x (rows.steps_in all.now) }
{
    let count = total(all);
    if count == 0 {
        return None;
    }
    step_at(all, ((x >> 33) % count as u64) as usize)
}

/// The step that the number chooses among those that are enabled as the machine stands, whose rows
/// these are; none where none is.
pub(crate) fn chosen<L: Links>(machine: &Machine<L>, x: u64, all: &[Row]) -> Option<Step>
    requires { all.now ≡ rows.ready_rows (setting machine.now) (config L.lists machine.now) }
    ensures { result
        ≡ step_chosen x (ready_list (setting machine.now) (config L.lists machine.now)) }
{
    machine.shaped();
    chosen_in(x, all)
}
