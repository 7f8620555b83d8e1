//! The steps that are enabled, asked of a machine.

ghost use Rattle.std.specs.Prelude.{◌≡◌, ◌++◌, [], ◌∷◌, filter, IfOk, OnOk};
ghost use Rattle.controller_table.specs.Sound.{protocol_of};
ghost use Rattle.async_shape.specs.Next.{is_enabled};
ghost use Rattle.async_machine.specs.Standing.{setting, config};
ghost use Rattle.abstraction_map.specs.Abstraction.{abstraction};
ghost use Rattle.drive_report.specs.Forms.{step_of, form_of};
ghost use Rattle.drive_report.specs.Ready.{steps_below, steps_of_two, ready_list, IsStill};

use crate::forms::{Form, Pair};
use crate::laws::no_new_deadlock_of;
use async_machine::{Machine, Step};
use ordered_links::Links;
use rv_base::NoMemory;
use std::alloc::Global;

/// The most guards that a state may have.
pub(crate) const MOST_GUARDS: u32 = 16;

// Appends the step, if it is enabled.
fn push_enabled<L: Links>(
    machine: &Machine<L>,
    step: Step,
    steps: &mut Vec<Step>,
) -> Result<(), NoMemory>
    ensures { OnOk result (steps.new.items ≡ steps.old.items
        ++ filter (is_enabled (setting machine.now) (config L.lists machine.now)) (step ∷ [])) }
{
    if machine.is_enabled(step) {
        steps.push(step)?;
    }
    Ok(())
}

/// Appends the steps of this form with a number below the count that are enabled. After `NoMemory`
/// some of them may follow.
pub(crate) fn push_form<L: Links>(
    machine: &Machine<L>,
    form: Form,
    count: u32,
    steps: &mut Vec<Step>,
) -> Result<(), NoMemory>
    ensures { OnOk result (steps.new.items ≡ steps.old.items
        ++ filter (is_enabled (setting machine.now) (config L.lists machine.now))
        (steps_below count (step_of form))) }
{
    for number in 0..count {
        push_enabled(machine, form.step(number), steps)?;
    }
    Ok(())
}

// Appends the steps of this kind that are enabled, with a first number below the first count and a
// second one below the second.
fn push_pairs<L: Links>(
    machine: &Machine<L>,
    pair: Pair,
    firsts: u32,
    seconds: u32,
    steps: &mut Vec<Step>,
) -> Result<(), NoMemory>
    ensures { OnOk result (steps.new.items ≡ steps.old.items
        ++ filter (is_enabled (setting machine.now) (config L.lists machine.now))
        (steps_of_two firsts seconds (λ first. step_of (form_of pair first)))) }
{
    for first in 0..firsts {
        push_form(machine, pair.form(first), seconds, steps)?;
    }
    Ok(())
}

/// Makes the list that of the enabled steps. After `NoMemory` it may be any list.
pub(crate) fn fill<L: Links>(machine: &Machine<L>, steps: &mut Vec<Step>) -> Result<(), NoMemory>
    ensures { OnOk result (steps.new.items
        ≡ ready_list (setting machine.now) (config L.lists machine.now)) }
{
    let n = u32::from(machine.n());
    steps.clear();
    push_form(machine, Form::HomeTau, MOST_GUARDS, steps)?;
    push_form(machine, Form::HomeTake, n, steps)?;
    push_pairs(machine, Pair::HomeSend, MOST_GUARDS, n, steps)?;
    push_form(machine, Form::HomeDrop, n, steps)?;
    push_pairs(machine, Pair::RemoteTau, n, MOST_GUARDS, steps)?;
    push_form(machine, Form::RemoteSend, n, steps)?;
    push_form(machine, Form::RemoteAnswer, n, steps)?;
    push_form(machine, Form::RemoteReply, n, steps)?;
    push_form(machine, Form::Up, n, steps)?;
    push_form(machine, Form::Down, n, steps)?;
    Ok(())
}

/// The steps that are enabled as the machine stands: by their kinds in the order of `Step`, and
/// then by their numbers. Where there is none, no event takes place either in what the
/// configuration stands for. The machine stays as it is; memory is taken for the list alone.
pub fn ready<L: Links>(alloc: Global, machine: &Machine<L>) -> Result<Vec<Step>, NoMemory>
    ensures steps { IfOk result (λ steps. steps.items
        ≡ ready_list (setting machine.now) (config L.lists machine.now)) }
    ensures still { IfOk result (λ steps. steps.items ≡ []
        → IsStill (protocol_of machine.now.table)
        (abstraction (protocol_of machine.now.table) (config L.lists machine.now))) }
{
    no_new_deadlock_of(machine);
    let mut steps = Vec::new(alloc);
    fill(machine, &mut steps)?;
    Ok(steps)
}
