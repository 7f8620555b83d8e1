//! Forms of which no step is enabled, found without asking each step: those at a home that waits,
//! sends by a guard that is no output, and local steps of a remote that isn't idle.

ghost use Rattle.std.specs.Prelude.{◌≡◌, ℕ, true, false};
ghost use Rattle.controller_table.specs.Sound.{protocol_of};
ghost use Rattle.async_shape.specs.Next.{is_enabled};
ghost use Rattle.async_shape.specs.declared.step.Step.TheVariants as step;
ghost use Rattle.async_machine.specs.Standing.{setting, config};
ghost use Rattle.drive_report.specs.Forms.{step_of};
ghost use Rattle.drive_report.specs.Rows as rows;

use crate::forms::Form;
use async_machine::{HomePlace, Machine};
use controller_table::Place;
use ordered_links::Links;
use proto_model::{Body, guard_at, is_output};

// The steps of this form take place at the home, and take no packet.
fn is_at_home(form: Form) -> bool
    ensures { result ≡ rows.is_at_home form }
{
    matches!(
        form,
        Form::HomeTau | Form::HomeTake | Form::HomeSend(_) | Form::HomeDrop
    )
}

// Guard g of the state is an output.
fn is_output_at(body: &Body, state: u8, g: u32) -> bool
    ensures { result ≡ rows.is_output_at body.now state g }
{
    match guard_at(body, state, g as usize) {
        Some(rule) => is_output(rule),
        None => false,
    }
}

// Guard g of the home's state is an output.
fn home_gives<L: Links>(machine: &Machine<L>, state: u8, g: u32) -> bool
    ensures { result ≡ rows.is_output_at (protocol_of machine.now.table).home state g }
{
    is_output_at(&machine.table().home().body, state, g)
}

// The home waits, or guard g of its state is no output.
fn gives_nothing<L: Links>(machine: &Machine<L>, g: u32) -> bool
    ensures { result ≡ true → (j : ℕ)
        → is_enabled (setting machine.now) (config L.lists machine.now) (step.HomeSend g j)
        ≡ false }
{
    match machine.home_at() {
        HomePlace::Idle(state) => !home_gives(machine, state, g),
        HomePlace::Waits(_) => true,
    }
}

// The home waits, and the steps of this form are its own.
fn waits<L: Links>(machine: &Machine<L>, form: Form) -> bool
    ensures { result ≡ true → (b : ℕ)
        → is_enabled (setting machine.now) (config L.lists machine.now) (step_of form b)
        ≡ false }
{
    match machine.home_at() {
        HomePlace::Idle(_) => false,
        HomePlace::Waits(_) => is_at_home(form),
    }
}

// Remote j is there, and isn't idle.
fn is_busy<L: Links>(machine: &Machine<L>, j: u32) -> bool
    ensures { result ≡ true → (g : ℕ)
        → is_enabled (setting machine.now) (config L.lists machine.now) (step.RemoteTau j g)
        ≡ false }
{
    if j >= u32::from(machine.n()) {
        return false;
    }
    match machine.remote_place(j as u8) {
        Place::Comm(_) => false,
        Place::Trans(_) => true,
        Place::Due(_) => true,
    }
}

/// Whether it is seen at once that no step of this form is enabled.
pub(crate) fn is_silent<L: Links>(machine: &Machine<L>, form: Form) -> bool
    ensures { result ≡ true → (b : ℕ)
        → is_enabled (setting machine.now) (config L.lists machine.now) (step_of form b)
        ≡ false }
{
    match form {
        Form::HomeSend(g) => gives_nothing(machine, g),
        Form::RemoteTau(j) => is_busy(machine, j),
        Form::HomeTau
        | Form::HomeTake
        | Form::HomeDrop
        | Form::RemoteSend
        | Form::RemoteAnswer
        | Form::RemoteReply
        | Form::Up
        | Form::Down => waits(machine, form),
    }
}
