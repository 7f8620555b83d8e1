//! The kinds of step, with all their numbers but the last.

ghost use Rattle.std.specs.Prelude.{◌≡◌};
ghost use Rattle.drive_report.specs.Forms as forms;

use async_machine::Step;

/// A kind of step that wants one number more: of a guard where it is a local step, and else of a
/// remote.
#[derive(Clone, Copy)]
pub(crate) enum Form {
    HomeTau,
    HomeTake,
    HomeSend(u32),
    HomeDrop,
    RemoteTau(u32),
    RemoteSend,
    RemoteAnswer,
    RemoteReply,
    Up,
    Down,
}

impl Form {
    /// The step with this number.
    pub(crate) fn step(self, number: u32) -> Step
        ensures { result ≡ forms.step_of self number }
    {
        match self {
            Form::HomeTau => Step::HomeTau(number),
            Form::HomeTake => Step::HomeTake(number),
            Form::HomeSend(g) => Step::HomeSend(g, number),
            Form::HomeDrop => Step::HomeDrop(number),
            Form::RemoteTau(j) => Step::RemoteTau(j, number),
            Form::RemoteSend => Step::RemoteSend(number),
            Form::RemoteAnswer => Step::RemoteAnswer(number),
            Form::RemoteReply => Step::RemoteReply(number),
            Form::Up => Step::Up(number),
            Form::Down => Step::Down(number),
        }
    }
}

/// A kind of step that has two numbers.
#[derive(Clone, Copy)]
pub(crate) enum Pair {
    HomeSend,
    RemoteTau,
}

impl Pair {
    /// The kind with this first number.
    pub(crate) fn form(self, first: u32) -> Form
        ensures { result ≡ forms.form_of self first }
    {
        match self {
            Pair::HomeSend => Form::HomeSend(first),
            Pair::RemoteTau => Form::RemoteTau(first),
        }
    }
}
