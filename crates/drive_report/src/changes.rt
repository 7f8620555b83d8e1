//! What a step can change of the steps that are enabled.

ghost use Rattle.std.specs.Prelude.{◌≡◌};
ghost use Rattle.drive_report.specs.Changes as changes;

use crate::forms::Form;
use async_machine::Step;

/// Which steps of a form another step can enable or disable.
#[derive(Clone, Copy)]
pub(crate) enum Change {
    Nothing,
    /// The one with this number alone.
    One(u32),
    All,
}

impl Form {
    // What a step of the home can change that names this remote, if any: on its link it may put a
    // packet.
    fn changed_at_home(self, partner: Option<u32>) -> Change
        ensures { result ≡ changes.changed_at_home partner self }
    {
        match self {
            Form::HomeTau | Form::HomeTake | Form::HomeSend(_) | Form::HomeDrop => Change::All,
            Form::RemoteTau(_)
            | Form::RemoteSend
            | Form::RemoteAnswer
            | Form::RemoteReply
            | Form::Up => Change::Nothing,
            Form::Down => match partner {
                Some(j) => Change::One(j),
                None => Change::Nothing,
            },
        }
    }

    // What the arrival of a packet of remote j at the home can change: a nack may go to any remote.
    fn changed_from(self, j: u32) -> Change
        ensures { result ≡ changes.changed_from j self }
    {
        match self {
            Form::HomeTau | Form::HomeTake | Form::HomeSend(_) | Form::HomeDrop | Form::Down =>
                Change::All,
            Form::RemoteTau(_) | Form::RemoteSend | Form::RemoteAnswer | Form::RemoteReply => {
                Change::Nothing
            }
            Form::Up => Change::One(j),
        }
    }

    // What a step at remote j can change.
    fn changed_by_remote(self, j: u32) -> Change
        ensures { result ≡ changes.changed_by_remote j self }
    {
        match self {
            Form::HomeTau | Form::HomeTake | Form::HomeSend(_) | Form::HomeDrop => Change::Nothing,
            Form::RemoteTau(i) if i == j => Change::All,
            Form::RemoteTau(_) => Change::Nothing,
            Form::RemoteSend | Form::RemoteAnswer | Form::RemoteReply | Form::Up | Form::Down =>
                Change::One(j),
        }
    }
}

/// What the step can change of a form.
pub(crate) fn change_of(step: Step, form: Form) -> Change
    ensures { result ≡ changes.change_of step form }
{
    match step {
        Step::HomeTau(_) => form.changed_at_home(None),
        Step::HomeTake(j) | Step::HomeSend(_, j) | Step::HomeDrop(j) => {
            form.changed_at_home(Some(j))
        }
        Step::Up(j) => form.changed_from(j),
        Step::RemoteTau(j, _)
        | Step::RemoteSend(j)
        | Step::RemoteAnswer(j)
        | Step::RemoteReply(j)
        | Step::Down(j) => form.changed_by_remote(j),
    }
}
