//! A command that reads the protocol file alone, and how it is run.

ghost use Rattle.std.specs.Prelude.{◌≡◌, ◌+◌, true, IfOk, IfSome};
ghost use Rattle.std.specs.Io.KnownBytes.{IsAtEnd};
ghost use Rattle.proto_model.specs.Tokens.{Text};
ghost use Rattle.rv_base.specs.Outside.{RisesWhere, MayRise};
ghost use Rattle.rv_base.specs.Whole.{TakesAtMost};
ghost use Rattle.rvc_top.specs.Commands.{RepliesToFile, done};
ghost use Rattle.rvc_top.specs.FileRead.{reading_failed, reading_wants};
ghost use Rattle.rvc_top.specs.Forms.{IsForm};
ghost use Rattle.rvc_top.specs.Reply.{IsReplyTo, FileDecides};
ghost use Rattle.rvc_top.specs.Runs.{IsRun, seen_source, seen_sink, unseen};

use crate::Status;
use crate::file::{FileRead, FromFile};
use crate::reply::{Failure, Reply, finish};
use rv_base::{NoMemory, Sink, Source};
use std::alloc::Global;

/// A command that reads the protocol file alone, and writes a text of the value that it holds.
pub trait FileCommand {
    /// What the command takes the file for.
    type Value: FromFile;

    /// What is true of the numbers among the words of the command.
    ghost Numbers: { Self → Type 0 };

    /// The text with which the command is done.
    ghost text: { Self → Self.Value → Text };

    /// The text of this value.
    fn text(&self, alloc: Global, value: &Self::Value) -> Result<Vec<u8>, NoMemory>
        requires { Numbers self.now }
        ensures { IfOk result (λ bytes. bytes.items ≡ text self.now value.now) };
}

/// Reads the protocol file, and writes the text of the value that it holds, or why it is refused.
/// Answers how the run ends. No schedule is read.
pub fn run_file_command<T: FileCommand, P: Source, O: Sink>(
    alloc: Global,
    command: &T,
    file: &mut P,
    out: &mut O,
) -> Status
    requires form { IsForm T.Value.form }
    requires numbers { T.Numbers command.now }
    ensures { IsRun (RepliesToFile T.Value T.Value.form (λ value. done (T.text command.now value)))
        (seen_source P.left P.faults P.wants P.ended file.old file.new) unseen
        (seen_sink O.taken O.faults O.wants out.old out.new) result }
{
    finish(out, reply(alloc, command, file))
}

// What is replied to the protocol file: the text of the value that it holds, or why it is refused.
fn reply<T: FileCommand, P: Source>(
    alloc: Global,
    command: &T,
    file: &mut P,
) -> Result<Reply, Failure>
    requires { T.Numbers command.now }
    ensures says { IfSome (P.left file.old) (λ f. IfOk result (IsReplyTo
        (RepliesToFile T.Value T.Value.form (λ value. done (T.text command.now value))) f)) }
    ensures status { IfOk result (λ reply. FileDecides reply.status) }
    ensures end { IfOk result (λ reply. reply.status ≡ Status.Done
        → IsAtEnd (P.left file.new) × (P.ended file.new ≡ true)) }
    ensures taken { TakesAtMost (T.Value.form.limit + 1)
        (P.left file.old) (P.left file.new) }
    ensures count { RisesWhere (reading_failed result) (P.faults file.old) (P.faults file.new) }
    ensures wants { MayRise (reading_wants result) (P.wants file.old) (P.wants file.new) }
{
    match <T::Value as FromFile>::from_file(alloc, file)? {
        FileRead::Holds(value) => Ok(Reply {
            status: Status::Done,
            text: command.text(alloc, &value)?,
        }),
        FileRead::Refused(text) => Ok(refusal(text)),
    }
}

/// The reply that the file is refused, as this text says.
pub fn refusal(text: Vec<u8>) -> Reply
    ensures status { result.status ≡ Status.FileRefused }
    ensures text { result.text ≡ text }
{
    Reply {
        status: Status::FileRefused,
        text,
    }
}
