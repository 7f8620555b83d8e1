//! A command that reads the protocol file and then replays a schedule, and how it is run.

ghost use Rattle.schedule_replay.specs.declared.limits.Limits.{Limits};
ghost use Rattle.rvc_top.specs.Commands.{Replay, ReplaysSchedule};
ghost use Rattle.rvc_top.specs.Forms.{IsForm};
ghost use Rattle.rvc_top.specs.Runs.{IsRun, IsReplay, seen_source, seen_sink};

use crate::Status;
use crate::file::{FileRead, FromFile};
use crate::file_command::refusal;
use crate::reply::finish;
use rv_base::{Sink, Source};
use std::alloc::Global;

/// A command that reads the protocol file, and then replays a schedule by the value that it holds.
pub trait ScheduleCommand {
    /// What the command takes the file for.
    type Value: FromFile;

    /// What is true of the numbers among the words of the command.
    ghost Numbers: { Self → Type 0 };

    /// How long the schedule and its lines may be.
    ghost limits: { Limits };

    /// What is done with the schedule.
    ghost replayed: { Self → Self.Value → Replay };

    /// Replays the schedule by this value, and answers how the run ends.
    fn replay<Q: Source, O: Sink>(
        &self,
        alloc: Global,
        value: &Self::Value,
        schedule: &mut Q,
        out: &mut O,
    ) -> Status
        requires { Numbers self.now }
        ensures { IsReplay (replayed self.now value.now) limits
            (seen_source Q.left Q.faults Q.wants Q.ended schedule.old schedule.new)
            (seen_sink O.taken O.faults O.wants out.old out.new) result };
}

/// Reads the protocol file, and replays the schedule by the value that it holds, or says why it is
/// refused. Answers how the run ends.
pub fn run_schedule_command<T: ScheduleCommand, P: Source, Q: Source, O: Sink>(
    alloc: Global,
    command: &T,
    file: &mut P,
    schedule: &mut Q,
    out: &mut O,
) -> Status
    requires form { IsForm T.Value.form }
    requires numbers { T.Numbers command.now }
    ensures { IsRun (ReplaysSchedule T.Value T.Value.form T.limits (T.replayed command.now))
        (seen_source P.left P.faults P.wants P.ended file.old file.new)
        (seen_source Q.left Q.faults Q.wants Q.ended schedule.old schedule.new)
        (seen_sink O.taken O.faults O.wants out.old out.new) result }
{
    match <T::Value as FromFile>::from_file(alloc, file) {
        Ok(FileRead::Holds(value)) => command.replay(alloc, &value, schedule, out),
        Ok(FileRead::Refused(text)) => finish(out, Ok(refusal(text))),
        Err(failure) => finish(out, Err(failure)),
    }
}
