//! The commands that read the protocol file and then replay a schedule, and how each does.

ghost use Rattle.std.specs.Prelude.{◌≡◌, ◌≤◌, IfOk};
ghost use Rattle.schedule_replay.specs.ScheduleLimits.{schedule_limits};
ghost use Rattle.rvc_top.specs.Commands.{run_replay};
ghost use Rattle.rvc_top.specs.Reply.{RepliesToAudit};
ghost use Rattle.rvc_top.specs.Texts.{audit_ok_text, bad_trace_text};
ghost use Rattle.rvc_top.specs.Runs.{IsReplay, seen_source, seen_sink};

use crate::Status;
use crate::boot::Booted;
use crate::conclusion::conclude;
use crate::reply::{Failure, Reply, finish};
use crate::schedule_command::ScheduleCommand;
use proto_model::Mode;
use rv_base::{NoMemory, Sink, Source};
use schedule_replay::replay_events;
use star_check::Checked;
use std::alloc::Global;
use trace_audit::{Audited, audit};

/// The trace of a schedule of events on the rendezvous meaning of the protocol with so many
/// remotes.
#[derive(Clone, Copy)]
pub struct Rv(pub u8);

impl ScheduleCommand for Rv {
    ghost use Rattle.std.specs.Prelude.{◌≤◌};
    ghost use Rattle.schedule_replay.specs.ScheduleLimits.{schedule_limits};
    ghost use Rattle.rvc_top.specs.Commands.{rv_replay};

    type Value = Checked;

    ghost Numbers = { λ command. (1 ≤ command.0) × (command.0 ≤ 64) };

    ghost limits = { schedule_limits };

    ghost replayed = { λ command. rv_replay command.0 };

    fn replay<Q: Source, O: Sink>(
        &self,
        alloc: Global,
        checked: &Checked,
        schedule: &mut Q,
        out: &mut O,
    ) -> Status {
        let replayed = replay_events(alloc, checked, self.0, schedule, out);
        conclude(alloc, replayed, out)
    }
}

/// The trace of a schedule of steps on the two controllers of the protocol with so many remotes and
/// so many slots, in this mode.
#[derive(Clone, Copy)]
pub struct Run(pub u8, pub u8, pub Mode);

impl ScheduleCommand for Run {
    ghost use Rattle.std.specs.Prelude.{◌≤◌};
    ghost use Rattle.schedule_replay.specs.ScheduleLimits.{schedule_limits};
    ghost use Rattle.rvc_top.specs.Commands.{run_replay};

    type Value = Checked;

    ghost Numbers = { λ command.
        ((1 ≤ command.0) × (command.0 ≤ 64)) × ((2 ≤ command.1) × (command.1 ≤ 64)) };

    ghost limits = { schedule_limits };

    ghost replayed = { λ command. run_replay command.0 command.1 command.2 };

    fn replay<Q: Source, O: Sink>(
        &self,
        alloc: Global,
        checked: &Checked,
        schedule: &mut Q,
        out: &mut O,
    ) -> Status {
        replay_run(alloc, checked, self.0, self.1, self.2, schedule, out)
    }
}

// Replays the schedule on the two controllers of the protocol in this mode, with n remotes and k
// slots.
fn replay_run<Q: Source, O: Sink>(
    alloc: Global,
    checked: &Checked,
    n: u8,
    k: u8,
    mode: Mode,
    schedule: &mut Q,
    out: &mut O,
) -> Status
    requires remotes { (1 ≤ n) × (n ≤ 64) }
    requires slots { (2 ≤ k) × (k ≤ 64) }
    ensures { IsReplay (run_replay n k mode checked.now) schedule_limits
        (seen_source Q.left Q.faults Q.wants Q.ended schedule.old schedule.new)
        (seen_sink O.taken O.faults O.wants out.old out.new) result }
{
    let replayed = run_replay::replay(alloc, checked, mode, n, k, schedule, out);
    conclude(alloc, replayed, out)
}

/// The trace of a schedule of steps and of moves of the network on the two controllers of the
/// protocol with so many remotes and so many slots, in this mode, over links that lose, repeat and
/// reorder.
#[derive(Clone, Copy)]
pub struct Lossy(pub u8, pub u8, pub Mode);

impl ScheduleCommand for Lossy {
    ghost use Rattle.std.specs.Prelude.{◌≤◌};
    ghost use Rattle.schedule_replay.specs.ScheduleLimits.{schedule_limits};
    ghost use Rattle.rvc_top.specs.Commands.{lossy_replay};

    type Value = Checked;

    ghost Numbers = { λ command.
        ((1 ≤ command.0) × (command.0 ≤ 64)) × ((2 ≤ command.1) × (command.1 ≤ 64)) };

    ghost limits = { schedule_limits };

    ghost replayed = { λ command. lossy_replay command.0 command.1 command.2 };

    fn replay<Q: Source, O: Sink>(
        &self,
        alloc: Global,
        checked: &Checked,
        schedule: &mut Q,
        out: &mut O,
    ) -> Status {
        let replayed = lossy_replay::replay(alloc, checked, self.2, self.0, self.1, schedule, out);
        conclude(alloc, replayed, out)
    }
}

/// The trace of a schedule of steps on the two controllers of the protocol with so many remotes and
/// so many slots, in this mode, for so many cache lines over the same links.
#[derive(Clone, Copy)]
pub struct Lines(pub u8, pub u8, pub Mode, pub u8);

impl ScheduleCommand for Lines {
    ghost use Rattle.std.specs.Prelude.{◌≤◌};
    ghost use Rattle.schedule_replay.specs.ScheduleLimits.{schedule_limits};
    ghost use Rattle.rvc_top.specs.Commands.{array_replay};

    type Value = Checked;

    ghost Numbers = { λ command.
        (((1 ≤ command.0) × (command.0 ≤ 64)) × ((2 ≤ command.1) × (command.1 ≤ 64)))
        × ((1 ≤ command.3) × (command.3 ≤ 16)) };

    ghost limits = { schedule_limits };

    ghost replayed = { λ command. array_replay command.0 command.1 command.2 command.3 };

    fn replay<Q: Source, O: Sink>(
        &self,
        alloc: Global,
        checked: &Checked,
        schedule: &mut Q,
        out: &mut O,
    ) -> Status {
        let replayed = array_replay::replay(
            alloc, checked, self.2, self.0, self.1, self.3, schedule, out,
        );
        conclude(alloc, replayed, out)
    }
}

/// What `Run` does, for the protocol and the mode of a control store.
#[derive(Clone, Copy)]
pub struct Boot(pub u8, pub u8);

impl ScheduleCommand for Boot {
    ghost use Rattle.std.specs.Prelude.{◌≤◌};
    ghost use Rattle.schedule_replay.specs.ScheduleLimits.{schedule_limits};
    ghost use Rattle.rvc_top.specs.Commands.{boot_replay};

    type Value = Booted;

    ghost Numbers = { λ command.
        ((1 ≤ command.0) × (command.0 ≤ 64)) × ((2 ≤ command.1) × (command.1 ≤ 64)) };

    ghost limits = { schedule_limits };

    ghost replayed = { λ command. boot_replay command.0 command.1 };

    fn replay<Q: Source, O: Sink>(
        &self,
        alloc: Global,
        booted: &Booted,
        schedule: &mut Q,
        out: &mut O,
    ) -> Status {
        replay_run(
            alloc,
            &booted.checked,
            self.0,
            self.1,
            booted.mode,
            schedule,
            out,
        )
    }
}

/// What the rendezvous meaning of the protocol with so many remotes says of a trace of `Run`.
#[derive(Clone, Copy)]
pub struct Audit(pub u8);

impl ScheduleCommand for Audit {
    ghost use Rattle.std.specs.Prelude.{◌≤◌};
    ghost use Rattle.trace_audit.specs.AuditedTrace.{audit_limits};
    ghost use Rattle.rvc_top.specs.Commands.{audit_replay};

    type Value = Checked;

    ghost Numbers = { λ command. (1 ≤ command.0) × (command.0 ≤ 64) };

    ghost limits = { audit_limits };

    ghost replayed = { λ command. audit_replay command.0 };

    fn replay<Q: Source, O: Sink>(
        &self,
        alloc: Global,
        checked: &Checked,
        trace: &mut Q,
        out: &mut O,
    ) -> Status {
        let audited = audit(alloc, checked, self.0, trace);
        finish(out, audit_reply(alloc, audited))
    }
}

// What is replied to a trace whose audit ended so.
fn audit_reply(alloc: Global, audited: Audited) -> Result<Reply, Failure>
    ensures { RepliesToAudit audited result }
{
    match audited {
        Audited::Sound(events) => Ok(Reply {
            status: Status::Done,
            text: sound_text(alloc, events)?,
        }),
        Audited::BadLine(line) => Ok(Reply {
            status: Status::ScheduleRefused,
            text: bad_text(alloc, line)?,
        }),
        Audited::ReadFault => Err(Failure::Read),
        Audited::NoMemory => Err(Failure::NoMemory),
    }
}

// The text for a trace that is accepted, which tells of so many events.
fn sound_text(alloc: Global, events: u32) -> Result<Vec<u8>, NoMemory>
    ensures { IfOk result (λ text. text.items ≡ audit_ok_text events) }
{
    let text = format!(in alloc; "audit ok {events}\n")?;
    Ok(text.into_bytes())
}

// The text for a trace whose line with this number is the first that is refused.
fn bad_text(alloc: Global, line: u32) -> Result<Vec<u8>, NoMemory>
    ensures { IfOk result (λ text. text.items ≡ bad_trace_text line) }
{
    let text = format!(in alloc; "error trace line {line}\n")?;
    Ok(text.into_bytes())
}
