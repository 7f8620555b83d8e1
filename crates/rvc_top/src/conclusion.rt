//! How a run ends by how its replay ended.

ghost use Rattle.std.specs.Prelude.{◌≡◌, not, ◌&&◌, IfOk};
ghost use Rattle.rv_base.specs.Outside.{RisesWhere, MayRise};
ghost use Rattle.schedule_replay.specs.Replayed.{replay_write_failed};
ghost use Rattle.rvc_top.specs.Texts.{bad_line_text};
ghost use Rattle.rvc_top.specs.Endings.{kind_of, run_write_failed, run_wants};
ghost use Rattle.rvc_top.specs.Reply.{Delivers, Concludes};

use crate::Status;
use crate::reply::deliver;
use rv_base::{NoMemory, Sink};
use schedule_replay::Replayed;
use std::alloc::Global;

const TOO_MANY: &[u8] = b"error schedule too long\n";

/// How the run ends whose replay ended so. Where the schedule is refused, says so in `out`.
pub fn conclude<O: Sink>(alloc: Global, replayed: Replayed, out: &mut O) -> Status
    ensures bytes { Concludes (O.taken out.old) (O.taken out.new) replayed result }
    ensures counts { RisesWhere
        (not (replay_write_failed replayed) && run_write_failed (kind_of result))
        (O.faults out.old) (O.faults out.new) }
    ensures wants { MayRise (run_wants (kind_of result)) (O.wants out.old) (O.wants out.new) }
{
    match replayed {
        Replayed::Done => Status::Done,
        Replayed::BadLine(line) => refuse_line(alloc, line, out),
        Replayed::TooManyLines => deliver(out, Status::ScheduleRefused, TOO_MANY),
        Replayed::ClaimBroken(_) => Status::ClaimBroken,
        Replayed::ReadFault => Status::ReadFault,
        Replayed::WriteFault => Status::WriteFault,
        Replayed::NoMemory => Status::NoMemory,
    }
}

// Writes that the line is refused.
fn refuse_line<O: Sink>(alloc: Global, line: u32, out: &mut O) -> Status
    ensures bytes { Delivers (O.taken out.old) (O.taken out.new)
        (bad_line_text line) Status.ScheduleRefused result }
    ensures counts { RisesWhere (run_write_failed (kind_of result))
        (O.faults out.old) (O.faults out.new) }
    ensures wants { MayRise (run_wants (kind_of result)) (O.wants out.old) (O.wants out.new) }
{
    match bad_line(alloc, line) {
        Ok(text) => deliver(out, Status::ScheduleRefused, &text),
        Err(NoMemory) => Status::NoMemory,
    }
}

// The text for a schedule whose line with this number is malformed or too long.
fn bad_line(alloc: Global, line: u32) -> Result<Vec<u8>, NoMemory>
    ensures { IfOk result (λ text. text.items ≡ bad_line_text line) }
{
    let text = format!(in alloc; "error schedule line {line}\n")?;
    Ok(text.into_bytes())
}
