//! The call that does all that the program does.

ghost use Rattle.std.specs.Prelude.{◌≡◌, ◌≤◌, ◌⊎◌, ℕ, true, List, map, string_bytes, IfSome, Some};
ghost use Rattle.std.specs.Prelude.{None, ◌++◌};
ghost use Rattle.std.specs.Io.KnownBytes.{IsAtEnd};
ghost use Rattle.std.specs.List.{AllByRecursion};
ghost use Rattle.rv_base.specs.Outside.{RisesWhere, Rose};
ghost use Rattle.rv_base.specs.Whole.{TakesAtMost};
ghost use Rattle.proto_model.specs.Tokens.{Text};
ghost use Rattle.proto_model.specs.Numbered.{CheckedProtocol};
ghost use Rattle.proto_model.specs.declared.mode.Mode.{Mode as AMode};
ghost use Rattle.async_shape.specs.Run.{run as async_run};
ghost use Rattle.async_shape.specs.declared.step.Step.{Step};
ghost use Rattle.async_shape.specs.Config.{start};
ghost use Rattle.abstraction_map.specs.Abstraction.{abstraction};
ghost use Rattle.abstraction_map.specs.Meant.{IsRefined};
ghost use Rattle.drive_report.specs.Drive.{drive_run};
ghost use Rattle.drive_report.specs.Ready.{IsStill};
ghost use Rattle.async_shape.specs.Run.{config_at_end};
ghost use Rattle.run_replay.specs.RunTrace.{run_start};
ghost use Rattle.rvc_top.specs.Words.{meaning};
ghost use Rattle.rvc_top.specs.Commands.{asked, describe, driven_setting};
ghost use Rattle.rvc_top.specs.declared.command.Driving.{Driving as ADriving};
ghost use Rattle.rvc_top.specs.Forms.{checked_form};
ghost use Rattle.rvc_top.specs.Stores.{image_form};
ghost use Rattle.rvc_top.specs.declared.boot.Booted.{Booted as ABooted};
ghost use Rattle.rvc_top.specs.Verdict.{Verdict};
ghost use Rattle.rvc_top.specs.Endings.{ReadsFile, ReadsSchedule, NeedsNoSchedule, WhereTold};
ghost use Rattle.rvc_top.specs.Endings.{most_of_file, most_of_schedule, DecidesSchedule};
ghost use Rattle.rvc_top.specs.Endings.{Ends, FaultLeaves, FaultIsOf, AnswersOrFails, Answers};
ghost use Rattle.rvc_top.specs.Endings.{IsDecided, IsOfSchedule, kind_of, run_write_failed};
ghost use Rattle.rvc_top.specs.Runs.{IsRun, seen_source, seen_sink};
ghost use Rattle.rvc_top.specs.ShownRuns.{IsShownOfFile, IsShownOfImage};

use crate::example::example_text;
use crate::file_command::run_file_command;
use crate::file_commands::{Check, Print, TableJson, TableText};
use crate::reply::deliver;
use crate::schedule_command::run_schedule_command;
use crate::schedule_commands::{Audit, Boot, Lines, Lossy, Run, Rv};
use crate::store::StoreImage;
use crate::{Command, Status, words_mean};
use rv_base::{Sink, Source};
use std::alloc::Global;

const USAGE: &[u8] = b"error usage\n";

/// Does what the words after the program's name ask. `words` are these words, `file` is the
/// protocol file, or the control store where the command takes one, and `schedule` the standard
/// input, which is a schedule or a trace: of the two those are read that the command uses, the file
/// first, and the schedule behind it line by line. The text of the command is written to `out`, or
/// the one that says why the words, the file or the schedule is refused. Answers how the run ends;
/// the number of the answer is the program's exit status.
pub fn rvc<P: Source, Q: Source, O: Sink>(
    alloc: Global,
    words: &[String],
    file: &mut P,
    schedule: &mut Q,
    out: &mut O,
) -> Status
    // Where the sink tells its bytes, and so does each source that the command reads, but for the
    // schedule where the file is refused or a claim is broken before the first line: after Done,
    // Usage, FileRefused, ScheduleRefused and ClaimBroken that is the status of the verdict, and
    // its text is written. Done is answered for `rv`, `run` and `boot` where the whole schedule is
    // played and no claim is broken, and ClaimBroken exactly where one is, at the start or after a
    // line, and no line before is refused; `lossy` and `lines` look at no claim. `audit` answers
    // Done where the trace is accepted, and ScheduleRefused where a line of it isn't. After a write
    // fault or want of memory a front of the verdict's text is written. After a read fault of the
    // file nothing is; after one of the schedule, which comes only where the file is well-formed,
    // or is a control store, the blocks of the lines whose LF was taken, none of which is refused
    // and after none of which a claim is broken; for `audit` nothing.
    ensures bytes { WhereTold (asked words.now) (P.left file.old) (Q.left schedule.old)
        (λ f s. IfSome (O.taken out.old) (λ taken. Ends (Verdict words.now f s)
        (FaultLeaves (asked words.now) (P.faults file.old) (P.faults file.new)
        f s (Q.left schedule.new) taken (O.taken out.new))
        taken (O.taken out.new) result)) }

    // The verdict's status is answered, but for a fault or want of memory; where no count of a
    // source that the command uses rose, nor that of the sink, but for want of memory alone. So
    // where the file is well-formed and no line of the schedule is refused, it is Done, or
    // ClaimBroken exactly where a claim is broken, or NoMemory.
    ensures exact { WhereTold (asked words.now) (P.left file.old) (Q.left schedule.old)
        (λ f s. AnswersOrFails (Verdict words.now f s) result) }
    ensures complete { (ReadsFile (asked words.now)
        → Rose (P.faults file.old) (P.faults file.new) → ⊥)
        → (ReadsSchedule (asked words.now)
        → Rose (Q.faults schedule.old) (Q.faults schedule.new) → ⊥)
        → (Rose (O.faults out.old) (O.faults out.new) → ⊥)
        → WhereTold (asked words.now) (P.left file.old) (Q.left schedule.old)
        (λ f s. Answers (Verdict words.now f s) result) }

    // Usage comes exactly where the words have no form.
    ensures usage { result ≡ Status.Usage → meaning (map string_bytes words.now) ≡ None }
    ensures no_form { meaning (map string_bytes words.now) ≡ None
        → (result ≡ Status.Usage) ⊎ (result ≡ Status.WriteFault) ⊎ (result ≡ Status.NoMemory) }

    // A fault is answered only where the count of its source or sink rose. One of the file comes
    // before the schedule is read and before anything is written. No count of faults falls; those
    // of the sources stay where no read fault is answered, and the sink's where no write fault is.
    ensures read_fault { result ≡ Status.ReadFault → FaultIsOf (asked words.now)
        (P.faults file.old) (P.faults file.new) (Q.faults schedule.old) (Q.faults schedule.new)
        ((schedule.new ≡ schedule.old) × (O.taken out.new ≡ O.taken out.old)) }
    ensures file_count { P.faults file.old ≤ P.faults file.new }
    ensures schedule_count { Q.faults schedule.old ≤ Q.faults schedule.new }
    ensures reads_stay { (result ≡ Status.ReadFault → ⊥)
        → (P.faults file.new ≡ P.faults file.old)
        × (Q.faults schedule.new ≡ Q.faults schedule.old) }
    ensures write_count { RisesWhere (run_write_failed (kind_of result))
        (O.faults out.old) (O.faults out.new) }

    // Where NoMemory isn't answered, no call on a source or on the sink had no memory: so none that
    // had none is made again, or taken for a read at the end or a write that took all, and none is
    // taken for a fault.
    ensures wants { (result ≡ Status.NoMemory → ⊥)
        → (P.wants file.new ≡ P.wants file.old)
        × (Q.wants schedule.new ≡ Q.wants schedule.old)
        × (O.wants out.new ≡ O.wants out.old) }

    // Where a count of the file changed, since a read of it failed or had no memory, the run ends
    // there, whether schedule and sink tell their bytes or not: nothing is asked of the schedule,
    // and nothing is given to the sink.
    ensures file_stops { ((P.faults file.new ≡ P.faults file.old)
        × (P.wants file.new ≡ P.wants file.old) → ⊥)
        → (schedule.new ≡ schedule.old) × (out.new ≡ out.old) }

    // The file is as it was where the command doesn't read it. Where a command that reads it is
    // done, its last read answered that nothing is left. No more than one byte past the limit is
    // taken.
    ensures unread { (ReadsFile (asked words.now) → ⊥) → file.new ≡ file.old }
    ensures end { result ≡ Status.Done → ReadsFile (asked words.now)
        → IsAtEnd (P.left file.new) × (P.ended file.new ≡ true) }
    ensures taken { TakesAtMost (most_of_file (asked words.now)) (P.left file.old)
        (P.left file.new) }

    // The schedule is as it was where the command doesn't read it; and, whatever is answered, where
    // the file is refused, and where a claim of the file is broken before the first line. Where a
    // command that reads it is done, its last read answered that nothing is left. Where it is
    // decided in the schedule how the run ends, few bytes past the one that decides so were taken,
    // and never more than its limits allow and 256.
    ensures unused { (ReadsSchedule (asked words.now) → ⊥) → schedule.new ≡ schedule.old }
    ensures file_first { result ≡ Status.FileRefused → schedule.new ≡ schedule.old }
    ensures unasked { IfSome (P.left file.old) (λ f.
        NeedsNoSchedule (asked words.now) f → schedule.new ≡ schedule.old) }
    ensures schedule_end { result ≡ Status.Done → ReadsSchedule (asked words.now)
        → IsAtEnd (Q.left schedule.new) × (Q.ended schedule.new ≡ true) }
    ensures schedule_decided { IsOfSchedule result → DecidesSchedule (asked words.now)
        (P.left file.old) (Q.left schedule.old) (Q.left schedule.new) result }
    ensures schedule_taken { TakesAtMost (most_of_schedule (asked words.now))
        (Q.left schedule.old) (Q.left schedule.new) }

    // What `run` shows, in one statement. Where the file, the schedule and the sink tell their
    // bytes, the run is decided and the file isn't refused: the file spells a well-formed protocol;
    // the lines of the schedule up to what stops it say steps; what is written are the blocks of
    // these steps, one after another from the start, and the last text, or the error text where the
    // schedule is refused; and the block of each step says that it is refused exactly where the
    // controllers can't take it, or an event that is one rendezvous step from what they stand for
    // before to what they stand for after, or that it is a stutter, and they stand for the same.
    // And so it is of `boot`, for the protocol and the mode of the control store that the file is.
    ensures shows { (n k : ℕ) (mode : AMode) (f s old : Text)
        → meaning (map string_bytes words.now) ≡ Some (Command.Run n k mode)
        → P.left file.old ≡ Some f → Q.left schedule.old ≡ Some s → O.taken out.old ≡ Some old
        → IsDecided result → (result ≡ Status.FileRefused → ⊥)
        → (text : Text) × (O.taken out.new ≡ Some (old ++ text))
        × IsShownOfFile n k mode f s result text }
    ensures boot_shows { (n k : ℕ) (f s old : Text)
        → meaning (map string_bytes words.now) ≡ Some (Command.Boot n k)
        → P.left file.old ≡ Some f → Q.left schedule.old ≡ Some s → O.taken out.old ≡ Some old
        → IsDecided result → (result ≡ Status.FileRefused → ⊥)
        → (text : Text) × (O.taken out.new ≡ Some (old ++ text))
        × IsShownOfImage n k f s result text }

    // What `run` shows is a refinement. Whatever steps are taken from the start of the controllers
    // that it runs, each configuration in which they stand means one of the rendezvous meaning of
    // the file's protocol, with its idle processes as they are; and each step there is told as
    // refused exactly where it isn't enabled, or as an event that is one rendezvous step from what
    // the configuration before means to what the one after means, or as a stutter, and both mean
    // the same.
    ensures refines { (n k : ℕ) (mode : AMode) (f : Text) (checked : CheckedProtocol)
        → meaning (map string_bytes words.now) ≡ Some (Command.Run n k mode)
        → checked_form.Holds f checked
        → (steps : List Step) → AllByRecursion (IsRefined (run_start checked mode n k).setting)
        (async_run (run_start checked mode n k).setting (run_start checked mode n k).config steps) }

    // And so is what `boot` shows, for the protocol and the mode of the control store that the file
    // is.
    ensures boot_refines { (n k : ℕ) (f : Text) (booted : ABooted)
        → meaning (map string_bytes words.now) ≡ Some (Command.Boot n k)
        → image_form.Holds f booted
        → (steps : List Step)
        → AllByRecursion (IsRefined (run_start booted.checked booted.mode n k).setting)
        (async_run (run_start booted.checked booted.mode n k).setting
        (run_start booted.checked booted.mode n k).config steps) }

    // Where `drive` writes `stopped yes`, the run stopped before its last turn, since no step was
    // enabled; and then no event takes place either in what its last configuration means.
    ensures still { (d : ADriving) (f : Text) (checked : CheckedProtocol)
        → meaning (map string_bytes words.now) ≡ Some (Command.Drive d)
        → checked_form.Holds f checked
        → (drive_run (driven_setting d checked) d.remotes d.turns d.seed).stopped ≡ true
        → IsStill checked.protocol (abstraction checked.protocol
        (config_at_end (driven_setting d checked) (start checked.protocol d.remotes)
        (drive_run (driven_setting d checked) d.remotes d.turns d.seed).steps)) }
{
    carry_out(alloc, words_mean(words), file, schedule, out)
}

// Does what the command asks; without one, says that the words have no form.
fn carry_out<P: Source, Q: Source, O: Sink>(
    alloc: Global,
    command: Option<Command>,
    file: &mut P,
    schedule: &mut Q,
    out: &mut O,
) -> Status
    requires { (describe command).Numbers }
    ensures { IsRun (describe command).task
        (seen_source P.left P.faults P.wants P.ended file.old file.new)
        (seen_source Q.left Q.faults Q.wants Q.ended schedule.old schedule.new)
        (seen_sink O.taken O.faults O.wants out.old out.new) result }
{
    match command {
        None => deliver(out, Status::Usage, USAGE),
        Some(Command::Print) => run_file_command(alloc, &Print, file, out),
        Some(Command::Check) => run_file_command(alloc, &Check, file, out),
        Some(Command::Rv(n)) => run_schedule_command(alloc, &Rv(n), file, schedule, out),
        Some(Command::Run(n, k, mode)) => {
            run_schedule_command(alloc, &Run(n, k, mode), file, schedule, out)
        }
        Some(Command::Drive(driving)) => run_file_command(alloc, &driving, file, out),
        Some(Command::Lossy(n, k, mode)) => {
            run_schedule_command(alloc, &Lossy(n, k, mode), file, schedule, out)
        }
        Some(Command::Store(mode)) => run_file_command(alloc, &StoreImage(mode), file, out),
        Some(Command::Boot(n, k)) => {
            run_schedule_command(alloc, &Boot(n, k), file, schedule, out)
        }
        Some(Command::Audit(n)) => run_schedule_command(alloc, &Audit(n), file, schedule, out),
        Some(Command::Lines(n, k, mode, lines)) => {
            run_schedule_command(alloc, &Lines(n, k, mode, lines), file, schedule, out)
        }
        Some(Command::TableText(mode)) => run_file_command(alloc, &TableText(mode), file, out),
        Some(Command::TableJson(mode)) => run_file_command(alloc, &TableJson(mode), file, out),
        Some(Command::Example(which)) => deliver(out, Status::Done, example_text(which)),
    }
}
