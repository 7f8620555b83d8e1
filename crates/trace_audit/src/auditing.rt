//! The loop over the lines of a trace, and how it ends.

ghost use Rattle.std.specs.Prelude.{◌≡◌, ◌≤◌, ◌<◌, ◌+◌, ◌^◌, ℕ, true, false, IfSome};
ghost use Rattle.rv_base.specs.Outside.{RisesWhere, MayRise};
ghost use Rattle.rv_base.specs.Whole.{TakesAtMost};
ghost use Rattle.schedule_replay.specs.ScheduleLimits.{most_taken};
ghost use Rattle.schedule_replay.specs.Reading.{nothing_read};
ghost use Rattle.trace_audit.specs.Auditing.{audit_start};
ghost use Rattle.trace_audit.specs.AuditedTrace.{audit_limits};
ghost use Rattle.trace_audit.specs.Audits.{AuditsSo, audit_failed, audit_wants};
ghost use Rattle.trace_audit.specs.Turns.{auditing_of, count_of, HearsLine, Concludes, HearsNext};

use crate::auditor::Auditor;
use rv_base::Source;
use schedule_replay::{Limits, Lines, NextLine};
use star_check::Checked;
use std::alloc::Global;

/// The limits of a trace: a line of at most 65,536 bytes, and at most 5,000,000 lines.
pub const AUDIT_LIMITS: Limits = Limits {
    line: 65_536,
    lines: 5_000_000,
};

/// How an audit ends.
#[derive(Clone, Copy, Debug, PartialEq, Eq)]
pub enum Audited {
    /// The trace is accepted, and tells of so many events.
    Sound(u32),
    /// The line with this number, counted from 1, is the first that is refused. Where the trace
    /// ends early it is the one behind the last.
    BadLine(u32),
    /// A read of the trace failed. Nothing that was taken is refused.
    ReadFault,
    /// There is no memory: none for a read, or none for a line or what it is compared with.
    NoMemory,
}

// Concludes where no line follows so many.
fn conclude(auditor: &Auditor, got: u32) -> Audited
    requires { got + 1 < 2 ^ 32 }
    ensures { Concludes (auditing_of auditor.now) got result }
{
    if auditor.is_whole() {
        Audited::Sound(auditor.events())
    } else {
        Audited::BadLine(got + 1)
    }
}

// Hears the line that was got, which has this number. Answers how the audit ends, where it ends at
// this line.
fn hear_line(alloc: Global, auditor: &mut Auditor, lines: &Lines, number: u32) -> Option<Audited>
    requires counted { count_of auditor.old.section + 1 < 2 ^ 32 }
    requires events { auditor.old.events + 1 < 2 ^ 32 }
    ensures { HearsLine (auditing_of auditor.old) (auditing_of auditor.new) lines.now number
        result }
{
    if lines.ended() {
        return Some(Audited::BadLine(number));
    }
    match auditor.hear_line(alloc, lines.text()) {
        Ok(true) => None,
        Ok(false) => Some(Audited::BadLine(number)),
        Err(_) => Some(Audited::NoMemory),
    }
}

// Hears what asking for the line after so many answered. Answers how the audit ends, where it does.
fn hear_next(
    alloc: Global,
    limits: Limits,
    auditor: &mut Auditor,
    lines: &Lines,
    got: u32,
    next: NextLine,
) -> Option<Audited>
    requires within { got ≤ limits.lines }
    requires small { limits.lines + 1 < 2 ^ 32 }
    requires counted { count_of auditor.old.section ≤ got }
    requires events { auditor.old.events ≤ got }
    ensures { HearsNext limits (auditing_of auditor.old) (auditing_of auditor.new) lines.now got
        next result }
{
    match next {
        NextLine::Got(number) => hear_line(alloc, auditor, lines, number),
        NextLine::End => Some(conclude(auditor, got)),
        NextLine::TooLong(number) => Some(Audited::BadLine(number)),
        NextLine::TooMany => Some(Audited::BadLine(limits.lines + 1)),
        NextLine::ReadFault => Some(Audited::ReadFault),
        NextLine::NoMemory => Some(Audited::NoMemory),
    }
}

// Audits the lines of a trace, of which none was asked for yet.
fn audit_lines<Q: Source>(
    alloc: Global,
    limits: Limits,
    auditor: &mut Auditor,
    lines: &mut Lines,
    trace: &mut Q,
) -> Audited
    requires small { limits.lines + 1 < 2 ^ 32 }
    requires start { lines.old ≡ nothing_read limits }
    requires counted { count_of auditor.old.section ≡ 0 }
    requires events { auditor.old.events ≡ 0 }
    ensures audits { IfSome (Q.left trace.old) (λ text.
        AuditsSo limits (auditing_of auditor.old) text (Q.left trace.new) result) }
    ensures cause { RisesWhere (audit_failed result) (Q.faults trace.old) (Q.faults trace.new) }
    ensures wants { MayRise (audit_wants result) (Q.wants trace.old) (Q.wants trace.new) }
    ensures taken { TakesAtMost (most_taken limits) (Q.left trace.old) (Q.left trace.new) }
    ensures ended { (events : ℕ) → result ≡ Audited.Sound events → Q.ended trace.new ≡ true }
{
    let mut got = 0;
    loop {
        let asked = lines.next(trace);
        if let Some(answer) = hear_next(alloc, limits, auditor, lines, got, asked) {
            return answer;
        }
        got += 1;
    }
}

/// Audits a trace of `run` for this protocol and n remotes, line by line, with the rendezvous
/// meaning alone. `Sound` comes only where the trace is accepted, with the number of its events,
/// and then it was read to its end; `BadLine` only where it is not, with the first line that is
/// refused. `ReadFault` comes only where the trace counted a fault; the count of calls without
/// memory stays unless the answer is `NoMemory`.
///
/// At most 327,685,000,256 bytes of the trace are taken, which are 5,000,000 lines of 65,536 bytes
/// with their LFs, and 256 bytes; where a line is refused, at most 255 bytes past the one that
/// decides it. The room for the longest line, and for what it is compared with, is taken before the
/// trace is read.
pub fn audit<Q: Source>(alloc: Global, checked: &Checked, n: u8, trace: &mut Q) -> Audited
    requires { (1 ≤ n) × (n ≤ 64) }
    ensures audits { IfSome (Q.left trace.old) (λ text.
        AuditsSo audit_limits (audit_start checked.now.protocol n) text (Q.left trace.new)
        result) }
    ensures cause { RisesWhere (audit_failed result) (Q.faults trace.old) (Q.faults trace.new) }
    ensures wants { MayRise (audit_wants result) (Q.wants trace.old) (Q.wants trace.new) }
    ensures taken { TakesAtMost (most_taken audit_limits) (Q.left trace.old) (Q.left trace.new) }
    ensures ended { (events : ℕ) → result ≡ Audited.Sound events → Q.ended trace.new ≡ true }
{
    let Ok(mut lines) = Lines::with_room(alloc, AUDIT_LIMITS) else {
        return Audited::NoMemory;
    };
    let Ok(mut auditor) = Auditor::new(alloc, checked, n) else {
        return Audited::NoMemory;
    };
    audit_lines(alloc, AUDIT_LIMITS, &mut auditor, &mut lines, trace)
}
