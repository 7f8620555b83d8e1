//! The loop that replays a schedule.

ghost use Rattle.std.specs.Prelude.{◌≡◌, ◌+◌, ◌<◌, ◌^◌, [], ◌++◌, true, false, OnOk, IfSome};
ghost use Rattle.rv_base.specs.Outside.{RisesWhere, MayRise};
ghost use Rattle.rv_base.specs.Whole.{TakesAtMost, Writes, writing_failed, writing_wants};
ghost use Rattle.schedule_replay.specs.ScheduleLimits.{most_taken};
ghost use Rattle.schedule_replay.specs.Played.{numbered_block};
ghost use Rattle.schedule_replay.specs.Replayed.{StopsSo, WritesSo, ReplayCounts, ReplayWants};
ghost use Rattle.schedule_replay.specs.Replayed as replayed;
ghost use Rattle.schedule_replay.specs.Replayed.{replay_read_failed, replay_write_failed};
ghost use Rattle.schedule_replay.specs.Replayed.{replay_wants};
ghost use Rattle.schedule_replay.specs.Turns as turns;
ghost use Rattle.schedule_replay.specs.Turns.{AskMoves, AskWrites, ask_read_failed};
ghost use Rattle.schedule_replay.specs.Turns.{ask_write_failed};
ghost use Rattle.schedule_replay.specs.Turns.{ask_wants, PlaysLine, PlaysLines, last_of, EndsWith};
ghost use Rattle.schedule_replay.specs.Turns.{EndsAtStart};

use crate::limits::Limits;
use crate::lines::{Lines, NextLine};
use crate::player::{Meaning, Player};
use rv_base::{NoMemory, Sink, Source, Wrote, put_number, write_whole};
use std::alloc::Global;

/// How a replay ends.
#[derive(Clone, Copy, Debug, PartialEq, Eq)]
pub enum Replayed {
    /// The schedule was played to its end, and its trace is written.
    Done,
    /// The line with this number, counted from 1, is malformed or longer than a line may be. The
    /// blocks of the lines before it are written.
    BadLine(u32),
    /// A byte follows as many lines as a schedule may have, whose blocks are written.
    TooManyLines,
    /// The claim with this number is broken where the machine stands. The blocks of the lines up to
    /// there are written, and the line that says so and the last text.
    ClaimBroken(u32),
    /// A read of the schedule failed. The blocks of the lines whose LF was taken are written.
    ReadFault,
    /// A write failed. A front of what would have been written is.
    WriteFault,
    /// There is no memory: none for a read or a write, or none for a line or a block. A front of
    /// what would have been written is written.
    NoMemory,
}

// Whether the replay came to where the schedule ends.
fn is_decided(answer: Replayed) -> bool
    ensures { result ≡ replayed.is_decided answer }
{
    !matches!(
        answer,
        Replayed::ReadFault | Replayed::WriteFault | Replayed::NoMemory
    )
}

// Writes what is kept, and keeps nothing then.
fn flush<O: Sink>(kept: &mut Vec<u8>, out: &mut O) -> Wrote
    ensures none { kept.new.items ≡ [] }
    ensures bytes { Writes (O.taken out.old) (O.taken out.new) kept.old.items result }
    ensures cause { RisesWhere (writing_failed result) (O.faults out.old) (O.faults out.new) }
    ensures wants { RisesWhere (writing_wants result) (O.wants out.old) (O.wants out.new) }
{
    let wrote = write_whole(out, kept);
    kept.clear();
    wrote
}

// The number of the line that was got, or how the replay ends.
fn said(next: NextLine) -> Result<u32, Replayed>
    ensures { result ≡ turns.said next }
{
    match next {
        NextLine::Got(number) => Ok(number),
        NextLine::End => Err(Replayed::Done),
        NextLine::TooLong(number) => Err(Replayed::BadLine(number)),
        NextLine::TooMany => Err(Replayed::TooManyLines),
        NextLine::ReadFault => Err(Replayed::ReadFault),
        NextLine::NoMemory => Err(Replayed::NoMemory),
    }
}

// Gets the next line and answers its number, or says how the replay ends. Before the source is
// read, what is kept is written.
fn ask<Q: Source, O: Sink>(
    lines: &mut Lines,
    schedule: &mut Q,
    kept: &mut Vec<u8>,
    out: &mut O,
) -> Result<u32, Replayed>
    requires ended { lines.old.ended ≡ true → Q.ended schedule.old ≡ true }
    ensures limits { lines.new.limits ≡ lines.old.limits }
    ensures moves { AskMoves lines.old.limits lines.old lines.new
        (Q.left schedule.old) (Q.left schedule.new) result }
    ensures ends { lines.new.ended ≡ true → Q.ended schedule.new ≡ true }
    ensures reads { RisesWhere (ask_read_failed result)
        (Q.faults schedule.old) (Q.faults schedule.new) }
    ensures bytes { AskWrites kept.old.items kept.new.items
        (O.taken out.old) (O.taken out.new) result }
    ensures writes { RisesWhere (ask_write_failed result) (O.faults out.old) (O.faults out.new) }
    ensures read_wants { MayRise (ask_wants result) (Q.wants schedule.old) (Q.wants schedule.new) }
    ensures write_wants { MayRise (ask_wants result) (O.wants out.old) (O.wants out.new) }
{
    if let Some(next) = lines.at_hand() {
        return said(next);
    }
    match flush(kept, out) {
        Wrote::Whole => said(lines.next(schedule)),
        Wrote::Failed => Err(Replayed::WriteFault),
        Wrote::NoMemory => Err(Replayed::NoMemory),
    }
}

// Plays the item that follows so many others, and keeps its block.
fn put_block<P: Player>(
    alloc: Global,
    player: &mut P,
    played: u32,
    item: P::Item,
    kept: &mut Vec<u8>,
) -> Result<(), NoMemory>
    requires { played + 1 < 2 ^ 32 }
    ensures after { OnOk result (player.new ≡ P.play.after player.old item) }
    ensures tells { OnOk result (kept.new.items ≡ kept.old.items
        ++ numbered_block P.play played player.old item) }
{
    put_number(alloc, u64::from(played + 1), kept)?;
    kept.push(b' ')?;
    player.play(alloc, item, kept)
}

// Plays the line with this number, which follows so many items, and keeps its block. Answers how
// the replay ends, where it ends at this line.
fn play_line<P: Player>(
    alloc: Global,
    player: &mut P,
    played: &mut u32,
    number: u32,
    line: &[u8],
    kept: &mut Vec<u8>,
) -> Option<Replayed>
    requires { played.old + 1 < 2 ^ 32 }
    ensures { PlaysLine P.play player.old player.new played.old played.new line.now number
        kept.old.items kept.new.items result }
{
    let item = match player.read(line) {
        Meaning::Blank => return None,
        Meaning::Says(item) => item,
        Meaning::Bad => return Some(Replayed::BadLine(number)),
    };
    if put_block(alloc, player, *played, item, kept).is_err() {
        return Some(Replayed::NoMemory);
    }
    *played += 1;
    match player.halts() {
        Some(claim) => Some(Replayed::ClaimBroken(claim)),
        None => None,
    }
}

// Plays the lines of a schedule to where it ends. The last text is still to be written then, and
// what is kept before it.
fn play_lines<P: Player, Q: Source, O: Sink>(
    alloc: Global,
    limits: Limits,
    player: &mut P,
    schedule: &mut Q,
    kept: &mut Vec<u8>,
    out: &mut O,
) -> Replayed
    requires small { limits.line < 2 ^ 32 }
    requires none { kept.old.items ≡ [] }
    ensures plays { IfSome (Q.left schedule.old) (λ text.
        PlaysLines P.play limits player.old text (Q.left schedule.new)
        (O.taken out.old) (O.taken out.new) kept.new.items player.new result) }
    ensures reads { RisesWhere (replay_read_failed result)
        (Q.faults schedule.old) (Q.faults schedule.new) }
    ensures writes { RisesWhere (replay_write_failed result) (O.faults out.old) (O.faults out.new) }
    ensures taken { TakesAtMost (most_taken limits) (Q.left schedule.old) (Q.left schedule.new) }
    ensures ended { result ≡ Replayed.Done → Q.ended schedule.new ≡ true }
    ensures at_start { IfSome (P.play.halts player.old) (λ claim.
        (result ≡ Replayed.ClaimBroken claim) × (player.new ≡ player.old)
        × (schedule.new ≡ schedule.old) × (out.new ≡ out.old) × (kept.new.items ≡ [])) }
    ensures read_wants { MayRise (replay_wants result)
        (Q.wants schedule.old) (Q.wants schedule.new) }
    ensures write_wants { MayRise (replay_wants result) (O.wants out.old) (O.wants out.new) }
{
    if let Some(claim) = player.halts() {
        return Replayed::ClaimBroken(claim);
    }
    let mut lines = Lines::new(alloc, limits);
    let mut played = 0;
    loop {
        let number = match ask(&mut lines, schedule, kept, out) {
            Ok(number) => number,
            Err(answer) => return answer,
        };
        if let Some(answer) = play_line(alloc, player, &mut played, number, lines.text(), kept) {
            return answer;
        }
    }
}

// Keeps the last text of a replay that ends so.
fn put_last<P: Player>(
    alloc: Global,
    player: &P,
    answer: Replayed,
    kept: &mut Vec<u8>,
) -> Result<(), NoMemory>
    ensures { OnOk result (kept.new.items ≡ kept.old.items ++ last_of P.play player.now answer) }
{
    match answer {
        Replayed::Done => player.finish(alloc, kept),
        Replayed::ClaimBroken(claim) => {
            kept.extend_from_slice(b"claim ")?;
            put_number(alloc, u64::from(claim), kept)?;
            kept.extend_from_slice(b" broken\n")?;
            player.finish(alloc, kept)
        }
        _ => Ok(()),
    }
}

// Writes what is kept, and the last text of a replay that ends so.
fn end<P: Player, O: Sink>(
    alloc: Global,
    player: &P,
    answer: Replayed,
    kept: &mut Vec<u8>,
    out: &mut O,
) -> Replayed
    requires { replayed.is_decided answer ≡ true }
    ensures bytes { EndsWith P.play answer (kept.old.items ++ last_of P.play player.now answer)
        (O.taken out.old) (O.taken out.new) result }
    ensures writes { RisesWhere (replay_write_failed result) (O.faults out.old) (O.faults out.new) }
    ensures wants { MayRise (replay_wants result) (O.wants out.old) (O.wants out.new) }
{
    if put_last(alloc, player, answer, kept).is_err() {
        return Replayed::NoMemory;
    }
    match flush(kept, out) {
        Wrote::Whole => answer,
        Wrote::Failed => Replayed::WriteFault,
        Wrote::NoMemory => Replayed::NoMemory,
    }
}

/// Replays a schedule on the machine, and writes its trace: the block of each item that a line
/// says, and behind the last one what shows the machine, where the schedule was played to its end.
/// Where a claim is broken, which is looked at before the first line and after each item, the line
/// that says so and then what shows the machine end the trace. A refused schedule's trace ends with
/// the last block.
///
/// Whenever a read of the schedule is asked for, the blocks of all lines that were taken whole are
/// written, in one go. The answer says how the replay ended, and with it what was taken of the
/// schedule and what was written. Where a claim is broken at the start, nothing is asked of the
/// schedule, and the trace is the same whatever it holds. Either count of calls without memory
/// stays unless the answer is `NoMemory`.
///
/// No more is kept than one line, one piece of the schedule, and the blocks of the lines that end
/// in it.
pub fn play_schedule<P: Player, Q: Source, O: Sink>(
    alloc: Global,
    limits: Limits,
    player: &mut P,
    schedule: &mut Q,
    out: &mut O,
) -> Replayed
    requires { limits.line < 2 ^ 32 }
    ensures stops { IfSome (Q.left schedule.old) (λ text.
        StopsSo P.play limits player.old text (Q.left schedule.new) result) }
    ensures writes { IfSome (Q.left schedule.old) (λ text. IfSome (O.taken out.old) (λ before.
        WritesSo P.play limits player.old text (Q.left schedule.new) before
        (O.taken out.new) result)) }
    ensures counts { ReplayCounts (Q.faults schedule.old) (Q.faults schedule.new)
        (O.faults out.old) (O.faults out.new) result }
    ensures wants { ReplayWants (Q.wants schedule.old) (Q.wants schedule.new)
        (O.wants out.old) (O.wants out.new) result }
    ensures taken { TakesAtMost (most_taken limits) (Q.left schedule.old) (Q.left schedule.new) }
    ensures ended { result ≡ Replayed.Done → Q.ended schedule.new ≡ true }
    ensures at_start { EndsAtStart P.play player.old (schedule.new ≡ schedule.old)
        (O.taken out.old) (O.taken out.new) result }
{
    let mut kept = Vec::new(alloc);
    let answer = play_lines(alloc, limits, player, schedule, &mut kept, out);
    if !is_decided(answer) {
        return answer;
    }
    end(alloc, player, answer, &mut kept, out)
}
