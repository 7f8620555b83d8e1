//! All questions of a source, and how reading them ends.

ghost use Rattle.std.specs.Prelude.{◌≡◌, ◌<◌, ◌^◌, [], List, true, IfOk, IfSome, Some, Ok};
ghost use Rattle.rv_base.specs.Outside.{RisesWhere, MayRise};
ghost use Rattle.rv_base.specs.Whole.{TakesAtMost};
ghost use Rattle.schedule_replay.specs.ScheduleLimits.{schedule_limits, most_taken};
ghost use Rattle.schedule_replay.specs.Reading.{nothing_read};
ghost use Rattle.schedule_replay.specs.declared.player.Meaning.TheVariants as meaning;
ghost use Rattle.questions.specs.AllAsked.{question_line, after_line};
ghost use Rattle.questions.specs.ReadsQuestions.{ReadsSo, asking_failed, asking_wants, answered};
ghost use Rattle.questions.specs.ReadsQuestions.{ComesTo, HearsLine, HearsNext};
ghost use Rattle.questions.specs.declared.question.Asked.{Asked as AnAsked};

use crate::line::Known;
use crate::question::{Asked, Question};
use rv_base::{Items, NoMemory, Source};
use schedule_replay::{Limits, Lines, Meaning, NextLine, SCHEDULE_LIMITS};
use star_check::Checked;
use std::alloc::Global;

// The most questions that may be asked.
const MOST_QUESTIONS: usize = 64;

/// Why questions aren't known.
#[derive(Clone, Copy, Debug, PartialEq, Eq)]
pub enum Unread {
    /// The line with this number, counted from 1, is no question, or one question too many, or
    /// longer than a line may be.
    BadLine(u32),
    /// A byte follows as many lines as there may be.
    TooManyLines,
    /// A read failed. Nothing that was taken is refused.
    ReadFault,
    /// There is no memory: none for a read, or none for a line or a question.
    NoMemory,
}

// Keeps the question of the line with this number. False: there are as many as may be asked.
fn keep(asked: &mut Items<Asked>, line: u32, question: Question) -> Result<bool, NoMemory>
    ensures { IfOk result (λ kept. ComesTo kept
        (after_line line asked.old (meaning.Says question)) asked.new) }
{
    if asked.as_slice().len() < MOST_QUESTIONS {
        asked.push(Asked { line, question })?;
        return Ok(true);
    }
    Ok(false)
}

// Hears the line with this number. False: it is refused.
fn hear(
    alloc: Global,
    known: &Known,
    asked: &mut Items<Asked>,
    number: u32,
    line: &[u8],
) -> Result<bool, NoMemory>
    ensures { IfOk result (λ heard. ComesTo heard
        (after_line number asked.old (question_line known.now line.now)) asked.new) }
{
    match known.line(alloc, line)? {
        Meaning::Blank => Ok(true),
        Meaning::Says(question) => keep(asked, number, question),
        Meaning::Bad => Ok(false),
    }
}

// Hears the line that was got, which has this number. Answers why reading ends, where it ends at
// this line.
fn hear_line(
    alloc: Global,
    known: &Known,
    asked: &mut Items<Asked>,
    lines: &Lines,
    number: u32,
) -> Option<Result<(), Unread>>
    ensures { HearsLine known.now asked.old asked.new lines.now number result }
{
    match hear(alloc, known, asked, number, lines.text()) {
        Ok(true) => None,
        Ok(false) => Some(Err(Unread::BadLine(number))),
        Err(_) => Some(Err(Unread::NoMemory)),
    }
}

// Hears what asking for the next line answered. Answers how reading ends, where it does.
fn hear_next(
    alloc: Global,
    known: &Known,
    asked: &mut Items<Asked>,
    lines: &Lines,
    next: NextLine,
) -> Option<Result<(), Unread>>
    ensures { HearsNext known.now asked.old asked.new lines.now next result }
{
    match next {
        NextLine::Got(number) => hear_line(alloc, known, asked, lines, number),
        NextLine::End => Some(Ok(())),
        NextLine::TooLong(number) => Some(Err(Unread::BadLine(number))),
        NextLine::TooMany => Some(Err(Unread::TooManyLines)),
        NextLine::ReadFault => Some(Err(Unread::ReadFault)),
        NextLine::NoMemory => Some(Err(Unread::NoMemory)),
    }
}

// Reads the questions of a source, of which no line was asked for yet.
fn read_lines<Q: Source>(
    alloc: Global,
    limits: Limits,
    known: &Known,
    asked: &mut Items<Asked>,
    lines: &mut Lines,
    source: &mut Q,
) -> Result<(), Unread>
    requires start { lines.old ≡ nothing_read limits }
    requires none { asked.old ≡ [] }
    ensures reads { IfSome (Q.left source.old) (λ text.
        ReadsSo limits known.now text (Q.left source.new) (answered asked.new result)) }
    ensures cause { RisesWhere (asking_failed result) (Q.faults source.old) (Q.faults source.new) }
    ensures wants { MayRise (asking_wants result) (Q.wants source.old) (Q.wants source.new) }
    ensures taken { TakesAtMost (most_taken limits) (Q.left source.old) (Q.left source.new) }
    ensures ended { (all : List AnAsked) → answered asked.new result ≡ Ok all
        → Q.ended source.new ≡ true }
{
    loop {
        let got = lines.next(source);
        if let Some(answer) = hear_next(alloc, known, asked, lines, got) {
            return answer;
        }
    }
}

/// Reads the questions about the configurations of this protocol, line by line up to the source's
/// end: at most 64, each with the number of its line. `ReadFault` comes only where the source
/// counted a fault; the count of calls without memory stays unless the answer is `NoMemory`.
///
/// At most 257,000,256 bytes of the source are taken, which are 1,000,000 lines of 256 bytes with
/// their LFs, and 256 bytes; where a line is refused, at most 255 bytes past the one that decides
/// it. The room for the longest line is taken before the source is read.
pub fn read_questions<Q: Source>(
    alloc: Global,
    checked: &Checked,
    source: &mut Q,
) -> Result<Items<Asked>, Unread>
    ensures reads { IfSome (Q.left source.old) (λ text.
        ReadsSo schedule_limits checked.now.protocol text (Q.left source.new) result) }
    ensures cause { RisesWhere (asking_failed result) (Q.faults source.old) (Q.faults source.new) }
    ensures wants { MayRise (asking_wants result) (Q.wants source.old) (Q.wants source.new) }
    ensures taken { TakesAtMost (most_taken schedule_limits)
        (Q.left source.old) (Q.left source.new) }
    ensures ended { (all : List AnAsked) → result ≡ Ok all → Q.ended source.new ≡ true }
{
    let Ok(mut lines) = Lines::with_room(alloc, SCHEDULE_LIMITS) else {
        return Err(Unread::NoMemory);
    };
    let Ok(known) = Known::new(alloc, checked) else {
        return Err(Unread::NoMemory);
    };
    let mut asked = Items::new(alloc);
    match read_lines(
        alloc,
        SCHEDULE_LIMITS,
        &known,
        &mut asked,
        &mut lines,
        source,
    ) {
        Ok(()) => Ok(asked),
        Err(why) => Err(why),
    }
}
