//! The lines of a source, one at a time.

ghost use Rattle.std.specs.Prelude.{◌<◌, ◌^◌};

use crate::limits::Limits;
use crate::line_buffer::LineBuffer;
use rv_base::{NoMemory, Source};
use std::alloc::Global;
use std::marker::Model;

/// What asking for the next line answers.
#[derive(Clone, Copy, Debug, PartialEq, Eq)]
pub enum NextLine {
    /// The line with this number was got. Lines are numbered from 1.
    Got(u32),
    /// No byte follows the last line, and the source is at its end.
    End,
    /// The line with this number, one of as many as there may be, is longer than a line may be.
    TooLong(u32),
    /// A byte follows as many lines as there may be.
    TooMany,
    /// A read failed, and the source counted the fault.
    ReadFault,
    /// There is no memory for the line, or the source had none for a read.
    NoMemory,
}

/// Reads the lines of a source, one at a time. An LF ends a line; bytes after the last LF are a
/// last line. No more than one line and one piece of the source are kept. Contracts see how far it
/// has read, and the last line got.
#[derive(Drop)]
pub struct Lines {
    buffer: LineBuffer,
}

impl Model for Lines {
    ghost use Rattle.schedule_replay.specs.Reading.{Reading};
    ghost use Rattle.schedule_replay.specs.AtHand.{reading_of};

    ghost Value = { Reading };

    ghost view = { λ lines. reading_of lines.buffer };
}

impl Lines {
    ghost use Rattle.std.specs.Prelude.{◌≡◌, true, false, IfOk};
    ghost use Rattle.rv_base.specs.Outside.{RisesWhere, MayRise};
    ghost use Rattle.schedule_replay.specs.Reading.{nothing_read};
    ghost use Rattle.schedule_replay.specs.NextLine.{NextMoves, AtHandMoves, next_failed};
    ghost use Rattle.schedule_replay.specs.NextLine.{next_wants};

    /// Stands before line 1 of a source, whose lines are to keep these limits. Takes no memory.
    pub fn new(alloc: Global, limits: Limits) -> Lines
        requires { limits.line < 2 ^ 32 }
        ensures { result ≡ nothing_read limits }
    {
        Lines {
            buffer: LineBuffer::new(alloc, limits),
        }
    }

    /// Stands before line 1 of a source, whose lines are to keep these limits, with room for the
    /// longest line.
    pub fn with_room(alloc: Global, limits: Limits) -> Result<Lines, NoMemory>
        requires { limits.line < 2 ^ 32 }
        ensures { IfOk result (λ lines. lines ≡ nothing_read limits) }
    {
        let buffer = LineBuffer::with_room(alloc, limits)?;
        Ok(Lines { buffer })
    }

    /// Whether the source was found at its end. Where a line was got, it is the last one then, and
    /// no LF ends it.
    pub fn ended(&self) -> bool
        ensures { result ≡ self.now.ended }
    {
        self.buffer.ended()
    }

    /// The last line got, without its LF. Empty before line 1, and after a call that gave none.
    pub fn text(&self) -> &[u8]
        ensures { result.now ≡ self.now.text }
    {
        self.buffer.text()
    }

    /// Gets the next line, or says why there is none, where the bytes taken so far decide that.
    /// `None` where they don't: then `next` takes more.
    pub fn at_hand(&mut self) -> Option<NextLine>
        ensures { AtHandMoves self.old self.new result }
    {
        self.buffer.at_hand()
    }

    /// Gets the next line of the source, or says why there is none. The source is read where the
    /// bytes taken so far don't decide that, and not again where an earlier call found it at its
    /// end. Memory may be wanted for a line that doesn't lie whole in one piece.
    pub fn next<Q: Source>(&mut self, source: &mut Q) -> NextLine
        ensures limits { self.new.limits ≡ self.old.limits }
        ensures moves { NextMoves self.old.limits self.old self.new
            (Q.left source.old) (Q.left source.new) result }
        ensures cause { RisesWhere (next_failed result)
            (Q.faults source.old) (Q.faults source.new) }
        ensures ends { (self.old.ended ≡ true → Q.ended source.old ≡ true)
            → self.new.ended ≡ true → Q.ended source.new ≡ true }
        ensures wants { MayRise (next_wants result) (Q.wants source.old) (Q.wants source.new) }
    {
        if let Some(answer) = self.buffer.at_hand() {
            return answer;
        }
        self.buffer.read(source)
    }
}
