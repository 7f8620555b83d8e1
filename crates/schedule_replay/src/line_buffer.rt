//! What a reader of lines holds of its source.

ghost use Rattle.std.specs.Prelude.{◌≡◌, ◌≤◌, ◌<◌, ◌^◌, [], ◌++◌, length, take, drop, true};
ghost use Rattle.std.specs.Prelude.{OnOk, OnErr, ℕ};
ghost use Rattle.std.specs.List.{position};
ghost use Rattle.schedule_replay.specs.declared.line_buffer.Held.{Held};
ghost use Rattle.schedule_replay.specs.TextLines.{HasNoLf, is_lf};

use crate::limits::Limits;
use crate::lines::NextLine;
use rv_base::{NoMemory, ReadAnswer, Source};
use std::alloc::Global;

const LF: u8 = b'\n';

// Where the last line got stands.
#[derive(Clone, Copy)]
enum Held {
    // No line is held: the next one isn't got yet.
    Nothing,
    // In `part`.
    Joined,
    // In the piece, between these places.
    InPiece(usize, usize),
}

// What a read of one piece gave.
#[derive(Clone, Copy)]
enum Filled {
    Ready,
    End,
    Failed,
    NoMemory,
}

/// Bytes that were taken from a source, a piece at a time, and the last line got of them. A line
/// that lies whole in the piece is handed out from there.
#[derive(Drop)]
pub(crate) struct LineBuffer {
    limits: Limits,
    // The bytes of the piece from `start` to `end` are pending: they were taken and are not worked
    // off.
    piece: [u8; 256],
    start: usize,
    end: usize,
    // Bytes of earlier pieces: where no line is held, those of the line that is not got yet.
    part: Vec<u8>,
    held: Held,
    got: u32,
    ended: bool,
    ghost small: { limits.line < 2 ^ 32 },
    ghost countable: { limits.lines < 2 ^ 32 },
    ghost in_order: { start ≤ end },
    ghost within: { end ≤ 256 },
    ghost room: { length piece ≡ 256 },
    ghost apart: { (from to : ℕ) → held ≡ Held.InPiece from to → from ≤ to },
    ghost inside: { (from to : ℕ) → held ≡ Held.InPiece from to → to ≤ 256 },
    ghost counted: { got ≤ limits.lines },
    ghost one_line: { held ≡ Held.Nothing → HasNoLf part.items },
    ghost fits: { held ≡ Held.Nothing → length part.items ≤ limits.line },
    ghost none_past: { held ≡ Held.Nothing → got ≡ limits.lines → part.items ≡ [] },
    ghost none_pending: { ended ≡ true → start ≡ end },
    ghost none_begun: { held ≡ Held.Nothing → ended ≡ true → part.items ≡ [] },
}

// The place of the first LF, if there is one.
fn line_end(bytes: &[u8]) -> Option<usize>
    ensures { result ≡ position is_lf bytes.now }
{
    bytes.iter().position(|byte| *byte == LF)
}

// Appends the bytes of the piece between these places.
fn append(part: &mut Vec<u8>, piece: &[u8], from: usize, to: usize) -> Result<(), NoMemory>
    requires apart { from ≤ to }
    requires inside { to ≤ length piece.now }
    ensures ok { OnOk result (part.new.items ≡ part.old.items ++ drop from (take to piece.now)) }
    ensures err { OnErr result (part.new.items ≡ part.old.items) }
{
    part.extend_from_slice(&piece[from..to])?;
    Ok(())
}

impl LineBuffer {
    ghost use Rattle.std.specs.Prelude.{Some, None, false, List, IfOk};
    ghost use Rattle.std.specs.declared.option.Option.{Option};
    ghost use Rattle.std.specs.Io.KnownBytes.{IsAtEnd};
    ghost use Rattle.schedule_replay.specs.Reading.{nothing_read};
    ghost use Rattle.rv_base.specs.Outside.{RisesWhere, MayRise};
    ghost use Rattle.schedule_replay.specs.NextLine.{NextMoves, next_failed, next_wants};
    ghost use Rattle.schedule_replay.specs.AtHand.{pending, text_of, reading_of};
    ghost use Rattle.schedule_replay.specs.AtHand.{SameCount, Opens, Holds, HandMoves, SameLine};
    ghost use Rattle.schedule_replay.specs.AtHand.{FillMoves};
    ghost use Rattle.schedule_replay.specs.AtHand.{fill_failed, fill_ends, fill_wants};
    ghost use Rattle.schedule_replay.specs.AtHand.{TurnMoves, turn_failed, turn_wants};

    /// Stands before line 1. Takes no memory.
    pub(crate) fn new(alloc: Global, limits: Limits) -> LineBuffer
        requires { limits.line < 2 ^ 32 }
        ensures { reading_of result ≡ nothing_read limits }
    {
        LineBuffer::over(Vec::new(alloc), limits)
    }

    // Stands before line 1, with this room for lines.
    fn over(part: Vec<u8>, limits: Limits) -> LineBuffer
        requires small { limits.line < 2 ^ 32 }
        requires none { part.items ≡ [] }
        ensures { reading_of result ≡ nothing_read limits }
    {
        LineBuffer {
            limits,
            piece: [0; 256],
            start: 0,
            end: 0,
            part,
            held: Held::Nothing,
            got: 0,
            ended: false,
        }
    }

    /// Stands before line 1, with room for the longest line.
    pub(crate) fn with_room(alloc: Global, limits: Limits) -> Result<LineBuffer, NoMemory>
        requires { limits.line < 2 ^ 32 }
        ensures { IfOk result (λ buffer. reading_of buffer ≡ nothing_read limits) }
    {
        let part = Vec::with_capacity(alloc, limits.line)?;
        Ok(LineBuffer::over(part, limits))
    }

    /// Whether the source was found at its end.
    pub(crate) fn ended(&self) -> bool
        ensures { result ≡ self.now.ended }
    {
        self.ended
    }

    /// The last line got, without its LF. Empty before line 1, and after a call that gave none.
    pub(crate) fn text(&self) -> &[u8]
        ensures { result.now ≡ text_of self.now }
    {
        match self.held {
            Held::Nothing => &[],
            Held::Joined => self.part.as_slice(),
            Held::InPiece(from, to) => &self.piece[from..to],
        }
    }

    // Lets the last line got go.
    fn open(&mut self)
        ensures { Opens self.old self.new }
    {
        match self.held {
            Held::Nothing => {}
            Held::Joined | Held::InPiece(_, _) => {
                self.part.clear();
                self.held = Held::Nothing;
            }
        }
    }

    // Holds the line at hand, whose last bytes stand in the piece before this place.
    fn hold(&mut self, end: usize) -> Result<(), NoMemory>
        requires vacant { self.old.held ≡ Held.Nothing }
        requires in_order { self.old.start ≤ end }
        requires within { end ≤ self.old.end }
        ensures count { SameCount self.old self.new }
        ensures line { OnOk result (Holds self.old self.new end) }
    {
        if self.part.is_empty() {
            self.held = Held::InPiece(self.start, end);
        } else {
            append(&mut self.part, &self.piece, self.start, end)?;
            self.held = Held::Joined;
        }
        Ok(())
    }

    // Gives the line at hand, whose LF stands so many bytes behind the first one that is pending.
    fn close(&mut self, length: usize) -> NextLine
        requires vacant { self.old.held ≡ Held.Nothing }
        requires few { self.old.got < self.old.limits.lines }
        requires ends { position is_lf (pending self.old) ≡ Some length }
        ensures { HandMoves self.old self.new (Some result) }
    {
        if self.part.len() + length > self.limits.line {
            return NextLine::TooLong(self.got + 1);
        }
        let end = self.start + length;
        if self.hold(end).is_err() {
            return NextLine::NoMemory;
        }
        self.start = end + 1;
        self.got += 1;
        NextLine::Got(self.got)
    }

    // Keeps the pending bytes, none of which is an LF.
    fn carry(&mut self) -> Option<NextLine>
        requires vacant { self.old.held ≡ Held.Nothing }
        requires few { self.old.got < self.old.limits.lines }
        requires some { self.old.start < self.old.end }
        requires no_lf { position is_lf (pending self.old) ≡ None }
        ensures { HandMoves self.old self.new result }
    {
        if self.part.len() + (self.end - self.start) > self.limits.line {
            return Some(NextLine::TooLong(self.got + 1));
        }
        if append(&mut self.part, &self.piece, self.start, self.end).is_err() {
            return Some(NextLine::NoMemory);
        }
        self.start = self.end;
        None
    }

    /// Gets the next line, or says why there is none, where the bytes taken so far decide that.
    /// `None` where they don't: then `read` goes on.
    pub(crate) fn at_hand(&mut self) -> Option<NextLine>
        ensures { HandMoves self.old self.new result }
    {
        self.open();
        if self.start == self.end {
            return None;
        }
        if self.got == self.limits.lines {
            return Some(NextLine::TooMany);
        }
        match line_end(&self.piece[self.start..self.end]) {
            Some(length) => Some(self.close(length)),
            None => self.carry(),
        }
    }

    // Reads one piece.
    fn fill<Q: Source>(&mut self, source: &mut Q) -> Filled
        requires goes { self.old.ended ≡ false }
        requires vacant { self.old.held ≡ Held.Nothing }
        requires spent { self.old.start ≡ self.old.end }
        ensures kept { SameLine self.old self.new }
        ensures bytes { FillMoves self.old self.new (Q.left source.old) (Q.left source.new) result }
        ensures cause { RisesWhere (fill_failed result)
            (Q.faults source.old) (Q.faults source.new) }
        ensures ends { Q.ended source.new ≡ fill_ends result }
        ensures wants { RisesWhere (fill_wants result) (Q.wants source.old) (Q.wants source.new) }
    {
        match source.read(&mut self.piece) {
            ReadAnswer::Got(count) => {
                self.start = 0;
                self.end = count;
                Filled::Ready
            }
            ReadAnswer::End => Filled::End,
            ReadAnswer::Failed => Filled::Failed,
            ReadAnswer::NoMemory => Filled::NoMemory,
        }
    }

    // Gives the last line, or says that there is none, where the source is at its end.
    fn finish(&mut self) -> NextLine
        requires goes { self.old.ended ≡ false }
        requires vacant { self.old.held ≡ Held.Nothing }
        requires spent { self.old.start ≡ self.old.end }
        ensures quiet { next_failed result ≡ false }
        ensures moves { (known : Option (List ℕ)) → IsAtEnd known
            → (self.new.limits ≡ self.old.limits) × NextMoves self.old.limits
            (reading_of self.old) (reading_of self.new) known known result }
    {
        self.ended = true;
        if self.part.is_empty() {
            return NextLine::End;
        }
        self.held = Held::Joined;
        self.got += 1;
        NextLine::Got(self.got)
    }

    // Reads one piece, and gets the next line where that decides it.
    fn turn<Q: Source>(&mut self, source: &mut Q) -> Option<NextLine>
        requires goes { self.old.ended ≡ false }
        requires vacant { self.old.held ≡ Held.Nothing }
        requires spent { self.old.start ≡ self.old.end }
        ensures moves { TurnMoves self.old self.new (Q.left source.old) (Q.left source.new) result }
        ensures cause { RisesWhere (turn_failed result)
            (Q.faults source.old) (Q.faults source.new) }
        ensures wants { MayRise (turn_wants result) (Q.wants source.old) (Q.wants source.new) }
        ensures ends { self.new.ended ≡ true → Q.ended source.new ≡ true }
    {
        match self.fill(source) {
            Filled::Ready => self.at_hand(),
            Filled::End => Some(self.finish()),
            Filled::Failed => Some(NextLine::ReadFault),
            Filled::NoMemory => Some(NextLine::NoMemory),
        }
    }

    /// Gets the next line of the source, or says why there is none, where the bytes taken so far
    /// don't decide that. Where an earlier call found the source at its end, it isn't read again.
    pub(crate) fn read<Q: Source>(&mut self, source: &mut Q) -> NextLine
        requires vacant { self.old.held ≡ Held.Nothing }
        requires spent { self.old.start ≡ self.old.end }
        ensures limits { self.new.limits ≡ self.old.limits }
        ensures moves { NextMoves self.old.limits (reading_of self.old) (reading_of self.new)
            (Q.left source.old) (Q.left source.new) result }
        ensures cause { RisesWhere (next_failed result)
            (Q.faults source.old) (Q.faults source.new) }
        ensures ends { (self.old.ended ≡ true → Q.ended source.old ≡ true)
            → self.new.ended ≡ true → Q.ended source.new ≡ true }
        ensures wants { MayRise (next_wants result) (Q.wants source.old) (Q.wants source.new) }
    {
        if self.ended {
            return NextLine::End;
        }
        loop {
            if let Some(answer) = self.turn(source) {
                return answer;
            }
        }
    }
}
