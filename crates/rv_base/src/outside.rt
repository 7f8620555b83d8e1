//! Where bytes come from and where they go: sources, sinks, and what a call on one answers.

ghost use Rattle.std.specs.Prelude.{◌<◌, Bool, List, ℕ, length};
ghost use Rattle.std.specs.declared.option.Option.{Option};
ghost use Rattle.rv_base.specs.Outside.{RisesWhere, ReadMoves, ReadEnds, read_failed, read_wants};
ghost use Rattle.rv_base.specs.Outside.{WriteMoves, write_failed, write_wants};

/// What a read answers.
#[derive(Clone, Copy, Debug, PartialEq, Eq)]
pub enum ReadAnswer {
    /// So many bytes, at least 1, stand at the front of the buffer and are no longer left.
    Got(usize),
    /// Nothing is left.
    End,
    /// A fault, which was counted. What is left stays.
    Failed,
    /// There is no memory for the call, which was counted. What is left stays. A source that tells
    /// what is left never answers so.
    NoMemory,
}

/// What a write answers.
#[derive(Clone, Copy, Debug, PartialEq, Eq)]
pub enum WriteAnswer {
    /// So many bytes of the piece's front, at least 1, were taken.
    Took(usize),
    /// A fault, which was counted. Nothing was taken.
    Failed,
    /// There is no memory for the call, which was counted. Nothing was taken.
    NoMemory,
}

/// Bytes that are read from front to back.
pub trait Source {
    /// The bytes left, where the source tells them.
    ghost left: { Self → Option (List ℕ) };

    /// How many reads failed. The count never falls, and stops at 2^64 - 1.
    ghost faults: { Self → ℕ };

    /// How many reads had no memory. The count never falls, and stops at 2^64 - 1. It rises where
    /// `read` answers `NoMemory`, and nowhere else: where it stays, no read had none. So whoever
    /// takes want of memory for the end, or reads again and answers by that read, can't say that
    /// the count stayed, also over a source that tells nothing of its bytes.
    ghost wants: { Self → ℕ };

    /// Whether the last read answered `End`.
    ghost ended: { Self → Bool };

    /// Reads at least one and at most `into.len()` bytes to the front of `into`, or says why not.
    /// `wants` says that the count of reads without memory rises by the answer `NoMemory`, and
    /// that after each other answer it is what it was: so it tells what was answered.
    fn read(&mut self, into: &mut [u8]) -> ReadAnswer
        requires { 0 < length into.old }
        ensures bytes { ReadMoves (left self.old) (left self.new) into.new result }
        ensures cause { RisesWhere (read_failed result) (faults self.old) (faults self.new) }
        ensures wants { RisesWhere (read_wants result) (wants self.old) (wants self.new) }
        ensures ends { ReadEnds (ended self.new) result };
}

/// What takes bytes, one after another.
pub trait Sink {
    /// The bytes taken, where the sink tells them.
    ghost taken: { Self → Option (List ℕ) };

    /// How many writes failed. The count never falls, and stops at 2^64 - 1.
    ghost faults: { Self → ℕ };

    /// How many writes had no memory. The count never falls, and stops at 2^64 - 1. It rises where
    /// `write` answers `NoMemory`, and nowhere else: where it stays, no write had none. So whoever
    /// takes want of memory for a piece that was taken can't say that the count stayed, also over
    /// a sink that tells nothing of its bytes.
    ghost wants: { Self → ℕ };

    /// Takes at least one byte and at most all of `piece`, from its front, or says why not.
    /// `wants` says that the count of writes without memory rises by the answer `NoMemory`, and
    /// that after each other answer it is what it was.
    fn write(&mut self, piece: &[u8]) -> WriteAnswer
        requires { 0 < length piece.now }
        ensures bytes { WriteMoves (taken self.old) (taken self.new) piece.now result }
        ensures cause { RisesWhere (write_failed result) (faults self.old) (faults self.new) }
        ensures wants { RisesWhere (write_wants result) (wants self.old) (wants self.new) };
}
