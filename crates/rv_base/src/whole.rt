//! A source read to its end, and a text written whole.

ghost use Rattle.std.specs.Prelude.{◌≡◌, ◌≤◌, ◌<◌, ◌^◌, List};
ghost use Rattle.rv_base.specs.Outside.{RisesWhere, MayRise};
ghost use Rattle.rv_base.specs.Whole.{Reads, ReadsToEnd, gathering_failed, gathering_wants};
ghost use Rattle.rv_base.specs.Whole.{Writes, writing_failed, writing_wants};

use crate::{ReadAnswer, Sink, Source, WriteAnswer};
use std::alloc::Global;

/// The most bytes that a protocol file may have.
pub const FILE_LIMIT: usize = 65_536;

// How many bytes one read asks for, at most.
const PIECE: usize = 1_024;

/// What came of reading a source to its end.
#[derive(Debug, Drop)]
pub enum Gathered {
    /// All that was left, no more than the limit. The last read answered that nothing is left.
    Whole(Vec<u8>),
    /// More bytes than the limit were left. One more than the limit was taken.
    TooLong,
    /// A read failed, and the source counted the fault. At most as many bytes as the limit were
    /// taken.
    Failed,
    /// There is no memory for the bytes, or the source had none for a read. At most one byte more
    /// than the limit was taken.
    NoMemory,
}

/// What came of writing a text whole.
#[derive(Clone, Copy, Debug, PartialEq, Eq)]
pub enum Wrote {
    /// All of the text was taken.
    Whole,
    /// The last write failed, and the sink counted the fault. A part of the text was taken.
    Failed,
    /// The sink had no memory for the last write. A part of the text was taken.
    NoMemory,
}

/// Reads a source to its end, or to one byte past the limit, a number of bytes below 2^32.
pub fn read_whole<S: Source>(alloc: Global, source: &mut S, limit: usize) -> Gathered
    requires { limit < 2 ^ 32 }
    ensures bytes { Reads limit (S.left source.old) (S.left source.new) result }
    ensures cause { RisesWhere (gathering_failed result) (S.faults source.old)
        (S.faults source.new) }
    ensures wants { MayRise (gathering_wants result) (S.wants source.old) (S.wants source.new) }
    ensures ends { ReadsToEnd (S.ended source.new) result }
{
    let mut bytes = Vec::new(alloc);
    let mut piece = [0u8; PIECE];
    while bytes.len() <= limit {
        let room = PIECE.min(limit + 1 - bytes.len());
        match source.read(&mut piece[..room]) {
            ReadAnswer::Got(count) => {
                if bytes.extend_from_slice(&piece[..count]).is_err() {
                    return Gathered::NoMemory;
                }
            }
            ReadAnswer::End => return Gathered::Whole(bytes),
            ReadAnswer::Failed => return Gathered::Failed,
            ReadAnswer::NoMemory => return Gathered::NoMemory,
        }
    }
    Gathered::TooLong
}

/// Writes a text whole, in as many writes as the sink needs, or a part of it.
pub fn write_whole<O: Sink>(out: &mut O, text: &[u8]) -> Wrote
    ensures bytes { Writes (O.taken out.old) (O.taken out.new) text.now result }
    ensures cause { RisesWhere (writing_failed result) (O.faults out.old) (O.faults out.new) }
    ensures wants { RisesWhere (writing_wants result) (O.wants out.old) (O.wants out.new) }
{
    let mut done = 0;
    while done < text.len() {
        match out.write(&text[done..]) {
            WriteAnswer::Took(count) => done += count,
            WriteAnswer::Failed => return Wrote::Failed,
            WriteAnswer::NoMemory => return Wrote::NoMemory,
        }
    }
    Wrote::Whole
}
