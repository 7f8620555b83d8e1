//! The laid-out text of a protocol.

ghost use Rattle.rv_base.specs.Appended.{Appends};
ghost use Rattle.proto_model.specs.LaidOut.{laid_out};
ghost use Rattle.proto_model.specs.Sayable.{IsSayable};
ghost use Rattle.proto_model.specs.Spelled.{Spells};

mod guard;
mod protocol;
mod writer;

use crate::layout::writer::Writer;
use crate::protocol::Protocol;
use rv_base::NoMemory;
use std::alloc::Global;
use std::mem;

/// Appends the laid-out text of the protocol: one line for the header, each message, the first and
/// last line of each process and state, each variable, start, guard and claim. The header of
/// version 1 names no version. After `NoMemory` the vector is as before followed by a front of the
/// text.
pub fn print(alloc: Global, protocol: &Protocol, out: &mut Vec<u8>) -> Result<(), NoMemory>
    ensures text { Appends (laid_out protocol.now) result out.old.items out.new.items }

    // For every protocol that a file can say.
    ensures spells { IsSayable protocol.now → Spells (laid_out protocol.now) protocol.now }
{
    let mut writer = Writer::new(mem::replace(out, Vec::new(alloc)));
    writer.protocol(protocol);
    let (text, result) = writer.finish();
    *out = text;
    result
}
