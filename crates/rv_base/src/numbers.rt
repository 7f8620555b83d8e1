//! Numbers as decimal text.

ghost use Rattle.std.specs.Prelude.{decimal};
ghost use Rattle.rv_base.specs.Appended.{Appends};

use crate::NoMemory;
use itoa::Buffer;
use std::alloc::Global;

/// Appends the number's decimal text, without leading zeros. After `NoMemory` the vector is as
/// before, or a front of the text follows.
pub fn put_number(_alloc: Global, number: u64, out: &mut Vec<u8>) -> Result<(), NoMemory>
    ensures { Appends (decimal number) result out.old.items out.new.items }
{
    out.extend_from_slice(Buffer::new().format(number).as_bytes())?;
    Ok(())
}
