//! Appending bytes to a text that is put together piece by piece. Once memory ran out nothing more
//! is appended. A text begins with `Ok(())`, and each call is handed what the one before it
//! answered.

ghost use Rattle.std.specs.Prelude.{decimal};
ghost use Rattle.proto_model.specs.Continued.{Continues};

use itoa::Buffer;
use rv_base::NoMemory;

/// What came of the pieces so far.
pub type Appending = Result<(), NoMemory>;

/// Appends the bytes, unless memory ran out before.
pub fn append(out: &mut Vec<u8>, so_far: Appending, bytes: &[u8]) -> Appending
    ensures { Continues bytes.now so_far out.old.items result out.new.items }
{
    if so_far.is_err() {
        return so_far;
    }
    out.extend_from_slice(bytes).map_err(NoMemory::from)
}

/// Appends the number's decimal text, unless memory ran out before.
pub fn append_number(out: &mut Vec<u8>, so_far: Appending, number: u64) -> Appending
    ensures { Continues (decimal number) so_far out.old.items result out.new.items }
{
    append(out, so_far, Buffer::new().format(number).as_bytes())
}
