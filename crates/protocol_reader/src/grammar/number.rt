//! Numbers.

ghost use Rattle.std.specs.Prelude.{◌≡◌};
ghost use Rattle.protocol_reader.specs.Reading as spec;
ghost use Rattle.protocol_reader.specs.Reads.{Reads};

use crate::cursor::Cursor;
use crate::error::ReadError;
use rv_base::read_number;

// The greatest number that a file can write.
const NUMBER_LIMIT: u64 = 99_999;

/// Takes a number.
#[tactic(auto, unfolding(crate::specs::Reading::number))]
pub fn number(cursor: &mut Cursor<'_>) -> Result<u32, ReadError>
    ensures { Reads (spec.number cursor.old) result cursor.new }
{
    let Some(number) = number_in(cursor.text()) else {
        return Err(cursor.refuse());
    };
    cursor.advance();
    Ok(number)
}

/// Whether the text is that of a number.
pub fn is_number(text: &[u8]) -> bool
    ensures { result ≡ spec.is_number text.now }
{
    number_in(text).is_some()
}

// The number that the text writes: `0`, or a digit from 1 to 9 and up to four further digits.
#[tactic(auto, unfolding(crate::specs::Reading::number_in))]
fn number_in(text: &[u8]) -> Option<u32>
    ensures { result ≡ spec.number_in text.now }
{
    match read_number(text, NUMBER_LIMIT) {
        Some(number) => Some(number as u32),
        None => None,
    }
}
