//! The numbers that a line of a schedule says.

ghost use Rattle.std.specs.Prelude.{◌≡◌};
ghost use Rattle.proto_model.specs.ScheduleNumbers.{number};

use rv_base::read_number;

// The greatest number that a line can write.
const NUMBER_LIMIT: u64 = 99_999;

/// The number from 0 to 99,999 whose decimal text the word is, without leading zeros. `None` where
/// it is that of no such number. Takes no memory.
pub fn schedule_number(word: &[u8]) -> Option<u32>
    ensures { result ≡ number word.now }
{
    match read_number(word, NUMBER_LIMIT) {
        Some(number) => Some(number as u32),
        None => None,
    }
}
