//! Numbers read from decimal text.

ghost use Rattle.std.specs.Prelude.{◌≡◌, ◌↔◌, IsTrue};
ghost use Rattle.rv_base.specs.Numbers.{ReadsNumber, number_of, LeadsWell};

// Whether a digit stands first, and no zero before others.
fn leads_well(text: &[u8]) -> bool
    ensures { IsTrue result ↔ LeadsWell text.now }
{
    matches!(text, [b'0'] | [b'1'..=b'9', ..])
}

// The number whose decimal text the bytes are, whatever its size.
fn number_written(text: &[u8]) -> Option<u64>
    ensures { ReadsNumber text.now u64.MAX result }
{
    if !leads_well(text) {
        return None;
    }
    match std::str::from_utf8(text) {
        Ok(digits) => digits.parse().ok(),
        Err(_) => None,
    }
}

/// The number whose decimal text the bytes are, without leading zeros, where it is at most `most`.
/// `None` where they are the decimal text of no such number. Takes no memory.
pub fn read_number(text: &[u8], most: u64) -> Option<u64>
    ensures reads { ReadsNumber text.now most result }
    ensures value { result ≡ number_of text.now most }
{
    number_written(text).filter(|number| *number <= most)
}
