//! What the line of a step tells.

ghost use Rattle.std.specs.Prelude.{◌≡◌, ◌++◌, ◌<◌, option_copied, length, bytes_eq, codes};
ghost use Rattle.std.specs.List.{position};
ghost use Rattle.std.specs.Option.{option_and_then};
ghost use Rattle.trace_audit.specs.Auditing as audit;
ghost use Rattle.trace_audit.specs.Auditing.{is_colon};

// What stands behind this front, where the bytes begin with it.
fn behind<'b>(front: &[u8], bytes: &'b [u8]) -> Option<&'b [u8]>
    ensures { option_copied result ≡ audit.behind front.now bytes.now }
{
    if bytes.starts_with(front) {
        Some(&bytes[front.len()..])
    } else {
        None
    }
}

// The place of the first `:`, if there is one.
fn colon(bytes: &[u8]) -> Option<usize>
    ensures { result ≡ position is_colon bytes.now }
{
    bytes.iter().position(|byte| *byte == b':')
}

// The told words, of bytes that have the first `:` at this place.
fn told_at(bytes: &[u8], place: usize) -> Option<&[u8]>
    requires { place < length bytes.now }
    ensures { option_copied result ≡ audit.told_at bytes.now place }
{
    if place == 0 {
        return None;
    }
    behind(b": ", &bytes[place..])
}

// The told words, of what stands behind a step's number.
fn told_behind(bytes: &[u8]) -> Option<&[u8]>
    ensures { option_copied result ≡ audit.told_behind bytes.now }
{
    told_at(bytes, colon(bytes)?)
}

/// The words that the line tells, where it begins with this number of a step and a space: then at
/// least one byte follows, none of which is `:`, and then `: ` and the words. `None` where the line
/// is another.
pub(crate) fn told_of<'b>(number: &[u8], line: &'b [u8]) -> Option<&'b [u8]>
    ensures { option_copied result
        ≡ option_and_then audit.told_behind (audit.behind number.now line.now) }
{
    told_behind(behind(number, line)?)
}

/// Whether the words tell of no event.
pub(crate) fn is_quiet(words: &[u8]) -> bool
    ensures { result ≡ audit.is_quiet words.now }
{
    words == b"refused".as_slice() || words == b"stutter".as_slice()
}

/// Whether the line begins with two spaces.
pub(crate) fn is_indented(line: &[u8]) -> bool
    ensures { result ≡ audit.is_indented line.now }
{
    line.starts_with(b"  ")
}

/// Whether the line is this one, which ends with its LF.
pub(crate) fn is_line(line: &[u8], whole: &[u8]) -> bool
    ensures { result ≡ bytes_eq (line.now ++ codes "\n") whole.now }
{
    match whole.strip_suffix(b"\n".as_slice()) {
        Some(text) => line == text,
        None => false,
    }
}
