//! The words of a line of text.

ghost use Rattle.std.specs.Prelude.{◌≡◌, ◌<◌, ◌≤◌, [], ◌∷◌, false, length, take, drop};
ghost use Rattle.std.specs.Prelude.{option_copied, slice_get, MatchOption};
ghost use Rattle.rv_base.specs.Words.{before_comment, ends_word, has_bytes, is_blank, words};
ghost use Rattle.rv_base.specs.Words.{opens_blank};

// Whether the byte parts words.
fn is_blank(byte: u8) -> bool
    ensures { result ≡ is_blank byte }
{
    matches!(byte, b' ' | b'\t' | b'\r')
}

// What stands before the first two slashes, or all of the line.
fn without_comment(line: &[u8]) -> &[u8]
    ensures { result.now ≡ before_comment line.now }
{
    for end in 0..line.len() {
        if line[end..].starts_with(b"//") {
            return &line[..end];
        }
    }
    line
}

/// The word at this place, counted from 0: of what stands before the first two slashes of the line,
/// cut at each space, tab and CR into words of at least one byte. `None` exactly where the line has
/// no word at this place. Takes no memory. Each call begins at the front of the line: whoever wants
/// one word after the other has them from `next_word`.
pub fn word_at(line: &[u8], place: usize) -> Option<&[u8]>
    ensures { option_copied result ≡ slice_get (words line.now) place }
{
    without_comment(line)
        .split(|byte| is_blank(*byte))
        .filter(|word| !word.is_empty())
        .nth(place)
}

// Whether a blank stands first, or two slashes.
fn ends_word(bytes: &[u8]) -> bool
    ensures { result ≡ ends_word bytes.now }
{
    match bytes {
        [first, ..] => is_blank(*first) || bytes.starts_with(b"//"),
        [] => false,
    }
}

// The line without the blanks at its front.
fn without_blanks(line: &[u8]) -> &[u8]
    ensures first { opens_blank result.now ≡ false }
    ensures same { words result.now ≡ words line.now }
{
    for start in 0..line.len() {
        if !is_blank(line[start]) {
            return &line[start..];
        }
    }
    &line[line.len()..]
}

// Where the first word ends in a line at whose front no blank stands: 0 where it has no words.
fn word_end(line: &[u8]) -> usize
    requires { opens_blank line.now ≡ false }
    ensures within { result ≤ length line.now }
    ensures none { result ≡ 0 → words line.now ≡ [] }
    ensures first { 0 < result
        → words line.now ≡ take result line.now ∷ words (drop result line.now) }
{
    for end in 0..line.len() {
        if ends_word(&line[end..]) {
            return end;
        }
    }
    line.len()
}

/// The first word of a line, and the rest of the line behind it, which has the line's other words.
/// Words are the pieces of at least one byte into which spaces, tabs and CRs cut what stands before
/// the first two slashes. `None` where the line has no words. Takes no memory.
pub fn next_word(line: &[u8]) -> Option<(&[u8], &[u8])>
    ensures { MatchOption result (words line.now ≡ [])
        (λ cut. words line.now ≡ cut.0.now ∷ words cut.1.now) }
{
    let text = without_blanks(line);
    let end = word_end(text);
    if end == 0 {
        return None;
    }
    Some(text.split_at(end))
}
