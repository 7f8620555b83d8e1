//! Cuts the lexeme in front of some bytes.

ghost use Rattle.std.specs.Prelude.{◌≡◌, ℕ, ◌+◌, ◌<◌, ◌≤◌, ◌^◌, ◌==◌, length, take, drop};
ghost use Rattle.std.specs.Prelude.{not, true, false};
ghost use Rattle.std.specs.List.{prefix_len};
ghost use Rattle.proto_model.specs.Tokens as tokens;
ghost use Rattle.proto_model.specs.Lexemes as lexemes;
ghost use Rattle.proto_model.specs.Lexemes.{cut};
ghost use Rattle.protocol_reader.specs.Front as spec;
ghost use Rattle.protocol_reader.specs.Front.{lexemes_from};

/// The lexeme in front of some bytes, its line, and the bytes behind it. At the end of the file the
/// text is empty.
#[derive(Clone, Copy, Debug)]
pub struct Front<'a> {
    pub text: &'a [u8],
    pub line: u32,
    pub rest: &'a [u8],
}

/// Whether the byte is a letter, a digit or `_`.
#[tactic(auto, unfolding(proto_model::specs::Tokens::is_word))]
pub fn is_word(byte: u8) -> bool
    ensures { result ≡ tokens.is_word byte }
{
    byte.is_ascii_alphabetic() || byte.is_ascii_digit() || byte == b'_'
}

#[tactic(auto, unfolding(proto_model::specs::Tokens::is_space))]
fn is_space(byte: u8) -> bool
    ensures { result ≡ tokens.is_space byte }
{
    byte == b' ' || byte == b'\t' || byte == b'\r' || byte == b'\n'
}

fn begins_comment(bytes: &[u8]) -> bool
    ensures { result ≡ lexemes.begins_comment bytes.now }
{
    matches!(bytes, [b'/', b'/', ..])
}

fn begins_gap(bytes: &[u8]) -> bool
    ensures { result ≡ spec.begins_gap bytes.now }
{
    match bytes {
        [] => false,
        [byte, ..] => is_space(*byte) || begins_comment(bytes),
    }
}

// The number of letters, digits and `_` in front.
fn word_len(bytes: &[u8]) -> usize
    ensures { result ≡ prefix_len tokens.is_word bytes.now }
{
    bytes.iter().take_while(|byte| is_word(**byte)).count()
}

// The number of bytes in front of the first LF, or of all.
fn comment_len(bytes: &[u8]) -> usize
    ensures { result ≡ prefix_len (λ b. not (b == 10)) bytes.now }
{
    bytes.iter().take_while(|byte| **byte != b'\n').count()
}

// The line behind a byte of this line.
fn line_after(byte: u8, line: u32) -> u32
    requires { line + 1 < 2 ^ 32 }
    ensures { result ≡ lexemes.line_after byte line }
{
    if byte == b'\n' { line + 1 } else { line }
}

// The bytes behind the white space byte or the comment in front, and their line.
fn after_piece(bytes: &[u8], line: u32) -> (&[u8], u32)
    requires gap { spec.begins_gap bytes.now ≡ true }
    requires lines { line + length bytes.now < 2 ^ 32 }
    ensures cut { cut false line bytes.now ≡ cut false result.1 result.0.now }
    ensures shorter { length result.0.now < length bytes.now }
    ensures lines { result.1 + length result.0.now < 2 ^ 32 }
{
    if begins_comment(bytes) {
        let (_, rest) = bytes.split_at(comment_len(bytes));
        return (rest, line);
    }
    let (_, rest) = bytes.split_at(1);
    (rest, line_after(bytes[0], line))
}

// The bytes behind the gap in front, and their line.
fn after_gap(bytes: &[u8], line: u32) -> (&[u8], u32)
    requires { line + length bytes.now < 2 ^ 32 }
    ensures cut { cut false line bytes.now ≡ cut false result.1 result.0.now }
    ensures lexeme { spec.begins_gap result.0.now ≡ false }
    ensures lines { result.1 + length result.0.now < 2 ^ 32 }
{
    let mut rest = bytes;
    let mut here = line;
    'gap: while begins_gap(rest) {
        (rest, here) = after_piece(rest, here);
    }
    (rest, here)
}

/// The lexeme in front of bytes that begin on this line.
pub fn next_lexeme(bytes: &[u8], line: u32) -> Front<'_>
    requires { line + length bytes.now < 2 ^ 32 }
    ensures cut { cut false line bytes.now
        ≡ lexemes_from result.text.now result.line result.rest.now }
    ensures lines { result.line + length result.rest.now < 2 ^ 32 }
{
    let (bytes, line) = after_gap(bytes, line);
    let size = word_len(bytes).max(1).min(bytes.len());
    let (text, rest) = bytes.split_at(size);
    Front { text, line, rest }
}
