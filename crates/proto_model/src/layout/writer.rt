//! Writing tokens, with the spaces and line ends between them.

ghost use Rattle.std.specs.Prelude.{◌≡◌, [], ◌∷◌};
ghost use Rattle.std.specs.Fmt.{decimal};
ghost use Rattle.proto_model.specs.LaidOut as spec;
ghost use Rattle.proto_model.specs.Marks as marks;
ghost use Rattle.proto_model.specs.Marks.{Puts, Stands, Lays, Indent, Word, LineEnd};

use crate::appending::append;
use itoa::Buffer;
use rv_base::NoMemory;

// Whether no space stands before the token.
fn hugs_left(token: &[u8]) -> bool
    ensures { result ≡ spec.hugs_left token.now }
{
    matches!(token, [b';' | b',' | b'(' | b')'])
}

// Whether no space stands after the token.
fn hugs_right(token: &[u8]) -> bool
    ensures { result ≡ spec.hugs_right token.now }
{
    matches!(token, [b'('])
}

// The space that is due before the token.
fn space_before(tight: bool, token: &[u8]) -> &'static [u8]
    ensures { result.now ≡ marks.space_before tight token.now }
{
    if tight || hugs_left(token) { b"" } else { b" " }
}

/// A text that grows by indents, tokens and line ends. Once memory runs out it grows no more.
#[derive(Drop)]
pub(super) struct Writer {
    text: Vec<u8>,
    tight: bool,
    result: Result<(), NoMemory>,
}

impl Writer {
    /// A writer that goes on behind this text, where a line begins.
    pub(super) fn new(text: Vec<u8>) -> Writer
        ensures { Stands text.items [] result }
    {
        Writer {
            text,
            tight: true,
            result: Ok(()),
        }
    }

    /// The text, and whether memory ran out.
    pub(super) fn finish(self) -> (Vec<u8>, Result<(), NoMemory>)
        ensures text { result.0 ≡ self.text }
        ensures result { result.1 ≡ self.result }
    {
        (self.text, self.result)
    }

    /// Begins a line with this many spaces.
    pub(super) fn indent(&mut self, spaces: usize)
        ensures { Lays (Indent spaces ∷ []) self.old self.new }
    {
        for _ in 0..spaces {
            self.put(b" ");
        }
        self.tight = true;
    }

    /// Appends a token, and before it the space that is due.
    pub(super) fn word(&mut self, token: &[u8])
        ensures { Lays (Word token.now ∷ []) self.old self.new }
    {
        self.put(space_before(self.tight, token));
        self.put(token);
        self.tight = hugs_right(token);
    }

    /// Appends a number, as the token that is its decimal text.
    pub(super) fn number(&mut self, number: u32)
        ensures { Lays (Word (decimal number) ∷ []) self.old self.new }
    {
        self.word(Buffer::new().format(number).as_bytes());
    }

    /// Ends a line.
    pub(super) fn end_line(&mut self)
        ensures { Lays (LineEnd ∷ []) self.old self.new }
    {
        self.put(b"\n");
        self.tight = true;
    }

    // Appends the bytes, unless memory ran out before.
    fn put(&mut self, bytes: &[u8])
        ensures { Puts bytes.now self.old self.new }
    {
        self.result = append(&mut self.text, self.result, bytes);
    }
}
