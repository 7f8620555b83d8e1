//! Where reading stands in a file.

ghost use Rattle.std.specs.Prelude.{◌≡◌, ◌≢◌, ◌+◌, ◌<◌, ◌^◌, [], length, OnOk, OnErr};
ghost use Rattle.proto_model.specs.Tokens.{item, part};
ghost use Rattle.proto_model.specs.Lexemes.{lexemes};
ghost use Rattle.protocol_reader.specs.Reading as spec;

use crate::error::ReadError;
use crate::lex::next_lexeme;
use rv_base::{Items, NoMemory};
use std::alloc::Global;
use std::marker::Model;

/// A place in a file: the next lexeme with its line, the bytes behind it, and the lines of the
/// items so far. Contracts see it as the lexemes from the next one on and these lines. Each byte of
/// the file is read a constant number of times, when the lexeme or the gap that it stands in is
/// passed.
#[derive(Drop)]
pub struct Cursor<'a> {
    text: &'a [u8],
    line: u32,
    rest: &'a [u8],
    lines: Items<u32>,
}

impl<'a> Model for Cursor<'a> {
    ghost use Rattle.protocol_reader.specs.Reading.{At, coded_at};
    ghost use Rattle.protocol_reader.specs.Cursor.{at_of, IsCursor};

    ghost Value = { At };

    ghost coded = { coded_at };

    ghost view = { at_of };

    ghost invariant = { IsCursor };
}

impl<'a> Cursor<'a> {
    /// The place in front of the first lexeme of a file. Takes no memory.
    pub fn new(alloc: Global, bytes: &'a [u8]) -> Cursor<'a>
        requires { 1 + length bytes.now < 2 ^ 32 }
        ensures lexemes { result.lexemes ≡ lexemes bytes.now }
        ensures lines { result.lines ≡ [] }
    {
        let first = next_lexeme(bytes, 1);
        Cursor {
            text: first.text,
            line: first.line,
            rest: first.rest,
            lines: Items::new(alloc),
        }
    }

    /// The text of the next lexeme, which is empty at the end of the file.
    pub fn text(&self) -> &'a [u8]
        ensures { result.now ≡ spec.text_at self.now }
    {
        self.text
    }

    /// The fault of syntax at the next lexeme.
    pub fn refuse(&self) -> ReadError
        ensures { result ≡ ReadError.Syntax (spec.line_at self.now) }
    {
        ReadError::Syntax { line: self.line }
    }

    /// That the next lexeme is this word.
    pub fn sees(&self, word: &[u8]) -> bool
        ensures { result ≡ spec.sees word.now self.now }
    {
        self.text == word
    }

    /// That no lexeme but the end of the file is left.
    pub fn is_at_end(&self) -> bool
        ensures { result ≡ spec.at_end self.now }
    {
        self.text.is_empty()
    }

    /// Passes the next lexeme.
    pub fn advance(&mut self)
        requires { spec.text_at self.old ≢ [] }
        ensures { self.new ≡ spec.after (part []) self.old }
    {
        let next = next_lexeme(self.rest, self.line);
        self.text = next.text;
        self.line = next.line;
        self.rest = next.rest;
    }

    /// Keeps the line of the next lexeme, with which an item begins. After `NoMemory` the cursor is
    /// unchanged.
    pub fn mark(&mut self) -> Result<(), NoMemory>
        ensures lexemes { OnOk result (self.new.lexemes ≡ self.old.lexemes) }
        ensures lines { OnOk result (self.new.lines ≡ (spec.after (item []) self.old).lines) }
        ensures err { OnErr result (self.new ≡ self.old) }
    {
        self.lines.push(self.line)
    }

    /// The lines of the items, in file order.
    pub fn into_lines(self) -> Items<u32>
        ensures { result ≡ self.entry.lines }
    {
        let Cursor { lines, .. } = self;
        lines
    }
}
