//! Reads a protocol file: from its bytes to the protocol that they spell, and the line of each
//! item.
//!
//! The definitions say what a file spells (`Spells`) and at which line one that spells nothing goes
//! wrong (`IsFaultLine`), and neither says how to find it. The code goes once from left to right.
//!
//! - `lex`: cuts the lexeme in front of some bytes.
//! - `cursor`: where reading stands, which contracts see as the lexemes from there on.
//! - `grammar`: recursive descent, a function for each rule.
//! - `error`: why a file is not read.
//! - `laws`: on which line a lexeme stands.
//!
//! What each rule takes from the lexemes is defined in `specs/Reading`, put together from few
//! parts.
#![tactic(auto)]

ghost use Rattle.std.specs.Prelude.{◌≡◌, ◌<◌, ◌≤◌, length, IfOk, IfErr, ℕ};
ghost use Rattle.rv_base.specs.Whole.{file_limit};
ghost use Rattle.proto_model.specs.Spelled.{Spells, IsFaultLine};
ghost use Rattle.proto_model.specs.declared.protocol.Protocol.{Protocol as NamedProtocol};
ghost use Rattle.protocol_reader.specs.Answer.{IsSpelled, HasCause, ReadsAs};
ghost use Rattle.protocol_reader.specs.Answer.{IsTooLong, IsRefusedAt};

mod cursor;
mod error;
mod grammar;
mod laws;
mod lex;

use cursor::Cursor;
pub use error::ReadError;
pub use laws::the_line_of_a_lexeme_counts_line_feeds;
use proto_model::Protocol;
use rv_base::{FILE_LIMIT, Items};
use std::alloc::Global;

/// A protocol, and the line of each of its items: the header, the messages, the word `home`, the
/// variables, the start and the states of the home, each state followed by its guards, then the
/// word `remote` and its parts likewise, then the claims. Lines count from 1.
#[derive(Debug, Drop)]
pub struct Spelled {
    pub protocol: Protocol,
    pub lines: Items<u32>,
}

/// Reads the protocol that the bytes spell.
pub fn read(alloc: Global, bytes: &[u8]) -> Result<Spelled, ReadError>
    // What is read is spelled so, and each error has its cause.
    ensures found { IfOk result (IsSpelled bytes.now) }
    ensures cause { IfErr result (HasCause bytes.now) }

    // What is spelled is read, and nothing else: it is the only protocol that the bytes spell.
    ensures only { (p : NamedProtocol) → length bytes.now ≤ file_limit → Spells bytes.now p
        → ReadsAs p result }

    // A file that is too long, or that spells nothing, is refused so.
    ensures too_long { file_limit < length bytes.now → IsTooLong result }
    ensures syntax { (line : ℕ) → length bytes.now ≤ file_limit → IsFaultLine bytes.now line
        → IsRefusedAt line result }
{
    if bytes.len() > FILE_LIMIT {
        return Err(ReadError::TooLong);
    }
    let mut cursor = Cursor::new(alloc, bytes);
    let protocol = grammar::file(alloc, &mut cursor)?;
    let lines = cursor.into_lines();
    Ok(Spelled { protocol, lines })
}
