//! Names.

ghost use Rattle.std.specs.Prelude.{◌≡◌};
ghost use Rattle.std.specs.List.{list_all};
ghost use Rattle.proto_model.specs.Tokens as tokens;
ghost use Rattle.protocol_reader.specs.Reading as spec;
ghost use Rattle.protocol_reader.specs.Reads.{Reads};

use super::repeated::{Repeated, and_all};
use super::token::is_among;
use crate::cursor::Cursor;
use crate::error::ReadError;
use crate::lex::is_word;
use proto_model::Name;
use rv_base::Items;
use std::alloc::Global;

impl Repeated for Name {
    ghost comes = { spec.is_name };

    ghost reader = { spec.name };

    fn comes(text: &[u8]) -> bool {
        is_name(text)
    }

    #[tactic(auto, using(crate::proofs::Shorter::name_taken))]
    fn read(alloc: Global, cursor: &mut Cursor<'_>) -> Result<Name, ReadError> {
        name(alloc, cursor)
    }
}

/// Takes one name or more.
#[tactic(auto, unfolding(crate::specs::Reading::names))]
pub fn names(alloc: Global, cursor: &mut Cursor<'_>) -> Result<Items<Name>, ReadError>
    ensures { Reads (spec.names cursor.old) result cursor.new }
{
    let first = name(alloc, cursor)?;
    and_all(alloc, cursor, first)
}

/// Takes a name.
#[tactic(auto, unfolding(crate::specs::Reading::name))]
pub fn name(alloc: Global, cursor: &mut Cursor<'_>) -> Result<Name, ReadError>
    ensures { Reads (spec.name cursor.old) result cursor.new }
{
    let text = cursor.text();
    if !is_name(text) {
        return Err(cursor.refuse());
    }
    let name = Name::new(alloc, text)?;
    cursor.advance();
    Ok(name)
}

// Whether the text is a name: a letter or `_` and then letters, digits and `_`, but no reserved
// word.
#[tactic(auto, unfolding(crate::specs::Reading::is_name))]
fn is_name(text: &[u8]) -> bool
    ensures { result ≡ spec.is_name text.now }
{
    begins_name(text) && all_word(text) && !is_reserved(text)
}

fn begins_name(text: &[u8]) -> bool
    ensures { result ≡ tokens.begins_name text.now }
{
    match text {
        [] => false,
        [first, ..] => first.is_ascii_alphabetic() || *first == b'_',
    }
}

fn all_word(text: &[u8]) -> bool
    ensures { result ≡ list_all tokens.is_word text.now }
{
    text.iter().all(|byte| is_word(*byte))
}

// The words that are no names.
const RESERVED: [&[u8]; 33] = [
    b"protocol",
    b"version",
    b"message",
    b"up",
    b"down",
    b"int",
    b"node",
    b"set",
    b"home",
    b"remote",
    b"var",
    b"start",
    b"state",
    b"tau",
    b"from",
    b"to",
    b"any",
    b"in",
    b"notin",
    b"eq",
    b"ne",
    b"lt",
    b"le",
    b"and",
    b"when",
    b"do",
    b"goto",
    b"none",
    b"empty",
    b"claim",
    b"atmost",
    b"not",
    b"with",
];

#[tactic(auto, unfolding(proto_model::specs::Tokens::is_reserved))]
fn is_reserved(text: &[u8]) -> bool
    ensures { result ≡ tokens.is_reserved text.now }
{
    is_among(&RESERVED, text)
}
