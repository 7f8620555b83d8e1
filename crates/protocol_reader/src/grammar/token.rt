//! One token.

ghost use Rattle.std.specs.Prelude.{◌≡◌, ◌≢◌, [], map, IfOk, if◌then◌else◌};
ghost use Rattle.proto_model.specs.Tokens.{item, part};
ghost use Rattle.protocol_reader.specs.Reading as spec;
ghost use Rattle.protocol_reader.specs.Reads.{Reads};

use crate::cursor::Cursor;
use crate::error::ReadError;
use rv_base::NoMemory;

/// Takes this token.
#[tactic(auto, unfolding(crate::specs::Reading::token))]
pub fn expect(cursor: &mut Cursor<'_>, word: &[u8]) -> Result<(), ReadError>
    requires { word.now ≢ [] }
    ensures { Reads (spec.token (part word.now) cursor.old) result cursor.new }
{
    if takes(cursor, word) {
        return Ok(());
    }
    Err(cursor.refuse())
}

/// Takes this token, with which an item begins, and keeps its line.
#[tactic(auto, unfolding(crate::specs::Reading::token))]
pub fn begin(cursor: &mut Cursor<'_>, word: &[u8]) -> Result<(), ReadError>
    requires { word.now ≢ [] }
    ensures { Reads (spec.token (item word.now) cursor.old) result cursor.new }
{
    if begins(cursor, word)? {
        return Ok(());
    }
    Err(cursor.refuse())
}

/// Takes this token where it comes next, and says whether it did.
pub fn takes(cursor: &mut Cursor<'_>, word: &[u8]) -> bool
    requires { word.now ≢ [] }
    ensures told { result ≡ spec.sees word.now cursor.old }
    ensures taken { cursor.new
        ≡ (if result then spec.after (part word.now) cursor.old else cursor.old) }
{
    let seen = cursor.sees(word);
    if seen {
        cursor.advance();
    }
    seen
}

/// Takes this token where it comes next, as the first of an item, whose line it keeps, and says
/// whether it did.
pub fn begins(cursor: &mut Cursor<'_>, word: &[u8]) -> Result<bool, NoMemory>
    requires { word.now ≢ [] }
    ensures told { IfOk result (λ seen. seen ≡ spec.sees word.now cursor.old) }
    ensures taken { IfOk result (λ seen.
        cursor.new ≡ (if seen then spec.after (item word.now) cursor.old else cursor.old)) }
{
    if !cursor.sees(word) {
        return Ok(false);
    }
    cursor.mark()?;
    cursor.advance();
    Ok(true)
}

/// Whether the text is one of these words.
pub fn is_among(words: &[&[u8]], text: &[u8]) -> bool
    ensures { result ≡ spec.is_among (map (λ w. w.now) words.now) text.now }
{
    let mut rest = words;
    while let [word, more @ ..] = rest {
        if text == *word {
            return true;
        }
        rest = more;
    }
    false
}
