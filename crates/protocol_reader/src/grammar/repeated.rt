//! Things of which any number may follow one another.

ghost use Rattle.std.specs.Prelude.{◌≡◌, ◌<◌, ◌++◌, ◌∷◌, List, Bool, IfOk, length};
ghost use Rattle.proto_model.specs.Tokens.{Text};
ghost use Rattle.protocol_reader.specs.Reading.{Reader, mapped, many_at};
ghost use Rattle.protocol_reader.specs.Reads.{Reads};

use crate::cursor::Cursor;
use crate::error::ReadError;
use rv_base::Items;
use std::alloc::Global;

/// A thing of which any number may follow one another.
pub trait Repeated: Drop {
    /// Whether a further one comes, where this text comes next.
    ghost comes: { Text → Bool };

    /// What reading one takes from the lexemes.
    ghost reader: { Reader Self };

    /// Whether a further one comes, where this text comes next.
    fn comes(text: &[u8]) -> bool
        ensures { result ≡ comes text.now };

    /// Takes one, which is a lexeme at least.
    fn read(alloc: Global, cursor: &mut Cursor<'_>) -> Result<Self, ReadError>
        ensures rule { Reads (reader cursor.old) result cursor.new }
        ensures taken { IfOk result (λ _. length cursor.new.lexemes < length cursor.old.lexemes) };
}

// Takes those that follow, behind these.
fn each<T: Repeated>(
    alloc: Global,
    cursor: &mut Cursor<'_>,
    mut items: Items<T>,
) -> Result<Items<T>, ReadError>
    ensures { Reads (mapped (λ more. items ++ more) (many_at T.comes T.reader) cursor.old)
        result cursor.new }
{
    'each: while T::comes(cursor.text()) {
        let item = T::read(alloc, cursor)?;
        items.push(item)?;
    }
    Ok(items)
}

/// Takes all that follow.
pub fn all<T: Repeated>(alloc: Global, cursor: &mut Cursor<'_>) -> Result<Items<T>, ReadError>
    ensures { Reads (many_at T.comes T.reader cursor.old) result cursor.new }
{
    each(alloc, cursor, Items::new(alloc))
}

/// Takes all that follow, behind this one.
pub fn and_all<T: Repeated>(
    alloc: Global,
    cursor: &mut Cursor<'_>,
    first: T,
) -> Result<Items<T>, ReadError>
    ensures { Reads (mapped (λ more. first ∷ more) (many_at T.comes T.reader) cursor.old)
        result cursor.new }
{
    let mut items = Items::new(alloc);
    items.push(first)?;
    each(alloc, cursor, items)
}
