//! The conditions of a guard.

ghost use Rattle.std.specs.Prelude.{[], ◌∷◌, codes};
ghost use Rattle.protocol_reader.specs.Reading as spec;
ghost use Rattle.protocol_reader.specs.Reads.{Reads};

use super::expression::expression;
use super::repeated::{Repeated, and_all};
use super::token::{expect, is_among, takes};
use crate::cursor::Cursor;
use crate::error::ReadError;
use proto_model::{Atom, Rel};
use rv_base::Items;
use std::alloc::Global;

impl Repeated for Atom {
    ghost comes = { spec.is_among (codes "and" ∷ []) };

    ghost reader = { spec.and_atom };

    fn comes(text: &[u8]) -> bool {
        is_among(&[b"and"], text)
    }

    #[tactic(auto, using(crate::proofs::Shorter::and_atom_taken))]
    fn read(alloc: Global, cursor: &mut Cursor<'_>) -> Result<Atom, ReadError> {
        and_atom(alloc, cursor)
    }
}

// `eq | ne | lt | le | in | notin`
#[tactic(auto, unfolding(crate::specs::Reading::relation))]
fn relation(cursor: &mut Cursor<'_>) -> Result<Rel, ReadError>
    ensures { Reads (spec.relation cursor.old) result cursor.new }
{
    if takes(cursor, b"eq") {
        return Ok(Rel::Eq);
    }
    if takes(cursor, b"ne") {
        return Ok(Rel::Ne);
    }
    if takes(cursor, b"lt") {
        return Ok(Rel::Lt);
    }
    if takes(cursor, b"le") {
        return Ok(Rel::Le);
    }
    if takes(cursor, b"in") {
        return Ok(Rel::Inside);
    }
    expect(cursor, b"notin")?;
    Ok(Rel::Outside)
}

// `expression relation expression`
#[tactic(auto, unfolding(crate::specs::Reading::atom))]
fn atom(alloc: Global, cursor: &mut Cursor<'_>) -> Result<Atom, ReadError>
    ensures { Reads (spec.atom cursor.old) result cursor.new }
{
    let left = expression(alloc, cursor)?;
    let rel = relation(cursor)?;
    let right = expression(alloc, cursor)?;
    Ok(Atom { left, rel, right })
}

// `and atom`
#[tactic(auto, unfolding(crate::specs::Reading::and_atom))]
fn and_atom(alloc: Global, cursor: &mut Cursor<'_>) -> Result<Atom, ReadError>
    ensures { Reads (spec.and_atom cursor.old) result cursor.new }
{
    expect(cursor, b"and")?;
    let atom = atom(alloc, cursor)?;
    Ok(atom)
}

/// `[when atom (and atom)*]`
#[tactic(auto, unfolding(crate::specs::Reading::conditions))]
pub fn conditions(alloc: Global, cursor: &mut Cursor<'_>) -> Result<Items<Atom>, ReadError>
    ensures { Reads (spec.conditions cursor.old) result cursor.new }
{
    if !takes(cursor, b"when") {
        return Ok(Items::new(alloc));
    }
    let first = atom(alloc, cursor)?;
    and_all(alloc, cursor, first)
}
