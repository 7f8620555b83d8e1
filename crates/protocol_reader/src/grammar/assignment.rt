//! The assignments of a guard.

ghost use Rattle.std.specs.Prelude.{[], ◌∷◌, codes};
ghost use Rattle.protocol_reader.specs.Reading as spec;
ghost use Rattle.protocol_reader.specs.Reads.{Reads};

use super::expression::expression;
use super::name::name;
use super::repeated::{Repeated, and_all};
use super::token::{expect, is_among, takes};
use crate::cursor::Cursor;
use crate::error::ReadError;
use proto_model::Assign;
use rv_base::Items;
use std::alloc::Global;

impl Repeated for Assign {
    ghost comes = { spec.is_among (codes "," ∷ []) };

    ghost reader = { spec.comma_assignment };

    fn comes(text: &[u8]) -> bool {
        is_among(&[b","], text)
    }

    #[tactic(auto, using(crate::proofs::Shorter::comma_assignment_taken))]
    fn read(alloc: Global, cursor: &mut Cursor<'_>) -> Result<Assign, ReadError> {
        comma_assignment(alloc, cursor)
    }
}

// `NAME = expression`
#[tactic(auto, unfolding(crate::specs::Reading::assignment))]
fn assignment(alloc: Global, cursor: &mut Cursor<'_>) -> Result<Assign, ReadError>
    ensures { Reads (spec.assignment cursor.old) result cursor.new }
{
    let var = name(alloc, cursor)?;
    expect(cursor, b"=")?;
    let value = expression(alloc, cursor)?;
    Ok(Assign { var, value })
}

// `, assignment`
#[tactic(auto, unfolding(crate::specs::Reading::comma_assignment))]
fn comma_assignment(alloc: Global, cursor: &mut Cursor<'_>) -> Result<Assign, ReadError>
    ensures { Reads (spec.comma_assignment cursor.old) result cursor.new }
{
    expect(cursor, b",")?;
    let assignment = assignment(alloc, cursor)?;
    Ok(assignment)
}

/// `[do assignment (, assignment)*]`
#[tactic(auto, unfolding(crate::specs::Reading::assignments))]
pub fn assignments(alloc: Global, cursor: &mut Cursor<'_>) -> Result<Items<Assign>, ReadError>
    ensures { Reads (spec.assignments cursor.old) result cursor.new }
{
    if !takes(cursor, b"do") {
        return Ok(Items::new(alloc));
    }
    let first = assignment(alloc, cursor)?;
    and_all(alloc, cursor, first)
}
