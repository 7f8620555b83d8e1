//! Variables.

ghost use Rattle.std.specs.Prelude.{[], ◌∷◌, codes};
ghost use Rattle.protocol_reader.specs.Reading as spec;
ghost use Rattle.protocol_reader.specs.Reads.{Reads};

use super::name::name;
use super::number::number;
use super::repeated::Repeated;
use super::token::{begin, expect, is_among, takes};
use crate::cursor::Cursor;
use crate::error::ReadError;
use proto_model::{Initial, Var, VarKind};
use std::alloc::Global;

impl Repeated for Var {
    ghost comes = { spec.is_among (codes "var" ∷ []) };

    ghost reader = { spec.variable };

    fn comes(text: &[u8]) -> bool {
        is_among(&[b"var"], text)
    }

    #[tactic(auto, using(crate::proofs::Shorter::variable_taken))]
    fn read(alloc: Global, cursor: &mut Cursor<'_>) -> Result<Var, ReadError> {
        variable(alloc, cursor)
    }
}

// `var NAME type = initial;`
#[tactic(auto, unfolding(crate::specs::Reading::variable))]
fn variable(alloc: Global, cursor: &mut Cursor<'_>) -> Result<Var, ReadError>
    ensures { Reads (spec.variable cursor.old) result cursor.new }
{
    begin(cursor, b"var")?;
    let name = name(alloc, cursor)?;
    let kind = var_kind(cursor)?;
    expect(cursor, b"=")?;
    let first = initial(cursor)?;
    expect(cursor, b";")?;
    Ok(Var { name, kind, first })
}

// `int NUMBER | node | set`
#[tactic(auto, unfolding(crate::specs::Reading::var_kind))]
fn var_kind(cursor: &mut Cursor<'_>) -> Result<VarKind, ReadError>
    ensures { Reads (spec.var_kind cursor.old) result cursor.new }
{
    if takes(cursor, b"int") {
        let size = number(cursor)?;
        return Ok(VarKind::Int(size));
    }
    if takes(cursor, b"node") {
        return Ok(VarKind::Node);
    }
    expect(cursor, b"set")?;
    Ok(VarKind::Set)
}

// `none | empty | NUMBER`
#[tactic(auto, unfolding(crate::specs::Reading::initial))]
fn initial(cursor: &mut Cursor<'_>) -> Result<Initial, ReadError>
    ensures { Reads (spec.initial cursor.old) result cursor.new }
{
    if takes(cursor, b"none") {
        return Ok(Initial::Nowhere);
    }
    if takes(cursor, b"empty") {
        return Ok(Initial::Empty);
    }
    let number = number(cursor)?;
    Ok(Initial::Number(number))
}
