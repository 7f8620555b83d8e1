//! Expressions.

ghost use Rattle.protocol_reader.specs.Reading as spec;
ghost use Rattle.protocol_reader.specs.Reads.{Reads};

use super::name::name;
use super::number::{is_number, number};
use super::token::takes;
use crate::cursor::Cursor;
use crate::error::ReadError;
use proto_model::{Expr, Term};
use std::alloc::Global;

// `none | empty | NUMBER | NAME`
#[tactic(auto, unfolding(crate::specs::Reading::operand, crate::specs::Reading::number_or_name))]
fn operand(alloc: Global, cursor: &mut Cursor<'_>) -> Result<Term, ReadError>
    ensures { Reads (spec.operand cursor.old) result cursor.new }
{
    if takes(cursor, b"none") {
        return Ok(Term::Nowhere);
    }
    if takes(cursor, b"empty") {
        return Ok(Term::Empty);
    }
    if is_number(cursor.text()) {
        let number = number(cursor)?;
        return Ok(Term::Number(number));
    }
    let name = name(alloc, cursor)?;
    Ok(Term::Named(name))
}

/// `operand [+ operand | - operand]`
#[tactic(auto, unfolding(crate::specs::Reading::expression))]
pub fn expression(alloc: Global, cursor: &mut Cursor<'_>) -> Result<Expr, ReadError>
    ensures { Reads (spec.expression cursor.old) result cursor.new }
{
    let left = operand(alloc, cursor)?;
    if takes(cursor, b"+") {
        let right = operand(alloc, cursor)?;
        return Ok(Expr::Plus(left, right));
    }
    if takes(cursor, b"-") {
        let right = operand(alloc, cursor)?;
        return Ok(Expr::Minus(left, right));
    }
    Ok(Expr::One(left))
}
