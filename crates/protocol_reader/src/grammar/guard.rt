//! The guards of a state.

ghost use Rattle.protocol_reader.specs.Reading as spec;
ghost use Rattle.protocol_reader.specs.Reads.{Reads};

use super::assignment::assignments;
use super::condition::conditions;
use super::expression::expression;
use super::name::name;
use super::repeated::Repeated;
use super::token::{begin, begins, expect, is_among, takes};
use crate::cursor::Cursor;
use crate::error::ReadError;
use proto_model::{Expr, Guard, GuardKind, Name, Partner};
use std::alloc::Global;

impl Repeated for Guard {
    ghost comes = { spec.is_among spec.guard_words };

    ghost reader = { spec.guard };

    fn comes(text: &[u8]) -> bool {
        is_among(&[b"tau", b"from", b"to"], text)
    }

    #[tactic(auto, using(crate::proofs::Shorter::guard_taken))]
    fn read(alloc: Global, cursor: &mut Cursor<'_>) -> Result<Guard, ReadError> {
        guard(alloc, cursor)
    }
}

// `action [when ..] [do ..] goto NAME;`
#[tactic(auto, unfolding(crate::specs::Reading::guard))]
fn guard(alloc: Global, cursor: &mut Cursor<'_>) -> Result<Guard, ReadError>
    ensures { Reads (spec.guard cursor.old) result cursor.new }
{
    let kind = guard_action(alloc, cursor)?;
    let conds = conditions(alloc, cursor)?;
    let assigns = assignments(alloc, cursor)?;
    expect(cursor, b"goto")?;
    let next = name(alloc, cursor)?;
    expect(cursor, b";")?;
    Ok(Guard {
        kind,
        conds,
        assigns,
        next,
    })
}

// `tau | from input | to output`
#[tactic(auto, unfolding(crate::specs::Reading::guard_action))]
fn guard_action(alloc: Global, cursor: &mut Cursor<'_>) -> Result<GuardKind, ReadError>
    ensures { Reads (spec.guard_action cursor.old) result cursor.new }
{
    if begins(cursor, b"tau")? {
        return Ok(GuardKind::Tau);
    }
    if begins(cursor, b"from")? {
        return input(alloc, cursor);
    }
    begin(cursor, b"to")?;
    output(alloc, cursor)
}

// `partner ? NAME [(NAME)]`
#[tactic(auto, unfolding(crate::specs::Reading::input))]
fn input(alloc: Global, cursor: &mut Cursor<'_>) -> Result<GuardKind, ReadError>
    ensures { Reads (spec.mapped spec.input_of spec.input cursor.old) result cursor.new }
{
    let partner = partner(alloc, cursor)?;
    expect(cursor, b"?")?;
    let message = name(alloc, cursor)?;
    let bound = bound(alloc, cursor)?;
    Ok(GuardKind::Input(partner, message, bound))
}

// `partner ! NAME [(expression)]`
#[tactic(auto, unfolding(crate::specs::Reading::output))]
fn output(alloc: Global, cursor: &mut Cursor<'_>) -> Result<GuardKind, ReadError>
    ensures { Reads (spec.mapped spec.output_of spec.output cursor.old) result cursor.new }
{
    let partner = partner(alloc, cursor)?;
    expect(cursor, b"!")?;
    let message = name(alloc, cursor)?;
    let value = value(alloc, cursor)?;
    Ok(GuardKind::Output(partner, message, value))
}

// `home | any NAME [in NAME] | NAME`
#[tactic(auto, unfolding(crate::specs::Reading::partner))]
fn partner(alloc: Global, cursor: &mut Cursor<'_>) -> Result<Partner, ReadError>
    ensures { Reads (spec.partner cursor.old) result cursor.new }
{
    if takes(cursor, b"home") {
        return Ok(Partner::Home);
    }
    if takes(cursor, b"any") {
        let member = name(alloc, cursor)?;
        if takes(cursor, b"in") {
            let set = name(alloc, cursor)?;
            return Ok(Partner::Member(member, set));
        }
        return Ok(Partner::Any(member));
    }
    let variable = name(alloc, cursor)?;
    Ok(Partner::Named(variable))
}

// `[(NAME)]`
#[tactic(auto, unfolding(crate::specs::Reading::bound))]
fn bound(alloc: Global, cursor: &mut Cursor<'_>) -> Result<Option<Name>, ReadError>
    ensures { Reads (spec.bound cursor.old) result cursor.new }
{
    if !takes(cursor, b"(") {
        return Ok(None);
    }
    let variable = name(alloc, cursor)?;
    expect(cursor, b")")?;
    Ok(Some(variable))
}

// `[(expression)]`
#[tactic(auto, unfolding(crate::specs::Reading::value))]
fn value(alloc: Global, cursor: &mut Cursor<'_>) -> Result<Option<Expr>, ReadError>
    ensures { Reads (spec.value cursor.old) result cursor.new }
{
    if !takes(cursor, b"(") {
        return Ok(None);
    }
    let value = expression(alloc, cursor)?;
    expect(cursor, b")")?;
    Ok(Some(value))
}
