//! Messages.

ghost use Rattle.std.specs.Prelude.{[], ◌∷◌, codes};
ghost use Rattle.protocol_reader.specs.Reading as spec;
ghost use Rattle.protocol_reader.specs.Reads.{Reads};

use super::name::name;
use super::number::number;
use super::repeated::Repeated;
use super::token::{begin, expect, is_among, takes};
use crate::cursor::Cursor;
use crate::error::ReadError;
use proto_model::{Carry, Message};
use std::alloc::Global;

impl Repeated for Message {
    ghost comes = { spec.is_among (codes "message" ∷ []) };

    ghost reader = { spec.message };

    fn comes(text: &[u8]) -> bool {
        is_among(&[b"message"], text)
    }

    #[tactic(auto, using(crate::proofs::Shorter::message_taken))]
    fn read(alloc: Global, cursor: &mut Cursor<'_>) -> Result<Message, ReadError> {
        message(alloc, cursor)
    }
}

// `message NAME (up | down) [type];`
#[tactic(auto, unfolding(crate::specs::Reading::message))]
fn message(alloc: Global, cursor: &mut Cursor<'_>) -> Result<Message, ReadError>
    ensures { Reads (spec.message cursor.old) result cursor.new }
{
    begin(cursor, b"message")?;
    let name = name(alloc, cursor)?;
    let up = direction(cursor)?;
    let carries = carried(cursor)?;
    expect(cursor, b";")?;
    Ok(Message { name, up, carries })
}

// `up | down`: whether it is `up`.
#[tactic(auto, unfolding(crate::specs::Reading::direction))]
fn direction(cursor: &mut Cursor<'_>) -> Result<bool, ReadError>
    ensures { Reads (spec.direction cursor.old) result cursor.new }
{
    if takes(cursor, b"up") {
        return Ok(true);
    }
    expect(cursor, b"down")?;
    Ok(false)
}

// `[int NUMBER | node | set]`
#[tactic(auto, unfolding(crate::specs::Reading::carried))]
fn carried(cursor: &mut Cursor<'_>) -> Result<Carry, ReadError>
    ensures { Reads (spec.carried cursor.old) result cursor.new }
{
    if takes(cursor, b"int") {
        let size = number(cursor)?;
        return Ok(Carry::Int(size));
    }
    if takes(cursor, b"node") {
        return Ok(Carry::Node);
    }
    if takes(cursor, b"set") {
        return Ok(Carry::Set);
    }
    Ok(Carry::Nothing)
}
