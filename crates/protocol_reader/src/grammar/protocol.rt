//! The protocol, in each version of the language.

ghost use Rattle.protocol_reader.specs.Reading as spec;
ghost use Rattle.protocol_reader.specs.Reads.{Reads};

use super::name::name;
use super::process::process;
use super::repeated::all;
use super::token::{begin, expect, takes};
use crate::cursor::Cursor;
use crate::error::ReadError;
use proto_model::{Message, Process, Protocol};
use rv_base::Items;
use std::alloc::Global;

// `message* home process remote process`
#[tactic(auto, unfolding(crate::specs::Reading::body))]
fn body(
    alloc: Global,
    cursor: &mut Cursor<'_>,
) -> Result<(Items<Message>, Process, Process), ReadError>
    ensures { Reads (spec.body cursor.old) result cursor.new }
{
    let messages = all(alloc, cursor)?;
    begin(cursor, b"home")?;
    let home = process(alloc, cursor)?;
    begin(cursor, b"remote")?;
    let remote = process(alloc, cursor)?;
    Ok((messages, home, remote))
}

// `protocol NAME version 2; body claim*`, or `protocol NAME; body`, which is of version 1.
#[tactic(auto, unfolding(crate::specs::Reading::protocol))]
fn protocol(alloc: Global, cursor: &mut Cursor<'_>) -> Result<Protocol, ReadError>
    ensures { Reads (spec.protocol cursor.old) result cursor.new }
{
    begin(cursor, b"protocol")?;
    let name = name(alloc, cursor)?;
    if takes(cursor, b"version") {
        expect(cursor, b"2")?;
        expect(cursor, b";")?;
        let (messages, home, remote) = body(alloc, cursor)?;
        let claims = all(alloc, cursor)?;
        return Ok(Protocol {
            name,
            version: 2,
            messages,
            home,
            remote,
            claims,
        });
    }
    expect(cursor, b";")?;
    let (messages, home, remote) = body(alloc, cursor)?;
    Ok(Protocol {
        name,
        version: 1,
        messages,
        home,
        remote,
        claims: Items::new(alloc),
    })
}

/// Takes a whole file: a protocol, behind which the file ends. A fault of syntax has the line of
/// the lexeme at which the cursor then stands.
#[tactic(auto, unfolding(crate::specs::Reading::file))]
pub fn file(alloc: Global, cursor: &mut Cursor<'_>) -> Result<Protocol, ReadError>
    ensures { Reads (spec.file cursor.old) result cursor.new }
{
    let protocol = protocol(alloc, cursor)?;
    if !cursor.is_at_end() {
        return Err(cursor.refuse());
    }
    Ok(protocol)
}
