//! States and processes.

ghost use Rattle.std.specs.Prelude.{[], ◌∷◌, codes};
ghost use Rattle.protocol_reader.specs.Reading as spec;
ghost use Rattle.protocol_reader.specs.Reads.{Reads};

use super::name::name;
use super::repeated::{Repeated, all};
use super::token::{begin, expect, is_among};
use crate::cursor::Cursor;
use crate::error::ReadError;
use proto_model::{Process, State};
use std::alloc::Global;

impl Repeated for State {
    ghost comes = { spec.is_among (codes "state" ∷ []) };

    ghost reader = { spec.state };

    fn comes(text: &[u8]) -> bool {
        is_among(&[b"state"], text)
    }

    #[tactic(auto, using(crate::proofs::Shorter::state_taken))]
    fn read(alloc: Global, cursor: &mut Cursor<'_>) -> Result<State, ReadError> {
        state(alloc, cursor)
    }
}

// `state NAME { guard* }`
#[tactic(auto, unfolding(crate::specs::Reading::state))]
fn state(alloc: Global, cursor: &mut Cursor<'_>) -> Result<State, ReadError>
    ensures { Reads (spec.state cursor.old) result cursor.new }
{
    begin(cursor, b"state")?;
    let name = name(alloc, cursor)?;
    expect(cursor, b"{")?;
    let guards = all(alloc, cursor)?;
    expect(cursor, b"}")?;
    Ok(State { name, guards })
}

/// `{ var* start NAME; state* }`
#[tactic(auto, unfolding(crate::specs::Reading::process))]
pub fn process(alloc: Global, cursor: &mut Cursor<'_>) -> Result<Process, ReadError>
    ensures { Reads (spec.process cursor.old) result cursor.new }
{
    expect(cursor, b"{")?;
    let vars = all(alloc, cursor)?;
    begin(cursor, b"start")?;
    let start = name(alloc, cursor)?;
    expect(cursor, b";")?;
    let states = all(alloc, cursor)?;
    expect(cursor, b"}")?;
    Ok(Process {
        vars,
        start,
        states,
    })
}
