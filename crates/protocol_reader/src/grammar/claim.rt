//! The claims of a protocol.

ghost use Rattle.std.specs.Prelude.{[], ◌∷◌, codes};
ghost use Rattle.protocol_reader.specs.Reading as spec;
ghost use Rattle.protocol_reader.specs.Reads.{Reads};

use super::name::{name, names};
use super::number::number;
use super::repeated::Repeated;
use super::token::{begin, expect, is_among, takes};
use crate::cursor::Cursor;
use crate::error::ReadError;
use proto_model::Claim;
use std::alloc::Global;

impl Repeated for Claim {
    ghost comes = { spec.is_among (codes "claim" ∷ []) };

    ghost reader = { spec.claim };

    fn comes(text: &[u8]) -> bool {
        is_among(&[b"claim"], text)
    }

    #[tactic(auto, using(crate::proofs::Shorter::claim_taken))]
    fn read(alloc: Global, cursor: &mut Cursor<'_>) -> Result<Claim, ReadError> {
        claim(alloc, cursor)
    }
}

// `claim atmost NUMBER in NAME NAME*;` or `claim not NAME with NAME;`
#[tactic(auto, unfolding(crate::specs::Reading::claim))]
fn claim(alloc: Global, cursor: &mut Cursor<'_>) -> Result<Claim, ReadError>
    ensures { Reads (spec.claim cursor.old) result cursor.new }
{
    begin(cursor, b"claim")?;
    if takes(cursor, b"atmost") {
        let most = number(cursor)?;
        expect(cursor, b"in")?;
        let states = names(alloc, cursor)?;
        expect(cursor, b";")?;
        return Ok(Claim::AtMost(most, states));
    }
    expect(cursor, b"not")?;
    let one = name(alloc, cursor)?;
    expect(cursor, b"with")?;
    let other = name(alloc, cursor)?;
    expect(cursor, b";")?;
    Ok(Claim::Apart(one, other))
}
