//! Whether the claims of a protocol hold where its remotes stand.

ghost use Rattle.std.specs.Prelude.{◌≤◌, ◌^◌, length};

use proto_model::{NumberedClaim, Part, RvConfig, first_vars};
use rendezvous_meaning::broken;
use rv_base::{Items, NoMemory};
use std::alloc::Global;
use std::test::Fail;

fn part(state: u8) -> Part {
    Part {
        state,
        vars: first_vars(&[]),
    }
}

// The claim that is told of remotes that stand in these states, each without variables.
fn told(alloc: Global, claims: &[NumberedClaim], states: &[u8]) -> Result<Option<u32>, NoMemory>
    requires { length claims.now ≤ 2 ^ 32 }
{
    let mut remotes = Items::new(alloc);
    for state in states {
        remotes.push(part(*state))?;
    }
    let home = part(0);
    Ok(broken(claims, &RvConfig { home, remotes }))
}

#[test]
fn the_first_claim_that_does_not_hold_is_told(rt: HostRuntime) -> Result<(), Fail> {
    let claims = [
        NumberedClaim::AtMost(2, 0b110),
        NumberedClaim::Apart(1, 1),
        NumberedClaim::Apart(0, 3),
    ];
    for (states, answer) in [
        ([0, 1, 2], None),
        ([3, 3, 1], None),
        ([1, 2, 2], Some(0)),
        ([1, 1, 1], Some(0)),
        ([1, 0, 1], Some(1)),
        ([3, 1, 0], Some(2)),
    ] {
        assert_eq!(rt; told(rt.alloc(), &claims, &states)?, answer);
    }
    Ok(())
}
