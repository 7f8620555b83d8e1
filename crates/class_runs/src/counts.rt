//! How many classes the protocols have.

use crate::library::{BARRIER, HANDOVER, MESI, MI, MSI, PRODUCER, QUEUE};
use crate::locks::{HASTY, LOCK, READERS};
use crate::searches::{Wrong, ends};
use level_search::Outcome;

// All classes: so many, so deep.
fn all(states: usize, deepest: usize) -> Outcome {
    Outcome::All { states, deepest }
}

#[test]
fn with_so_many_remotes(rt: HostRuntime) -> Result<(), Wrong> {
    ends(rt.alloc(), LOCK, Some(2), 1_000_000, all(36, 11))?;
    ends(rt.alloc(), MESI, Some(3), 1_000_000, all(438, 19))?;
    ends(rt.alloc(), MI, Some(8), 1_000_000, all(216, 17))?;
    ends(rt.alloc(), MSI, Some(8), 1_000_000, all(11502, 37))?;
    ends(rt.alloc(), MESI, Some(8), 1_000_000, all(11732, 44))?;
    Ok(())
}

#[test]
fn with_any_number(rt: HostRuntime) -> Result<(), Wrong> {
    ends(rt.alloc(), LOCK, None, 1_000_000, all(140, 11))?;
    ends(rt.alloc(), MI, None, 1_000_000, all(248, 11))?;
    ends(rt.alloc(), QUEUE, None, 1_000_000, all(2732, 19))?;
    ends(rt.alloc(), BARRIER, None, 1_000_000, all(10186, 24))?;
    ends(rt.alloc(), MSI, None, 1_000_000, all(12094, 17))?;
    ends(rt.alloc(), MESI, None, 1_000_000, all(13380, 19))?;
    ends(rt.alloc(), READERS, None, 1_000_000, all(566, 11))?;
    Ok(())
}

#[test]
fn the_least_depth_of_a_fault(rt: HostRuntime) -> Result<(), Wrong> {
    ends(
        rt.alloc(),
        HASTY,
        Some(2),
        1_000,
        Outcome::Faulty { depth: 6 },
    )?;
    ends(
        rt.alloc(),
        PRODUCER,
        Some(1),
        1_000,
        Outcome::Faulty { depth: 8 },
    )?;
    ends(
        rt.alloc(),
        HASTY,
        None,
        10_000,
        Outcome::Faulty { depth: 4 },
    )
}

#[test]
fn as_many_as_are_allowed(rt: HostRuntime) -> Result<(), Wrong> {
    ends(rt.alloc(), LOCK, Some(2), 36, all(36, 11))?;
    ends(
        rt.alloc(),
        LOCK,
        Some(2),
        35,
        Outcome::More { depth: Some(10) },
    )?;
    ends(
        rt.alloc(),
        MESI,
        Some(3),
        100,
        Outcome::More { depth: Some(6) },
    )?;
    ends(rt.alloc(), HANDOVER, Some(2), 1_000, all(28, 9))
}
