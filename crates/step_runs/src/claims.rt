//! Where a claim is broken.

use crate::migration::{all_idle, asked, asks, granted, grants};
use crate::recall::requests_cross_over;
use crate::stepped::ONE_LEAN;
use memory_runs::{MIGRATORY_2, Wrong, ends, joined, migratory_body, over_file, schedule_ends};
use rvc_top::Status;
use std::alloc::Global;

// The line is on its way to remote 0, which stands for a remote that has it.
const BROKEN: &[u8] = b"\
claim 0 broken
end
  home E o=#0 j=#0 d=0 held[] owed[]
  remote 0 R* d=0 slot[] up[] down[=gr(0)]
abstract
  home E o=#0 j=#0 d=0
  remote 0 V d=0
";

const NONE_HAS_IT: &[u8] = b"claim atmost 0 in V;";

// What follows the step that breaks the claim, the first of which are the steps of a whole run.
const REST: [&[u8]; 3] = [b"down 0\n", b"", b"home fly"];

// That a run ends where the claim is broken, whatever follows.
fn breaks_before(alloc: Global, rest: &'static [u8]) -> Result<(), Wrong> {
    schedule_ends(
        alloc,
        &ONE_LEAN,
        &[MIGRATORY_2, migratory_body(), NONE_HAS_IT],
        &[asks(), grants(), rest],
        Status::ClaimBroken,
        &[asked(), granted(), BROKEN],
    )
}

#[test]
fn a_run_ends_where_its_abstraction_breaks_a_claim(rt: HostRuntime) -> Result<(), Wrong> {
    for rest in REST {
        breaks_before(rt.alloc(), rest)?;
    }
    Ok(())
}

// That such a run with one remote, which reads its file alone, ends with this text.
fn breaks_at_start(alloc: Global, text: &[u8]) -> Result<(), Wrong> {
    let file = [
        MIGRATORY_2,
        migratory_body(),
        b"claim atmost 0 in I;".as_slice(),
    ];
    ends(
        alloc,
        &over_file(&ONE_LEAN, &file, Status::ClaimBroken, text),
    )
}

#[test]
fn a_claim_that_is_broken_at_the_start_reads_no_line(rt: HostRuntime) -> Result<(), Wrong> {
    match joined(rt.alloc(), &[b"claim 0 broken\n", all_idle()]) {
        Ok(text) => breaks_at_start(rt.alloc(), &text),
        Err(_) => Err(Wrong::NoMemory),
    }
}

#[test]
fn a_claim_that_holds_changes_nothing(rt: HostRuntime) -> Result<(), Wrong> {
    let claim = b"claim not V with V;".as_slice();
    requests_cross_over(rt.alloc(), &[MIGRATORY_2, migratory_body(), claim])
}
