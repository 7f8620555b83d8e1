//! What `boot` does with a control store.

use crate::images::{
    CLAIMED_HEAD, LEAN_HEAD, LEAN_ROWS, PLAIN_HEAD, PLAIN_ROWS, STILL_HEAD, STILL_ROW,
};
use crate::words::BOOT;
use memory_runs::{MIGRATORY, MIGRATORY_2, STILL, Wrong, migratory_body, schedule_ends};
use rvc_top::Status;

/// The store of `still`, whose one remote gets nothing.
pub const STANDS: &[u8] = b"\
1 up 0: refused
end
  home H held[] owed[]
  remote 0 R slot[] up[] down[]
abstract
  home H
  remote 0 R
";

#[test]
fn a_store_runs_as_its_protocol_does(rt: HostRuntime) -> Result<(), Wrong> {
    schedule_ends(
        rt.alloc(),
        &BOOT,
        &[STILL_HEAD, STILL, STILL_ROW],
        &[b"up 0\n"],
        Status::Done,
        &[STANDS],
    )
}

// The remote asks for the line, and the home sends it.
const ASKS: &[u8] = b"\
remote 0 tau 0
remote 0 send
up 0
home take 0
home send 0 0
down 0
";

const LEAN: &[u8] = b"\
1 remote 0 tau 0: tau 0 0
  remote 0 R d=0 slot[] up[] down[]
2 remote 0 send: stutter
  remote 0 R* d=0 slot[] up[?req] down[]
3 up 0: stutter
  home F o=none j=none d=0 held[0:req] owed[]
  remote 0 R* d=0 slot[] up[] down[]
4 home take 0: up 0 0 0 req
  home G o=none j=#0 d=0 held[] owed[0:gr]
  remote 0 R* d=0 slot[] up[] down[]
5 home send 0 0: down 0 0 0 gr(0)
  home E o=#0 j=#0 d=0 held[] owed[]
  remote 0 R* d=0 slot[] up[] down[=gr(0)]
6 down 0: stutter
  remote 0 V d=0 slot[] up[] down[]
end
  home E o=#0 j=#0 d=0 held[] owed[]
  remote 0 V d=0 slot[] up[] down[]
abstract
  home E o=#0 j=#0 d=0
  remote 0 V d=0
";

const PLAIN: &[u8] = b"\
1 remote 0 tau 0: tau 0 0
  remote 0 R d=0 slot[] up[] down[]
2 remote 0 send: stutter
  remote 0 R* d=0 slot[] up[?req] down[]
3 up 0: stutter
  home F o=none j=none d=0 held[0:req] owed[]
  remote 0 R* d=0 slot[] up[] down[]
4 home take 0: up 0 0 0 req
  home G o=none j=#0 d=0 held[] owed[]
  remote 0 R* d=0 slot[] up[] down[+]
5 home send 0 0: stutter
  home G/0>0 o=none j=#0 d=0 held[] owed[]
  remote 0 R* d=0 slot[] up[] down[+,?gr(0)]
6 down 0: stutter
  remote 0 W d=0 slot[] up[] down[?gr(0)]
end
  home G/0>0 o=none j=#0 d=0 held[] owed[]
  remote 0 W d=0 slot[] up[] down[?gr(0)]
abstract
  home G o=none j=#0 d=0
  remote 0 W d=0
";

#[test]
fn a_store_runs_in_its_mode(rt: HostRuntime) -> Result<(), Wrong> {
    schedule_ends(
        rt.alloc(),
        &BOOT,
        &[LEAN_HEAD, MIGRATORY, LEAN_ROWS],
        &[ASKS],
        Status::Done,
        &[LEAN],
    )?;
    schedule_ends(
        rt.alloc(),
        &BOOT,
        &[PLAIN_HEAD, MIGRATORY, PLAIN_ROWS],
        &[ASKS],
        Status::Done,
        &[PLAIN],
    )
}

// No remote may have the line.
const BROKEN: &[u8] = b"\
1 remote 0 tau 0: tau 0 0
  remote 0 R d=0 slot[] up[] down[]
2 remote 0 send: stutter
  remote 0 R* d=0 slot[] up[?req] down[]
3 up 0: stutter
  home F o=none j=none d=0 held[0:req] owed[]
  remote 0 R* d=0 slot[] up[] down[]
4 home take 0: up 0 0 0 req
  home G o=none j=#0 d=0 held[] owed[0:gr]
  remote 0 R* d=0 slot[] up[] down[]
5 home send 0 0: down 0 0 0 gr(0)
  home E o=#0 j=#0 d=0 held[] owed[]
  remote 0 R* d=0 slot[] up[] down[=gr(0)]
claim 0 broken
end
  home E o=#0 j=#0 d=0 held[] owed[]
  remote 0 R* d=0 slot[] up[] down[=gr(0)]
abstract
  home E o=#0 j=#0 d=0
  remote 0 V d=0
";

#[test]
fn the_claims_of_a_store_are_looked_at(rt: HostRuntime) -> Result<(), Wrong> {
    schedule_ends(
        rt.alloc(),
        &BOOT,
        &[
            CLAIMED_HEAD,
            MIGRATORY_2,
            migratory_body(),
            b"claim atmost 0 in V;\n",
            LEAN_ROWS,
        ],
        &[ASKS],
        Status::ClaimBroken,
        &[BROKEN],
    )
}

#[test]
fn a_line_that_is_no_step_is_refused(rt: HostRuntime) -> Result<(), Wrong> {
    schedule_ends(
        rt.alloc(),
        &BOOT,
        &[STILL_HEAD, STILL, STILL_ROW],
        &[b"up 0\nnet 0 up lose 0\n"],
        Status::ScheduleRefused,
        &[b"1 up 0: refused\nerror schedule line 2\n"],
    )
}
