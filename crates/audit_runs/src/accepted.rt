//! Traces of `run`.

use crate::traces::TRACE;
use crate::words::ONE;
use memory_runs::{
    HOLD, INVALIDATE, MIGRATORY, MIGRATORY_2, STILL, THREE, Wrong, migratory_body, schedule_ends,
};
use rvc_top::Status;

#[test]
fn a_trace_of_three_events_is_accepted(rt: HostRuntime) -> Result<(), Wrong> {
    schedule_ends(
        rt.alloc(),
        &ONE,
        &[MIGRATORY],
        &[TRACE],
        Status::Done,
        &[b"audit ok 3\n"],
    )
}

// The claim that no remote is idle is broken at the start.
#[test]
fn no_claim_is_looked_at(rt: HostRuntime) -> Result<(), Wrong> {
    let claim = b"claim atmost 0 in I;".as_slice();
    schedule_ends(
        rt.alloc(),
        &ONE,
        &[MIGRATORY_2, migratory_body(), claim],
        &[TRACE],
        Status::Done,
        &[b"audit ok 3\n"],
    )
}

// A home and a remote send to each other in mode plain; two steps are refused at the end.
const PILED_UP: &[u8] = b"\
1 home send 0 0: stutter
  home H/0>0 j=none held[] owed[]
  remote 0 P slot[] up[] down[?a]
2 remote 0 tau 0: tau 0 0
  remote 0 Q slot[] up[] down[?a]
3 remote 0 send: stutter
  remote 0 Q* slot[] up[?b] down[?a]
4 up 0: stutter
  home H j=none held[0:b] owed[]
  remote 0 Q* slot[] up[] down[?a]
5 home take 0: up 0 1 0 b
  home H j=#0 held[] owed[]
  remote 0 Q* slot[] up[] down[?a,+]
6 home send 0 0: stutter
  home H/0>0 j=#0 held[] owed[]
  remote 0 Q* slot[] up[] down[?a,+,?a]
7 down 0: stutter
  remote 0 Q* slot[] up[] down[+,?a]
8 down 0: stutter
  remote 0 P slot[] up[] down[?a]
9 down 0: stutter
  remote 0 P slot[a] up[] down[]
10 remote 0 answer: down 0 0 1 a
  remote 0 P slot[] up[+] down[]
11 up 0: stutter
  home H j=#0 held[] owed[]
  remote 0 P slot[] up[] down[]
12 home drop 0: refused
13 remote 5 send: refused
end
  home H j=#0 held[] owed[]
  remote 0 P slot[] up[] down[]
abstract
  home H j=#0
  remote 0 P
";

#[test]
fn steps_that_are_refused_tell_no_event(rt: HostRuntime) -> Result<(), Wrong> {
    schedule_ends(
        rt.alloc(),
        &ONE,
        &[THREE],
        &[PILED_UP],
        Status::Done,
        &[b"audit ok 3\n"],
    )
}

// Remote 0 reads, and gives the line up when remote 1 asks to write.
const SHARED: &[u8] = b"\
1 remote 0 tau 0: tau 0 0
  remote 0 RS d=0 slot[] up[] down[]
2 remote 0 send: stutter
  remote 0 RS* d=0 slot[] up[?rs] down[]
3 up 0: stutter
  home U j=none o=none v=none s={} d=0 held[0:rs] owed[]
  remote 0 RS* d=0 slot[] up[] down[]
4 home take 0: up 0 0 0 rs
  home GS j=#0 o=none v=none s={} d=0 held[] owed[0:gs]
  remote 0 RS* d=0 slot[] up[] down[]
5 home send 0 0: down 0 0 0 gs(0)
  home U j=#0 o=none v=none s={0} d=0 held[] owed[]
  remote 0 RS* d=0 slot[] up[] down[=gs(0)]
6 down 0: stutter
  remote 0 S d=0 slot[] up[] down[]
7 remote 1 tau 1: tau 1 1
  remote 1 RX d=0 slot[] up[] down[]
8 remote 1 send: stutter
  remote 1 RX* d=0 slot[] up[?rx] down[]
9 up 1: stutter
  home U j=#0 o=none v=none s={0} d=0 held[1:rx] owed[]
  remote 1 RX* d=0 slot[] up[] down[]
10 home take 1: up 1 1 0 rx
  home INV j=#1 o=none v=none s={0} d=0 held[] owed[1:gx]
  remote 1 RX* d=0 slot[] up[] down[]
11 home send 0 0: stutter
  home INV/0>0 j=#1 o=none v=none s={0} d=0 held[] owed[1:gx]
  remote 0 S d=0 slot[] up[] down[?inv]
12 remote 0 tau 0: tau 0 0
  remote 0 E d=0 slot[] up[] down[?inv]
13 remote 0 send: stutter
  remote 0 E* d=0 slot[] up[?ev] down[?inv]
14 down 0: stutter
  remote 0 E* d=0 slot[] up[?ev] down[]
15 up 0: stutter
  home INV j=#1 o=none v=none s={0} d=0 held[0:ev] owed[1:gx]
  remote 0 E* d=0 slot[] up[] down[]
16 home take 0: up 0 1 0 ev
  home INV j=#1 o=none v=#0 s={} d=0 held[] owed[1:gx]
  remote 0 E* d=0 slot[] up[] down[+]
17 home tau 2: tau home 2
  home GX j=#1 o=none v=#0 s={} d=0 held[] owed[1:gx]
18 home send 0 1: down 1 0 0 gx(0)
  home X j=#1 o=#1 v=#0 s={} d=0 held[] owed[]
  remote 1 RX* d=0 slot[] up[] down[=gx(0)]
19 down 0: stutter
  remote 0 I d=0 slot[] up[] down[]
20 down 1: stutter
  remote 1 M d=0 slot[] up[] down[]
21 remote 1 tau 0: tau 1 0
  remote 1 M d=1 slot[] up[] down[]
end
  home X j=#1 o=#1 v=#0 s={} d=0 held[] owed[]
  remote 0 I d=0 slot[] up[] down[]
  remote 1 M d=1 slot[] up[] down[]
abstract
  home X j=#1 o=#1 v=#0 s={} d=0
  remote 0 I d=0
  remote 1 M d=1
";

#[test]
fn two_remotes_share_a_line(rt: HostRuntime) -> Result<(), Wrong> {
    schedule_ends(
        rt.alloc(),
        &["audit", "p", "2"],
        &[INVALIDATE],
        &[SHARED],
        Status::Done,
        &[b"audit ok 10\n"],
    )
}

// The trace of one file, audited for another.
#[test]
fn a_trace_of_another_protocol_is_refused(rt: HostRuntime) -> Result<(), Wrong> {
    schedule_ends(
        rt.alloc(),
        &ONE,
        &[HOLD],
        &[TRACE],
        Status::ScheduleRefused,
        &[b"error trace line 1\n"],
    )
}

// With another number of remotes a line of the abstraction is missing.
#[test]
fn a_trace_of_fewer_remotes_is_refused(rt: HostRuntime) -> Result<(), Wrong> {
    schedule_ends(
        rt.alloc(),
        &["audit", "p", "2"],
        &[MIGRATORY],
        &[TRACE],
        Status::ScheduleRefused,
        &[b"error trace line 22\n"],
    )
}

// A run that ends where a claim is broken.
const BREAKS: &[u8] = b"\
1 remote 0 tau 0: tau 0 0
  remote 0 R d=0 slot[] up[] down[]
2 remote 0 send: stutter
  remote 0 R* d=0 slot[] up[?req] down[]
3 up 0: stutter
  home F o=none j=none d=0 held[0:req] owed[]
  remote 0 R* d=0 slot[] up[] down[]
4 home take 0: up 0 0 0 req
  home G o=none j=#0 d=0 held[] owed[0:gr]
  remote 0 R* d=0 slot[] up[] down[]
5 home send 0 0: down 0 0 0 gr(0)
  home E o=#0 j=#0 d=0 held[] owed[]
  remote 0 R* d=0 slot[] up[] down[=gr(0)]
claim 0 broken
end
  home E o=#0 j=#0 d=0 held[] owed[]
  remote 0 R* d=0 slot[] up[] down[=gr(0)]
abstract
  home E o=#0 j=#0 d=0
  remote 0 V d=0
";

#[test]
fn the_line_of_a_broken_claim_is_refused(rt: HostRuntime) -> Result<(), Wrong> {
    schedule_ends(
        rt.alloc(),
        &ONE,
        &[MIGRATORY],
        &[BREAKS],
        Status::ScheduleRefused,
        &[b"error trace line 14\n"],
    )
}

/// Nothing is looked at but the told words.
pub const NOTHING: &[u8] = b"\
1 a: stutter
2 b: refused
  c
end
  d
abstract
  home H
  remote 0 R
";

#[test]
fn a_trace_may_tell_no_event(rt: HostRuntime) -> Result<(), Wrong> {
    schedule_ends(
        rt.alloc(),
        &ONE,
        &[STILL],
        &[NOTHING],
        Status::Done,
        &[b"audit ok 0\n"],
    )
}
