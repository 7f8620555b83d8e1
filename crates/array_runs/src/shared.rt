//! Deliveries in the order of the puts over all cache lines.

use crate::words::TWO_LINES;
use memory_runs::{MIGRATORY, MIGRATORY_2, Wrong, migratory_body, schedule_ends};
use rvc_top::Status;

// The remote asks for both lines, for line 1 first.
const ASKS: &[u8] = b"\
at 1 remote 0 tau 0
at 1 remote 0 send
at 0 remote 0 tau 0
at 0 remote 0 send
up 0
up 0
up 0
";

const ASKED: &[u8] = b"\
1 line 1 remote 0 tau 0: tau 0 0
  remote 0 R d=0 slot[] up[] down[]
2 line 1 remote 0 send: stutter
  remote 0 R* d=0 slot[] up[?req] down[]
3 line 0 remote 0 tau 0: tau 0 0
  remote 0 R d=0 slot[] up[] down[]
4 line 0 remote 0 send: stutter
  remote 0 R* d=0 slot[] up[?req] down[]
5 line 1 up 0: stutter
  home F o=none j=none d=0 held[0:req] owed[]
  remote 0 R* d=0 slot[] up[] down[]
6 line 0 up 0: stutter
  home F o=none j=none d=0 held[0:req] owed[]
  remote 0 R* d=0 slot[] up[] down[]
7 up 0: refused
line 0
end
  home F o=none j=none d=0 held[0:req] owed[]
  remote 0 R* d=0 slot[] up[] down[]
abstract
  home F o=none j=none d=0
  remote 0 R d=0
line 1
end
  home F o=none j=none d=0 held[0:req] owed[]
  remote 0 R* d=0 slot[] up[] down[]
abstract
  home F o=none j=none d=0
  remote 0 R d=0
";

#[test]
fn the_line_that_asked_first_is_delivered_first(rt: HostRuntime) -> Result<(), Wrong> {
    schedule_ends(
        rt.alloc(),
        &TWO_LINES,
        &[MIGRATORY],
        &[ASKS],
        Status::Done,
        &[ASKED],
    )
}

// The claim that no remote is idle is broken at the start and after each line.
#[test]
fn no_claim_is_looked_at(rt: HostRuntime) -> Result<(), Wrong> {
    let claim = b"claim atmost 0 in I;".as_slice();
    schedule_ends(
        rt.alloc(),
        &TWO_LINES,
        &[MIGRATORY_2, migratory_body(), claim],
        &[ASKS],
        Status::Done,
        &[ASKED],
    )
}

// The remote asks for line 0 first, and the home sends line 1 first.
const GRANTS: &[u8] = b"\
at 0 remote 0 tau 0
at 0 remote 0 send
at 1 remote 0 tau 0
at 1 remote 0 send
up 0
up 0
at 1 home take 0
at 0 home take 0
at 1 home send 0 0
at 0 home send 0 0
down 0
down 0
down 0
";

const GRANTED: &[u8] = b"\
1 line 0 remote 0 tau 0: tau 0 0
  remote 0 R d=0 slot[] up[] down[]
2 line 0 remote 0 send: stutter
  remote 0 R* d=0 slot[] up[?req] down[]
3 line 1 remote 0 tau 0: tau 0 0
  remote 0 R d=0 slot[] up[] down[]
4 line 1 remote 0 send: stutter
  remote 0 R* d=0 slot[] up[?req] down[]
5 line 0 up 0: stutter
  home F o=none j=none d=0 held[0:req] owed[]
  remote 0 R* d=0 slot[] up[] down[]
6 line 1 up 0: stutter
  home F o=none j=none d=0 held[0:req] owed[]
  remote 0 R* d=0 slot[] up[] down[]
7 line 1 home take 0: up 0 0 0 req
  home G o=none j=#0 d=0 held[] owed[0:gr]
  remote 0 R* d=0 slot[] up[] down[]
8 line 0 home take 0: up 0 0 0 req
  home G o=none j=#0 d=0 held[] owed[0:gr]
  remote 0 R* d=0 slot[] up[] down[]
9 line 1 home send 0 0: down 0 0 0 gr(0)
  home E o=#0 j=#0 d=0 held[] owed[]
  remote 0 R* d=0 slot[] up[] down[=gr(0)]
10 line 0 home send 0 0: down 0 0 0 gr(0)
  home E o=#0 j=#0 d=0 held[] owed[]
  remote 0 R* d=0 slot[] up[] down[=gr(0)]
11 line 1 down 0: stutter
  remote 0 V d=0 slot[] up[] down[]
12 line 0 down 0: stutter
  remote 0 V d=0 slot[] up[] down[]
13 down 0: refused
line 0
end
  home E o=#0 j=#0 d=0 held[] owed[]
  remote 0 V d=0 slot[] up[] down[]
abstract
  home E o=#0 j=#0 d=0
  remote 0 V d=0
line 1
end
  home E o=#0 j=#0 d=0 held[] owed[]
  remote 0 V d=0 slot[] up[] down[]
abstract
  home E o=#0 j=#0 d=0
  remote 0 V d=0
";

#[test]
fn each_way_has_an_order_of_its_own(rt: HostRuntime) -> Result<(), Wrong> {
    schedule_ends(
        rt.alloc(),
        &TWO_LINES,
        &[MIGRATORY],
        &[GRANTS],
        Status::Done,
        &[GRANTED],
    )
}
