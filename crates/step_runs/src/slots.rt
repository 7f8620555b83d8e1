//! Requests that a home with few slots holds, nacks, drops and displaces.

use memory_runs::{HOLD, INVALIDATE, Wrong, schedule_ends};
use rvc_top::Status;

// Three remotes get a shared line.
const SHARES: &[u8] = b"\
remote 0 tau 0
remote 0 send
up 0
home take 0
home send 0 0
down 0
remote 1 tau 0
remote 1 send
up 1
home take 1
home send 0 1
down 1
remote 2 tau 0
remote 2 send
up 2
home take 2
home send 0 2
down 2
";

const SHARED: &[u8] = b"\
1 remote 0 tau 0: tau 0 0
  remote 0 RS d=0 slot[] up[] down[]
2 remote 0 send: stutter
  remote 0 RS* d=0 slot[] up[?rs] down[]
3 up 0: stutter
  home U j=none o=none v=none s={} d=0 held[0:rs] owed[]
  remote 0 RS* d=0 slot[] up[] down[]
4 home take 0: up 0 0 0 rs
  home GS j=#0 o=none v=none s={} d=0 held[] owed[0:gs]
  remote 0 RS* d=0 slot[] up[] down[]
5 home send 0 0: down 0 0 0 gs(0)
  home U j=#0 o=none v=none s={0} d=0 held[] owed[]
  remote 0 RS* d=0 slot[] up[] down[=gs(0)]
6 down 0: stutter
  remote 0 S d=0 slot[] up[] down[]
7 remote 1 tau 0: tau 1 0
  remote 1 RS d=0 slot[] up[] down[]
8 remote 1 send: stutter
  remote 1 RS* d=0 slot[] up[?rs] down[]
9 up 1: stutter
  home U j=#0 o=none v=none s={0} d=0 held[1:rs] owed[]
  remote 1 RS* d=0 slot[] up[] down[]
10 home take 1: up 1 0 0 rs
  home GS j=#1 o=none v=none s={0} d=0 held[] owed[1:gs]
  remote 1 RS* d=0 slot[] up[] down[]
11 home send 0 1: down 1 0 0 gs(0)
  home U j=#1 o=none v=none s={0,1} d=0 held[] owed[]
  remote 1 RS* d=0 slot[] up[] down[=gs(0)]
12 down 1: stutter
  remote 1 S d=0 slot[] up[] down[]
13 remote 2 tau 0: tau 2 0
  remote 2 RS d=0 slot[] up[] down[]
14 remote 2 send: stutter
  remote 2 RS* d=0 slot[] up[?rs] down[]
15 up 2: stutter
  home U j=#1 o=none v=none s={0,1} d=0 held[2:rs] owed[]
  remote 2 RS* d=0 slot[] up[] down[]
16 home take 2: up 2 0 0 rs
  home GS j=#2 o=none v=none s={0,1} d=0 held[] owed[2:gs]
  remote 2 RS* d=0 slot[] up[] down[]
17 home send 0 2: down 2 0 0 gs(0)
  home U j=#2 o=none v=none s={0,1,2} d=0 held[] owed[]
  remote 2 RS* d=0 slot[] up[] down[=gs(0)]
18 down 2: stutter
  remote 2 S d=0 slot[] up[] down[]
";

// Remote 3 asks for the line alone. While the home waits for remote 0, two others give it up.
const INVALIDATES: &[u8] = b"\
remote 3 tau 1
remote 3 send
up 3
home take 3
home send 0 0
remote 1 tau 0
remote 1 send
up 1
remote 2 tau 0
remote 2 send
up 2
";

const INVALIDATED: &[u8] = b"\
19 remote 3 tau 1: tau 3 1
  remote 3 RX d=0 slot[] up[] down[]
20 remote 3 send: stutter
  remote 3 RX* d=0 slot[] up[?rx] down[]
21 up 3: stutter
  home U j=#2 o=none v=none s={0,1,2} d=0 held[3:rx] owed[]
  remote 3 RX* d=0 slot[] up[] down[]
22 home take 3: up 3 1 0 rx
  home INV j=#3 o=none v=none s={0,1,2} d=0 held[] owed[3:gx]
  remote 3 RX* d=0 slot[] up[] down[]
23 home send 0 0: stutter
  home INV/0>0 j=#3 o=none v=none s={0,1,2} d=0 held[] owed[3:gx]
  remote 0 S d=0 slot[] up[] down[?inv]
24 remote 1 tau 0: tau 1 0
  remote 1 E d=0 slot[] up[] down[]
25 remote 1 send: stutter
  remote 1 E* d=0 slot[] up[?ev] down[]
26 up 1: stutter
  home INV/0>0 j=#3 o=none v=none s={0,1,2} d=0 held[1:ev] owed[3:gx]
  remote 1 E* d=0 slot[] up[] down[]
27 remote 2 tau 0: tau 2 0
  remote 2 E d=0 slot[] up[] down[]
28 remote 2 send: stutter
  remote 2 E* d=0 slot[] up[?ev] down[]
29 up 2: stutter
  home INV/0>0 j=#3 o=none v=none s={0,1,2} d=0 held[1:ev] owed[3:gx]
  remote 2 E* d=0 slot[] up[] down[-]
";

// The end, where the home still waits.
const WAITS: &[u8] = b"\
end
  home INV/0>0 j=#3 o=none v=none s={0,1,2} d=0 held[1:ev] owed[3:gx]
  remote 0 S d=0 slot[] up[] down[?inv]
  remote 1 E* d=0 slot[] up[] down[]
  remote 2 E* d=0 slot[] up[] down[-]
  remote 3 RX* d=0 slot[] up[] down[]
abstract
  home INV j=#3 o=none v=none s={0,1,2} d=0
  remote 0 S d=0
  remote 1 E d=0
  remote 2 E d=0
  remote 3 WX d=0
";

#[test]
fn a_request_that_the_home_can_use_gets_the_progress_slot(rt: HostRuntime) -> Result<(), Wrong> {
    schedule_ends(
        rt.alloc(),
        &["run", "p", "4", "2", "lean"],
        &[INVALIDATE],
        &[SHARES, INVALIDATES],
        Status::Done,
        &[SHARED, INVALIDATED, WAITS],
    )
}

// The home holds a request of the remote to which it would send, until it drops it.
const DROPS: &[u8] = b"\
remote 0 send
up 0
home send 0 0
home drop 0
home send 0 0
down 0
down 0
remote 0 send
up 0
";

const DROPPED: &[u8] = b"\
1 remote 0 send: stutter
  remote 0 Q* slot[] up[?b] down[]
2 up 0: stutter
  home H j=none held[0:b] owed[]
  remote 0 Q* slot[] up[] down[]
3 home send 0 0: refused
4 home drop 0: stutter
  home H j=none held[] owed[]
  remote 0 Q* slot[] up[] down[-]
5 home send 0 0: stutter
  home H/0>0 j=none held[] owed[]
  remote 0 Q* slot[] up[] down[-,?a]
6 down 0: stutter
  remote 0 Q slot[] up[] down[?a]
7 down 0: stutter
  remote 0 Q slot[a] up[] down[]
8 remote 0 send: stutter
  remote 0 Q* slot[] up[?b] down[]
9 up 0: stutter
  home H j=none held[0:b] owed[]
  remote 0 Q* slot[] up[] down[]
end
  home H j=none held[0:b] owed[]
  remote 0 Q* slot[] up[] down[]
  remote 1 Q slot[] up[] down[]
abstract
  home H j=none
  remote 0 Q
  remote 1 Q
";

// With two slots the home has to drop the request besides because it is nearly full.
#[test]
fn the_home_sends_nothing_to_a_remote_whose_request_it_holds(rt: HostRuntime) -> Result<(), Wrong> {
    for slots in ["3", "2"] {
        schedule_ends(
            rt.alloc(),
            &["run", "p", "2", slots, "plain"],
            &[HOLD],
            &[DROPS],
            Status::Done,
            &[DROPPED],
        )?;
    }
    Ok(())
}

// A home that takes `a` in one state and `b` in the other.
const TIDE: &[u8] = b"\
protocol tide;
message a up;
message b up;
home {
  var j node = none;
  start A;
  state A {
    from any j ? a goto A;
    tau goto B;
  }
  state B {
    from any j ? b goto A;
  }
}
remote {
  start R;
  state R {
    tau goto SA;
    tau goto SB;
  }
  state SA {
    to home ! a goto R;
  }
  state SB {
    to home ! b goto R;
  }
}
";

// Two requests fill the slots; after its local step the home can use neither.
const FILLS: &[u8] = b"\
remote 0 tau 0
remote 0 send
up 0
remote 1 tau 0
remote 1 send
up 1
home tau 1
remote 2 tau 1
remote 2 send
";

const FILLED: &[u8] = b"\
1 remote 0 tau 0: tau 0 0
  remote 0 SA slot[] up[] down[]
2 remote 0 send: stutter
  remote 0 SA* slot[] up[?a] down[]
3 up 0: stutter
  home A j=none held[0:a] owed[]
  remote 0 SA* slot[] up[] down[]
4 remote 1 tau 0: tau 1 0
  remote 1 SA slot[] up[] down[]
5 remote 1 send: stutter
  remote 1 SA* slot[] up[?a] down[]
6 up 1: stutter
  home A j=none held[0:a,1:a] owed[]
  remote 1 SA* slot[] up[] down[]
7 home tau 1: tau home 1
  home B j=none held[0:a,1:a] owed[]
8 remote 2 tau 1: tau 2 1
  remote 2 SB slot[] up[] down[]
9 remote 2 send: stutter
  remote 2 SB* slot[] up[?b] down[]
";

// One that it can use displaces the last.
const DISPLACES: &[u8] = b"\
up 2
home take 2
";

const DISPLACED: &[u8] = b"\
10 up 2: stutter
  home B j=none held[0:a,2:b] owed[]
  remote 2 SB* slot[] up[] down[]
  remote 1 SA* slot[] up[] down[-]
11 home take 2: up 2 0 0 b
  home A j=#2 held[0:a] owed[]
  remote 2 SB* slot[] up[] down[+]
end
  home A j=#2 held[0:a] owed[]
  remote 0 SA* slot[] up[] down[]
  remote 1 SA* slot[] up[] down[-]
  remote 2 SB* slot[] up[] down[+]
abstract
  home A j=#2
  remote 0 SA
  remote 1 SA
  remote 2 R
";

#[test]
fn a_request_that_a_full_home_can_use_displaces_the_last(rt: HostRuntime) -> Result<(), Wrong> {
    schedule_ends(
        rt.alloc(),
        &["run", "p", "3", "2", "plain"],
        &[TIDE],
        &[FILLS, DISPLACES],
        Status::Done,
        &[FILLED, DISPLACED],
    )
}
