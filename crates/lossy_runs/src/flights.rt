//! How many frames a flight holds, and which of them resending and passing take.

use crate::words::ONE_LEAN;
use memory_runs::{MIGRATORY, Wrong, schedule_ends};
use rvc_top::Status;

// A frame is copied until eight are under way. The request of a second frame, which is put behind
// them, and each one that is sent again make the first one leave. The window has both requests; the
// one that was received is dropped when it arrives again.
const FILLS: &[u8] = b"\
remote 0 tau 0
remote 0 send
net 0 up copy 0
net 0 up copy 0
net 0 up copy 0
net 0 up copy 0
net 0 up copy 0
net 0 up copy 0
net 0 up copy 0
net 0 up pass 7
up 0
home take 0
home send 0 0
net 0 down pass 0
down 0
remote 0 tau 1
remote 0 send
net 0 up lose 0
net 0 up resend 0
net 0 up resend 1
net 0 up pass 0
net 0 up pass 6
up 0
";

const FILLED: &[u8] = b"\
1 remote 0 tau 0: tau 0 0
  remote 0 R d=0 slot[] up[] down[]
2 remote 0 send: stutter
  remote 0 R* d=0 slot[] up[?req] down[]
3 net 0 up copy 0: net
  link 0 up put 1 got 0 flight[0,0]
4 net 0 up copy 0: net
  link 0 up put 1 got 0 flight[0,0,0]
5 net 0 up copy 0: net
  link 0 up put 1 got 0 flight[0,0,0,0]
6 net 0 up copy 0: net
  link 0 up put 1 got 0 flight[0,0,0,0,0]
7 net 0 up copy 0: net
  link 0 up put 1 got 0 flight[0,0,0,0,0,0]
8 net 0 up copy 0: net
  link 0 up put 1 got 0 flight[0,0,0,0,0,0,0]
9 net 0 up copy 0: net
  link 0 up put 1 got 0 flight[0,0,0,0,0,0,0,0]
10 net 0 up pass 7: net
  link 0 up put 1 got 1 flight[0,0,0,0,0,0,0]
11 up 0: stutter
  home F o=none j=none d=0 held[0:req] owed[]
  remote 0 R* d=0 slot[] up[] down[]
12 home take 0: up 0 0 0 req
  home G o=none j=#0 d=0 held[] owed[0:gr]
  remote 0 R* d=0 slot[] up[] down[]
13 home send 0 0: down 0 0 0 gr(0)
  home E o=#0 j=#0 d=0 held[] owed[]
  remote 0 R* d=0 slot[] up[] down[=gr(0)]
14 net 0 down pass 0: net
  link 0 down put 1 got 1 flight[]
15 down 0: stutter
  remote 0 V d=0 slot[] up[] down[]
16 remote 0 tau 1: tau 0 1
  remote 0 L d=0 slot[] up[] down[]
17 remote 0 send: stutter
  remote 0 L* d=0 slot[] up[?lr(0)] down[]
18 net 0 up lose 0: net
  link 0 up put 2 got 1 flight[0,0,0,0,0,0,1]
19 net 0 up resend 0: net
  link 0 up put 2 got 1 flight[0,0,0,0,0,0,1,0]
20 net 0 up resend 1: net
  link 0 up put 2 got 1 flight[0,0,0,0,0,1,0,1]
21 net 0 up pass 0: net
  link 0 up put 2 got 1 flight[0,0,0,0,1,0,1]
22 net 0 up pass 6: net
  link 0 up put 2 got 2 flight[0,0,0,0,1,0]
23 up 0: stutter
  home E o=#0 j=#0 d=0 held[0:lr(0)] owed[]
  remote 0 L* d=0 slot[] up[] down[]
end
  home E o=#0 j=#0 d=0 held[0:lr(0)] owed[]
  remote 0 L* d=0 slot[] up[] down[]
abstract
  home E o=#0 j=#0 d=0
  remote 0 L d=0
";

#[test]
fn a_frame_behind_eight_makes_the_first_leave(rt: HostRuntime) -> Result<(), Wrong> {
    schedule_ends(
        rt.alloc(),
        &ONE_LEAN,
        &[MIGRATORY],
        &[FILLS],
        Status::Done,
        &[FILLED],
    )
}
