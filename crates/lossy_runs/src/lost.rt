//! A request that is lost and sent again, and packets that overtake one another.

use crate::words::ONE_LEAN;
use memory_runs::{MIGRATORY, MIGRATORY_2, THREE, Wrong, migratory_body, schedule_ends};
use rvc_top::Status;

// The only frame of a request is lost. It is sent again and copied, and the copy arrives; the frame
// that is left then has a number of the past.
const LOSES: &[u8] = b"\
remote 0 tau 0
remote 0 send
net 0 up lose 0
up 0
net 0 up resend 0
net 0 up copy 0
net 0 up pass 1
net 0 up pass 0
up 0
";

const LOST: &[u8] = b"\
1 remote 0 tau 0: tau 0 0
  remote 0 R d=0 slot[] up[] down[]
2 remote 0 send: stutter
  remote 0 R* d=0 slot[] up[?req] down[]
3 net 0 up lose 0: net
  link 0 up put 1 got 0 flight[]
4 up 0: waiting
5 net 0 up resend 0: net
  link 0 up put 1 got 0 flight[0]
6 net 0 up copy 0: net
  link 0 up put 1 got 0 flight[0,0]
7 net 0 up pass 1: net
  link 0 up put 1 got 1 flight[0]
8 net 0 up pass 0: net
  link 0 up put 1 got 1 flight[]
9 up 0: stutter
  home F o=none j=none d=0 held[0:req] owed[]
  remote 0 R* d=0 slot[] up[] down[]
end
  home F o=none j=none d=0 held[0:req] owed[]
  remote 0 R* d=0 slot[] up[] down[]
abstract
  home F o=none j=none d=0
  remote 0 R d=0
";

#[test]
fn a_frame_that_is_lost_is_sent_again(rt: HostRuntime) -> Result<(), Wrong> {
    schedule_ends(
        rt.alloc(),
        &ONE_LEAN,
        &[MIGRATORY],
        &[LOSES],
        Status::Done,
        &[LOST],
    )
}

// The claim that no remote is idle is broken at the start and after each line.
#[test]
fn no_claim_is_looked_at(rt: HostRuntime) -> Result<(), Wrong> {
    let claim = b"claim atmost 0 in I;".as_slice();
    schedule_ends(
        rt.alloc(),
        &ONE_LEAN,
        &[MIGRATORY_2, migratory_body(), claim],
        &[LOSES],
        Status::Done,
        &[LOST],
    )
}

// The last of three packets arrives first, and is dropped. A frame is received where its number is
// the next one alone.
const OVERTAKES: &[u8] = b"\
home send 0 0
remote 0 tau 0
remote 0 send
net 0 up pass 0
up 0
home take 0
home send 0 0
net 0 down pass 2
down 0
net 0 down pass 0
down 0
";

const IN_ORDER: &[u8] = b"\
1 home send 0 0: stutter
  home H/0>0 j=none held[] owed[]
  remote 0 P slot[] up[] down[?a]
2 remote 0 tau 0: tau 0 0
  remote 0 Q slot[] up[] down[?a]
3 remote 0 send: stutter
  remote 0 Q* slot[] up[?b] down[?a]
4 net 0 up pass 0: net
  link 0 up put 1 got 1 flight[]
5 up 0: stutter
  home H j=none held[0:b] owed[]
  remote 0 Q* slot[] up[] down[?a]
6 home take 0: up 0 1 0 b
  home H j=#0 held[] owed[]
  remote 0 Q* slot[] up[] down[?a,+]
7 home send 0 0: stutter
  home H/0>0 j=#0 held[] owed[]
  remote 0 Q* slot[] up[] down[?a,+,?a]
8 net 0 down pass 2: net
  link 0 down put 3 got 0 flight[0,1]
9 down 0: waiting
10 net 0 down pass 0: net
  link 0 down put 3 got 1 flight[1]
11 down 0: stutter
  remote 0 Q* slot[] up[] down[+,?a]
end
  home H/0>0 j=#0 held[] owed[]
  remote 0 Q* slot[] up[] down[+,?a]
abstract
  home H j=#0
  remote 0 P
";

#[test]
fn a_packet_that_overtakes_others_is_dropped(rt: HostRuntime) -> Result<(), Wrong> {
    schedule_ends(
        rt.alloc(),
        &["lossy", "p", "1", "2", "plain"],
        &[THREE],
        &[OVERTAKES],
        Status::Done,
        &[IN_ORDER],
    )
}
