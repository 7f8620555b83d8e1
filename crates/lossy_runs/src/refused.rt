//! Moves of the network that aren't possible.

use crate::words::ONE_LEAN;
use memory_runs::{MIGRATORY, Wrong, schedule_ends};
use rvc_top::Status;

// Nothing was put yet; then one frame is under way on one wire.
const REFUSES: &[u8] = b"\
net 0 up resend 0
net 0 down lose 0
net 0 up copy 0
net 0 up pass 0
remote 0 tau 0
remote 0 send
net 1 up pass 0
net 99999 down resend 0
net 0 up resend 1
net 0 up lose 1
net 0 up copy 1
net 0 up pass 1
net 0 down pass 0
net 0 up pass 99999
up 1
down 0
net 0 up pass 0
up 0
";

const REFUSED: &[u8] = b"\
1 net 0 up resend 0: refused
2 net 0 down lose 0: refused
3 net 0 up copy 0: refused
4 net 0 up pass 0: refused
5 remote 0 tau 0: tau 0 0
  remote 0 R d=0 slot[] up[] down[]
6 remote 0 send: stutter
  remote 0 R* d=0 slot[] up[?req] down[]
7 net 1 up pass 0: refused
8 net 99999 down resend 0: refused
9 net 0 up resend 1: refused
10 net 0 up lose 1: refused
11 net 0 up copy 1: refused
12 net 0 up pass 1: refused
13 net 0 down pass 0: refused
14 net 0 up pass 99999: refused
15 up 1: refused
16 down 0: refused
17 net 0 up pass 0: net
  link 0 up put 1 got 1 flight[]
18 up 0: stutter
  home F o=none j=none d=0 held[0:req] owed[]
  remote 0 R* d=0 slot[] up[] down[]
end
  home F o=none j=none d=0 held[0:req] owed[]
  remote 0 R* d=0 slot[] up[] down[]
abstract
  home F o=none j=none d=0
  remote 0 R d=0
";

#[test]
fn a_move_that_is_not_possible_changes_nothing(rt: HostRuntime) -> Result<(), Wrong> {
    schedule_ends(
        rt.alloc(),
        &ONE_LEAN,
        &[MIGRATORY],
        &[REFUSES],
        Status::Done,
        &[REFUSED],
    )
}
