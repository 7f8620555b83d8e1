//! What is under way on a link, and guards that have no target.

use memory_runs::{ARITH, THREE, Wrong, schedule_ends};
use rvc_top::Status;

// A request, an ack and a request go down, and arrive in this order.
const PILES_UP: &[u8] = b"\
home send 0 0
remote 0 tau 0
remote 0 send
up 0
home take 0
home send 0 0
down 0
down 0
down 0
remote 0 answer
up 0
";

const PILED_UP: &[u8] = b"\
1 home send 0 0: stutter
  home H/0>0 j=none held[] owed[]
  remote 0 P slot[] up[] down[?a]
2 remote 0 tau 0: tau 0 0
  remote 0 Q slot[] up[] down[?a]
3 remote 0 send: stutter
  remote 0 Q* slot[] up[?b] down[?a]
4 up 0: stutter
  home H j=none held[0:b] owed[]
  remote 0 Q* slot[] up[] down[?a]
5 home take 0: up 0 1 0 b
  home H j=#0 held[] owed[]
  remote 0 Q* slot[] up[] down[?a,+]
6 home send 0 0: stutter
  home H/0>0 j=#0 held[] owed[]
  remote 0 Q* slot[] up[] down[?a,+,?a]
7 down 0: stutter
  remote 0 Q* slot[] up[] down[+,?a]
8 down 0: stutter
  remote 0 P slot[] up[] down[?a]
9 down 0: stutter
  remote 0 P slot[a] up[] down[]
10 remote 0 answer: down 0 0 1 a
  remote 0 P slot[] up[+] down[]
11 up 0: stutter
  home H j=#0 held[] owed[]
  remote 0 P slot[] up[] down[]
end
  home H j=#0 held[] owed[]
  remote 0 P slot[] up[] down[]
abstract
  home H j=#0
  remote 0 P
";

#[test]
fn three_packets_go_down_in_order(rt: HostRuntime) -> Result<(), Wrong> {
    schedule_ends(
        rt.alloc(),
        &["run", "p", "1", "2", "plain"],
        &[THREE],
        &[PILES_UP],
        Status::Done,
        &[PILED_UP],
    )
}

const NO_TARGET: &[u8] = b"\
1 home send 2 0: refused
end
  home H c=3 e=0 x=none s={} held[] owed[]
  remote 0 R slot[] up[] down[]
abstract
  home H c=3 e=0 x=none s={}
  remote 0 R
";

#[test]
fn nothing_is_sent_to_a_variable_that_holds_none(rt: HostRuntime) -> Result<(), Wrong> {
    schedule_ends(
        rt.alloc(),
        &["run", "p", "1", "2", "plain"],
        &[ARITH],
        &[b"home send 2 0"],
        Status::Done,
        &[NO_TARGET],
    )
}
