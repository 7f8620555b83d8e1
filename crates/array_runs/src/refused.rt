//! Steps that are meant for no cache line, or that its controllers refuse.

use crate::words::TWO_LINES;
use memory_runs::{MIGRATORY, Wrong, schedule_ends};
use rvc_top::Status;

// There is no line 2, and no remote 1; nothing is enabled but the last step.
const REFUSES: &[u8] = b"\
at 2 remote 0 tau 0
at 99999 home tau 0
at 1 remote 0 send
at 0 home take 0
at 1 remote 1 send
up 0
down 0
up 1
down 99999
at 1 remote 0 tau 0
";

const REFUSED: &[u8] = b"\
1 at 2 remote 0 tau 0: refused
2 at 99999 home tau 0: refused
3 line 1 remote 0 send: refused
4 line 0 home take 0: refused
5 line 1 remote 1 send: refused
6 up 0: refused
7 down 0: refused
8 up 1: refused
9 down 99999: refused
10 line 1 remote 0 tau 0: tau 0 0
  remote 0 R d=0 slot[] up[] down[]
line 0
end
  home F o=none j=none d=0 held[] owed[]
  remote 0 I d=0 slot[] up[] down[]
abstract
  home F o=none j=none d=0
  remote 0 I d=0
line 1
end
  home F o=none j=none d=0 held[] owed[]
  remote 0 R d=0 slot[] up[] down[]
abstract
  home F o=none j=none d=0
  remote 0 R d=0
";

#[test]
fn a_step_that_is_not_enabled_changes_nothing(rt: HostRuntime) -> Result<(), Wrong> {
    schedule_ends(
        rt.alloc(),
        &TWO_LINES,
        &[MIGRATORY],
        &[REFUSES],
        Status::Done,
        &[REFUSED],
    )
}
