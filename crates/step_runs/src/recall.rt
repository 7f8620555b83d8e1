//! The home asks remote 0, which has the line, to give it back for remote 1.

use crate::migration::{arrived, arrives, asked, asks, granted, grants};
use crate::stepped::TWO_LEAN;
use memory_runs::{MIGRATORY, Wrong, schedule_ends};
use rvc_top::Status;
use std::alloc::Global;

// Behind the six steps by which remote 0 gets the line: remote 1 asks for it, and the home asks
// remote 0 to give it back.
fn recalls() -> &'static [u8] {
    b"\
remote 1 tau 0
remote 1 send
up 1
home take 1
home send 0 0
"
}

// The blocks of these five steps.
fn recalled() -> &'static [u8] {
    b"\
7 remote 1 tau 0: tau 1 0
  remote 1 R d=0 slot[] up[] down[]
8 remote 1 send: stutter
  remote 1 R* d=0 slot[] up[?req] down[]
9 up 1: stutter
  home E o=#0 j=#0 d=0 held[1:req] owed[]
  remote 1 R* d=0 slot[] up[] down[]
10 home take 1: up 1 0 0 req
  home I1 o=#0 j=#1 d=0 held[] owed[1:gr]
  remote 1 R* d=0 slot[] up[] down[]
11 home send 0 0: stutter
  home I1/0>0 o=#0 j=#1 d=0 held[] owed[1:gr]
  remote 0 V d=0 slot[] up[] down[?inv]
"
}

// That a run with these words over this file ends so: remote 0 gets the line and is asked to give
// it back, these steps follow, and behind the blocks of those eleven steps stands this text.
fn ends_behind_recall(
    alloc: Global,
    words: &[&str],
    file: &[&[u8]],
    steps: &'static [u8],
    text: &'static [u8],
) -> Result<(), Wrong> {
    schedule_ends(
        alloc,
        words,
        file,
        &[asks(), grants(), arrives(), recalls(), steps],
        Status::Done,
        &[asked(), granted(), arrived(), recalled(), text],
    )
}

// Remote 0 gives the line back by itself, and the two requests cross.
const CROSSES: &[u8] = b"\
remote 0 tau 1
remote 0 send
down 0
up 0
home take 0
";

const CROSSED: &[u8] = b"\
12 remote 0 tau 1: tau 0 1
  remote 0 L d=0 slot[] up[] down[?inv]
13 remote 0 send: stutter
  remote 0 L* d=0 slot[] up[?lr(0)] down[?inv]
14 down 0: stutter
  remote 0 L* d=0 slot[] up[?lr(0)] down[]
15 up 0: stutter
  home I1 o=#0 j=#1 d=0 held[0:lr(0)] owed[1:gr]
  remote 0 L* d=0 slot[] up[] down[]
16 home take 0: up 0 1 0 lr(0)
  home G o=#0 j=#1 d=0 held[] owed[1:gr]
  remote 0 L* d=0 slot[] up[] down[+]
end
  home G o=#0 j=#1 d=0 held[] owed[1:gr]
  remote 0 L* d=0 slot[] up[] down[+]
  remote 1 R* d=0 slot[] up[] down[]
abstract
  home G o=#0 j=#1 d=0
  remote 0 I d=0
  remote 1 W d=0
";

/// That two remotes play the crossing over this file.
pub fn requests_cross_over(alloc: Global, file: &[&[u8]]) -> Result<(), Wrong> {
    ends_behind_recall(alloc, &TWO_LEAN, file, CROSSES, CROSSED)
}

#[test]
fn a_request_that_crosses_is_an_implicit_nack(rt: HostRuntime) -> Result<(), Wrong> {
    requests_cross_over(rt.alloc(), &[MIGRATORY])
}

// Remote 0 has the request in its slot when it becomes active.
const LEAVES: &[u8] = b"\
down 0
remote 0 tau 1
remote 0 answer
remote 0 send
up 0
";

const LEFT: &[u8] = b"\
12 down 0: stutter
  remote 0 V d=0 slot[inv] up[] down[]
13 remote 0 tau 1: tau 0 1
  remote 0 L d=0 slot[inv] up[] down[]
14 remote 0 answer: refused
15 remote 0 send: stutter
  remote 0 L* d=0 slot[] up[?lr(0)] down[]
16 up 0: stutter
  home I1 o=#0 j=#1 d=0 held[0:lr(0)] owed[1:gr]
  remote 0 L* d=0 slot[] up[] down[]
end
  home I1 o=#0 j=#1 d=0 held[0:lr(0)] owed[1:gr]
  remote 0 L* d=0 slot[] up[] down[]
  remote 1 R* d=0 slot[] up[] down[]
abstract
  home I1 o=#0 j=#1 d=0
  remote 0 L d=0
  remote 1 W d=0
";

#[test]
fn an_active_remote_empties_its_slot_as_it_sends(rt: HostRuntime) -> Result<(), Wrong> {
    ends_behind_recall(rt.alloc(), &TWO_LEAN, &[MIGRATORY], LEAVES, LEFT)
}

// Remote 0 takes the request and sends the reply.
const REPLIES: &[u8] = b"\
down 0
remote 0 answer
remote 0 reply
up 0
";

const REPLIED: &[u8] = b"\
12 down 0: stutter
  remote 0 V d=0 slot[inv] up[] down[]
13 remote 0 answer: down 0 0 2 inv
  remote 0 D! d=0 slot[] up[] down[]
14 remote 0 reply: up 0 0 0 id(0)
  remote 0 I d=0 slot[] up[=id(0)] down[]
15 up 0: stutter
  home G o=#0 j=#1 d=0 held[] owed[1:gr]
  remote 0 I d=0 slot[] up[] down[]
end
  home G o=#0 j=#1 d=0 held[] owed[1:gr]
  remote 0 I d=0 slot[] up[] down[]
  remote 1 R* d=0 slot[] up[] down[]
abstract
  home G o=#0 j=#1 d=0
  remote 0 I d=0
  remote 1 W d=0
";

#[test]
fn a_remote_that_answers_is_due_until_its_reply(rt: HostRuntime) -> Result<(), Wrong> {
    ends_behind_recall(rt.alloc(), &TWO_LEAN, &[MIGRATORY], REPLIES, REPLIED)
}

// Remote 0 takes the request, and owes its reply where the schedule ends.
const OWES: &[u8] = b"\
down 0
remote 0 answer
";

const OWED: &[u8] = b"\
12 down 0: stutter
  remote 0 V d=0 slot[inv] up[] down[]
13 remote 0 answer: down 0 0 2 inv
  remote 0 D! d=0 slot[] up[] down[]
end
  home I1/0>0 o=#0 j=#1 d=0 held[] owed[1:gr]
  remote 0 D! d=0 slot[] up[] down[]
  remote 1 R* d=0 slot[] up[] down[]
abstract
  home I2 o=#0 j=#1 d=0
  remote 0 D d=0
  remote 1 W d=0
";

#[test]
fn a_remote_that_is_due_has_taken_the_request(rt: HostRuntime) -> Result<(), Wrong> {
    ends_behind_recall(rt.alloc(), &TWO_LEAN, &[MIGRATORY], OWES, OWED)
}

// A third remote asks for the line while the home waits.
const ASKS_TOO: &[u8] = b"\
remote 2 tau 0
remote 2 send
up 2
";

const NACKED: &[u8] = b"\
12 remote 2 tau 0: tau 2 0
  remote 2 R d=0 slot[] up[] down[]
13 remote 2 send: stutter
  remote 2 R* d=0 slot[] up[?req] down[]
14 up 2: stutter
  home I1/0>0 o=#0 j=#1 d=0 held[] owed[1:gr]
  remote 2 R* d=0 slot[] up[] down[-]
end
  home I1/0>0 o=#0 j=#1 d=0 held[] owed[1:gr]
  remote 0 V d=0 slot[] up[] down[?inv]
  remote 1 R* d=0 slot[] up[] down[]
  remote 2 R* d=0 slot[] up[] down[-]
abstract
  home I1 o=#0 j=#1 d=0
  remote 0 V d=0
  remote 1 W d=0
  remote 2 R d=0
";

#[test]
fn the_progress_slot_is_kept(rt: HostRuntime) -> Result<(), Wrong> {
    let words = ["run", "p", "3", "2", "lean"];
    ends_behind_recall(rt.alloc(), &words, &[MIGRATORY], ASKS_TOO, NACKED)
}
