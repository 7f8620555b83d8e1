//! One remote that gets the line, step by step.

use crate::stepped::{ONE_LEAN, TWO_LEAN};
use memory_runs::{MIGRATORY, Wrong, schedule_ends};
use rvc_top::Status;

/// Remote 0 asks for the line.
pub fn asks() -> &'static [u8] {
    b"\
remote 0 tau 0
remote 0 send
"
}

/// The blocks of these two steps.
pub fn asked() -> &'static [u8] {
    b"\
1 remote 0 tau 0: tau 0 0
  remote 0 R d=0 slot[] up[] down[]
2 remote 0 send: stutter
  remote 0 R* d=0 slot[] up[?req] down[]
"
}

/// The home takes the request and sends the line.
pub fn grants() -> &'static [u8] {
    b"\
up 0
home take 0
home send 0 0
"
}

/// The blocks of these three steps, in mode lean.
pub fn granted() -> &'static [u8] {
    b"\
3 up 0: stutter
  home F o=none j=none d=0 held[0:req] owed[]
  remote 0 R* d=0 slot[] up[] down[]
4 home take 0: up 0 0 0 req
  home G o=none j=#0 d=0 held[] owed[0:gr]
  remote 0 R* d=0 slot[] up[] down[]
5 home send 0 0: down 0 0 0 gr(0)
  home E o=#0 j=#0 d=0 held[] owed[]
  remote 0 R* d=0 slot[] up[] down[=gr(0)]
"
}

/// The line comes to remote 0.
pub fn arrives() -> &'static [u8] {
    b"\
down 0
"
}

/// The block of this step.
pub fn arrived() -> &'static [u8] {
    b"\
6 down 0: stutter
  remote 0 V d=0 slot[] up[] down[]
"
}

/// The end, where remote 0 has the line.
pub fn stands() -> &'static [u8] {
    b"\
end
  home E o=#0 j=#0 d=0 held[] owed[]
  remote 0 V d=0 slot[] up[] down[]
abstract
  home E o=#0 j=#0 d=0
  remote 0 V d=0
"
}

#[test]
fn a_reply_stands_for_the_ack(rt: HostRuntime) -> Result<(), Wrong> {
    schedule_ends(
        rt.alloc(),
        &ONE_LEAN,
        &[MIGRATORY],
        &[asks(), grants(), arrives()],
        Status::Done,
        &[asked(), granted(), arrived(), stands()],
    )
}

// What follows `grants` where no message is a reply.
const ANSWERS: &[u8] = b"\
down 0
down 0
remote 0 answer
up 0
";

// The blocks of the seven steps behind `asks` in mode plain.
const ACKED: &[u8] = b"\
3 up 0: stutter
  home F o=none j=none d=0 held[0:req] owed[]
  remote 0 R* d=0 slot[] up[] down[]
4 home take 0: up 0 0 0 req
  home G o=none j=#0 d=0 held[] owed[]
  remote 0 R* d=0 slot[] up[] down[+]
5 home send 0 0: stutter
  home G/0>0 o=none j=#0 d=0 held[] owed[]
  remote 0 R* d=0 slot[] up[] down[+,?gr(0)]
6 down 0: stutter
  remote 0 W d=0 slot[] up[] down[?gr(0)]
7 down 0: stutter
  remote 0 W d=0 slot[gr(0)] up[] down[]
8 remote 0 answer: down 0 0 0 gr(0)
  remote 0 V d=0 slot[] up[+] down[]
9 up 0: stutter
  home E o=#0 j=#0 d=0 held[] owed[]
  remote 0 V d=0 slot[] up[] down[]
";

#[test]
fn each_request_has_its_ack_in_mode_plain(rt: HostRuntime) -> Result<(), Wrong> {
    schedule_ends(
        rt.alloc(),
        &["run", "p", "1", "2", "plain"],
        &[MIGRATORY],
        &[asks(), grants(), ANSWERS],
        Status::Done,
        &[asked(), ACKED, stands()],
    )
}

/// The end, where one remote stands as at the start.
pub fn all_idle() -> &'static [u8] {
    b"\
end
  home F o=none j=none d=0 held[] owed[]
  remote 0 I d=0 slot[] up[] down[]
abstract
  home F o=none j=none d=0
  remote 0 I d=0
"
}

#[test]
fn without_a_step_all_stand_as_at_the_start(rt: HostRuntime) -> Result<(), Wrong> {
    schedule_ends(
        rt.alloc(),
        &ONE_LEAN,
        &[MIGRATORY],
        &[],
        Status::Done,
        &[all_idle()],
    )
}

const NOT_ENABLED: &[u8] = b"\
remote 5 send
up 0
remote 0 answer
";

const NOTHING_MOVES: &[u8] = b"\
1 remote 5 send: refused
2 up 0: refused
3 remote 0 answer: refused
end
  home F o=none j=none d=0 held[] owed[]
  remote 0 I d=0 slot[] up[] down[]
  remote 1 I d=0 slot[] up[] down[]
abstract
  home F o=none j=none d=0
  remote 0 I d=0
  remote 1 I d=0
";

#[test]
fn a_step_that_is_not_enabled_changes_nothing(rt: HostRuntime) -> Result<(), Wrong> {
    schedule_ends(
        rt.alloc(),
        &TWO_LEAN,
        &[MIGRATORY],
        &[NOT_ENABLED],
        Status::Done,
        &[NOTHING_MOVES],
    )
}
