//! Events replayed on a protocol.

use crate::replayed::replayed;
use memory_runs::{ARITH, MIGRATORY, Wrong, ends};
use rvc_top::Status;

/// The trace of the three events by which one remote of `MIGRATORY` gets the line.
pub const MIGRATES: &[u8] = b"\
1 tau 0 0: moved
  remote 0 R d=0
2 up 0 0 0: moved
  home G o=none j=#0 d=0
  remote 0 W d=0
3 down 0 0 0: moved
  home E o=#0 j=#0 d=0
  remote 0 V d=0
end
  home E o=#0 j=#0 d=0
  remote 0 V d=0
";

const MIGRATION: &[u8] = b"tau 0 0\nup 0 0 0\ndown 0 0 0\n";

#[test]
fn a_line_comes_to_the_remote_that_asks(rt: HostRuntime) -> Result<(), Wrong> {
    let case = replayed(&[MIGRATORY], &[MIGRATION], Status::Done, MIGRATES);
    ends(rt.alloc(), &case)
}

const RECKONS: &[u8] = b"\
1 tau home 0: moved
  home H c=0 e=0 x=none s={}
2 tau home 1: moved
  home H c=3 e=0 x=none s={}
3 down 0 2 0: refused
end
  home H c=3 e=0 x=none s={}
  remote 0 R
";

const RECKONING: &[u8] = b"tau home 0\ntau home 1\ndown 0 2 0\n";

#[test]
fn a_value_is_cut_where_it_is_stored(rt: HostRuntime) -> Result<(), Wrong> {
    let case = replayed(&[ARITH], &[RECKONING], Status::Done, RECKONS);
    ends(rt.alloc(), &case)
}

const REFUSED: &[u8] =
    b"tau home 0\ntau 0 1\ntau 1 0\ntau 99999 0\nup 0 0 0\nup 0 99999 0\ndown 0 0 99999";

const NOTHING_MOVES: &[u8] = b"\
1 tau home 0: refused
2 tau 0 1: refused
3 tau 1 0: refused
4 tau 99999 0: refused
5 up 0 0 0: refused
6 up 0 99999 0: refused
7 down 0 0 99999: refused
end
  home F o=none j=none d=0
  remote 0 I d=0
";

#[test]
fn an_event_that_does_not_take_place_changes_nothing(rt: HostRuntime) -> Result<(), Wrong> {
    let case = replayed(&[MIGRATORY], &[REFUSED], Status::Done, NOTHING_MOVES);
    ends(rt.alloc(), &case)
}
