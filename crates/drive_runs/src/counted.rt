//! What is counted over a run.

use memory_runs::{
    HOLD, INVALIDATE, MIGRATORY, STILL, Wrong, each_file_ends, ends, ends_by, over_file,
};
use rvc_top::Status;
use std::alloc::Global;

/// The home sent a request.
pub fn sent_down() -> &'static [u8] {
    b"\
steps 1
events 0
requests 1
acks 0
nacks 0
replies 0
crossed 0
held 0
up 0
down 1
stopped no
"
}

#[test]
fn the_first_of_two_steps_is_of_the_home(rt: HostRuntime) -> Result<(), Wrong> {
    let words = ["drive", "p", "1", "2", "plain", "1", "1"];
    each_file_ends(rt.alloc(), &words, Status::Done, &[(HOLD, sent_down())])
}

// A remote sent a request.
const SENT_UP: &[u8] = b"\
steps 1
events 0
requests 1
acks 0
nacks 0
replies 0
crossed 0
held 0
up 1
down 0
stopped no
";

// Nothing happened, since there was no turn.
const NO_TURN: &[u8] = b"\
steps 0
events 0
requests 0
acks 0
nacks 0
replies 0
crossed 0
held 0
up 0
down 0
stopped no
";

// Nothing happened, since no step was enabled.
const STOPPED: &[u8] = b"\
steps 0
events 0
requests 0
acks 0
nacks 0
replies 0
crossed 0
held 0
up 0
down 0
stopped yes
";

// One remote gets the line: in each turn one step is enabled.
const GRANTED: &[u8] = b"\
steps 6
events 3
requests 1
acks 0
nacks 0
replies 1
crossed 0
held 1
up 1
down 1
stopped no
";

// At the start of `hold` the home may send to each remote, and then each remote to the home: 128
// steps where there are 64. The number that follows the seed 1 chooses the one with the number
// 908,834,774 modulo 128, which is 86.
const SHORT: [([&str; 7], &[u8], &[u8]); 6] = [
    (["drive", "p", "64", "64", "plain", "1", "1"], HOLD, SENT_UP),
    (["drive", "p", "1", "2", "lean", "0", "1"], HOLD, NO_TURN),
    (
        ["drive", "p", "1", "2", "lean", "6", "7"],
        MIGRATORY,
        GRANTED,
    ),
    (["drive", "p", "2", "2", "plain", "10", "0"], STILL, STOPPED),
    (
        ["drive", "p", "64", "64", "lean", "100000", "0"],
        STILL,
        STOPPED,
    ),
    (
        ["drive", "p", "1", "2", "plain", "1", "18446744073709551615"],
        STILL,
        STOPPED,
    ),
];

// That a run with these words over this file is done and writes this text.
fn counts(alloc: Global, words: &[&str], file: &[u8], text: &[u8]) -> Result<(), Wrong> {
    ends(alloc, &over_file(words, &[file], Status::Done, text))
}

#[test]
fn what_happens_is_counted(rt: HostRuntime) -> Result<(), Wrong> {
    for (words, file, text) in SHORT {
        counts(rt.alloc(), &words, file, text)?;
    }
    Ok(())
}

const PLAIN: &[u8] = b"\
steps 300
events 60
requests 78
acks 25
nacks 48
replies 0
crossed 3
held 2
up 2
down 2
stopped no
";

const LEAN: &[u8] = b"\
steps 300
events 99
requests 70
acks 17
nacks 21
replies 17
crossed 13
held 2
up 1
down 2
stopped no
";

// At most as many requests are held as there are slots, and at most 2 packets are on an up link and
// 3 on a down link.
const LONG: &[u8] = b"\
steps 20000
events 2960
requests 5471
acks 450
nacks 4110
replies 570
crossed 336
held 3
up 2
down 2
stopped no
";

// Reckoned apart from this program, by the rules of the steps and the order in which they are
// chosen from.
const CROSSING: [([&str; 7], &[u8], &[u8]); 3] = [
    (
        ["drive", "p", "4", "2", "plain", "300", "1"],
        MIGRATORY,
        PLAIN,
    ),
    (
        ["drive", "p", "3", "2", "lean", "300", "1"],
        INVALIDATE,
        LEAN,
    ),
    (
        ["drive", "p", "8", "3", "lean", "20000", "1"],
        MIGRATORY,
        LONG,
    ),
];

// That two runs with these words over this file are done and write this text.
fn counts_twice(alloc: Global, words: &[&str], file: &[u8], text: &[u8]) -> Result<(), Wrong> {
    ends_by(alloc, &over_file(words, &[file], Status::Done, text), 4_096)
}

#[test]
fn long_runs_are_counted(rt: HostRuntime) -> Result<(), Wrong> {
    for (words, file, text) in CROSSING {
        counts_twice(rt.alloc(), &words, file, text)?;
    }
    Ok(())
}
