//! Where a claim is broken.

use crate::replayed::replayed;
use memory_runs::{
    Case, MIGRATORY_2, Reads, Text, Wrong, each_file_read_fails, each_schedule_read_fails,
    each_write_fails, ends, ends_by, left_after, migratory_body, over_file,
};
use rvc_top::Status;
use std::alloc::Global;

// A remote gets the line and writes to it.
const WRITES: &[u8] = b"tau 0 0\nup 0 0 0\ndown 0 0 0\ntau 0 0\n";

const WRITTEN: &[u8] = b"\
1 tau 0 0: moved
  remote 0 R d=0
2 up 0 0 0: moved
  home G o=none j=#0 d=0
  remote 0 W d=0
3 down 0 0 0: moved
  home E o=#0 j=#0 d=0
  remote 0 V d=0
4 tau 0 0: moved
  remote 0 V d=1
end
  home E o=#0 j=#0 d=0
  remote 0 V d=1
";

const BROKEN_BY_LINE_3: &[u8] = b"\
1 tau 0 0: moved
  remote 0 R d=0
2 up 0 0 0: moved
  home G o=none j=#0 d=0
  remote 0 W d=0
3 down 0 0 0: moved
  home E o=#0 j=#0 d=0
  remote 0 V d=0
claim 0 broken
end
  home E o=#0 j=#0 d=0
  remote 0 V d=0
";

const BROKEN_BY_LINE_2: &[u8] = b"\
1 tau 0 0: moved
  remote 0 R d=0
2 up 0 0 0: moved
  home G o=none j=#0 d=0
  remote 0 W d=0
claim 2 broken
end
  home G o=none j=#0 d=0
  remote 0 W d=0
";

const REFUSED_AT_LINE_3: &[u8] = b"\
1 tau 0 0: moved
  remote 0 R d=0
2 up 0 0 0: moved
  home G o=none j=#0 d=0
  remote 0 W d=0
error schedule line 3
";

const NONE_IN_V: &[u8] = b"claim atmost 0 in V;";

// Of these the last two are broken where a remote is in W.
const SEVERAL: &[u8] = b"\
claim atmost 1 in V;claim not V with L;claim atmost 0 in W;claim atmost 0 in V W;";

// Claims of `migratory`, a schedule for one remote, and how `rv` ends over them.
const REPLAYS: [(&[u8], &[u8], Status, &[u8]); 7] = [
    (b"", WRITES, Status::Done, WRITTEN),
    (b"claim not V with V;", WRITES, Status::Done, WRITTEN),
    (NONE_IN_V, WRITES, Status::ClaimBroken, BROKEN_BY_LINE_3),
    // The first of those that are broken is told.
    (SEVERAL, WRITES, Status::ClaimBroken, BROKEN_BY_LINE_2),
    // What follows the line that breaks a claim isn't looked at.
    (
        NONE_IN_V,
        b"tau 0 0\nup 0 0 0\ndown 0 0 0\nhome fly",
        Status::ClaimBroken,
        BROKEN_BY_LINE_3,
    ),
    (
        NONE_IN_V,
        b"tau 0 0\nup 0 0 0\ndown 0 0 0",
        Status::ClaimBroken,
        BROKEN_BY_LINE_3,
    ),
    (
        NONE_IN_V,
        b"tau 0 0\nup 0 0 0\nhome fly\ndown 0 0 0\n",
        Status::ScheduleRefused,
        REFUSED_AT_LINE_3,
    ),
];

// That `rv` ends so over `migratory` with these claims.
fn replays(
    alloc: Global,
    claims: &'static [u8],
    schedule: &'static [u8],
    status: Status,
    text: &'static [u8],
) -> Result<(), Wrong> {
    let file = [MIGRATORY_2, migratory_body(), claims];
    ends(alloc, &replayed(&file, &[schedule], status, text))
}

#[test]
fn a_replay_ends_where_a_claim_is_broken(rt: HostRuntime) -> Result<(), Wrong> {
    for (claims, schedule, status, text) in REPLAYS {
        replays(rt.alloc(), claims, schedule, status, text)?;
    }
    Ok(())
}

const BROKEN_AT_START: &[u8] = b"\
claim 0 broken
end
  home F o=none j=none d=0
  remote 0 I d=0
";

#[test]
fn a_claim_that_is_broken_at_the_start_reads_no_line(rt: HostRuntime) -> Result<(), Wrong> {
    let file = [
        MIGRATORY_2,
        migratory_body(),
        b"claim atmost 0 in I;".as_slice(),
    ];
    let words = ["rv", "p", "1"];
    let case = over_file(&words, &file, Status::ClaimBroken, BROKEN_AT_START);
    ends(rt.alloc(), &case)
}

// `hold` with a version, whose remotes all start in Q.
const HOLD_2: &[u8] = b"protocol hold version 2;message a down;message b up;\
home{var j node=none;start H;state H{to any j!a goto H;}}\
remote{start Q;state Q{to home!b goto P;}state P{from home?a goto P;}}";

const ENDS: &[u8] = b"end\n  home H j=none\n  remote 0 Q\n";

const BREAKS: &[u8] = b"claim 0 broken\nend\n  home H j=none\n  remote 0 Q\n";

// So many remotes, a claim, and how `rv` begins to write where nothing happens.
const STARTS: [(&str, &[u8], Status, &[u8]); 9] = [
    ("1", b"claim not Q with Q;", Status::Done, ENDS),
    ("2", b"claim not Q with Q;", Status::ClaimBroken, BREAKS),
    ("2", b"claim not Q with P;", Status::Done, ENDS),
    ("2", b"claim atmost 2 in Q;", Status::Done, ENDS),
    // Remotes are counted, and neither states nor names.
    ("2", b"claim atmost 1 in Q;", Status::ClaimBroken, BREAKS),
    ("2", b"claim atmost 2 in P Q Q;", Status::Done, ENDS),
    (
        "3",
        b"claim atmost 2 in P Q Q;",
        Status::ClaimBroken,
        BREAKS,
    ),
    ("64", b"claim atmost 64 in Q;", Status::Done, ENDS),
    ("64", b"claim atmost 63 in Q;", Status::ClaimBroken, BREAKS),
];

// That `rv` with so many remotes begins so over `hold` with this claim.
fn starts(
    alloc: Global,
    remotes: &str,
    claim: &[u8],
    status: Status,
    front: &[u8],
) -> Result<(), Wrong> {
    let words = ["rv", "p", remotes];
    let file = [HOLD_2, claim];
    let case = Case {
        words: &words,
        file: &file,
        schedule: &[],
        reads: Reads::FileAndSchedule,
        status,
        text: Text::Front(front),
    };
    ends_by(alloc, &case, 7)
}

#[test]
fn a_claim_counts_remotes(rt: HostRuntime) -> Result<(), Wrong> {
    for (remotes, claim, status, front) in STARTS {
        starts(rt.alloc(), remotes, claim, status, front)?;
    }
    Ok(())
}

const APART: &[u8] = b"\
1 tau 0 0: moved
  remote 0 R d=0
2 tau 1 0: moved
  remote 1 R d=0
3 up 0 0 0: moved
  home G o=none j=#0 d=0
  remote 0 W d=0
claim 1 broken
end
  home G o=none j=#0 d=0
  remote 0 W d=0
  remote 1 R d=0
";

// A claim that holds, and one that is broken by remote 0 in W and remote 1 in R.
const EITHER_WAY: [&[u8]; 2] = [
    b"claim not R with V;claim not W with R;",
    b"claim not V with R;claim not R with W;",
];

// Two remotes ask, and the home takes what the first one sends.
const TWO_ASK: &[u8] = b"tau 0 0\ntau 1 0\nup 0 0 0\n";

// `rv` over this file with two remotes, whose claim 1 is broken by the last of these events.
fn apart<'a>(file: &'a [&'a [u8]]) -> Case<'a> {
    Case {
        words: &["rv", "p", "2"],
        file,
        schedule: &[TWO_ASK],
        reads: Reads::FileAndSchedule,
        status: Status::ClaimBroken,
        text: Text::Whole(APART),
    }
}

// That it ends so over `migratory` with these claims.
fn parts(alloc: Global, claims: &'static [u8]) -> Result<(), Wrong> {
    let file = [MIGRATORY_2, migratory_body(), claims];
    ends(alloc, &apart(&file))
}

#[test]
fn two_states_are_apart_in_either_order(rt: HostRuntime) -> Result<(), Wrong> {
    for claims in EITHER_WAY {
        parts(rt.alloc(), claims)?;
    }
    Ok(())
}

// A remote gives `m` to the home once, which breaks the claim. The file has 164 bytes.
const MEETS: &[u8] = b"protocol p version 2;message m up;\
home{var j node=none;start H;state H{from any j?m goto H;}}\
remote{start R;state R{to home!m goto T;}state T{}}\
claim atmost 0 in T;";

// Four lines in 30 bytes: an event that doesn't take place, a comment, the event that breaks the
// claim, and without an LF a malformed line.
const MEETING: &[u8] = b"up 1 0 0\n//x\nup 0 0 0\nhome fly";

// The blocks of two events, of 20 and 45 bytes, the claim, and the end, of 46 bytes together.
const MET: &[u8] = b"\
1 up 1 0 0: refused
2 up 0 0 0: moved
  home H j=#0
  remote 0 T
claim 0 broken
end
  home H j=#0
  remote 0 T
";

#[test]
fn each_read_of_the_file_may_fail(rt: HostRuntime) -> Result<(), Wrong> {
    let case = replayed(&[MEETS], &[MEETING], Status::ClaimBroken, MET);
    each_file_read_fails(rt.alloc(), &case, &[(1, 165), (7, 25), (4_096, 2)])
}

// For each line before the one that breaks the claim how many bytes of the schedule there are up to
// it, and how many are written then. That one ends with byte 22, and no read follows it.
const LINE_ENDS: [(u64, usize); 2] = [(9, 20), (13, 20)];

#[test]
fn each_read_up_to_the_broken_claim_may_fail(rt: HostRuntime) -> Result<(), Wrong> {
    let case = replayed(&[MEETS], &[MEETING], Status::ClaimBroken, MET);
    each_schedule_read_fails(
        rt.alloc(),
        &case,
        &LINE_ENDS,
        &[(1, 22), (7, 4), (4_096, 1)],
    )
}

#[test]
fn each_write_up_to_the_end_may_fail(rt: HostRuntime) -> Result<(), Wrong> {
    let case = replayed(&[MEETS], &[MEETING], Status::ClaimBroken, MET);
    each_write_fails(
        rt.alloc(),
        &case,
        &[(1, &[20, 91], 111), (7, &[20, 91], 16), (4_096, &[111], 1)],
    )
}

const MET_AT_ONCE: &[u8] = b"\
1 up 0 0 0: moved
  home H j=#0
  remote 0 T
claim 0 broken
end
  home H j=#0
  remote 0 T
";

// The schedule has 100,009 bytes. The LF of its first line is byte 9, and at most 255 more are
// taken.
#[test]
fn little_is_taken_past_the_event_that_breaks_a_claim(rt: HostRuntime) -> Result<(), Wrong> {
    let lines = vec![in rt.alloc(); b'\n'; 100_000].or(Err(Wrong::NoMemory))?;
    let schedule = [b"up 0 0 0\n", lines.as_slice()];
    let case = replayed(&[MEETS], &schedule, Status::ClaimBroken, MET_AT_ONCE);
    ends_by(rt.alloc(), &case, 1_000)?;
    assert!(rt; left_after(rt.alloc(), &case, 1_000)? >= 99_745);
    Ok(())
}
