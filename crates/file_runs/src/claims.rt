//! Files with claims: laid out, and checked.

use memory_runs::{MIGRATORY_2, Wrong, each_file_ends, ends, migratory_body, over_file};
use rvc_top::Status;
use std::alloc::Global;

const CLAIMED: &[u8] = b"\
protocol p version 2;home{start H;state H{}}remote{start V;state V{}state L{}}\
claim   atmost 1 in V\n L; claim not V //x\n with V;";

const CLAIMED_LAID: &[u8] = b"\
protocol p version 2;
home {
  start H;
  state H {
  }
}
remote {
  start V;
  state V {
  }
  state L {
  }
}
claim atmost 1 in V L;
claim not V with V;
";

// `print` looks at no name and at no limit.
const UNKNOWN: &[u8] = b"\
protocol\tp\tversion\t2;home{start H;}remote{start V;}claim atmost 99999 in Q Q;";

const UNKNOWN_LAID: &[u8] = b"\
protocol p version 2;
home {
  start H;
}
remote {
  start V;
}
claim atmost 99999 in Q Q;
";

const LAID_OUT: [(&[u8], &[u8]); 3] = [
    (CLAIMED, CLAIMED_LAID),
    (CLAIMED_LAID, CLAIMED_LAID),
    (UNKNOWN, UNKNOWN_LAID),
];

#[test]
fn claims_are_laid_out(rt: HostRuntime) -> Result<(), Wrong> {
    each_file_ends(rt.alloc(), &["print", "p"], Status::Done, &LAID_OUT)
}

const COUNTED: &[u8] = b"ok migratory messages 5 home 5 remote 6\n";

// What stands behind `migratory` of version 2, from its line 54 on.
const FINE: [&[u8]; 4] = [
    b"",
    b"claim not V with V;\nclaim atmost 0 in I R W V L D;\n",
    b"claim atmost 64 in V V;",
    b"claim atmost 1\tin V// one\n;",
];

// That `migratory` of version 2 with these claims is well-formed.
fn accepts(alloc: Global, claims: &'static [u8]) -> Result<(), Wrong> {
    let file = [MIGRATORY_2, migratory_body(), claims];
    let words = ["check", "p"];
    ends(alloc, &over_file(&words, &file, Status::Done, COUNTED))
}

#[test]
fn a_well_formed_claim_is_no_fault(rt: HostRuntime) -> Result<(), Wrong> {
    for claims in FINE {
        accepts(rt.alloc(), claims)?;
    }
    Ok(())
}

// The same, and what is told of it.
const FAULTS: [(&[u8], &[u8]); 15] = [
    // A state that the remote doesn't have.
    (b"claim atmost 1 in Q;", b"error file line 54 code 13\n"),
    (b"claim atmost 1 in V\nQ;", b"error file line 54 code 13\n"),
    (b"claim not Q with V;", b"error file line 54 code 13\n"),
    (b"claim not V with F;", b"error file line 54 code 13\n"),
    // More remotes than there are.
    (b"claim atmost 65 in V;", b"error file line 54 code 19\n"),
    (
        b"claim not V with L;\n\nclaim atmost 65 in V;\nclaim atmost 1 in Q;",
        b"error file line 56 code 19\n",
    ),
    (b"claim atmost 65 in Q;", b"error file line 54 code 13\n"),
    // No claim.
    (b"claim atmost 1 in ;", b"error file line 54 code 1\n"),
    (b"claim atmost 1 in V, L;", b"error file line 54 code 1\n"),
    (b"claim atmost V in V;", b"error file line 54 code 1\n"),
    (
        b"claim atmost 1 in V claim;",
        b"error file line 54 code 1\n",
    ),
    (b"claim not V;", b"error file line 54 code 1\n"),
    (b"claim not V with V L;", b"error file line 54 code 1\n"),
    (b"claim not V with V\n", b"error file line 55 code 1\n"),
    (
        b"claim not V with V;\nmessage a up;",
        b"error file line 55 code 1\n",
    ),
];

// That `migratory` with this header and these claims is refused so.
fn refuses(
    alloc: Global,
    header: &'static [u8],
    claims: &'static [u8],
    text: &'static [u8],
) -> Result<(), Wrong> {
    let file = [header, migratory_body(), claims];
    let words = ["check", "p"];
    ends(alloc, &over_file(&words, &file, Status::FileRefused, text))
}

#[test]
fn a_claim_with_a_fault_is_told_by_its_line(rt: HostRuntime) -> Result<(), Wrong> {
    for (claims, text) in FAULTS {
        refuses(rt.alloc(), MIGRATORY_2, claims, text)?;
    }
    Ok(())
}

// Headers of `migratory`, and what is told of it with a claim at its line 54.
const HEADERS: [(&[u8], &[u8]); 6] = [
    (b"protocol migratory;\n", b"error file line 54 code 1\n"),
    (
        b"protocol migratory version 3;\n",
        b"error file line 1 code 1\n",
    ),
    (
        b"protocol migratory version 1;\n",
        b"error file line 1 code 1\n",
    ),
    (
        b"protocol migratory version 02;\n",
        b"error file line 1 code 1\n",
    ),
    (
        b"protocol migratory version;\n",
        b"error file line 1 code 1\n",
    ),
    (
        b"protocol migratory version 2 2;\n",
        b"error file line 1 code 1\n",
    ),
];

#[test]
fn version_2_alone_has_claims(rt: HostRuntime) -> Result<(), Wrong> {
    for (header, text) in HEADERS {
        refuses(rt.alloc(), header, b"claim atmost 1 in Q;", text)?;
    }
    Ok(())
}
