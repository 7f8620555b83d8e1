//! `check` over protocols at each limit, and one past it.

use memory_runs::{Case, Wrong, begins, ends, ends_by, over_file};
use rv_base::{NoMemory, put_number};
use rvc_top::Status;
use std::alloc::Global;

const CHECK: [&str; 2] = ["check", "p"];

// `check` over a file of these pieces, which tells this text, or counts where that is empty.
fn checked<'a>(file: &'a [&'a [u8]], text: &'a [u8]) -> Case<'a> {
    if text.is_empty() {
        begins(&CHECK, file, b"ok p messages ")
    } else {
        over_file(&CHECK, file, Status::FileRefused, text)
    }
}

// So many texts, with their numbers from 0 between front and back.
fn counted(alloc: Global, front: &[u8], back: &[u8], count: u64) -> Result<Vec<u8>, NoMemory> {
    let mut all = Vec::new(alloc);
    for number in 0..count {
        all.extend_from_slice(front)?;
        put_number(alloc, number, &mut all)?;
        all.extend_from_slice(back)?;
    }
    Ok(all)
}

// What a file has so many of: what stands before them, in front and at the back of each number, and
// what stands behind them.
struct Repeated {
    before: &'static [u8],
    front: &'static [u8],
    back: &'static [u8],
    behind: &'static [u8],
}

// That `check` tells this of a file that has so many.
fn tells(alloc: Global, of: &Repeated, count: u64, text: &[u8]) -> Result<(), Wrong> {
    let all = counted(alloc, of.front, of.back, count)?;
    ends_by(alloc, &checked(&[of.before, &all, of.behind], text), 4_096)
}

const MESSAGES: Repeated = Repeated {
    before: b"protocol p;\n",
    front: b"message m",
    back: b" up;\n",
    behind: b"home {\nstart s0;\nstate s0 { }\n}\nremote { start r; state r { } }\n",
};

#[test]
fn there_are_at_most_64_messages(rt: HostRuntime) -> Result<(), Wrong> {
    tells(rt.alloc(), &MESSAGES, 64, b"")?;
    tells(rt.alloc(), &MESSAGES, 65, b"error file line 66 code 10\n")
}

const VARIABLES: Repeated = Repeated {
    before: b"protocol p;\nhome {\n",
    front: b"var v",
    back: b" node = none;\n",
    behind: b"start s0;\nstate s0 { }\n}\nremote { start r; state r { } }\n",
};

#[test]
fn there_are_at_most_16_variables(rt: HostRuntime) -> Result<(), Wrong> {
    tells(rt.alloc(), &VARIABLES, 16, b"")?;
    tells(rt.alloc(), &VARIABLES, 17, b"error file line 19 code 10\n")
}

const STATES: Repeated = Repeated {
    before: b"protocol p;\nhome {\nstart s0;\n",
    front: b"state s",
    back: b" { }\n",
    behind: b"}\nremote { start r; state r { } }\n",
};

#[test]
fn there_are_at_most_64_states(rt: HostRuntime) -> Result<(), Wrong> {
    tells(rt.alloc(), &STATES, 64, b"")?;
    tells(rt.alloc(), &STATES, 65, b"error file line 68 code 10\n")
}

const GUARDS: Repeated = Repeated {
    before: b"protocol p;\nhome {\nstart s0;\nstate s0 {\n",
    front: b"tau when 0 eq ",
    back: b" goto s0;\n",
    behind: b"}\n}\nremote { start r; state r { } }\n",
};

#[test]
fn a_state_has_at_most_16_guards(rt: HostRuntime) -> Result<(), Wrong> {
    tells(rt.alloc(), &GUARDS, 16, b"")?;
    tells(rt.alloc(), &GUARDS, 17, b"error file line 21 code 10\n")
}

// One condition stands before those that are counted.
const CONDITIONS: Repeated = Repeated {
    before: b"protocol p;\nhome {\nstart s0;\nstate s0 {\ntau when 0 eq 0",
    front: b" and 0 eq ",
    back: b"",
    behind: b" goto s0;\n}\n}\nremote { start r; state r { } }\n",
};

#[test]
fn a_guard_has_at_most_8_conditions(rt: HostRuntime) -> Result<(), Wrong> {
    tells(rt.alloc(), &CONDITIONS, 7, b"")?;
    tells(rt.alloc(), &CONDITIONS, 8, b"error file line 5 code 10\n")
}

// One assignment stands before those that are counted.
const ASSIGNMENTS: Repeated = Repeated {
    before: b"protocol p;\nhome {\nvar x int 2 = 0;\nstart s0;\nstate s0 {\ntau do x = 0",
    front: b", x = ",
    back: b"",
    behind: b" goto s0;\n}\n}\nremote { start r; state r { } }\n",
};

#[test]
fn a_guard_has_at_most_8_assignments(rt: HostRuntime) -> Result<(), Wrong> {
    tells(rt.alloc(), &ASSIGNMENTS, 7, b"")?;
    tells(rt.alloc(), &ASSIGNMENTS, 8, b"error file line 6 code 10\n")
}

const CLAIMS: Repeated = Repeated {
    before: b"protocol p version 2;\nhome {\nstart s0;\nstate s0 { }\n}\n\
        remote { start r; state r { } }\n",
    front: b"claim atmost ",
    back: b" in r;\n",
    behind: b"",
};

#[test]
fn there_are_at_most_16_claims(rt: HostRuntime) -> Result<(), Wrong> {
    tells(rt.alloc(), &CLAIMS, 16, b"")?;
    tells(rt.alloc(), &CLAIMS, 17, b"error file line 23 code 10\n")
}

// The same state again and again, with the numbers in comments.
const NAMES: Repeated = Repeated {
    before: b"protocol p version 2;\nhome {\nstart s0;\nstate s0 { }\n}\n\
        remote { start r; state r { } }\nclaim atmost 1 in\n",
    front: b"r //",
    back: b"\n",
    behind: b";\n",
};

#[test]
fn a_claim_names_at_most_64_states(rt: HostRuntime) -> Result<(), Wrong> {
    tells(rt.alloc(), &NAMES, 64, b"")?;
    tells(rt.alloc(), &NAMES, 65, b"error file line 7 code 10\n")
}

const ONE_STATE: &[u8] = b"state s0 { }\n";

// Messages, variables and states, and what is told of them.
const DECLARATIONS: [(&[u8], &[u8], &[u8], &[u8]); 14] = [
    (
        b"message a2345678901234567890123456789012 up;\n",
        b"",
        ONE_STATE,
        b"",
    ),
    (
        b"message a23456789012345678901234567890123 up;\n",
        b"",
        ONE_STATE,
        b"error file line 2 code 11\n",
    ),
    (
        b"message a up int 2;\nmessage b up int 65536;\n",
        b"",
        ONE_STATE,
        b"",
    ),
    (
        b"message a up int 1;\n",
        b"",
        ONE_STATE,
        b"error file line 2 code 19\n",
    ),
    (
        b"message a up int 65537;\n",
        b"",
        ONE_STATE,
        b"error file line 2 code 19\n",
    ),
    (
        b"message a up;\nmessage a down;\n",
        b"",
        ONE_STATE,
        b"error file line 3 code 12\n",
    ),
    (b"", b"var x int 2 = 1;\n", ONE_STATE, b""),
    (
        b"",
        b"var x int 2 = 2;\n",
        ONE_STATE,
        b"error file line 3 code 19\n",
    ),
    (
        b"",
        b"var x int 2 = none;\n",
        ONE_STATE,
        b"error file line 3 code 14\n",
    ),
    (
        b"",
        b"var x node = 5;\n",
        ONE_STATE,
        b"error file line 3 code 14\n",
    ),
    (
        b"",
        b"var x int 1 = none;\n",
        ONE_STATE,
        b"error file line 3 code 14\n",
    ),
    (
        b"",
        b"var x set = empty;\nvar x node = none;\n",
        ONE_STATE,
        b"error file line 4 code 12\n",
    ),
    (b"", b"", b"", b"error file line 3 code 13\n"),
    (
        b"message s0 up;\n",
        b"var s0 node = none;\n",
        ONE_STATE,
        b"",
    ),
];

// That `check` tells this of a file with these declarations.
fn declares(
    alloc: Global,
    messages: &[u8],
    variables: &[u8],
    states: &[u8],
    text: &[u8],
) -> Result<(), Wrong> {
    let file = [
        b"protocol p;\n",
        messages,
        b"home {\n",
        variables,
        b"start s0;\n",
        states,
        b"}\nremote { start r; state r { } }\n",
    ];
    ends(alloc, &checked(&file, text))
}

#[test]
fn each_declaration_is_checked(rt: HostRuntime) -> Result<(), Wrong> {
    for (messages, variables, states, text) in DECLARATIONS {
        declares(rt.alloc(), messages, variables, states, text)?;
    }
    Ok(())
}
