//! `check`: protocols that are well-formed, or have one fault.

use memory_runs::{HOLD, SMALL, STILL, Wrong, begins, each_file_ends, ends, over_file};
use proto_model::{Body, MessageInfo, Protocol};
use protocol_reader::read;
use rvc_top::Status;
use star_check::{Checked, check};
use std::alloc::Global;

const CHECK: [&str; 2] = ["check", "p"];

const COUNTED: [(&[u8], &[u8]); 3] = [
    (SMALL, b"ok small messages 2 home 1 remote 1\n"),
    (HOLD, b"ok hold messages 2 home 1 remote 2\n"),
    (STILL, b"ok still messages 0 home 1 remote 1\n"),
];

#[test]
fn a_well_formed_protocol_is_counted(rt: HostRuntime) -> Result<(), Wrong> {
    each_file_ends(rt.alloc(), &CHECK, Status::Done, &COUNTED)
}

// `small` up to its line 12, the remote's one guard, and behind it.
const SMALL_FRONT: &[u8] = b"\
protocol small;
message a up;
message b down;
home {
  start H;
  state H {
  }
}
remote {
  start R;
  state R {
";

const SMALL_REST: &[u8] = b"
  }
}
";

// Texts in place of line 12 that are well-formed.
const FINE: [&[u8]; 6] = [
    b"to home ! a goto R;",
    b"from home ? b goto R; tau goto R;",
    b"tau when 65535 + 1 eq 0 and none notin empty + none goto R;",
    b"tau when none eq none and empty ne empty and 1 le 2 goto R;",
    b"} state a { tau goto R;",
    b"",
];

// That `small` with this line is well-formed.
fn accepts(alloc: Global, line: &[u8]) -> Result<(), Wrong> {
    let file = [SMALL_FRONT, line, SMALL_REST];
    ends(alloc, &begins(&CHECK, &file, b"ok small "))
}

#[test]
fn a_well_formed_guard_is_no_fault(rt: HostRuntime) -> Result<(), Wrong> {
    for line in FINE {
        accepts(rt.alloc(), line)?;
    }
    Ok(())
}

// Texts in place of line 12 of `small`, with the text that tells the fault.
const LINES: [(&[u8], &[u8]); 20] = [
    (
        b"to home ! a goto R; from home ? b goto R;",
        b"error file line 11 code 17\n",
    ),
    (
        b"to home ! a when 0 eq 0 goto R;",
        b"error file line 12 code 18\n",
    ),
    (b"to j ! a goto R;", b"error file line 12 code 16\n"),
    (b"to home ! b goto R;", b"error file line 12 code 15\n"),
    (b"to home ! a(1) goto R;", b"error file line 12 code 14\n"),
    (b"to home ! a goto T;", b"error file line 12 code 13\n"),
    (
        b"tau goto R; } state R { tau goto R;",
        b"error file line 12 code 12\n",
    ),
    (
        b"from home ? b when 70000 eq 0 goto R;",
        b"error file line 12 code 19\n",
    ),
    (b"to home ! a - R;", b"error file line 12 code 1\n"),
    (b"to home ! 2a goto R;", b"error file line 12 code 1\n"),
    // The least code of an item is told, and what is unknown hides types and directions.
    (
        b"to j ! c(1) when 70000 eq 0 goto T;",
        b"error file line 12 code 13\n",
    ),
    (
        b"to j ! b(1) when 70000 eq none goto R;",
        b"error file line 12 code 14\n",
    ),
    (b"to any j ! b goto R;", b"error file line 12 code 15\n"),
    // Each operator and relation takes its own types.
    (
        b"tau when 1 eq none goto R;",
        b"error file line 12 code 14\n",
    ),
    (
        b"tau when none in none goto R;",
        b"error file line 12 code 14\n",
    ),
    (
        b"tau when empty lt empty goto R;",
        b"error file line 12 code 14\n",
    ),
    (
        b"tau when empty - 1 eq empty goto R;",
        b"error file line 12 code 14\n",
    ),
    (b"from home ? b(x) goto R;", b"error file line 12 code 13\n"),
    (b"from home ? a goto R;", b"error file line 12 code 15\n"),
    (
        b"tau when 65536 eq 0 goto R;",
        b"error file line 12 code 19\n",
    ),
];

// That `small` with this line is refused so.
fn refuses(alloc: Global, line: &[u8], text: &[u8]) -> Result<(), Wrong> {
    let file = [SMALL_FRONT, line, SMALL_REST];
    ends(alloc, &over_file(&CHECK, &file, Status::FileRefused, text))
}

#[test]
fn the_first_fault_is_told(rt: HostRuntime) -> Result<(), Wrong> {
    for (line, text) in LINES {
        refuses(rt.alloc(), line, text)?;
    }
    Ok(())
}

fn body_is_copied(alloc: Global, body: &Body) -> bool {
    match body.copy(alloc) {
        Ok(copy) => copy.states.as_slice().len() == body.states.as_slice().len(),
        Err(_) => false,
    }
}

fn message_is_copied(alloc: Global, message: &MessageInfo) -> bool {
    match message.copy(alloc) {
        Ok(copy) => copy.up == message.up,
        Err(_) => false,
    }
}

fn messages_are_copied(alloc: Global, messages: &[MessageInfo]) -> bool {
    for message in messages {
        if !message_is_copied(alloc, message) {
            return false;
        }
    }
    true
}

fn is_copied(alloc: Global, checked: &Checked) -> bool {
    body_is_copied(alloc, checked.home())
        && body_is_copied(alloc, checked.remote())
        && messages_are_copied(alloc, checked.messages())
}

fn is_checked_and_copied(alloc: Global, protocol: Protocol) -> bool {
    match check(alloc, protocol) {
        Ok(checked) => is_copied(alloc, &checked),
        Err(_) => false,
    }
}

// Whether the file is read and checked, and its bodies and messages copied.
fn is_read_and_copied(alloc: Global, file: &[u8]) -> bool {
    match read(alloc, file) {
        Ok(spelled) => is_checked_and_copied(alloc, spelled.protocol),
        Err(_) => false,
    }
}

#[test]
fn copies_find_memory(rt: HostRuntime) {
    assert!(rt; is_read_and_copied(rt.alloc(), HOLD));
}
