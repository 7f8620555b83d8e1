//! How many remotes and slots there may be, and in which mode.

use memory_runs::{MIGRATORY, Wrong, ends, over_nothing, over_schedule};
use rv_base::NoMemory;
use rvc_top::Status;
use std::alloc::Global;

const NO_FORMS: [&[&str]; 18] = [
    &["run"],
    &["run", "p"],
    &["run", "p", "2"],
    &["run", "p", "2", "2"],
    &["run", "p", "2", "lean"],
    &["run", "p", "2", "2", "lean", "lean"],
    &["run", "p", "0", "2", "lean"],
    &["run", "p", "65", "2", "lean"],
    &["run", "p", "02", "2", "lean"],
    &["run", "p", "", "2", "lean"],
    &["run", "p", "2", "0", "lean"],
    &["run", "p", "2", "1", "lean"],
    &["run", "p", "2", "65", "lean"],
    &["run", "p", "2", "02", "lean"],
    &["run", "p", "2", "258", "lean"],
    &["run", "p", "2", "2", "fast"],
    &["run", "p", "2", "2", "Lean"],
    &["run", "p", "lean", "2", "2"],
];

#[test]
fn other_words_have_no_form(rt: HostRuntime) -> Result<(), Wrong> {
    for words in NO_FORMS {
        let case = over_nothing(words, Status::Usage, b"error usage\n");
        ends(rt.alloc(), &case)?;
    }
    Ok(())
}

// Appends the line of the remote with this number, which stands so.
fn put_remote(text: &mut Vec<u8>, remote: u8, stands: &[u8]) -> Result<(), NoMemory> {
    text.extend_from_slice(b"  remote ")?;
    if remote >= 10 {
        text.push(b'0' + remote / 10)?;
    }
    text.push(b'0' + remote % 10)?;
    text.extend_from_slice(stands)?;
    Ok(())
}

// Appends the line of the home, and those of 64 remotes.
fn put_lines(text: &mut Vec<u8>, home: &[u8], stands: &[u8]) -> Result<(), NoMemory> {
    text.extend_from_slice(home)?;
    for remote in 0..64 {
        put_remote(text, remote, stands)?;
    }
    Ok(())
}

// Appends the end, where 64 remotes stand as at the start.
fn put_end(text: &mut Vec<u8>) -> Result<(), NoMemory> {
    text.extend_from_slice(b"end\n")?;
    put_lines(
        text,
        b"  home F o=none j=none d=0 held[] owed[]\n",
        b" I d=0 slot[] up[] down[]\n",
    )?;
    text.extend_from_slice(b"abstract\n")?;
    put_lines(text, b"  home F o=none j=none d=0\n", b" I d=0\n")
}

// That a run with 64 remotes and 64 slots ends with this text where the schedule is empty.
fn most_end(alloc: Global, text: &[u8]) -> Result<(), Wrong> {
    let words = ["run", "p", "64", "64", "lean"];
    ends(
        alloc,
        &over_schedule(&words, &[MIGRATORY], &[], Status::Done, text),
    )
}

#[test]
fn there_are_up_to_64_remotes_and_64_slots(rt: HostRuntime) -> Result<(), Wrong> {
    let mut text = Vec::new(rt.alloc());
    match put_end(&mut text) {
        Ok(()) => most_end(rt.alloc(), &text),
        Err(_) => Err(Wrong::NoMemory),
    }
}
