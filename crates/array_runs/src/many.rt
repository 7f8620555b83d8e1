//! Sixteen cache lines.

use memory_runs::{MIGRATORY, Wrong, ends, over_schedule};
use rv_base::{NoMemory, put_number};
use rvc_top::Status;
use std::alloc::Global;

// Appends the step by which the remote asks for this line, behind its local step.
fn put_asking(alloc: Global, line: u64, schedule: &mut Vec<u8>) -> Result<(), NoMemory> {
    schedule.extend_from_slice(b"at ")?;
    put_number(alloc, line, schedule)?;
    schedule.extend_from_slice(b" remote 0 tau 0\nat ")?;
    put_number(alloc, line, schedule)?;
    schedule.extend_from_slice(b" remote 0 send\n")?;
    Ok(())
}

// The remote asks for line 15 first, and for line 0 last; then each request arrives, and no more.
fn schedule(alloc: Global) -> Result<Vec<u8>, NoMemory> {
    let mut schedule = Vec::new(alloc);
    for back in 0..16 {
        put_asking(alloc, 15 - back, &mut schedule)?;
    }
    for _ in 0..17 {
        schedule.extend_from_slice(b"up 0\n")?;
    }
    Ok(schedule)
}

// Appends a block: its number, the line, the step and what is told of it, and the lines behind.
fn put_block(
    alloc: Global,
    number: u64,
    line: u64,
    block: &[u8],
    text: &mut Vec<u8>,
) -> Result<(), NoMemory> {
    put_number(alloc, number, text)?;
    text.extend_from_slice(b" line ")?;
    put_number(alloc, line, text)?;
    text.extend_from_slice(block)?;
    Ok(())
}

const ASKS: &[u8] = b" remote 0 tau 0: tau 0 0
  remote 0 R d=0 slot[] up[] down[]
";

const SENDS: &[u8] = b" remote 0 send: stutter
  remote 0 R* d=0 slot[] up[?req] down[]
";

const ARRIVES: &[u8] = b" up 0: stutter
  home F o=none j=none d=0 held[0:req] owed[]
  remote 0 R* d=0 slot[] up[] down[]
";

// Appends the blocks of the steps by which the remote asks for each line.
fn put_asked(alloc: Global, text: &mut Vec<u8>) -> Result<(), NoMemory> {
    for back in 0..16 {
        put_block(alloc, 2 * back + 1, 15 - back, ASKS, text)?;
        put_block(alloc, 2 * back + 2, 15 - back, SENDS, text)?;
    }
    Ok(())
}

// Appends the blocks of what arrives: in the order in which it was sent.
fn put_arrived(alloc: Global, text: &mut Vec<u8>) -> Result<(), NoMemory> {
    for back in 0..16 {
        put_block(alloc, back + 33, 15 - back, ARRIVES, text)?;
    }
    text.extend_from_slice(b"49 up 0: refused\n")?;
    Ok(())
}

// Where each line stands at the end.
const STANDS: &[u8] = b"
end
  home F o=none j=none d=0 held[0:req] owed[]
  remote 0 R* d=0 slot[] up[] down[]
abstract
  home F o=none j=none d=0
  remote 0 R d=0
";

// Appends the last text: each line, in the order of their numbers.
fn put_end(alloc: Global, text: &mut Vec<u8>) -> Result<(), NoMemory> {
    for line in 0..16 {
        text.extend_from_slice(b"line ")?;
        put_number(alloc, line, text)?;
        text.extend_from_slice(STANDS)?;
    }
    Ok(())
}

// The whole text.
fn text(alloc: Global) -> Result<Vec<u8>, NoMemory> {
    let mut text = Vec::new(alloc);
    put_asked(alloc, &mut text)?;
    put_arrived(alloc, &mut text)?;
    put_end(alloc, &mut text)?;
    Ok(text)
}

// That a run with this schedule ends with this text.
fn all_ask(alloc: Global, schedule: &[u8], text: &[u8]) -> Result<(), Wrong> {
    let words = ["lines", "p", "1", "2", "plain", "16"];
    let schedule = [schedule];
    let case = over_schedule(&words, &[MIGRATORY], &schedule, Status::Done, text);
    ends(alloc, &case)
}

#[test]
fn sixteen_lines_share_their_links(rt: HostRuntime) -> Result<(), Wrong> {
    match (schedule(rt.alloc()), text(rt.alloc())) {
        (Ok(schedule), Ok(text)) => all_ask(rt.alloc(), &schedule, &text),
        _ => Err(Wrong::NoMemory),
    }
}
