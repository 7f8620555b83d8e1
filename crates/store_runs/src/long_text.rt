//! A file whose laid-out text is longer than it.

use memory_runs::{Wrong, begins, ends_by, over_file};
use rv_base::NoMemory;
use rvc_top::Status;
use std::alloc::Global;

// A guard with eight assignments, of 62 bytes, which has 106 laid out.
const GUARD: &[u8] = b"tau do a=a+1,a=a+1,a=a+1,a=a+1,a=a+1,a=a+1,a=a+1,a=a+1 goto A;";

// Appends so many guards, and the end of their state.
fn put_guards(file: &mut Vec<u8>, count: u8) -> Result<(), NoMemory> {
    for _ in 0..count {
        file.extend_from_slice(GUARD)?;
    }
    file.push(b'}')?;
    Ok(())
}

// Appends a state with sixteen guards, whose name ends with these letters.
fn put_state(file: &mut Vec<u8>, first: u8, second: u8) -> Result<(), NoMemory> {
    file.extend_from_slice(b"state S")?;
    file.push(first)?;
    file.push(second)?;
    file.push(b'{')?;
    put_guards(file, 16)
}

// Appends 37 such states with different names.
fn put_states(file: &mut Vec<u8>) -> Result<(), NoMemory> {
    for place in 1..38 {
        put_state(file, b'a' + place / 8, b'a' + place % 8)?;
    }
    Ok(())
}

// A protocol whose name has so many bytes. Its laid-out text has 65526 bytes besides.
fn protocol(alloc: Global, name: usize) -> Result<Vec<u8>, NoMemory> {
    let mut file = b"protocol ".to_vec(alloc)?;
    file.extend_from_slice(&vec![in alloc; b'p'; name]?)?;
    file.extend_from_slice(b";home{var a int 2=0;start A;state A{")?;
    put_guards(&mut file, 16)?;
    put_states(&mut file)?;
    file.extend_from_slice(b"state Z{")?;
    for _ in 0..2 {
        file.extend_from_slice(GUARD)?;
    }
    file.extend_from_slice(b"tau goto A;tau goto A;tau goto A;tau goto A;tau goto A;")?;
    file.extend_from_slice(b"}}remote{start R;state R{}}")?;
    Ok(file)
}

// The head of its store, where the text has 65,536 bytes: 615 rows of the home, and one of a
// remote.
const HEAD: &[u8] = b"\
RVCIMG01\
\x00\x00\x00\x00\x00\x00\x00\x00\
\x00\x00\x00\x00\x00\x01\x00\x00\
\x00\x00\x00\x00\x00\x00\x02\x67\
\x00\x00\x00\x00\x00\x00\x00\x01";

const PLAIN: [&str; 3] = ["store", "p", "plain"];

// That a file is stored with this head.
fn is_stored(alloc: Global, file: &[u8]) -> Result<(), Wrong> {
    let file = [file];
    ends_by(alloc, &begins(&PLAIN, &file, HEAD), 4_096)
}

// That the text of a file is refused.
fn is_too_long(alloc: Global, file: &[u8]) -> Result<(), Wrong> {
    let text = b"error file text too long\n";
    let file = [file];
    let case = over_file(&PLAIN, &file, Status::FileRefused, text);
    ends_by(alloc, &case, 4_096)
}

#[test]
fn a_text_of_65_536_bytes_is_stored(rt: HostRuntime) -> Result<(), Wrong> {
    match protocol(rt.alloc(), 10) {
        Ok(file) => is_stored(rt.alloc(), &file),
        Err(_) => Err(Wrong::NoMemory),
    }
}

#[test]
fn a_longer_text_is_refused(rt: HostRuntime) -> Result<(), Wrong> {
    match protocol(rt.alloc(), 11) {
        Ok(file) => is_too_long(rt.alloc(), &file),
        Err(_) => Err(Wrong::NoMemory),
    }
}
