//! The real sources and the real sink, each once.

use crate::sink::StdoutSink;
use crate::source::{FileSource, StdinSource};
use rv_base::{ReadAnswer, Sink, Source, WriteAnswer};
use std::fs;
use std::test::Fail;

fn first_read(rt: &HostRuntime, path: &str) -> ReadAnswer {
    FileSource::new(rt, path).read(&mut [0u8; 2])
}

#[test]
fn a_file_is_read_to_its_end(rt: HostRuntime) -> Result<(), Fail> {
    fs::write(&rt, "three", b"abc")?;
    let mut file = FileSource::new(&rt, "three");
    let mut into = [0u8; 2];
    assert_eq!(rt; file.read(&mut into), ReadAnswer::Got(2));
    assert_eq!(rt; into, *b"ab");
    assert_eq!(rt; file.read(&mut into), ReadAnswer::Got(1));
    assert_eq!(rt; into[0], b'c');
    assert_eq!(rt; file.read(&mut into), ReadAnswer::End);
    for path in ["missing", ".", ""] {
        assert_eq!(rt; first_read(&rt, path), ReadAnswer::Failed, "at {path}");
    }
    Ok(())
}

#[test]
fn standard_input_ends(rt: HostRuntime) {
    let mut input = StdinSource::new(&rt);
    assert_eq!(rt; input.read(&mut [0u8; 8]), ReadAnswer::End);
}

#[test]
fn standard_output_takes_all(rt: HostRuntime) {
    let mut output = StdoutSink::new(&rt);
    assert_eq!(rt; output.write(b"taken\n"), WriteAnswer::Took(6));
}
