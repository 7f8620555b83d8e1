//! A source read to its end, and a text written whole.

use rv_base::{
    FILE_LIMIT, Gathered, MemorySink, MemorySource, SteadySink, SteadySource, Wrote, read_whole,
    write_whole,
};
use std::test::Fail;

#[test]
fn a_file_has_at_most_65536_bytes(rt: HostRuntime) -> Result<(), Fail> {
    for (length, gathered) in [(0, Some(0)), (65_536, Some(65_536)), (65_537, None)] {
        let file = vec![in rt.alloc(); b'x'; length]?;
        let mut source = SteadySource::new(rt.alloc(), &file, 1_000)?;
        let found = match read_whole(rt.alloc(), &mut source, FILE_LIMIT) {
            Gathered::Whole(bytes) => Some(bytes.len()),
            Gathered::TooLong => None,
            Gathered::Failed | Gathered::NoMemory => return Err("no answer".into()),
        };
        assert_eq!(rt; found, gathered, "of {length} bytes");
    }
    Ok(())
}

#[test]
fn a_fault_in_mid_stream_ends_the_loop(rt: HostRuntime) -> Result<(), Fail> {
    let mut source = MemorySource::new(rt.alloc(), b"abcde", 2, &[2])?;
    assert!(rt; matches!(read_whole(rt.alloc(), &mut source, 5), Gathered::Failed));
    let mut steady = SteadySink::new(rt.alloc(), 2);
    assert_eq!(rt; write_whole(&mut steady, b"abcde"), Wrote::Whole);
    assert_eq!(rt; steady.taken(), b"abcde".as_slice());
    let mut failing = MemorySink::new(rt.alloc(), 2, &[3])?;
    assert_eq!(rt; write_whole(&mut failing, b"abcde"), Wrote::Failed);
    assert_eq!(rt; failing.taken(), b"abcd".as_slice());
    Ok(())
}
