//! Sinks that keep in memory what they take.

use rv_base::{MemorySink, Sink, WriteAnswer};
use std::test::Fail;

#[test]
fn a_write_that_fails_in_mid_stream_takes_nothing(rt: HostRuntime) -> Result<(), Fail> {
    let mut sink = MemorySink::new(rt.alloc(), 3, &[2])?;
    for (piece, answer, holds) in [
        (b"abcd".as_slice(), WriteAnswer::Took(3), b"abc".as_slice()),
        (b"d".as_slice(), WriteAnswer::Failed, b"abc".as_slice()),
        (b"d".as_slice(), WriteAnswer::Took(1), b"abcd".as_slice()),
    ] {
        assert_eq!(rt; sink.write(piece), answer);
        assert_eq!(rt; sink.taken(), holds);
    }
    Ok(())
}
