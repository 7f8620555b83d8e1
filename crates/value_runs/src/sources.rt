//! Sources whose bytes stand in memory.

use rv_base::{MemorySource, ReadAnswer, Source};
use std::test::Fail;

#[test]
fn a_read_that_fails_in_mid_stream_loses_nothing(rt: HostRuntime) -> Result<(), Fail> {
    let mut source = MemorySource::new(rt.alloc(), b"abcde", 2, &[2])?;
    let mut buffer = *b"....";
    for (answer, holds) in [
        (ReadAnswer::Got(2), b"ab.."),
        (ReadAnswer::Failed, b"ab.."),
        (ReadAnswer::Got(2), b"cd.."),
        (ReadAnswer::Got(1), b"ed.."),
        (ReadAnswer::End, b"ed.."),
    ] {
        assert_eq!(rt; source.read(&mut buffer), answer);
        assert_eq!(rt; buffer.as_slice(), holds.as_slice());
    }
    Ok(())
}
