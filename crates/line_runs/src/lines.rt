//! The lines of a source, one at a time.

use rv_base::{MemorySource, SteadySource};
use schedule_replay::{Lines, NextLine, SCHEDULE_LIMITS};
use std::test::Fail;

#[test]
fn a_line_has_at_most_256_bytes_whatever_pieces_come(rt: HostRuntime) -> Result<(), Fail> {
    for (length, answer) in [(256, NextLine::Got(2)), (257, NextLine::TooLong(2))] {
        let mut text = b"\n".to_vec(rt.alloc())?;
        text.extend_from_slice(&vec![in rt.alloc(); b'/'; length]?)?;
        text.extend_from_slice(b"\nlast")?;
        for most in [1, 7, 4_096] {
            let mut source = SteadySource::new(rt.alloc(), &text, most)?;
            let mut lines = Lines::new(rt.alloc(), SCHEDULE_LIMITS);
            assert_eq!(rt; lines.next(&mut source), NextLine::Got(1));
            assert!(rt; lines.text().is_empty());
            assert_eq!(rt; lines.next(&mut source), answer);
            if length > 256 {
                continue;
            }
            assert_eq!(rt; lines.text().len(), 256);
            assert_eq!(rt; lines.next(&mut source), NextLine::Got(3));
            assert_eq!(rt; lines.text(), b"last".as_slice());
            assert_eq!(rt; lines.next(&mut source), NextLine::End);
        }
    }
    Ok(())
}

#[test]
fn a_fault_in_a_line_gives_no_line(rt: HostRuntime) -> Result<(), Fail> {
    let mut source = MemorySource::new(rt.alloc(), b"ab\ncd\n", 2, &[3])?;
    let mut lines = Lines::new(rt.alloc(), SCHEDULE_LIMITS);
    assert_eq!(rt; lines.next(&mut source), NextLine::Got(1));
    assert_eq!(rt; lines.text(), b"ab".as_slice());
    assert_eq!(rt; lines.next(&mut source), NextLine::ReadFault);
    Ok(())
}
