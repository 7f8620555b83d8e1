//! Moves of the network as lines of a schedule have them.

use faulty_link::{NetStep, Way, net_text, read_net_line};
use std::test::Fail;

#[test]
fn each_move_is_read_and_no_other_line(rt: HostRuntime) -> Result<(), Fail> {
    let cases: [(&[u8], Option<NetStep>); 15] = [
        (b"net 0 up lose 0", Some(NetStep::Lose(0, Way::Up, 0))),
        (
            b"\tnet 63 down  resend 2\r",
            Some(NetStep::Resend(63, Way::Down, 2)),
        ),
        (
            b"net 99999 up copy 7//8",
            Some(NetStep::Copy(99_999, Way::Up, 7)),
        ),
        (
            b"net 1 down pass 99999 // x",
            Some(NetStep::Pass(1, Way::Down, 99_999)),
        ),
        (b"", None),
        (b"net", None),
        (b"net 0 up lose", None),
        (b"net 0 up lose 0 0", None),
        (b"net 0 up take 0", None),
        (b"net 0 left lose 0", None),
        (b"net 00 up lose 0", None),
        (b"net 0 up lose 100000", None),
        (b"Net 0 up lose 0", None),
        (b"net up 0 lose 0", None),
        (b"up 0", None),
    ];
    for (line, step) in cases {
        assert_eq!(rt; read_net_line(line), step);
    }
    Ok(())
}

#[test]
fn a_move_is_written_with_its_words(rt: HostRuntime) -> Result<(), Fail> {
    let mut out = Vec::new(rt.alloc());
    net_text(rt.alloc(), NetStep::Resend(3, Way::Down, 12), &mut out)?;
    assert_eq!(rt; out.as_slice(), b"net 3 down resend 12".as_slice());
    Ok(())
}
