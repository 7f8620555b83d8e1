//! A line of a schedule of steps and of moves of the network.

use async_machine::Step;
use faulty_link::{NetStep, Way};
use lossy_replay::{LossyItem, read_line};
use schedule_replay::Meaning;
use std::test::Fail;

#[test]
fn steps_and_moves_are_read(rt: HostRuntime) -> Result<(), Fail> {
    let cases: [(&[u8], Meaning<LossyItem>); 7] = [
        (
            b"net 0 up lose 7",
            Meaning::Says(LossyItem::Moves(NetStep::Lose(0, Way::Up, 7))),
        ),
        (
            b"net 63 down pass 0 // later",
            Meaning::Says(LossyItem::Moves(NetStep::Pass(63, Way::Down, 0))),
        ),
        (
            b"home send 1 2",
            Meaning::Says(LossyItem::Takes(Step::HomeSend(1, 2))),
        ),
        (b"// net 0 up lose 0", Meaning::Blank),
        (b"net 0 up lose", Meaning::Bad),
        (b"net up 0", Meaning::Bad),
        (b"up", Meaning::Bad),
    ];
    for (line, says) in cases {
        assert_eq!(rt; read_line(line), says);
    }
    Ok(())
}
