//! A line of a schedule of steps.

use async_machine::Step;
use run_replay::read_line;
use schedule_replay::Meaning;
use std::test::Fail;

#[test]
fn each_form_is_read_and_no_other(rt: HostRuntime) -> Result<(), Fail> {
    let cases: [(&[u8], Meaning<Step>); 22] = [
        (b"home tau 15", Meaning::Says(Step::HomeTau(15))),
        (b"\thome take  0\r", Meaning::Says(Step::HomeTake(0))),
        (b"home send 1 2//3", Meaning::Says(Step::HomeSend(1, 2))),
        (b"home drop 99999", Meaning::Says(Step::HomeDrop(99_999))),
        (b"remote 2 tau 1", Meaning::Says(Step::RemoteTau(2, 1))),
        (b"remote 2 send", Meaning::Says(Step::RemoteSend(2))),
        (b"remote 2 answer", Meaning::Says(Step::RemoteAnswer(2))),
        (b"remote 2 reply", Meaning::Says(Step::RemoteReply(2))),
        (b"up 0 // down 0", Meaning::Says(Step::Up(0))),
        (b"down 63", Meaning::Says(Step::Down(63))),
        (b"", Meaning::Blank),
        (b" \t\r// up 0", Meaning::Blank),
        (b"up", Meaning::Bad),
        (b"up 0 1", Meaning::Bad),
        (b"up 00", Meaning::Bad),
        (b"down 100000", Meaning::Bad),
        (b"home send 0", Meaning::Bad),
        (b"home take 0 1", Meaning::Bad),
        (b"home answer 0", Meaning::Bad),
        (b"remote send 0", Meaning::Bad),
        (b"remote 0 tau", Meaning::Bad),
        (b"remote 0 tau 1 2", Meaning::Bad),
    ];
    for (line, says) in cases {
        assert_eq!(rt; read_line(line), says);
    }
    Ok(())
}
