//! A line of a schedule of steps of several cache lines.

use array_replay::read_array_line;
use async_machine::Step;
use line_array::LineStep;
use schedule_replay::Meaning;
use std::test::Fail;

#[test]
fn each_form_is_read_and_no_other(rt: HostRuntime) -> Result<(), Fail> {
    let send = Step::RemoteSend(2);
    let cases: [(&[u8], Meaning<LineStep>); 20] = [
        (
            b"at 0 home tau 15",
            Meaning::Says(LineStep::At(0, Step::HomeTau(15))),
        ),
        (
            b"\tat 15  remote 2\tsend\r",
            Meaning::Says(LineStep::At(15, send)),
        ),
        (
            b"at 99999 remote 2 send//",
            Meaning::Says(LineStep::At(99_999, send)),
        ),
        (
            b"at 1 home send 1 2",
            Meaning::Says(LineStep::At(1, Step::HomeSend(1, 2))),
        ),
        (
            b"at 1 remote 0 tau 3",
            Meaning::Says(LineStep::At(1, Step::RemoteTau(0, 3))),
        ),
        (b"up 0 // down 0", Meaning::Says(LineStep::Up(0))),
        (b"down 63", Meaning::Says(LineStep::Down(63))),
        (b"", Meaning::Blank),
        (b" \t\r// up 0", Meaning::Blank),
        (b"at", Meaning::Bad),
        (b"at 0", Meaning::Bad),
        (b"at 0 up 0", Meaning::Bad),
        (b"at 0 down 0", Meaning::Bad),
        (b"at 0 at 0 remote 2 send", Meaning::Bad),
        (b"at 00 remote 2 send", Meaning::Bad),
        (b"at 100000 remote 2 send", Meaning::Bad),
        (b"at 0 remote 2 send 1", Meaning::Bad),
        (b"remote 2 send", Meaning::Bad),
        (b"home take 0", Meaning::Bad),
        (b"up 0 1", Meaning::Bad),
    ];
    for (line, says) in cases {
        assert_eq!(rt; read_array_line(line), says);
    }
    Ok(())
}
