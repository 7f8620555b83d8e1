//! A line of a schedule of events.

use proto_model::Event;
use schedule_replay::{Meaning, read_event_line};
use std::test::Fail;

#[test]
fn each_form_is_read_and_no_other(rt: HostRuntime) -> Result<(), Fail> {
    let cases: [(&[u8], Meaning<Event>); 16] = [
        (b"tau home 15", Meaning::Says(Event::TauHome(15))),
        (
            b"\ttau 0  99999\r",
            Meaning::Says(Event::TauRemote(0, 99_999)),
        ),
        (b"up 0 1 2//3", Meaning::Says(Event::Up(0, 1, 2))),
        (b"down 63 0 0 // up", Meaning::Says(Event::Down(63, 0, 0))),
        (b"", Meaning::Blank),
        (b" \t\r// up 0 1 2", Meaning::Blank),
        (b"up 0 1", Meaning::Bad),
        (b"up 0 1 2 3", Meaning::Bad),
        (b"up 0 1 02", Meaning::Bad),
        (b"up 0 1 100000", Meaning::Bad),
        (b"up 0 1 /2", Meaning::Bad),
        (b"tau home", Meaning::Bad),
        (b"tau home home", Meaning::Bad),
        (b"home tau 1", Meaning::Bad),
        (b"tau 0 0 0", Meaning::Bad),
        (b"up\x0b0 1 2", Meaning::Bad),
    ];
    for (line, says) in cases {
        assert_eq!(rt; read_event_line(line), says);
    }
    Ok(())
}
