//! Three packets on one link.

use crate::playing::plays;
use crate::protocols::THREE;
use crate::rows::{Goes, Line, Row, Turn, Wrong};
use async_machine::{Request, Step};
use controller_table::{GuardId, Place};
use ordered_links::Packet;
use proto_model::{Event, Mode, Value};

// Message `a`.
const A: Request = Request {
    message: 0,
    value: Value::Unit,
};

const ASKS: Packet = Packet::Request(0, Value::Unit);

// The remote in state `P`.
const P: Place = Place::Comm(0);

// The remote behind its output in state `Q`.
const Q_WAITS: Place = Place::Trans(GuardId { state: 1, guard: 0 });

// remote 0 Q* slot[] up[] down[?a,+,?a]
const ALL_UNDER_WAY: Line<'static> = Line::Remote(
    0,
    Q_WAITS,
    &[],
    None,
    &[],
    &[ASKS, Packet::Ack, ASKS],
);

// remote 0 Q* slot[] up[] down[+,?a]
const FIRST_DROPPED: Line<'static> = Line::Remote(0, Q_WAITS, &[], None, &[], &[Packet::Ack, ASKS]);

// remote 0 P slot[] up[] down[?a]
const ACKED: Line<'static> = Line::Remote(0, P, &[], None, &[], &[ASKS]);

// remote 0 P slot[a] up[] down[]
const FULL: Line<'static> = Line::Remote(0, P, &[], Some(A), &[], &[]);

const TURNS: [Turn<'static>; 11] = [
    (Step::HomeSend(0, 0), Goes::Stutters, &[]),
    (Step::RemoteTau(0, 0), Goes::Is(Event::TauRemote(0, 0)), &[]),
    (Step::RemoteSend(0), Goes::Stutters, &[]),
    (Step::Up(0), Goes::Stutters, &[]),
    (Step::HomeTake(0), Goes::Is(Event::Up(0, 1, 0)), &[]),
    (Step::HomeSend(0, 0), Goes::Stutters, &[ALL_UNDER_WAY]),
    (Step::Down(0), Goes::Stutters, &[FIRST_DROPPED]),
    (Step::Down(0), Goes::Stutters, &[ACKED]),
    (Step::Down(0), Goes::Stutters, &[FULL]),
    (Step::RemoteAnswer(0), Goes::Is(Event::Down(0, 0, 1)), &[]),
    (Step::Up(0), Goes::Stutters, &[]),
];

#[test]
fn an_ack_travels_between_two_requests(rt: HostRuntime) -> Result<(), Wrong> {
    let row = Row {
        file: THREE,
        mode: Mode::Plain,
        n: 1,
        k: 2,
        turns: &TURNS,
        meant: &[],
    };
    plays(rt.alloc(), &row)
}
