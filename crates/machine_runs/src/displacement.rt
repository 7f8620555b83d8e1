//! A held request that another one displaces.

use crate::playing::plays;
use crate::protocols::TIDE;
use crate::rows::{Goes, Line, Row, Turn, Wrong};
use async_machine::{HomePlace, Step};
use controller_table::{GuardId, Place};
use ordered_links::Packet;
use proto_model::{Event, Mode, Value};
use slot_reserve::Held;

// The home in states `A` and `B`.
const A: HomePlace = HomePlace::Idle(0);

const B: HomePlace = HomePlace::Idle(1);

// A remote behind the outputs of `SA` and `SB`.
const SA_WAITS: Place = Place::Trans(GuardId { state: 1, guard: 0 });

const SB_WAITS: Place = Place::Trans(GuardId { state: 2, guard: 0 });

// Message `a` of remote 0 and message `b` of remote 2.
const HELD_A: Held = Held {
    from: 0,
    message: 0,
    value: Value::Unit,
};

const HELD_B: Held = Held {
    from: 2,
    message: 1,
    value: Value::Unit,
};

const NOTHING: [Option<u8>; 3] = [None, None, None];

// home B j=none held[0:a,2:b] owed[]
const HOLDS_BOTH: Line<'static> = Line::Home(B, &[Value::Nowhere], &[HELD_A, HELD_B], &NOTHING);

// remote 2 SB* slot[] up[] down[]
const WAITS: Line<'static> = Line::Remote(2, SB_WAITS, &[], None, &[], &[]);

// remote 1 SA* slot[] up[] down[-]
const NACKED: Line<'static> = Line::Remote(1, SA_WAITS, &[], None, &[], &[Packet::Nack]);

// home A j=#2 held[0:a] owed[]
const TOOK: Line<'static> = Line::Home(A, &[Value::Node(2)], &[HELD_A], &NOTHING);

// remote 2 SB* slot[] up[] down[+]
const ACKED: Line<'static> = Line::Remote(2, SB_WAITS, &[], None, &[], &[Packet::Ack]);

const TURNS: [Turn<'static>; 11] = [
    (Step::RemoteTau(0, 0), Goes::Is(Event::TauRemote(0, 0)), &[]),
    (Step::RemoteSend(0), Goes::Stutters, &[]),
    (Step::Up(0), Goes::Stutters, &[]),
    (Step::RemoteTau(1, 0), Goes::Is(Event::TauRemote(1, 0)), &[]),
    (Step::RemoteSend(1), Goes::Stutters, &[]),
    (Step::Up(1), Goes::Stutters, &[]),
    (Step::HomeTau(1), Goes::Is(Event::TauHome(1)), &[]),
    (Step::RemoteTau(2, 1), Goes::Is(Event::TauRemote(2, 1)), &[]),
    (Step::RemoteSend(2), Goes::Stutters, &[]),
    (
        Step::Up(2),
        Goes::Displaces(1),
        &[HOLDS_BOTH, WAITS, NACKED],
    ),
    (
        Step::HomeTake(2),
        Goes::Is(Event::Up(2, 0, 0)),
        &[TOOK, ACKED],
    ),
];

#[test]
fn a_request_of_use_displaces_the_last_one(rt: HostRuntime) -> Result<(), Wrong> {
    let row = Row {
        file: TIDE,
        mode: Mode::Plain,
        n: 3,
        k: 2,
        turns: &TURNS,
        meant: &[],
    };
    plays(rt.alloc(), &row)
}
