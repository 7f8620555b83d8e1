//! A request of the remote and one of the home, each of which is acked.

use crate::playing::plays;
use crate::protocols::MIGRATORY;
use crate::rows::{Goes, Line, Meant, Row, Turn, Wrong};
use async_machine::{HomePlace, Request, Step};
use async_shape::Waiting;
use controller_table::{GuardId, Place};
use ordered_links::Packet;
use proto_model::{Event, Mode, Value};

// The number of message `gr`.
const GR: u8 = 1;

const ZERO: Value = Value::Int(0);

// Where the remote stands: in states `W` and `V`, and behind the output of `R`.
const W: Place = Place::Comm(2);

const V: Place = Place::Comm(3);

const R_WAITS: Place = Place::Trans(GuardId { state: 1, guard: 0 });

// Where the home stands: in state `E`, and behind the output of `G`.
const E: HomePlace = HomePlace::Idle(2);

const G_WAITS: HomePlace = HomePlace::Waits(Waiting {
    by: GuardId { state: 1, guard: 0 },
    on: 0,
    sent: ZERO,
});

// The variables `o`, `j` and `d` of the home.
const ASKED: [Value; 3] = [Value::Nowhere, Value::Node(0), ZERO];

const OWNED: [Value; 3] = [Value::Node(0), Value::Node(0), ZERO];

// home G/0>0 o=none j=#0 d=0 held[] owed[]
const OFFERS: Line<'static> = Line::Home(G_WAITS, &ASKED, &[], &[None]);

// remote 0 R* d=0 slot[] up[] down[+,?gr(0)]
const BOTH_UNDER_WAY: Line<'static> = Line::Remote(
    0,
    R_WAITS,
    &[ZERO],
    None,
    &[],
    &[Packet::Ack, Packet::Request(GR, ZERO)],
);

// remote 0 W d=0 slot[gr(0)] up[] down[]
const FULL: Line<'static> = Line::Remote(
    0,
    W,
    &[ZERO],
    Some(Request {
        message: GR,
        value: ZERO,
    }),
    &[],
    &[],
);

// remote 0 V d=0 slot[] up[+] down[]
const ACKS: Line<'static> = Line::Remote(0, V, &[ZERO], None, &[Packet::Ack], &[]);

// home E o=#0 j=#0 d=0 held[] owed[]
const GAVE: Line<'static> = Line::Home(E, &OWNED, &[], &[None]);

// remote 0 V d=0 slot[] up[] down[]
const OWNS: Line<'static> = Line::Remote(0, V, &[ZERO], None, &[], &[]);

const TURNS: [Turn<'static>; 9] = [
    (Step::RemoteTau(0, 0), Goes::Is(Event::TauRemote(0, 0)), &[]),
    (Step::RemoteSend(0), Goes::Stutters, &[]),
    (Step::Up(0), Goes::Stutters, &[]),
    (Step::HomeTake(0), Goes::Is(Event::Up(0, 0, 0)), &[]),
    (
        Step::HomeSend(0, 0),
        Goes::Stutters,
        &[OFFERS, BOTH_UNDER_WAY],
    ),
    (Step::Down(0), Goes::Stutters, &[]),
    (Step::Down(0), Goes::Stutters, &[FULL]),
    (
        Step::RemoteAnswer(0),
        Goes::Is(Event::Down(0, 0, 0)),
        &[ACKS],
    ),
    (Step::Up(0), Goes::Stutters, &[GAVE, OWNS]),
];

// home E o=#0 j=#0 d=0
// remote 0 V d=0
const MEANT: [Meant<'static>; 2] = [(2, &OWNED), (3, &[ZERO])];

#[test]
fn a_request_of_each_side_is_acked(rt: HostRuntime) -> Result<(), Wrong> {
    let row = Row {
        file: MIGRATORY,
        mode: Mode::Plain,
        n: 1,
        k: 2,
        turns: &TURNS,
        meant: &MEANT,
    };
    plays(rt.alloc(), &row)
}
