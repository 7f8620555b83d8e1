//! Two requests that cross: the home asks the owner of the line for it, and the owner gives it back
//! meanwhile.

use crate::playing::plays;
use crate::protocols::MIGRATORY;
use crate::rows::{Goes, Line, Row, Turn, Wrong};
use async_machine::{HomePlace, Step};
use async_shape::Waiting;
use controller_table::{GuardId, Place};
use ordered_links::Packet;
use proto_model::{Event, Mode, Value};
use slot_reserve::Held;

// The numbers of the messages.
const REQ: u8 = 0;

const GR: u8 = 1;

const LR: u8 = 2;

const ZERO: Value = Value::Int(0);

// Where remote 0 stands: in states `R` and `V`, and behind the outputs of `R` and `L`.
const R: Place = Place::Comm(1);

const V: Place = Place::Comm(3);

const R_WAITS: Place = Place::Trans(GuardId { state: 1, guard: 0 });

const L_WAITS: Place = Place::Trans(GuardId { state: 4, guard: 0 });

// Where the home stands: in states `F`, `G`, `E` and `I1`, and behind the output of `I1` to
// remote 0.
const F: HomePlace = HomePlace::Idle(0);

const G: HomePlace = HomePlace::Idle(1);

const E: HomePlace = HomePlace::Idle(2);

const I1: HomePlace = HomePlace::Idle(3);

const I1_WAITS: HomePlace = HomePlace::Waits(Waiting {
    by: GuardId { state: 3, guard: 0 },
    on: 0,
    sent: Value::Unit,
});

// The variables `o`, `j` and `d` of the home.
const NOBODY: [Value; 3] = [Value::Nowhere, Value::Nowhere, ZERO];

const ZERO_ASKED: [Value; 3] = [Value::Nowhere, Value::Node(0), ZERO];

const ZERO_OWNS: [Value; 3] = [Value::Node(0), Value::Node(0), ZERO];

const ONE_ASKED: [Value; 3] = [Value::Node(0), Value::Node(1), ZERO];

// What is held of remote 0.
const HELD_REQ: Held = Held {
    from: 0,
    message: REQ,
    value: Value::Unit,
};

const HELD_LR: Held = Held {
    from: 0,
    message: LR,
    value: ZERO,
};

// remote 0 R d=0 slot[] up[] down[]
const WANTS: Line<'static> = Line::Remote(0, R, &[ZERO], None, &[], &[]);

// remote 0 R* d=0 slot[] up[?req] down[]
const ASKS: Line<'static> = Line::Remote(
    0,
    R_WAITS,
    &[ZERO],
    None,
    &[Packet::Request(REQ, Value::Unit)],
    &[],
);

// remote 0 R* d=0 slot[] up[] down[]
const WAITS: Line<'static> = Line::Remote(0, R_WAITS, &[ZERO], None, &[], &[]);

// home F o=none j=none d=0 held[0:req] owed[]
const HOLDS_REQ: Line<'static> = Line::Home(F, &NOBODY, &[HELD_REQ], &[None, None]);

// home G o=none j=#0 d=0 held[] owed[0:gr]
const OWES_ZERO: Line<'static> = Line::Home(G, &ZERO_ASKED, &[], &[Some(GR), None]);

// home E o=#0 j=#0 d=0 held[] owed[]
const PAID: Line<'static> = Line::Home(E, &ZERO_OWNS, &[], &[None, None]);

// remote 0 R* d=0 slot[] up[] down[=gr(0)]
const GRANTED: Line<'static> = Line::Remote(
    0,
    R_WAITS,
    &[ZERO],
    None,
    &[],
    &[Packet::Reply(GR, ZERO)],
);

// remote 0 V d=0 slot[] up[] down[]
const OWNS: Line<'static> = Line::Remote(0, V, &[ZERO], None, &[], &[]);

// home I1/0>0 o=#0 j=#1 d=0 held[] owed[1:gr]
const ASKS_OWNER: Line<'static> = Line::Home(I1_WAITS, &ONE_ASKED, &[], &[None, Some(GR)]);

// remote 0 L* d=0 slot[] up[?lr(0)] down[]
const GIVES_BACK: Line<'static> = Line::Remote(
    0,
    L_WAITS,
    &[ZERO],
    None,
    &[Packet::Request(LR, ZERO)],
    &[],
);

// home I1 o=#0 j=#1 d=0 held[0:lr(0)] owed[1:gr]
const HOLDS_LR: Line<'static> = Line::Home(I1, &ONE_ASKED, &[HELD_LR], &[None, Some(GR)]);

// home G o=#0 j=#1 d=0 held[] owed[1:gr]
const OWES_ONE: Line<'static> = Line::Home(G, &ONE_ASKED, &[], &[None, Some(GR)]);

// remote 0 L* d=0 slot[] up[] down[+]
const ACKED: Line<'static> = Line::Remote(0, L_WAITS, &[ZERO], None, &[], &[Packet::Ack]);

const TURNS: [Turn<'static>; 16] = [
    (
        Step::RemoteTau(0, 0),
        Goes::Is(Event::TauRemote(0, 0)),
        &[WANTS],
    ),
    (Step::RemoteSend(0), Goes::Stutters, &[ASKS]),
    (Step::Up(0), Goes::Stutters, &[HOLDS_REQ, WAITS]),
    (
        Step::HomeTake(0),
        Goes::Is(Event::Up(0, 0, 0)),
        &[OWES_ZERO, WAITS],
    ),
    (
        Step::HomeSend(0, 0),
        Goes::Is(Event::Down(0, 0, 0)),
        &[PAID, GRANTED],
    ),
    (Step::Down(0), Goes::Stutters, &[OWNS]),
    (Step::RemoteTau(1, 0), Goes::Is(Event::TauRemote(1, 0)), &[]),
    (Step::RemoteSend(1), Goes::Stutters, &[]),
    (Step::Up(1), Goes::Stutters, &[]),
    (Step::HomeTake(1), Goes::Is(Event::Up(1, 0, 0)), &[]),
    (Step::HomeSend(0, 0), Goes::Stutters, &[ASKS_OWNER]),
    (Step::RemoteTau(0, 1), Goes::Is(Event::TauRemote(0, 1)), &[]),
    (Step::RemoteSend(0), Goes::Stutters, &[]),
    (Step::Down(0), Goes::Stutters, &[GIVES_BACK]),
    (Step::Up(0), Goes::Stutters, &[HOLDS_LR]),
    (
        Step::HomeTake(0),
        Goes::Is(Event::Up(0, 1, 0)),
        &[OWES_ONE, ACKED],
    ),
];

#[test]
fn a_request_that_crosses_the_homes_is_a_nack_and_is_held(rt: HostRuntime) -> Result<(), Wrong> {
    let row = Row {
        file: MIGRATORY,
        mode: Mode::Lean,
        n: 2,
        k: 2,
        turns: &TURNS,
        meant: &[],
    };
    plays(rt.alloc(), &row)
}
