//! Steps that are not enabled.

use crate::playing::plays;
use crate::protocols::MIGRATORY;
use crate::rows::{Goes, Line, Meant, Row, Turn, Wrong};
use async_machine::{HomePlace, Step};
use controller_table::Place;
use proto_model::{Mode, Value};

const ZERO: Value = Value::Int(0);

// The variables `o`, `j` and `d` of the home.
const NOBODY: [Value; 3] = [Value::Nowhere, Value::Nowhere, ZERO];

// home F o=none j=none d=0 held[] owed[]
// remote 0 I d=0 slot[] up[] down[]
// remote 1 I d=0 slot[] up[] down[]
const OPENING: [Line<'static>; 3] = [
    Line::Home(HomePlace::Idle(0), &NOBODY, &[], &[None, None]),
    Line::Remote(0, Place::Comm(0), &[ZERO], None, &[], &[]),
    Line::Remote(1, Place::Comm(0), &[ZERO], None, &[], &[]),
];

const TURNS: [Turn<'static>; 3] = [
    (Step::RemoteSend(5), Goes::Refused, &OPENING),
    (Step::Up(0), Goes::Refused, &OPENING),
    (Step::RemoteAnswer(0), Goes::Refused, &OPENING),
];

// home F o=none j=none d=0
// remote 0 I d=0
// remote 1 I d=0
const MEANT: [Meant<'static>; 3] = [(0, &NOBODY), (0, &[ZERO]), (0, &[ZERO])];

#[test]
fn a_step_that_is_not_enabled_changes_nothing(rt: HostRuntime) -> Result<(), Wrong> {
    let row = Row {
        file: MIGRATORY,
        mode: Mode::Lean,
        n: 2,
        k: 2,
        turns: &TURNS,
        meant: &MEANT,
    };
    plays(rt.alloc(), &row)
}
