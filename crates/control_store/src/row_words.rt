//! A row as a word, and the row for which a word stands.

ghost use Rattle.std.specs.Prelude.{◌≡◌, [], ◌∷◌};
ghost use Rattle.control_store.specs.RowWord as words;

use controller_table::{Does, GuardId, Place, Puts, Row, Trigger};

// At most so many states has a process, and at most so many messages a protocol.
const STATES: u8 = 64;

const MESSAGES: u8 = 64;

// At most so many guards has a state.
const GUARDS: u8 = 16;

// The three bytes of a place.
fn place_bytes(place: Place) -> [u8; 3]
    ensures { result ≡ words.place_bytes place }
{
    match place {
        Place::Comm(state) => [0, state, 0],
        Place::Trans(g) => [1, g.state, g.guard],
        Place::Due(g) => [2, g.state, g.guard],
    }
}

// The two bytes of a trigger.
fn trigger_bytes(trigger: Trigger) -> [u8; 2]
    ensures { result ≡ words.trigger_bytes trigger }
{
    match trigger {
        Trigger::Tau(guard) => [0, guard],
        Trigger::Send(guard) => [1, guard],
        Trigger::Pay(guard) => [2, guard],
        Trigger::Take(guard) => [3, guard],
        Trigger::Answer(guard) => [4, guard],
        Trigger::AnswerNone => [5, 0],
        Trigger::GotAck => [6, 0],
        Trigger::GotNack => [7, 0],
        Trigger::GotReply(message) => [8, message],
        Trigger::GotRequest => [9, 0],
    }
}

// The two bytes of what is put or owed.
fn puts_bytes(puts: Puts) -> [u8; 2]
    ensures { result ≡ words.puts_bytes puts }
{
    match puts {
        Puts::Nothing => [0, 0],
        Puts::Request(message) => [1, message],
        Puts::Ack => [2, 0],
        Puts::Nack => [3, 0],
        Puts::Reply(message) => [4, message],
        Puts::Owe(message) => [5, message],
    }
}

// The five bytes of the guards that are completed.
fn does_bytes(does: Does) -> [u8; 5]
    ensures { result ≡ words.does_bytes does }
{
    match does {
        Does::Nothing => [0, 0, 0, 0, 0],
        Does::One(g) => [1, g.state, g.guard, 0, 0],
        Does::Two(g, h) => [2, g.state, g.guard, h.state, h.guard],
    }
}

/// The word of a row: 16 bytes, of which the last is 0. Takes no memory.
pub fn encode_row(row: &Row) -> [u8; 16]
    ensures { result ≡ words.row_word row.now }
{
    let [a, b, c] = place_bytes(row.at);
    let [d, e] = trigger_bytes(row.on);
    let [f, g] = puts_bytes(row.puts);
    let [h, i, j, k, l] = does_bytes(row.does);
    let [m, n, o] = place_bytes(row.to);
    [a, b, c, d, e, f, g, h, i, j, k, l, m, n, o, 0]
}

// The place in range for which these three bytes stand, if there is one.
fn place_in(kind: u8, state: u8, guard: u8) -> Option<Place>
    ensures { words.Decodes words.IsPlaceInRange words.place_bytes
        (kind ∷ state ∷ guard ∷ []) result }
{
    if state >= STATES || guard >= GUARDS {
        return None;
    }
    match kind {
        0 if guard == 0 => Some(Place::Comm(state)),
        1 => Some(Place::Trans(GuardId { state, guard })),
        2 => Some(Place::Due(GuardId { state, guard })),
        _ => None,
    }
}

// The trigger in range for which these two bytes stand, if there is one.
fn trigger_in(kind: u8, number: u8) -> Option<Trigger>
    ensures { words.Decodes words.IsTriggerInRange words.trigger_bytes (kind ∷ number ∷ []) result }
{
    match kind {
        0 if number < GUARDS => Some(Trigger::Tau(number)),
        1 if number < GUARDS => Some(Trigger::Send(number)),
        2 if number < GUARDS => Some(Trigger::Pay(number)),
        3 if number < GUARDS => Some(Trigger::Take(number)),
        4 if number < GUARDS => Some(Trigger::Answer(number)),
        5 if number == 0 => Some(Trigger::AnswerNone),
        6 if number == 0 => Some(Trigger::GotAck),
        7 if number == 0 => Some(Trigger::GotNack),
        8 if number < MESSAGES => Some(Trigger::GotReply(number)),
        9 if number == 0 => Some(Trigger::GotRequest),
        _ => None,
    }
}

// What is put or owed, in range, for which these two bytes stand, if there is such a thing.
fn puts_in(kind: u8, message: u8) -> Option<Puts>
    ensures { words.Decodes words.ArePutsInRange words.puts_bytes (kind ∷ message ∷ []) result }
{
    match kind {
        0 if message == 0 => Some(Puts::Nothing),
        1 if message < MESSAGES => Some(Puts::Request(message)),
        2 if message == 0 => Some(Puts::Ack),
        3 if message == 0 => Some(Puts::Nack),
        4 if message < MESSAGES => Some(Puts::Reply(message)),
        5 if message < MESSAGES => Some(Puts::Owe(message)),
        _ => None,
    }
}

// The guard for which two bytes stand.
fn guard_in(state: u8, guard: u8) -> Option<GuardId>
    ensures { words.Decodes words.IsGuardInRange words.guard_bytes (state ∷ guard ∷ []) result }
{
    if state < STATES && guard < GUARDS {
        return Some(GuardId { state, guard });
    }
    None
}

// The guards in range that are completed, for which these five bytes stand, if there are such.
fn does_in(count: u8, state: u8, guard: u8, then_state: u8, then_guard: u8) -> Option<Does>
    ensures { words.Decodes words.IsDoesInRange words.does_bytes
        (count ∷ state ∷ guard ∷ then_state ∷ then_guard ∷ []) result }
{
    let first = guard_in(state, guard)?;
    let second = guard_in(then_state, then_guard)?;
    match count {
        0 if state == 0 && guard == 0 && then_state == 0 && then_guard == 0 => Some(Does::Nothing),
        1 if then_state == 0 && then_guard == 0 => Some(Does::One(first)),
        2 => Some(Does::Two(first, second)),
        _ => None,
    }
}

/// The row in range for which the word stands, if there is one: its states and messages are below
/// 64 and its guards below 16. Takes no memory.
pub fn decode_row(word: &[u8; 16]) -> Option<Row>
    ensures { words.DecodesRow word.now result }
{
    let [a, b, c, d, e, f, g, h, i, j, k, l, m, n, o, end] = *word;
    let row = Row {
        at: place_in(a, b, c)?,
        on: trigger_in(d, e)?,
        puts: puts_in(f, g)?,
        does: does_in(h, i, j, k, l)?,
        to: place_in(m, n, o)?,
    };
    if end != 0 {
        return None;
    }
    Some(row)
}
