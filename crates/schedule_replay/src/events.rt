//! A line of a schedule of events.

ghost use Rattle.std.specs.Prelude.{◌≡◌, ◌∷◌};
ghost use Rattle.rv_base.specs.Words.{words};
ghost use Rattle.schedule_replay.specs.EventLines as events;
ghost use Rattle.schedule_replay.specs.EventLines.{Says, event_line};

use crate::player::Meaning;
use proto_model::{Event, schedule_number};
use rv_base::next_word;

// The event of `tau` and these two words.
fn tau_event(who: &[u8], guard: &[u8]) -> Option<Event>
    ensures { result ≡ events.tau_event who.now guard.now }
{
    let guard = schedule_number(guard)?;
    if who == b"home".as_slice() {
        return Some(Event::TauHome(guard));
    }
    Some(Event::TauRemote(schedule_number(who)?, guard))
}

// The event of the name, `up` or `down`, and these three words.
fn meeting_event(
    name: &[u8],
    remote: &[u8],
    home_guard: &[u8],
    remote_guard: &[u8],
) -> Option<Event>
    ensures { result ≡ events.meeting_event name.now remote.now home_guard.now remote_guard.now }
{
    let (remote, home_guard, remote_guard) = (
        schedule_number(remote)?,
        schedule_number(home_guard)?,
        schedule_number(remote_guard)?,
    );
    if name == b"up".as_slice() {
        return Some(Event::Up(remote, home_guard, remote_guard));
    }
    if name == b"down".as_slice() {
        return Some(Event::Down(remote, home_guard, remote_guard));
    }
    None
}

// The event that this word and those of the rest of the line say.
fn event_of(name: &[u8], rest: &[u8]) -> Option<Event>
    ensures { result ≡ events.event_of (name.now ∷ words rest.now) }
{
    let (second, rest) = next_word(rest)?;
    let (third, rest) = next_word(rest)?;
    let Some((fourth, rest)) = next_word(rest) else {
        return if name == b"tau".as_slice() {
            tau_event(second, third)
        } else {
            None
        };
    };
    if next_word(rest).is_some() {
        return None;
    }
    meeting_event(name, second, third, fourth)
}

/// The event that the first words of the text say, whatever follows them: the first three words
/// where the first one is `tau`, and else the first four. `None` where they say none. Takes no
/// memory.
pub fn leading_event(text: &[u8]) -> Option<Event>
    ensures { result ≡ events.leading_event text.now }
{
    let (name, rest) = next_word(text)?;
    let (second, rest) = next_word(rest)?;
    let (third, rest) = next_word(rest)?;
    if name == b"tau".as_slice() {
        return tau_event(second, third);
    }
    let (fourth, _) = next_word(rest)?;
    meeting_event(name, second, third, fourth)
}

// What a line says that has this word and then those of the rest.
fn line_of_words(name: &[u8], rest: &[u8]) -> Meaning<Event>
    ensures says { Says (name.now ∷ words rest.now) result }
    ensures value { result ≡ events.line_of_words (name.now ∷ words rest.now) }
{
    match event_of(name, rest) {
        Some(event) => Meaning::Says(event),
        None => Meaning::Bad,
    }
}

/// Reads a line of a schedule of events, without its LF and whatever its length: of what stands
/// before the first `//`, cut into words, `tau home G`, `tau J G`, `up J H R` or `down J H R`, with
/// numbers from 0 to 99,999 without leading zeros. A line without words is blank, and one of other
/// words malformed. Takes no memory.
pub fn read_event_line(line: &[u8]) -> Meaning<Event>
    ensures says { Says (words line.now) result }
    ensures value { result ≡ event_line line.now }
{
    let Some((name, rest)) = next_word(line) else {
        return Meaning::Blank;
    };
    line_of_words(name, rest)
}
