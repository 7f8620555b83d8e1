//! A line of a schedule of steps.

ghost use Rattle.std.specs.Prelude.{◌≡◌, ◌∷◌};
ghost use Rattle.rv_base.specs.Words.{words};
ghost use Rattle.run_replay.specs.StepLines as steps;
ghost use Rattle.run_replay.specs.StepLines.{Says, step_line};

use async_machine::Step;
use proto_model::schedule_number;
use rv_base::next_word;
use schedule_replay::Meaning;

// The step of `up` or `down` and the word of a number.
fn arrival_step(way: &[u8], remote: &[u8]) -> Option<Step>
    ensures { result ≡ steps.arrival_step way.now remote.now }
{
    if way == b"up".as_slice() {
        return Some(Step::Up(schedule_number(remote)?));
    }
    if way == b"down".as_slice() {
        return Some(Step::Down(schedule_number(remote)?));
    }
    None
}

// The step of `home`, this word and the number.
fn home_step(what: &[u8], number: u32) -> Option<Step>
    ensures { result ≡ steps.home_step what.now number }
{
    if what == b"tau".as_slice() {
        return Some(Step::HomeTau(number));
    }
    if what == b"take".as_slice() {
        return Some(Step::HomeTake(number));
    }
    if what == b"drop".as_slice() {
        return Some(Step::HomeDrop(number));
    }
    None
}

// The step of `remote`, the number and this word.
fn remote_step(number: u32, what: &[u8]) -> Option<Step>
    ensures { result ≡ steps.remote_step number what.now }
{
    if what == b"send".as_slice() {
        return Some(Step::RemoteSend(number));
    }
    if what == b"answer".as_slice() {
        return Some(Step::RemoteAnswer(number));
    }
    if what == b"reply".as_slice() {
        return Some(Step::RemoteReply(number));
    }
    None
}

// The step of three words.
fn short_step(who: &[u8], second: &[u8], third: &[u8]) -> Option<Step>
    ensures { result ≡ steps.short_step who.now second.now third.now }
{
    if who == b"home".as_slice() {
        return home_step(second, schedule_number(third)?);
    }
    if who == b"remote".as_slice() {
        return remote_step(schedule_number(second)?, third);
    }
    None
}

// The step of four words.
fn long_step(who: &[u8], second: &[u8], third: &[u8], fourth: &[u8]) -> Option<Step>
    ensures { result ≡ steps.long_step who.now second.now third.now fourth.now }
{
    if who == b"home".as_slice() {
        if second != b"send".as_slice() {
            return None;
        }
        return Some(Step::HomeSend(schedule_number(third)?, schedule_number(fourth)?));
    }
    if who == b"remote".as_slice() {
        if third != b"tau".as_slice() {
            return None;
        }
        return Some(Step::RemoteTau(schedule_number(second)?, schedule_number(fourth)?));
    }
    None
}

// The step that this word and those of the rest of the line say.
fn step_of(first: &[u8], rest: &[u8]) -> Option<Step>
    ensures { result ≡ steps.step_of (first.now ∷ words rest.now) }
{
    let (second, rest) = next_word(rest)?;
    let Some((third, rest)) = next_word(rest) else {
        return arrival_step(first, second);
    };
    let Some((fourth, rest)) = next_word(rest) else {
        return short_step(first, second, third);
    };
    if next_word(rest).is_some() {
        return None;
    }
    long_step(first, second, third, fourth)
}

// What a line says that has this word and then those of the rest.
fn line_of_words(first: &[u8], rest: &[u8]) -> Meaning<Step>
    ensures says { Says (first.now ∷ words rest.now) result }
    ensures value { result ≡ steps.line_of_words (first.now ∷ words rest.now) }
{
    match step_of(first, rest) {
        Some(step) => Meaning::Says(step),
        None => Meaning::Bad,
    }
}

/// Reads a line of a schedule of steps, without its LF and whatever its length: of what stands
/// before the first `//`, cut into words, `home tau G`, `home take J`, `home send G J`,
/// `home drop J`, `remote J tau G`, `remote J send`, `remote J answer`, `remote J reply`, `up J` or
/// `down J`, where `G` is the number of a guard and `J` that of a remote, from 0 to 99,999 without
/// leading zeros. A line without words is blank, and one of other words malformed. Takes no memory.
pub fn read_line(line: &[u8]) -> Meaning<Step>
    ensures says { Says (words line.now) result }
    ensures value { result ≡ step_line line.now }
{
    let Some((first, rest)) = next_word(line) else {
        return Meaning::Blank;
    };
    line_of_words(first, rest)
}
