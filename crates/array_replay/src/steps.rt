//! A line of a schedule of steps of several cache lines.

ghost use Rattle.std.specs.Prelude.{◌≡◌, ◌∷◌};
ghost use Rattle.rv_base.specs.Words.{words};
ghost use Rattle.run_replay.specs.StepLines.{step_of};
ghost use Rattle.array_replay.specs.ArrayLines as lines;
ghost use Rattle.array_replay.specs.ArrayLines.{Says, array_line};

use async_machine::Step;
use line_array::LineStep;
use proto_model::schedule_number;
use run_replay::read_line;
use rv_base::next_word;
use schedule_replay::Meaning;

// The step of this cache line, unless a packet arrives in it.
fn own_step(line: u32, step: Step) -> Option<LineStep>
    ensures { result ≡ lines.own_step line step }
{
    match step {
        Step::Up(_) | Step::Down(_) => None,
        Step::HomeTau(_)
        | Step::HomeTake(_)
        | Step::HomeSend(_, _)
        | Step::HomeDrop(_)
        | Step::RemoteTau(_, _)
        | Step::RemoteSend(_)
        | Step::RemoteAnswer(_)
        | Step::RemoteReply(_) => Some(LineStep::At(line, step)),
    }
}

// The delivery over a shared link that has the words of this step, if a packet arrives in it.
fn delivery(step: Step) -> Option<LineStep>
    ensures { result ≡ lines.delivery step }
{
    match step {
        Step::Up(remote) => Some(LineStep::Up(remote)),
        Step::Down(remote) => Some(LineStep::Down(remote)),
        Step::HomeTau(_)
        | Step::HomeTake(_)
        | Step::HomeSend(_, _)
        | Step::HomeDrop(_)
        | Step::RemoteTau(_, _)
        | Step::RemoteSend(_)
        | Step::RemoteAnswer(_)
        | Step::RemoteReply(_) => None,
    }
}

// The step that the words of a line say for one pair of controllers, if they say one.
fn step_said(line: &[u8]) -> Option<Step>
    ensures { result ≡ step_of (words line.now) }
{
    match read_line(line) {
        Meaning::Says(step) => Some(step),
        Meaning::Blank | Meaning::Bad => None,
    }
}

// The step of the words behind `at`, which are those of this rest of a line.
fn step_at(rest: &[u8]) -> Option<LineStep>
    ensures { result ≡ lines.step_at (words rest.now) }
{
    let (number, rest) = next_word(rest)?;
    own_step(schedule_number(number)?, step_said(rest)?)
}

// The step that the line says, whose words are this one and those of the rest.
fn array_step(line: &[u8], first: &[u8], rest: &[u8]) -> Option<LineStep>
    requires { words line.now ≡ first.now ∷ words rest.now }
    ensures { result ≡ lines.array_step (first.now ∷ words rest.now) }
{
    if first == b"at".as_slice() {
        return step_at(rest);
    }
    delivery(step_said(line)?)
}

// What the line says, whose words are this one and those of the rest.
fn line_of_words(line: &[u8], first: &[u8], rest: &[u8]) -> Meaning<LineStep>
    requires { words line.now ≡ first.now ∷ words rest.now }
    ensures says { Says (first.now ∷ words rest.now) result }
    ensures value { result ≡ lines.line_of_words (first.now ∷ words rest.now) }
{
    match array_step(line, first, rest) {
        Some(step) => Meaning::Says(step),
        None => Meaning::Bad,
    }
}

/// Reads a line of a schedule of steps of several cache lines, without its LF and whatever its
/// length: of what stands before the first `//`, cut into words, `at A` and the words of a step
/// that is no delivery, or `up J` or `down J`, where `A` is the number of a cache line and `J` that
/// of a remote, from 0 to 99,999 without leading zeros. A line without words is blank, and one of
/// other words malformed. Takes no memory.
pub fn read_array_line(line: &[u8]) -> Meaning<LineStep>
    ensures says { Says (words line.now) result }
    ensures value { result ≡ array_line line.now }
{
    let Some((first, rest)) = next_word(line) else {
        return Meaning::Blank;
    };
    line_of_words(line, first, rest)
}
