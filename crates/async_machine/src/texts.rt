//! The text of a step.
#![tactic(auto, using(proto_model::proofs::Continuing::whole))]

ghost use Rattle.std.specs.Prelude.{◌++◌, codes};
ghost use Rattle.rv_base.specs.Appended.{Appends};
ghost use Rattle.proto_model.specs.Continued.{Continues};
ghost use Rattle.proto_model.specs.Texts.{argument};
ghost use Rattle.async_machine.specs.StepText as texts;

use async_shape::Step;
use proto_model::{Appending, append, append_argument};
use rv_base::NoMemory;
use std::alloc::Global;

// The words, and behind them a number.
fn append_with(out: &mut Vec<u8>, so_far: Appending, words: &[u8], number: u32) -> Appending
    ensures { Continues (words.now ++ argument number) so_far out.old.items result out.new.items }
{
    let so_far = append(out, so_far, words);
    append_argument(out, so_far, number)
}

// The words of remote j, which begin with a space.
fn append_of_remote(out: &mut Vec<u8>, so_far: Appending, j: u32, words: &[u8]) -> Appending
    ensures { Continues (codes "remote" ++ (argument j ++ words.now)) so_far out.old.items result
        out.new.items }
{
    let so_far = append_with(out, so_far, b"remote", j);
    append(out, so_far, words)
}

fn append_step(out: &mut Vec<u8>, so_far: Appending, step: Step) -> Appending
    ensures { Continues (texts.step_text step) so_far out.old.items result out.new.items }
{
    match step {
        Step::HomeTau(g) => append_with(out, so_far, b"home tau", g),
        Step::HomeTake(j) => append_with(out, so_far, b"home take", j),
        Step::HomeSend(g, j) => {
            let so_far = append_with(out, so_far, b"home send", g);
            append_argument(out, so_far, j)
        }
        Step::HomeDrop(j) => append_with(out, so_far, b"home drop", j),
        Step::RemoteTau(j, g) => {
            let so_far = append_of_remote(out, so_far, j, b" tau");
            append_argument(out, so_far, g)
        }
        Step::RemoteSend(j) => append_of_remote(out, so_far, j, b" send"),
        Step::RemoteAnswer(j) => append_of_remote(out, so_far, j, b" answer"),
        Step::RemoteReply(j) => append_of_remote(out, so_far, j, b" reply"),
        Step::Up(j) => append_with(out, so_far, b"up", j),
        Step::Down(j) => append_with(out, so_far, b"down", j),
    }
}

/// Appends the words of the step with one space between them, as a line of a schedule has them:
/// `home tau G`, `home take J`, `home send G J`, `home drop J`, `remote J tau G`, `remote J send`,
/// `remote J answer`, `remote J reply`, `up J` or `down J`, where `G` is the number of a guard and
/// `J` that of a remote, both in decimal. After `NoMemory` the vector is as before followed by a
/// front of the text.
pub fn step_text(_alloc: Global, step: Step, out: &mut Vec<u8>) -> Result<(), NoMemory>
    ensures { Appends (texts.step_text step) result out.old.items out.new.items }
{
    append_step(out, Ok(()), step)
}
