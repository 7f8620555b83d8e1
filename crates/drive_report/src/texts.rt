//! The text of a summary.
#![tactic(auto, using(proto_model::proofs::Continuing::whole))]

ghost use Rattle.std.specs.Prelude.{◌++◌, codes};
ghost use Rattle.rv_base.specs.Appended.{Appends};
ghost use Rattle.proto_model.specs.Continued.{Continues};
ghost use Rattle.drive_report.specs.SummaryText as texts;

use crate::summary::Summary;
use proto_model::{Appending, append, append_number};
use rv_base::NoMemory;
use std::alloc::Global;

// A line: a word and a number.
fn append_line(out: &mut Vec<u8>, so_far: Appending, word: &[u8], count: u64) -> Appending
    ensures { Continues (texts.count_line word.now count) so_far out.old.items result
        out.new.items }
{
    let so_far = append(out, so_far, word);
    let so_far = append(out, so_far, b" ");
    let so_far = append_number(out, so_far, count);
    append(out, so_far, b"\n")
}

// `yes` or `no`.
fn append_answer(out: &mut Vec<u8>, so_far: Appending, answer: bool) -> Appending
    ensures { Continues (texts.yes_or_no answer) so_far out.old.items result out.new.items }
{
    if answer {
        append(out, so_far, b"yes")
    } else {
        append(out, so_far, b"no")
    }
}

// The last line.
fn append_stopped(out: &mut Vec<u8>, so_far: Appending, stopped: bool) -> Appending
    ensures { Continues (codes "stopped " ++ (texts.yes_or_no stopped ++ codes "\n")) so_far
        out.old.items result out.new.items }
{
    let so_far = append(out, so_far, b"stopped ");
    let so_far = append_answer(out, so_far, stopped);
    append(out, so_far, b"\n")
}

fn append_summary(out: &mut Vec<u8>, so_far: Appending, summary: &Summary) -> Appending
    ensures { Continues (texts.summary_text summary.now) so_far out.old.items result
        out.new.items }
{
    let so_far = append_line(out, so_far, b"steps", summary.steps);
    let so_far = append_line(out, so_far, b"events", summary.events);
    let so_far = append_line(out, so_far, b"requests", summary.requests);
    let so_far = append_line(out, so_far, b"acks", summary.acks);
    let so_far = append_line(out, so_far, b"nacks", summary.nacks);
    let so_far = append_line(out, so_far, b"replies", summary.replies);
    let so_far = append_line(out, so_far, b"crossed", summary.crossed);
    let so_far = append_line(out, so_far, b"held", summary.most_held);
    let so_far = append_line(out, so_far, b"up", summary.most_up);
    let so_far = append_line(out, so_far, b"down", summary.most_down);
    append_stopped(out, so_far, summary.stopped)
}

/// Appends the eleven lines of the summary: ten words with a number each, `steps`, `events`,
/// `requests`, `acks`, `nacks`, `replies`, `crossed`, `held`, `up` and `down`, and `stopped yes` or
/// `stopped no`. After `NoMemory` the vector is as before followed by a front of the text.
pub fn summary_text(_alloc: Global, summary: &Summary, out: &mut Vec<u8>) -> Result<(), NoMemory>
    ensures { Appends (texts.summary_text summary.now) result out.old.items out.new.items }
{
    append_summary(out, Ok(()), summary)
}
