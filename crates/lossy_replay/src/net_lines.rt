//! The texts that tell of a move of the network.
#![tactic(auto, using(proto_model::proofs::Continuing::whole))]

ghost use Rattle.std.specs.Prelude.{◌≡◌, ◌<◌, ◌++◌, if◌then◌else◌, true, codes, decimal};
ghost use Rattle.std.specs.Prelude.{length, Some, None};
ghost use Rattle.rv_base.specs.Appended.{Appends};
ghost use Rattle.proto_model.specs.Continued.{Continues};
ghost use Rattle.proto_model.specs.Texts.{separator};
ghost use Rattle.faulty_link.specs.Moves.{link_on, remote_of};
ghost use Rattle.faulty_link.specs.NetLines.{net_text};
ghost use Rattle.faulty_link.specs.Wire.{wire_on};
ghost use Rattle.run_replay.specs.Listed.{joined};
ghost use Rattle.run_replay.specs.StateLines.{bracketed};
ghost use Rattle.lossy_replay.specs.LossyTrace as texts;

use faulty_link::{LossyLinks, NetStep, Way, net_text};
use ordered_links::Links;
use proto_model::{Appending, append, append_number};
use rv_base::NoMemory;
use std::alloc::Global;

// The number of a frame, the first of the list or a later one.
fn put_frame(out: &mut Vec<u8>, so_far: Appending, first: bool, number: u64) -> Appending
    ensures { Continues (separator first ++ decimal number) so_far out.old.items result
        out.new.items }
{
    if first {
        return append_number(out, so_far, number);
    }
    let so_far = append(out, so_far, b",");
    append_number(out, so_far, number)
}

// The numbers of the frames that are under way on this wire of remote j, the first one first.
fn put_frames(
    links: &LossyLinks,
    j: u8,
    way: Way,
    out: &mut Vec<u8>,
    mut so_far: Appending,
) -> Appending
    requires { j < length links.now }
    ensures { Continues (joined (texts.frame_texts
        (wire_on (link_on j way) links.now).flight)) so_far out.old.items result out.new.items }
{
    links.whole(j, way);
    for place in 0..8 {
        let Some(number) = links.flight_at(j, way, place) else {
            return so_far;
        };
        so_far = put_frame(out, so_far, place == 0, number);
    }
    so_far
}

// The same in brackets.
fn put_flight(
    links: &LossyLinks,
    j: u8,
    way: Way,
    out: &mut Vec<u8>,
    so_far: Appending,
) -> Appending
    requires { j < length links.now }
    ensures { Continues (codes " flight" ++ bracketed (texts.frame_texts
        (wire_on (link_on j way) links.now).flight)) so_far out.old.items result out.new.items }
{
    let so_far = append(out, so_far, b" flight[");
    let so_far = put_frames(links, j, way, out, so_far);
    append(out, so_far, b"]")
}

// The words that name this link of remote j.
fn put_link_words(j: u8, way: Way, out: &mut Vec<u8>, so_far: Appending) -> Appending
    ensures { Continues (texts.link_words (link_on j way)) so_far out.old.items result
        out.new.items }
{
    let so_far = append_number(out, so_far, u64::from(j));
    match way {
        Way::Up => append(out, so_far, b" up"),
        Way::Down => append(out, so_far, b" down"),
    }
}

// The line of this wire of remote j.
fn put_wire_line(
    links: &LossyLinks,
    j: u8,
    way: Way,
    out: &mut Vec<u8>,
    so_far: Appending,
) -> Appending
    requires { j < length links.now }
    ensures { Continues (texts.wire_line (link_on j way) (wire_on (link_on j way) links.now))
        so_far out.old.items result out.new.items }
{
    let so_far = append(out, so_far, b"  link ");
    let so_far = put_link_words(j, way, out, so_far);
    let so_far = append(out, so_far, b" put ");
    let so_far = append_number(out, so_far, links.put_count(j, way));
    let so_far = append(out, so_far, b" got ");
    let so_far = append_number(out, so_far, links.got_count(j, way));
    let so_far = put_flight(links, j, way, out, so_far);
    append(out, so_far, b"\n")
}

// What is told of a move that was made and led to these links, or that was refused.
fn put_told(
    links: &LossyLinks,
    step: NetStep,
    made: bool,
    out: &mut Vec<u8>,
    so_far: Appending,
) -> Appending
    requires { made ≡ true → remote_of step < length links.now }
    ensures { Continues (texts.net_told step (if made then Some links.now else None)) so_far
        out.old.items result out.new.items }
{
    if !made {
        return append(out, so_far, b"refused\n");
    }
    let _ = links.count();
    let so_far = append(out, so_far, b"net\n");
    put_wire_line(links, step.remote() as u8, step.way(), out, so_far)
}

/// Appends the block of a move of the network that was made and led to these links, or that was
/// refused: its words, and what is told of it. After `NoMemory` the vector is as before followed by
/// a front of the text.
pub(crate) fn net_block(
    alloc: Global,
    links: &LossyLinks,
    step: NetStep,
    made: bool,
    out: &mut Vec<u8>,
) -> Result<(), NoMemory>
    requires { made ≡ true → remote_of step < length links.now }
    ensures { Appends (net_text step
        ++ (codes ": " ++ texts.net_told step (if made then Some links.now else None))) result
        out.old.items out.new.items }
{
    let so_far = net_text(alloc, step, out);
    let so_far = append(out, so_far, b": ");
    put_told(links, step, made, out, so_far)
}
