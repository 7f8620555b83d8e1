//! Moves of the network as lines of a schedule have them.
#![tactic(auto, using(proto_model::proofs::Continuing::whole))]

ghost use Rattle.std.specs.Prelude.{◌≡◌, ◌∷◌, ◌++◌, codes};
ghost use Rattle.rv_base.specs.Appended.{Appends};
ghost use Rattle.rv_base.specs.Words.{words};
ghost use Rattle.proto_model.specs.Continued.{Continues};
ghost use Rattle.proto_model.specs.Texts.{argument};
ghost use Rattle.faulty_link.specs.NetLines as lines;
ghost use Rattle.faulty_link.specs.NetLines.{Says, net_line};

use crate::net_step::{NetStep, Way};
use proto_model::{Appending, append, append_argument, schedule_number};
use rv_base::{NoMemory, next_word};
use std::alloc::Global;

// The way that the word says.
fn way_said(word: &[u8]) -> Option<Way>
    ensures { result ≡ lines.way_said word.now }
{
    if word == b"up".as_slice() {
        return Some(Way::Up);
    }
    if word == b"down".as_slice() {
        return Some(Way::Down);
    }
    None
}

// The move that the word says of this wire and place.
fn move_of(what: &[u8], remote: u32, way: Way, place: u32) -> Option<NetStep>
    ensures { result ≡ lines.move_of what.now remote way place }
{
    if what == b"resend".as_slice() {
        return Some(NetStep::Resend(remote, way, place));
    }
    if what == b"lose".as_slice() {
        return Some(NetStep::Lose(remote, way, place));
    }
    if what == b"copy".as_slice() {
        return Some(NetStep::Copy(remote, way, place));
    }
    if what == b"pass".as_slice() {
        return Some(NetStep::Pass(remote, way, place));
    }
    None
}

// The move that the words behind `net` say.
fn named_move(remote: &[u8], way: &[u8], what: &[u8], place: &[u8]) -> Option<NetStep>
    ensures { result ≡ lines.named_move remote.now way.now what.now place.now }
{
    move_of(
        what,
        schedule_number(remote)?,
        way_said(way)?,
        schedule_number(place)?,
    )
}

// The move that this word and those of the rest of the line say.
fn step_of(first: &[u8], rest: &[u8]) -> Option<NetStep>
    ensures { result ≡ lines.net_step_of (first.now ∷ words rest.now) }
{
    let (remote, rest) = next_word(rest)?;
    let (way, rest) = next_word(rest)?;
    let (what, rest) = next_word(rest)?;
    let (place, rest) = next_word(rest)?;
    if next_word(rest).is_some() || first != b"net".as_slice() {
        return None;
    }
    named_move(remote, way, what, place)
}

/// Reads a line of a schedule, without its LF and whatever its length, as a move of the network: of
/// what stands before the first `//`, cut into words, `net J up resend P`, or `down`, and `lose`,
/// `copy` or `pass`, where `J` is the number of a remote and `P` a place, from 0 to 99,999 without
/// leading zeros. `None` exactly for each other line. Takes no memory.
pub fn read_net_line(line: &[u8]) -> Option<NetStep>
    ensures says { Says (words line.now) result }
    ensures value { result ≡ net_line line.now }
{
    let (first, rest) = next_word(line)?;
    step_of(first, rest)
}

// A space, and the word of the way.
fn append_way(out: &mut Vec<u8>, so_far: Appending, way: Way) -> Appending
    ensures { Continues (codes " " ++ lines.way_word way) so_far out.old.items result
        out.new.items }
{
    match way {
        Way::Up => append(out, so_far, b" up"),
        Way::Down => append(out, so_far, b" down"),
    }
}

// The words of a move, of which the fourth is given with a space before it.
fn append_words(
    out: &mut Vec<u8>,
    so_far: Appending,
    remote: u32,
    way: Way,
    what: &[u8],
    place: u32,
) -> Appending
    ensures { Continues (codes "net" ++ (argument remote ++ ((codes " " ++ lines.way_word way)
        ++ (what.now ++ argument place)))) so_far out.old.items result out.new.items }
{
    let so_far = append(out, so_far, b"net");
    let so_far = append_argument(out, so_far, remote);
    let so_far = append_way(out, so_far, way);
    let so_far = append(out, so_far, what);
    append_argument(out, so_far, place)
}

fn append_step(out: &mut Vec<u8>, so_far: Appending, step: NetStep) -> Appending
    ensures { Continues (lines.net_text step) so_far out.old.items result out.new.items }
{
    match step {
        NetStep::Resend(j, way, place) => append_words(out, so_far, j, way, b" resend", place),
        NetStep::Lose(j, way, place) => append_words(out, so_far, j, way, b" lose", place),
        NetStep::Copy(j, way, place) => append_words(out, so_far, j, way, b" copy", place),
        NetStep::Pass(j, way, place) => append_words(out, so_far, j, way, b" pass", place),
    }
}

/// Appends the words of the move with one space between them, as a line of a schedule has them:
/// `net J up resend P`, with the number `J` of the remote and the place `P` in decimal. After
/// `NoMemory` the vector is as before followed by a front of the text.
pub fn net_text(_alloc: Global, step: NetStep, out: &mut Vec<u8>) -> Result<(), NoMemory>
    ensures { Appends (lines.net_text step) result out.old.items out.new.items }
{
    append_step(out, Ok(()), step)
}
