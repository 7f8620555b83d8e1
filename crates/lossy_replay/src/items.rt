//! A line of a schedule of steps and of moves of the network.

ghost use Rattle.std.specs.Prelude.{◌≡◌};
ghost use Rattle.rv_base.specs.Words.{words};
ghost use Rattle.lossy_replay.specs.LossyLines.{Says, lossy_line};

use async_machine::Step;
use faulty_link::{NetStep, read_net_line};
use schedule_replay::Meaning;

/// What a line says: a step of the controllers, or a move of the network.
#[derive(Clone, Copy, Debug, PartialEq, Eq)]
pub enum LossyItem {
    /// The step that the controllers take, where they can, and where it doesn't wait.
    Takes(Step),
    /// The move that the network makes, where it can.
    Moves(NetStep),
}

/// Reads a line of a schedule of steps and of moves of the network, without its LF and whatever its
/// length: of what stands before the first `//`, cut into words, a step as in a schedule of steps
/// alone, or `net J WAY MOVE P`, where `J` is the number of a remote, `WAY` is `up` or `down`,
/// `MOVE` is `resend`, `lose`, `copy` or `pass`, and `P` is a place, counted from 0. A line without
/// words is blank, and one of other words malformed. Takes no memory.
pub fn read_line(line: &[u8]) -> Meaning<LossyItem>
    ensures says { Says (words line.now) result }
    ensures value { result ≡ lossy_line line.now }
{
    if let Some(step) = read_net_line(line) {
        return Meaning::Says(LossyItem::Moves(step));
    }
    match run_replay::read_line(line) {
        Meaning::Blank => Meaning::Blank,
        Meaning::Says(step) => Meaning::Says(LossyItem::Takes(step)),
        Meaning::Bad => Meaning::Bad,
    }
}
