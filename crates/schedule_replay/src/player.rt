//! What a schedule is played on.

ghost use Rattle.std.specs.Prelude.{◌≡◌, ◌++◌, ℕ, List, OnOk};
ghost use Rattle.schedule_replay.specs.Play.{Play};

use rv_base::NoMemory;
use std::alloc::Global;

/// What a line of a schedule says: an item, such as an event, or none.
#[derive(Clone, Copy, Debug, PartialEq, Eq)]
pub enum Meaning<T> {
    /// The line has no words.
    Blank,
    /// The line says this item.
    Says(T),
    /// The line is malformed.
    Bad,
}

/// A machine on which schedules are played, item by item.
pub trait Player {
    /// What a line says: an event or a step.
    type Item: Copy;

    /// What lines say, and what the machine does and tells at each item.
    ghost play: { Play Self Self.Item };

    /// Reads a line without its LF, whatever its length.
    fn read(&self, line: &[u8]) -> Meaning<Self::Item>
        ensures { result ≡ play.says line.now };

    /// Plays an item, and appends what tells of it, without its number. Nothing is known of what
    /// was appended after `NoMemory`.
    fn play(&mut self, alloc: Global, item: Self::Item, out: &mut Vec<u8>) -> Result<(), NoMemory>
        ensures after { self.new ≡ play.after self.old item }
        ensures tells { OnOk result (out.new.items ≡ out.old.items ++ play.block self.old item) };

    /// The number of the claim that is broken where the machine stands. `None` where none is.
    fn halts(&self) -> Option<u32>
        ensures { result ≡ play.halts self.now };

    /// Appends the last text. Nothing is known of what was appended after `NoMemory`.
    fn finish(&self, alloc: Global, out: &mut Vec<u8>) -> Result<(), NoMemory>
        ensures { OnOk result (out.new.items ≡ out.old.items ++ play.ending self.now) };
}
