//! Links with moves of their own.

ghost use Rattle.std.specs.Prelude.{◌≡◌, Bool};

use crate::links::Links;

/// Links over something that moves by itself, as a network does, which may lose what travels over
/// it and bring it again. A move changes no list of packets, and so not the number of remotes
/// either. It takes no memory.
pub trait MovingLinks: Links {
    /// The moves.
    type Move;

    /// The effect of a move: what it says of the links before it, the move, the answer, and the
    /// links after it.
    ghost move_effect: { Self → Self.Move → Bool → Self → Type 0 };

    /// Makes the move. Whether it is made is answered, as the effect says.
    fn own_move(&mut self, step: Self::Move) -> bool
        ensures lists { Self.lists self.new ≡ Self.lists self.old }
        ensures effect { move_effect self.old step result self.new };
}
