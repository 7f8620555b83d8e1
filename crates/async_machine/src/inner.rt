//! Moves of the links by themselves.

ghost use Rattle.std.specs.Prelude.{◌≡◌};
ghost use Rattle.async_machine.specs.Standing.{config};

use crate::machine::Machine;
use ordered_links::MovingLinks;

impl<'a, L: MovingLinks> Machine<'a, L> {
    /// Makes this move of the links, which is no step of the home or a remote. The configuration
    /// stays, the links change by the effect of the move, and the answer is that of the links.
    /// Takes no memory.
    pub fn inner(&mut self, step: L::Move) -> bool
        ensures kept { self.new ≡ record self.old { links = self.new.links } }
        ensures config { config L.lists self.new ≡ config L.lists self.old }
        ensures effect { L.move_effect self.old.links step result self.new.links }
    {
        self.links.own_move(step)
    }
}
