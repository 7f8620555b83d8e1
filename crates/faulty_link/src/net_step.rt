//! What the network does.

ghost use Rattle.std.specs.Prelude.{◌≡◌};
ghost use Rattle.faulty_link.specs.Moves.{remote_of, way_of};

/// Which of the two wires of a remote: the one to the home, or the one from it.
#[derive(Clone, Copy, Debug, PartialEq, Eq, Drop)]
pub enum Way {
    Up,
    Down,
}

/// A move of the network: the number of a remote, the way, and a place, counted from 0. `Resend`
/// sends the packet at this place of the window once more; `Lose` loses the frame at this place of
/// the flight, `Copy` repeats it, and `Pass` brings it to the other end of the wire.
#[derive(Clone, Copy, Debug, PartialEq, Eq, Drop)]
pub enum NetStep {
    Resend(u32, Way, u32),
    Lose(u32, Way, u32),
    Copy(u32, Way, u32),
    Pass(u32, Way, u32),
}

impl NetStep {
    /// The number of the remote whose wire it names.
    pub fn remote(self) -> u32
        ensures { result ≡ remote_of self }
    {
        match self {
            NetStep::Resend(remote, _, _)
            | NetStep::Lose(remote, _, _)
            | NetStep::Copy(remote, _, _)
            | NetStep::Pass(remote, _, _) => remote,
        }
    }

    /// The way of the wire that it names.
    pub fn way(self) -> Way
        ensures { result ≡ way_of self }
    {
        match self {
            NetStep::Resend(_, way, _)
            | NetStep::Lose(_, way, _)
            | NetStep::Copy(_, way, _)
            | NetStep::Pass(_, way, _) => way,
        }
    }
}
