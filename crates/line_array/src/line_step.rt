//! The steps of an array of lines.

ghost use Rattle.std.specs.Prelude.{◌≡◌};
ghost use Rattle.line_array.specs.ArrayNext as array_of;

use async_shape::Step;

/// A step of an array. Lines and remotes are numbered from 0.
#[derive(Clone, Copy, Debug, PartialEq, Eq)]
pub enum LineStep {
    /// This line (first) takes this step (second), which is no delivery.
    At(u32, Step),
    /// The first packet on the shared up link of this remote arrives at the home of its line.
    Up(u32),
    /// The first packet on the shared down link of this remote arrives there, at its line.
    Down(u32),
}

/// Whether a packet arrives in the step of a line.
pub(crate) fn is_delivery(step: Step) -> bool
    ensures { result ≡ array_of.is_delivery step }
{
    matches!(step, Step::Up(_) | Step::Down(_))
}
