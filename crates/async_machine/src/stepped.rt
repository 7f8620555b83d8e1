//! What became of a step.

/// Whether a step took place.
#[derive(Clone, Copy, Debug, PartialEq, Eq, Drop)]
pub enum Stepped {
    /// The step was enabled, and is done.
    Moved,
    /// The step is not enabled, and nothing changed.
    Refused,
}
