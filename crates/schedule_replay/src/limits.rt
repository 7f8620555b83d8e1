//! How long a line and a schedule may be.

/// How long a line of a schedule may be, and how many lines it may have. Up to 256 bytes more than
/// such lines have with their LFs may be taken, as a schedule is read piece by piece.
#[derive(Clone, Copy, Debug, PartialEq, Eq)]
pub struct Limits {
    /// The most bytes of a line, without its LF.
    pub line: usize,
    /// The most lines.
    pub lines: u32,
}

/// The limits of a schedule of events, and of one of steps.
pub const SCHEDULE_LIMITS: Limits = Limits {
    line: 256,
    lines: 1_000_000,
};
