//! The words of runs of `run`.

/// The words of `run` with one remote and two slots, in mode lean.
pub const ONE_LEAN: [&str; 5] = ["run", "p", "1", "2", "lean"];

/// The words of `run` with two remotes and two slots, in mode lean.
pub const TWO_LEAN: [&str; 5] = ["run", "p", "2", "2", "lean"];
