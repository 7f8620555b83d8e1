//! A law of `lossy`. The function does nothing: its contract is the law.

ghost use Rattle.rvc_top.specs.LossyRuns.{EveryLossyRunIsShown};

/// What `lossy` shows is a refinement, and what it writes is what `run` writes, verdict against
/// verdict. Its text is the blocks of what the lines up to where it stops say. Without those of
/// moves of the network and of steps that wait, and numbered anew, they are the blocks of a run of
/// the controllers, each of which tells truly what its step is; and a schedule of these steps alone
/// that `run` plays to its end makes it write just these blocks and the same last text.
pub fn what_lossy_shows()
    ensures { EveryLossyRunIsShown }
{}
