//! The headline, as laws. These functions do nothing: their contracts are the laws.

ghost use Rattle.rvc_top.specs.ShownRuns.{EveryRunIsShown, EveryBootIsShown};

/// What `run` shows is a refinement, in one statement: the file spells a protocol; the lines of the
/// schedule up to where it is stopped say steps; what is written are the blocks of these steps, one
/// after another from the start, and the last text; and the block of each step says `refused`
/// exactly where the controllers can't take it, or an event that is one rendezvous step of the
/// protocol from what they stand for before to what they stand for after, or `stutter` where they
/// stand for the same. What stops it is told too, and is what it says.
pub fn what_run_shows()
    ensures { EveryRunIsShown }
{}

/// And so it is of `boot`, for the protocol and the mode of the control store that the file is.
pub fn what_boot_shows()
    ensures { EveryBootIsShown }
{}
