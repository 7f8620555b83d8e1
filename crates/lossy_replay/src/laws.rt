//! Laws of the definitions. These functions do nothing: their contracts are the laws.

ghost use Rattle.std.specs.Prelude.{ℕ, ◌≤◌, List};
ghost use Rattle.proto_model.specs.Numbered.{NumberedProtocol};
ghost use Rattle.proto_model.specs.Proper.{IsProper};
ghost use Rattle.proto_model.specs.declared.mode.Mode.{Mode as TheMode};
ghost use Rattle.schedule_replay.specs.Played.{played};
ghost use Rattle.schedule_replay.specs.TextLines.{lines_of};
ghost use Rattle.schedule_replay.specs.declared.limits.Limits.{Limits as TheLimits};
ghost use Rattle.lossy_replay.specs.Linked.{IsLinked};
ghost use Rattle.lossy_replay.specs.LossyTrace.{LossyRunning, lossy_play, lossy_start};
ghost use Rattle.schedule_replay.specs.PlayedItems.{IsOfItems, state_at_end};
ghost use Rattle.lossy_replay.specs.StepsTaken.{IsRunOfTaken};
ghost use Rattle.lossy_replay.specs.declared.items.LossyItem.{LossyItem as TheItem};

/// What is played of a schedule, whatever its bytes, are the first items that its lines say, one
/// after another from the start: their blocks are what is written, and they lead to where it ends.
pub fn what_is_played_is_said()
    ensures { (limits : TheLimits) (start : LossyRunning) (text : List ℕ)
        → IsOfItems lossy_play 0 start (lines_of text) (played lossy_play limits start text) }
{}

/// Whatever the network does, the controllers run: of any items, the steps that are taken are a run
/// of the controllers from where they stand, and the blocks that tell of them and the last text are
/// those of these steps in a schedule of steps alone.
pub fn what_is_taken_is_a_run()
    ensures { (start : LossyRunning) (items : List TheItem) → IsRunOfTaken start items }
{}

/// Whatever a schedule plays from the start, for a proper protocol, the links over which the
/// controllers run are the lists of packets on the wires.
pub fn links_are_the_lists_of_wires()
    ensures { (protocol : NumberedProtocol) (mode : TheMode) (n k : ℕ) → IsProper protocol
        → 1 ≤ n → n ≤ 64 → 2 ≤ k → k ≤ 64 → (items : List TheItem)
        → IsLinked (state_at_end lossy_play (lossy_start protocol mode n k) items) }
{}
