//! Laws of the definitions. These functions do nothing: their contracts are the laws.

ghost use Rattle.std.specs.Prelude.{ℕ, List};
ghost use Rattle.schedule_replay.specs.Played.{played};
ghost use Rattle.schedule_replay.specs.TextLines.{lines_of};
ghost use Rattle.schedule_replay.specs.declared.limits.Limits.{Limits as TheLimits};
ghost use Rattle.run_replay.specs.Blocks.{IsOfRun};
ghost use Rattle.run_replay.specs.RunTrace.{Running, run_play};

/// What is played of a schedule of steps, whatever its bytes, is a run: the first steps that
/// its lines say, taken one after another from the start. So each block that a trace shows tells of
/// one step of a run, in the configuration to which the steps before it lead.
pub fn what_is_played_is_a_run()
    ensures { (limits : TheLimits) (start : Running) (text : List ℕ)
        → IsOfRun 0 start (lines_of text) (played run_play limits start text) }
{}
