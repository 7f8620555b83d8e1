//! Laws of the definitions. These functions do nothing: their contracts are the laws.

ghost use Rattle.std.specs.Prelude.{ℕ, ◌≤◌, List};
ghost use Rattle.proto_model.specs.Proper.{IsProper};
ghost use Rattle.schedule_replay.specs.Played.{played};
ghost use Rattle.schedule_replay.specs.TextLines.{lines_of};
ghost use Rattle.schedule_replay.specs.declared.limits.Limits.{Limits as TheLimits};
ghost use Rattle.async_shape.specs.Setting.{Setting};
ghost use Rattle.line_array.specs.declared.line_step.LineStep.{LineStep as TheStep};
ghost use Rattle.array_replay.specs.ArrayTrace.{ArrayRunning, array_play};
ghost use Rattle.array_replay.specs.ArrayRuns.{IsOfArrayRun, TellsOfOneLine};

use line_array::laws::shared_lists_are_in_step;

/// What is played of a schedule of steps, whatever its bytes, is a run of the array: the first
/// steps that its lines say, taken one after another from the start. So each block that a trace
/// shows tells of one step of a run, in the configuration to which the steps before it lead.
pub fn what_is_played_is_a_run()
    ensures { (limits : TheLimits) (start : ArrayRunning) (text : List ℕ)
        → IsOfArrayRun start (lines_of text) (played array_play limits start text) }
{}

/// Each block tells of one cache line as if there were no other: after any steps of the array from
/// its start, for a proper protocol, either mode, from 1 to 64 remotes, from 2 to 64 slots and any
/// number of cache lines, the block of a further step that is meant for a cache line is the block
/// of the controllers of that line alone, where the steps that were meant for it lead them.
pub fn each_block_tells_of_one_line()
    ensures { (setting : Setting) (n lines : ℕ) → IsProper setting.protocol
        → 1 ≤ n → n ≤ 64 → 2 ≤ setting.slots → setting.slots ≤ 64
        → (steps : List TheStep) (s : TheStep) → TellsOfOneLine setting n lines steps s }
{
    shared_lists_are_in_step()
}
