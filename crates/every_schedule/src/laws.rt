//! From events to schedules. These functions do nothing: their contracts are the laws. Each speaks of
//! every schedule, whatever its bytes: for a proper protocol, either mode, from 1 to 64 remotes, and
//! from 2 to 64 slots.

ghost use Rattle.std.specs.Prelude.{◌≡◌, ◌≢◌, ◌≤◌, ℕ, List};
ghost use Rattle.std.specs.List.{AllByRecursion};
ghost use Rattle.proto_model.specs.Numbered.{NumberedProtocol, CheckedProtocol};
ghost use Rattle.proto_model.specs.Proper.{IsProper};
ghost use Rattle.proto_model.specs.declared.mode.Mode.{Mode as TheMode};
ghost use Rattle.proto_model.specs.declared.rendezvous.RvConfig.{RvConfig};
ghost use Rattle.schedule_replay.specs.Played.{played, Halted};
ghost use Rattle.schedule_replay.specs.PlayedItems.{state_at_end};
ghost use Rattle.schedule_replay.specs.RvPlay.{rv_play, rv_watched};
ghost use Rattle.schedule_replay.specs.declared.limits.Limits.{Limits as TheLimits};
ghost use Rattle.event_runs.specs.Reached.{IsReached};
ghost use Rattle.async_shape.specs.Setting.{Setting};
ghost use Rattle.async_shape.specs.Config.{Config};
ghost use Rattle.abstraction_map.specs.Abstraction.{abstraction};
ghost use Rattle.run_replay.specs.RunTrace.{run_play, run_start};
ghost use Rattle.lossy_replay.specs.LossyTrace.{lossy_play, lossy_start};
ghost use Rattle.lossy_replay.specs.declared.items.LossyItem.{LossyItem as TheItem};
ghost use Rattle.line_array.specs.ArrayConfig.{array_start};
ghost use Rattle.line_array.specs.ArrayNext.{array_at_end};
ghost use Rattle.line_array.specs.declared.line_step.LineStep.{LineStep as TheStep};
ghost use Rattle.array_replay.specs.ArrayTrace.{array_play, array_begin};
ghost use Rattle.every_schedule.specs.KeptClaims.{EventsKeepClaims};

use event_runs::Property;

/// Where events keep each claim of a file, no schedule of steps stops at a broken claim, and no
/// schedule of events does.
pub fn no_schedule_breaks_a_claim()
    ensures steps { (checked : CheckedProtocol) (mode : TheMode) (n k : ℕ)
        → IsProper checked.protocol → 1 ≤ n → n ≤ 64 → 2 ≤ k → k ≤ 64
        → EventsKeepClaims checked n → (limits : TheLimits) (schedule : List ℕ) (lines claim : ℕ)
        → (played run_play limits (run_start checked mode n k) schedule).stop
        ≢ Halted lines claim }
    ensures events { (checked : CheckedProtocol) (n : ℕ) → EventsKeepClaims checked n
        → (limits : TheLimits) (schedule : List ℕ) (lines claim : ℕ)
        → (played rv_play limits (rv_watched checked n) schedule).stop ≢ Halted lines claim }
{}

/// Where each configuration that events reach has a property, what the controllers stand for where
/// a schedule of steps ends has it too. Each front of a schedule is a schedule, so it has it all
/// along.
pub fn what_events_keep_schedules_keep<P: Property>()
    ensures { (checked : CheckedProtocol) (mode : TheMode) (n k : ℕ)
        → IsProper checked.protocol → 1 ≤ n → n ≤ 64 → 2 ≤ k → k ≤ 64
        → ((at : RvConfig) → IsReached checked.protocol n at → P.has at)
        → (limits : TheLimits) (schedule : List ℕ)
        → P.has (abstraction checked.protocol
        (played run_play limits (run_start checked mode n k) schedule).state.config) }
{}

/// The same over a network that loses, repeats and reorders: after any steps and any moves of the
/// network, and where a schedule of these ends.
pub fn what_events_keep_networks_keep<P: Property>()
    ensures items { (protocol : NumberedProtocol) (mode : TheMode) (n k : ℕ)
        → IsProper protocol → 1 ≤ n → n ≤ 64 → 2 ≤ k → k ≤ 64
        → ((at : RvConfig) → IsReached protocol n at → P.has at) → (items : List TheItem)
        → P.has (abstraction protocol
        (state_at_end lossy_play (lossy_start protocol mode n k) items).config) }
    ensures schedules { (protocol : NumberedProtocol) (mode : TheMode) (n k : ℕ)
        → IsProper protocol → 1 ≤ n → n ≤ 64 → 2 ≤ k → k ≤ 64
        → ((at : RvConfig) → IsReached protocol n at → P.has at)
        → (limits : TheLimits) (schedule : List ℕ)
        → P.has (abstraction protocol
        (played lossy_play limits (lossy_start protocol mode n k) schedule).state.config) }
{}

/// The same of each of many cache lines, whose controllers share the links: after any steps of the
/// lines, and where a schedule of these ends.
pub fn what_events_keep_each_line_keeps<P: Property>()
    ensures steps { (setting : Setting) (n lines : ℕ) → IsProper setting.protocol
        → 1 ≤ n → n ≤ 64 → 2 ≤ setting.slots → setting.slots ≤ 64
        → ((at : RvConfig) → IsReached setting.protocol n at → P.has at) → (steps : List TheStep)
        → AllByRecursion (λ (c : Config). P.has (abstraction setting.protocol c))
        (array_at_end setting (array_start setting.protocol n lines) steps).lines }
    ensures schedules { (protocol : NumberedProtocol) (mode : TheMode) (n k lines : ℕ)
        → IsProper protocol → 1 ≤ n → n ≤ 64 → 2 ≤ k → k ≤ 64
        → ((at : RvConfig) → IsReached protocol n at → P.has at)
        → (limits : TheLimits) (text : List ℕ)
        → AllByRecursion (λ (c : Config). P.has (abstraction protocol c))
        (played array_play limits (array_begin protocol mode n k lines) text).state.config.lines }
{}
