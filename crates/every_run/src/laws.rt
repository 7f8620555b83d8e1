//! From events to interleavings. These functions do nothing: their contracts are the laws. Each
//! speaks of every run of the controllers from the start: for a proper protocol, either mode, from 1
//! to 64 remotes, from 2 to 64 slots, and any steps in any order, among them steps that aren't
//! enabled, which change nothing.

ghost use Rattle.std.specs.Prelude.{◌≡◌, ◌≤◌, ℕ, false, List};
ghost use Rattle.std.specs.List.{AllByRecursion};
ghost use Rattle.proto_model.specs.Proper.{IsProper};
ghost use Rattle.proto_model.specs.Rendezvous.{RvStep, rv_start};
ghost use Rattle.proto_model.specs.declared.rendezvous.Event.{Event};
ghost use Rattle.proto_model.specs.declared.rendezvous.RvConfig.{RvConfig};
ghost use Rattle.event_runs.specs.Reached.{Leads, IsReached, TakesPlace};
ghost use Rattle.async_shape.specs.Setting.{Setting};
ghost use Rattle.async_shape.specs.Config.{Config, start};
ghost use Rattle.async_shape.specs.Run.{run, after_step, config_at_end};
ghost use Rattle.async_shape.specs.declared.step.Step.{Step};
ghost use Rattle.abstraction_map.specs.Abstraction.{abstraction};
ghost use Rattle.abstraction_map.specs.Told.{told};
ghost use Rattle.abstraction_map.specs.declared.told.Told.TheVariants as told_as;
ghost use Rattle.drive_report.specs.Drive.{drive_run};
ghost use Rattle.every_run.specs.ToldEvents.{told_events, SomeStep};

use event_runs::Property;

/// The events that are told along a run lead from the start of the rendezvous meaning to what the
/// last configuration stands for.
pub fn events_lead_where_interleavings_mean()
    ensures { (setting : Setting) (n : ℕ) → IsProper setting.protocol
        → 1 ≤ n → n ≤ 64 → 2 ≤ setting.slots → setting.slots ≤ 64 → (steps : List Step)
        → Leads setting.protocol (told_events setting (start setting.protocol n) steps)
        (rv_start setting.protocol n)
        (abstraction setting.protocol
        (config_at_end setting (start setting.protocol n) steps)) }
{}

/// Events reach what each configuration of a run stands for.
pub fn interleavings_reach_nothing_new()
    ensures { (setting : Setting) (n : ℕ) → IsProper setting.protocol
        → 1 ≤ n → n ≤ 64 → 2 ≤ setting.slots → setting.slots ≤ 64 → (steps : List Step)
        → AllByRecursion
        (λ (c : Config). IsReached setting.protocol n (abstraction setting.protocol c))
        (run setting (start setting.protocol n) steps) }
{}

/// An event that is told of a step in a configuration of a run takes place there: it leads from what
/// this configuration stands for to what the next one does.
pub fn interleavings_report_no_other_events()
    ensures { (setting : Setting) (n : ℕ) → IsProper setting.protocol
        → 1 ≤ n → n ≤ 64 → 2 ≤ setting.slots → setting.slots ≤ 64 → (steps : List Step)
        → AllByRecursion
        (λ (c : Config). (s : Step) (e : Event) → told setting c s ≡ told_as.Is e
        → RvStep setting.protocol (abstraction setting.protocol c) e
        (abstraction setting.protocol (after_step setting c s)))
        (run setting (start setting.protocol n) steps) }
{}

/// What no event can break, no interleaving can: where each configuration that events reach has a
/// property, what each configuration of a run stands for has it too.
pub fn what_events_keep_interleavings_keep<P: Property>()
    ensures { (setting : Setting) (n : ℕ) → IsProper setting.protocol
        → 1 ≤ n → n ≤ 64 → 2 ≤ setting.slots → setting.slots ≤ 64
        → ((at : RvConfig) → IsReached setting.protocol n at → P.has at) → (steps : List Step)
        → AllByRecursion (λ (c : Config). P.has (abstraction setting.protocol c))
        (run setting (start setting.protocol n) steps) }
{}

/// Where some event takes place in each configuration that events reach, some step is enabled in
/// each configuration of a run.
pub fn never_stuck()
    ensures { (setting : Setting) (n : ℕ) → IsProper setting.protocol
        → 1 ≤ n → n ≤ 64 → 2 ≤ setting.slots → setting.slots ≤ 64
        → ((at : RvConfig) → IsReached setting.protocol n at → TakesPlace setting.protocol at)
        → (steps : List Step)
        → AllByRecursion (SomeStep setting) (run setting (start setting.protocol n) steps) }
{}

/// Where some event takes place in each configuration that events reach, a run that a number chooses
/// doesn't stop before its last turn.
pub fn driven_runs_never_stop()
    ensures { (setting : Setting) (n : ℕ) → IsProper setting.protocol
        → 1 ≤ n → n ≤ 64 → 2 ≤ setting.slots → setting.slots ≤ 64
        → ((at : RvConfig) → IsReached setting.protocol n at → TakesPlace setting.protocol at)
        → (turns seed : ℕ) → (drive_run setting n turns seed).stopped ≡ false }
{}
