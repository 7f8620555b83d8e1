//! The laws. These functions do nothing: their contracts are the laws. Those that speak of runs
//! speak of every run of the controllers from the start: for a proper protocol, either mode, from 1
//! to 64 remotes, from 2 to 64 slots, and any steps in any order.

ghost use Rattle.std.specs.Prelude.{◌≡◌, ◌≤◌, ◌↔◌, ℕ, true, List};
ghost use Rattle.std.specs.List.{AllByRecursion};
ghost use Rattle.proto_model.specs.Numbered.{NumberedProtocol};
ghost use Rattle.proto_model.specs.Proper.{IsProper};
ghost use Rattle.proto_model.specs.declared.rendezvous.Event.{Event};
ghost use Rattle.proto_model.specs.declared.rendezvous.RvConfig.{RvConfig};
ghost use Rattle.async_shape.specs.Setting.{Setting};
ghost use Rattle.async_shape.specs.Config.{Config, start};
ghost use Rattle.async_shape.specs.Run.{run};
ghost use Rattle.async_shape.specs.declared.step.Step.{Step};
ghost use Rattle.abstraction_map.specs.Abstraction.{abstraction};
ghost use Rattle.abstraction_map.specs.Told.{told};
ghost use Rattle.abstraction_map.specs.declared.told.Told.TheVariants as told_as;
ghost use Rattle.both_ways.specs.Carried.{Carried, carried};

/// Whether an event is carried is computed.
pub fn carried_is_computed()
    ensures { (protocol : NumberedProtocol) (c : RvConfig) (e : Event)
        → ((carried protocol c e ≡ true) ↔ Carried protocol c e) }
{}

/// Each event that is told of a step in a configuration of a run is carried in what the
/// configuration stands for.
pub fn what_is_told_is_carried()
    ensures { (setting : Setting) (n : ℕ) → IsProper setting.protocol
        → 1 ≤ n → n ≤ 64 → 2 ≤ setting.slots → setting.slots ≤ 64 → (steps : List Step)
        → AllByRecursion
        (λ (c : Config). (s : Step) (e : Event) → told setting c s ≡ told_as.Is e
        → Carried setting.protocol (abstraction setting.protocol c) e)
        (run setting (start setting.protocol n) steps) }
{}
