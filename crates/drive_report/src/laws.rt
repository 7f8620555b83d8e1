//! What the ready list is for. These functions do nothing: their contracts are the laws.

ghost use Rattle.std.specs.Prelude.{◌≡◌, ◌↔◌, ◌≤◌, ℕ, true, false, List, []};
ghost use Rattle.std.specs.List.{AllByRecursion, Contains};
ghost use Rattle.proto_model.specs.Proper.{IsProper};
ghost use Rattle.controller_table.specs.Sound.{protocol_of};
ghost use Rattle.async_shape.specs.Setting.{Setting};
ghost use Rattle.async_shape.specs.Config.{Config, start};
ghost use Rattle.async_shape.specs.Next.{is_enabled};
ghost use Rattle.async_shape.specs.Run.{run};
ghost use Rattle.async_shape.specs.Shape.{IsShaped};
ghost use Rattle.async_shape.specs.declared.step.Step.{Step};
ghost use Rattle.async_machine.specs.Standing as standing;
ghost use Rattle.abstraction_map.specs.Abstraction.{abstraction};
ghost use Rattle.drive_report.specs.Drive.{drive_run};
ghost use Rattle.drive_report.specs.Ready.{ready_list, IsStill};
ghost use Rattle.async_shape.specs.Run.{config_at_end};

use async_machine::Machine;
use ordered_links::Links;

/// Where no step is enabled, no event takes place either in what the configuration stands for: the
/// machine adds no deadlock. This holds of each configuration that has the shape, and so of each
/// configuration of each run from the start, for a proper protocol, either mode, from 1 to 64
/// remotes, from 2 to 64 slots, and any steps in any order.
pub fn no_new_deadlock()
    ensures shaped { (setting : Setting) (c : Config) → IsProper setting.protocol
        → IsShaped setting c → ready_list setting c ≡ []
        → IsStill setting.protocol (abstraction setting.protocol c) }
    ensures runs { (setting : Setting) (n : ℕ) → IsProper setting.protocol
        → 1 ≤ n → n ≤ 64 → 2 ≤ setting.slots → setting.slots ≤ 64 → (steps : List Step)
        → AllByRecursion (λ (c : Config). ready_list setting c ≡ []
        → IsStill setting.protocol (abstraction setting.protocol c))
        (run setting (start setting.protocol n) steps) }
{}

/// The ready list has exactly the enabled steps. Each step in it is enabled. For a proper protocol
/// each enabled step is in it, whatever its numbers: none is enabled that names a remote which
/// isn't there, or a guard which a state can't have. So it is empty exactly where no step is
/// enabled. This holds of every configuration, and so of each that has the shape.
pub fn ready_is_what_is_enabled()
    ensures enabled { (setting : Setting) (c : Config) (s : Step)
        → Contains (ready_list setting c) s → is_enabled setting c s ≡ true }
    ensures all { (setting : Setting) (c : Config) (s : Step) → IsProper setting.protocol
        → is_enabled setting c s ≡ true → Contains (ready_list setting c) s }
    ensures none { (setting : Setting) (c : Config) → IsProper setting.protocol
        → ((ready_list setting c ≡ []) ↔ ((s : Step) → is_enabled setting c s ≡ false)) }
{}

/// The same of the configuration in which a machine stands.
pub fn no_new_deadlock_of<L: Links>(machine: &Machine<L>)
    ensures { ready_list (standing.setting machine.now) (standing.config L.lists machine.now) ≡ []
        → IsStill (protocol_of machine.now.table)
        (abstraction (protocol_of machine.now.table) (standing.config L.lists machine.now)) }
{
    machine.shaped();
    let _ = machine.table().home();
}

/// A run that a number chooses stops before its last turn only where no event takes place in what
/// its last configuration stands for.
pub fn stopped_is_still()
    ensures { (setting : Setting) (n : ℕ) → IsProper setting.protocol
        → 1 ≤ n → n ≤ 64 → 2 ≤ setting.slots → setting.slots ≤ 64 → (turns seed : ℕ)
        → (drive_run setting n turns seed).stopped ≡ true → IsStill setting.protocol
        (abstraction setting.protocol (config_at_end setting (start setting.protocol n)
        (drive_run setting n turns seed).steps)) }
{}
