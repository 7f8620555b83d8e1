//! What the abstraction is for. These functions do nothing: their contracts are the laws.

ghost use Rattle.std.specs.Prelude.{◌≡◌, ◌≤◌, ℕ, List};
ghost use Rattle.std.specs.List.{AllByRecursion};
ghost use Rattle.proto_model.specs.Numbered.{NumberedProtocol};
ghost use Rattle.proto_model.specs.Proper.{IsProper};
ghost use Rattle.proto_model.specs.Rendezvous.{rv_start};
ghost use Rattle.async_shape.specs.Setting.{Setting};
ghost use Rattle.async_shape.specs.Config.{start};
ghost use Rattle.async_shape.specs.Run.{run};
ghost use Rattle.async_shape.specs.declared.step.Step.{Step};
ghost use Rattle.abstraction_map.specs.Abstraction.{abstraction};
ghost use Rattle.async_machine.specs.Standing.{setting, config};
ghost use Rattle.abstraction_map.specs.Meant.{IsRefined};

use async_machine::Machine;
use ordered_links::Links;

/// The start stands for the start of the rendezvous meaning, with any number of remotes.
pub fn the_start_means_the_start()
    ensures { (protocol : NumberedProtocol) (n : ℕ)
        → abstraction protocol (start protocol n) ≡ rv_start protocol n }
{}

/// Each configuration of each run from the start stands for one of the rendezvous meaning, and each
/// step there is refused, one rendezvous step, or a stutter that leaves the abstraction as it is,
/// just as it is told: for a proper protocol, either mode, from 1 to 64 remotes, from 2 to 64
/// slots, and any steps in any order.
pub fn every_run_refines()
    ensures { (setting : Setting) (n : ℕ) → IsProper setting.protocol
        → 1 ≤ n → n ≤ 64 → 2 ≤ setting.slots → setting.slots ≤ 64 → (steps : List Step)
        → AllByRecursion (IsRefined setting) (run setting (start setting.protocol n) steps) }
{}

/// The configuration in which a machine stands, and each step there, mean what is told of them.
pub fn the_machine_refines<L: Links>(machine: &Machine<L>)
    ensures { IsRefined (setting machine.now) (config L.lists machine.now) }
{
    machine.shaped();
    let _ = machine.table().home();
}
