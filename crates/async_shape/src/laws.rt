//! Laws of the definitions. These functions do nothing: their contracts are the laws.

ghost use Rattle.std.specs.Prelude.{◌≡◌, ◌≤◌, ℕ, List, Some};
ghost use Rattle.std.specs.List.{AllByRecursion};
ghost use Rattle.proto_model.specs.Proper.{IsProper};
ghost use Rattle.controller_table.specs.Rows.{home_rows, remote_rows};
ghost use Rattle.async_shape.specs.Setting.{Setting};
ghost use Rattle.async_shape.specs.Config.{Config, start};
ghost use Rattle.async_shape.specs.Next.{next};
ghost use Rattle.async_shape.specs.Run.{run};
ghost use Rattle.async_shape.specs.Fired.{ByRow};
ghost use Rattle.async_shape.specs.Bounded.{IsBounded};
ghost use Rattle.async_shape.specs.Admitting.{IsAdmitting};
ghost use Rattle.async_shape.specs.Shape.{IsShaped};
ghost use Rattle.async_shape.specs.declared.step.Step.{Step};

/// Each configuration of each run from the start has the shape: for a proper protocol, either mode,
/// from 1 to 64 remotes, from 2 to 64 slots, and any steps in any order.
pub fn every_run_is_shaped()
    ensures { (setting : Setting) (n : ℕ) → IsProper setting.protocol
        → 1 ≤ n → n ≤ 64 → 2 ≤ setting.slots → setting.slots ≤ 64 → (steps : List Step)
        → AllByRecursion (IsShaped setting) (run setting (start setting.protocol n) steps) }
{}

/// Each configuration of each such run is bounded: at most k requests are held, and at most k - 1
/// while the home waits; at most 2 packets are on an up link and 3 on a down link; and what arrives
/// next is expected where it arrives. So is each configuration that has the shape, as that of a
/// machine has.
pub fn every_run_is_bounded()
    ensures shaped { (setting : Setting) (c : Config) → IsProper setting.protocol
        → IsShaped setting c → IsBounded setting c }
    ensures runs { (setting : Setting) (n : ℕ) → IsProper setting.protocol
        → 1 ≤ n → n ≤ 64 → 2 ≤ setting.slots → setting.slots ≤ 64 → (steps : List Step)
        → AllByRecursion (IsBounded setting) (run setting (start setting.protocol n) steps) }
{}

/// In each configuration of each such run a request that arrives is nacked although it completes a
/// guard only where the slots are full and some held request completes one; and a request that is
/// dropped or displaced completes none. So it is in each configuration that has the shape.
pub fn every_run_admits_what_is_useful()
    ensures shaped { (setting : Setting) (c : Config) → IsShaped setting c → IsAdmitting setting c }
    ensures runs { (setting : Setting) (n : ℕ) → IsProper setting.protocol
        → 1 ≤ n → n ≤ 64 → 2 ≤ setting.slots → setting.slots ≤ 64 → (steps : List Step)
        → AllByRecursion (IsAdmitting setting) (run setting (start setting.protocol n) steps) }
{}

/// Each step of each such run is explained by one row of the two controllers of the protocol, or
/// fires none and leaves each process where it is. So is each step from a configuration that has
/// the shape.
pub fn every_step_is_by_a_row()
    ensures shaped { (setting : Setting) (c d : Config) (s : Step) → IsProper setting.protocol
        → IsShaped setting c → next setting c s ≡ Some d
        → ByRow setting c d s (home_rows setting.protocol setting.mode)
        (remote_rows setting.protocol setting.mode) }
    ensures runs { (setting : Setting) (n : ℕ) → IsProper setting.protocol
        → 1 ≤ n → n ≤ 64 → 2 ≤ setting.slots → setting.slots ≤ 64 → (steps : List Step)
        → AllByRecursion (λ (c : Config). (s : Step) (d : Config) → next setting c s ≡ Some d
        → ByRow setting c d s (home_rows setting.protocol setting.mode)
        (remote_rows setting.protocol setting.mode))
        (run setting (start setting.protocol n) steps) }
{}
