//! Laws of the definitions. These functions do nothing: their contracts are the laws.

ghost use Rattle.std.specs.Prelude.{◌≡◌, ℕ, ◌<◌, ◌≤◌, List, Some, slice_get};
ghost use Rattle.proto_model.specs.Proper.{IsProper};
ghost use Rattle.ordered_links.specs.Link.{Link};
ghost use Rattle.async_shape.specs.Setting.{Setting};
ghost use Rattle.async_shape.specs.Config.{start};
ghost use Rattle.async_shape.specs.Run.{config_at_end};
ghost use Rattle.line_array.specs.ArrayConfig.{ArrayConfig, array_start};
ghost use Rattle.line_array.specs.ArrayNext.{array_at_end, steps_meant};
ghost use Rattle.line_array.specs.Carried.{puts_over, takes_over, IsInOrder};
ghost use Rattle.line_array.specs.InStep.{IsSharing, IsInStep};
ghost use Rattle.line_array.specs.declared.line_step.LineStep.{LineStep};

/// After any steps of an array, from the start with n remotes and so many lines, each line stands
/// where its own controllers stand after the steps that were meant for it, from their start: each
/// line runs as if it were alone.
pub fn each_line_runs_alone()
    ensures { (setting : Setting) (n lines : ℕ) (steps : List LineStep) (a : ℕ) → a < lines
        → slice_get (array_at_end setting (array_start setting.protocol n lines) steps).lines a
        ≡ Some (config_at_end setting (start setting.protocol n)
        (steps_meant setting a (array_start setting.protocol n lines) steps)) }
{}

/// After any steps of an array, from the start, for a proper protocol, either mode, from 1 to 64
/// remotes, from 2 to 64 slots, and any number of lines: in each shared list the number of entries
/// of a line is the length of this line's own link; a shared up list is at most twice as long as
/// there are lines, and a shared down list three times; and where something is under way on a
/// shared link, its delivery is enabled. So it is wherever an array stands.
pub fn shared_lists_are_in_step()
    ensures sharing { (setting : Setting) (c : ArrayConfig) → IsSharing setting c
        → IsInStep setting c }
    ensures runs { (setting : Setting) (n lines : ℕ) → IsProper setting.protocol
        → 1 ≤ n → n ≤ 64 → 2 ≤ setting.slots → setting.slots ≤ 64 → (steps : List LineStep)
        → IsInStep setting (array_at_end setting (array_start setting.protocol n lines) steps) }
{}

/// After any such steps, of the packets that were put on a shared link, by any lines, the first
/// were delivered, in the order of the puts, and the others are under way, in this order.
pub fn deliveries_keep_the_order_of_puts()
    ensures { (setting : Setting) (n lines : ℕ) → IsProper setting.protocol
        → 1 ≤ n → n ≤ 64 → 2 ≤ setting.slots → setting.slots ≤ 64 → (steps : List LineStep)
        → (link : Link) → IsInOrder
        (array_at_end setting (array_start setting.protocol n lines) steps) link
        (puts_over setting link (array_start setting.protocol n lines) steps)
        (takes_over setting link (array_start setting.protocol n lines) steps) }
{}
