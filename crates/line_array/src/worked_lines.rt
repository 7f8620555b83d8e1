//! Worked runs of arrays: what the definition of a step says of them. There is nothing to run here.
#![tactic(auto, unfolding(async_shape::specs::HomeSteps::home_tau, async_shape::specs::HomeSteps::home_take, async_shape::specs::HomeSteps::home_send, async_shape::specs::HomeSteps::home_drop, async_shape::specs::HomeSteps::up, async_shape::specs::RemoteSteps::remote_tau, async_shape::specs::RemoteSteps::remote_send, async_shape::specs::RemoteSteps::remote_answer, async_shape::specs::RemoteSteps::remote_reply, async_shape::specs::RemoteSteps::down))]

ghost use Rattle.std.specs.Prelude.{◌≡◌, [], ◌∷◌, Some, None};
ghost use Rattle.async_shape.specs.WorkedProtocols.{migratory, tide, lean, plain};
ghost use Rattle.line_array.specs.ArrayConfig.{array_start};
ghost use Rattle.line_array.specs.ArrayNext.{meant, next_array, array_at_end};
ghost use Rattle.line_array.specs.WorkedLines.{both_ask, one_comes, both_come};
ghost use Rattle.line_array.specs.WorkedLines.{full_line, displaced_line};

use crate::LineStep;
use async_shape::Step;

/// Who asks first is heard first, whatever the numbers of the lines; where nothing is under way,
/// nothing is delivered. `At` delivers nothing, and names a line that is there.
pub fn first_request_is_first_delivered()
    ensures first { meant (array_at_end (lean migratory 2) (array_start migratory 1 2) both_ask)
        (LineStep.Up 0) ≡ Some (1, Step.Up 0) }
    ensures second { meant (array_at_end (lean migratory 2) (array_start migratory 1 2) one_comes)
        (LineStep.Up 0) ≡ Some (0, Step.Up 0) }
    ensures no_third { meant (array_at_end (lean migratory 2) (array_start migratory 1 2) both_come)
        (LineStep.Up 0) ≡ None }
    ensures not_down { meant (array_at_end (lean migratory 2) (array_start migratory 1 2) both_ask)
        (LineStep.Down 0) ≡ None }
    ensures no_remote { meant (array_at_end (lean migratory 2) (array_start migratory 1 2) both_ask)
        (LineStep.Up 1) ≡ None }
    ensures no_delivery_at { meant (array_at_end (lean migratory 2) (array_start migratory 1 2)
        both_ask) (LineStep.At 1 (Step.Up 0)) ≡ None }
    ensures no_line { meant (array_at_end (lean migratory 2) (array_start migratory 1 2) both_ask)
        (LineStep.At 2 (Step.HomeTake 0)) ≡ None }
{}

/// The nack of a request that is displaced goes on the shared link down to its own sender.
pub fn displaced_request_is_nacked_on_its_own_link()
    ensures { next_array (plain tide 2) full_line (LineStep.Up 2) ≡ Some displaced_line }
{}
