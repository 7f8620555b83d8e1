//! Worked runs: what the definition of a step says of them, moment by moment. The moments stand
//! in `specs/`, each a whole configuration. There is nothing to run here.
#![tactic(auto, unfolding(crate::specs::HomeSteps::home_tau, crate::specs::HomeSteps::home_take, crate::specs::HomeSteps::home_send, crate::specs::HomeSteps::home_drop, crate::specs::HomeSteps::up, crate::specs::RemoteSteps::remote_tau, crate::specs::RemoteSteps::remote_send, crate::specs::RemoteSteps::remote_answer, crate::specs::RemoteSteps::remote_reply, crate::specs::RemoteSteps::down))]

ghost use Rattle.std.specs.Prelude.{◌≡◌, Some, None};
ghost use Rattle.async_shape.specs.Config.{start};
ghost use Rattle.async_shape.specs.Next.{next, displaced_sender};
ghost use Rattle.async_shape.specs.WorkedProtocols.{hold, invalidate, migratory, three, tide, lean};
ghost use Rattle.async_shape.specs.WorkedProtocols.{plain};
ghost use Rattle.async_shape.specs.WorkedCrossing.{crossing_0, crossing_1, crossing_2, crossing_3};
ghost use Rattle.async_shape.specs.WorkedCrossing.{crossing_4, crossing_5, crossing_6, crossing_7};
ghost use Rattle.async_shape.specs.WorkedCrossing.{crossing_8, crossing_9, crossing_10};
ghost use Rattle.async_shape.specs.WorkedCrossing.{crossing_11, crossing_12, crossing_13};
ghost use Rattle.async_shape.specs.WorkedCrossing.{crossing_14, crossing_15, crossing_16};
ghost use Rattle.async_shape.specs.WorkedPlain.{plain_0, plain_1, plain_2, plain_3, plain_4};
ghost use Rattle.async_shape.specs.WorkedPlain.{plain_5, plain_6, plain_7, plain_8, plain_9};
ghost use Rattle.async_shape.specs.WorkedFullSlot.{full_slot_12, full_slot_13};
ghost use Rattle.async_shape.specs.WorkedDownPair.{down_pair_13, down_pair_14, down_pair_15};
ghost use Rattle.async_shape.specs.WorkedThreeItems.{three_items_0, three_items_1, three_items_2};
ghost use Rattle.async_shape.specs.WorkedThreeItems.{three_items_3, three_items_4, three_items_5};
ghost use Rattle.async_shape.specs.WorkedThreeItems.{three_items_6, three_items_7, three_items_8};
ghost use Rattle.async_shape.specs.WorkedThreeItems.{three_items_9, three_items_10, three_items_11};
ghost use Rattle.async_shape.specs.WorkedProgressKept.{progress_kept_11, progress_kept_12};
ghost use Rattle.async_shape.specs.WorkedProgressKept.{progress_kept_13, progress_kept_14};
ghost use Rattle.async_shape.specs.WorkedProgressUsed.{progress_used_18, progress_used_19};
ghost use Rattle.async_shape.specs.WorkedProgressUsed.{progress_used_20, progress_used_21};
ghost use Rattle.async_shape.specs.WorkedProgressUsed.{progress_used_22, progress_used_23};
ghost use Rattle.async_shape.specs.WorkedProgressUsed.{progress_used_24, progress_used_25};
ghost use Rattle.async_shape.specs.WorkedProgressUsed.{progress_used_26, progress_used_27};
ghost use Rattle.async_shape.specs.WorkedProgressUsed.{progress_used_28, progress_used_29};
ghost use Rattle.async_shape.specs.WorkedHeldOfTarget.{held_of_target_0, held_of_target_1};
ghost use Rattle.async_shape.specs.WorkedHeldOfTarget.{held_of_target_2, held_of_target_4};
ghost use Rattle.async_shape.specs.WorkedHeldOfTarget.{held_of_target_5, held_of_target_6};
ghost use Rattle.async_shape.specs.WorkedHeldOfTarget.{held_of_target_7, held_of_target_8};
ghost use Rattle.async_shape.specs.WorkedDisplacement.{displacement_0, displacement_1};
ghost use Rattle.async_shape.specs.WorkedDisplacement.{displacement_2, displacement_3};
ghost use Rattle.async_shape.specs.WorkedDisplacement.{displacement_4, displacement_5};
ghost use Rattle.async_shape.specs.WorkedDisplacement.{displacement_6, displacement_7};
ghost use Rattle.async_shape.specs.WorkedDisplacement.{displacement_8, displacement_9};
ghost use Rattle.async_shape.specs.WorkedDisplacement.{displacement_10, displacement_11};

use crate::Step;

/// At the start nothing is under way.
pub fn crossing_starts()
    ensures { start migratory 2 ≡ crossing_0 }
{}

/// A request is taken, and the reply that is owed stands for its ack.
pub fn first_grant()
    ensures wants { next (lean migratory 2) crossing_0 (Step.RemoteTau 0 0) ≡ Some crossing_1 }
    ensures asks { next (lean migratory 2) crossing_1 (Step.RemoteSend 0) ≡ Some crossing_2 }
    ensures is_held { next (lean migratory 2) crossing_2 (Step.Up 0) ≡ Some crossing_3 }
    ensures is_taken { next (lean migratory 2) crossing_3 (Step.HomeTake 0) ≡ Some crossing_4 }
    ensures reply_is_paid { next (lean migratory 2) crossing_4 (Step.HomeSend 0 0)
        ≡ Some crossing_5 }
    ensures reply_completes_two { next (lean migratory 2) crossing_5 (Step.Down 0)
        ≡ Some crossing_6 }
{}

/// Another remote asks, so the home asks the owner.
pub fn second_request()
    ensures wants { next (lean migratory 2) crossing_6 (Step.RemoteTau 1 0) ≡ Some crossing_7 }
    ensures asks { next (lean migratory 2) crossing_7 (Step.RemoteSend 1) ≡ Some crossing_8 }
    ensures is_held { next (lean migratory 2) crossing_8 (Step.Up 1) ≡ Some crossing_9 }
    ensures is_taken { next (lean migratory 2) crossing_9 (Step.HomeTake 1) ≡ Some crossing_10 }
    ensures owner_is_asked { next (lean migratory 2) crossing_10 (Step.HomeSend 0 0)
        ≡ Some crossing_11 }
{}

/// The owner gives the line back meanwhile. The two requests cross: the remote drops the home's,
/// and its own is a nack to the home, which holds it and takes it.
pub fn requests_cross()
    ensures gives_back { next (lean migratory 2) crossing_11 (Step.RemoteTau 0 1)
        ≡ Some crossing_12 }
    ensures asks { next (lean migratory 2) crossing_12 (Step.RemoteSend 0) ≡ Some crossing_13 }
    ensures home_request_drops { next (lean migratory 2) crossing_13 (Step.Down 0)
        ≡ Some crossing_14 }
    ensures implicit_nack { next (lean migratory 2) crossing_14 (Step.Up 0) ≡ Some crossing_15 }
    ensures is_taken_and_acked { next (lean migratory 2) crossing_15 (Step.HomeTake 0)
        ≡ Some crossing_16 }
{}

/// There is no such remote; nothing is on the link; nothing is in the slot.
pub fn nothing_to_do()
    ensures no_such_remote { next (lean migratory 2) crossing_0 (Step.RemoteSend 5) ≡ None }
    ensures link_is_empty { next (lean migratory 2) crossing_0 (Step.Up 0) ≡ None }
    ensures slot_is_empty { next (lean migratory 2) crossing_0 (Step.RemoteAnswer 0) ≡ None }
{}

/// At the start nothing is under way.
pub fn plain_starts()
    ensures { start migratory 1 ≡ plain_0 }
{}

/// The home acks the request that it takes, and asks; the ack comes first, and the remote acks in
/// turn.
pub fn both_requests_are_acked()
    ensures wants { next (plain migratory 2) plain_0 (Step.RemoteTau 0 0) ≡ Some plain_1 }
    ensures asks { next (plain migratory 2) plain_1 (Step.RemoteSend 0) ≡ Some plain_2 }
    ensures is_held { next (plain migratory 2) plain_2 (Step.Up 0) ≡ Some plain_3 }
    ensures is_taken_and_acked { next (plain migratory 2) plain_3 (Step.HomeTake 0) ≡ Some plain_4 }
    ensures home_asks { next (plain migratory 2) plain_4 (Step.HomeSend 0 0) ≡ Some plain_5 }
    ensures ack_completes { next (plain migratory 2) plain_5 (Step.Down 0) ≡ Some plain_6 }
    ensures fills_slot { next (plain migratory 2) plain_6 (Step.Down 0) ≡ Some plain_7 }
    ensures answer_is_acked { next (plain migratory 2) plain_7 (Step.RemoteAnswer 0)
        ≡ Some plain_8 }
    ensures ack_completes_home { next (plain migratory 2) plain_8 (Step.Up 0) ≡ Some plain_9 }
{}

/// A remote that turns active with a full slot answers nothing. It empties the slot as it sends,
/// and its request is a nack to the home.
pub fn active_with_full_slot()
    ensures fills_slot { next (lean migratory 2) crossing_11 (Step.Down 0) ≡ Some full_slot_12 }
    ensures turns_active { next (lean migratory 2) full_slot_12 (Step.RemoteTau 0 1)
        ≡ Some full_slot_13 }
    ensures active_answers_nothing { next (lean migratory 2) full_slot_13 (Step.RemoteAnswer 0)
        ≡ None }
    ensures sending_empties_slot { next (lean migratory 2) full_slot_13 (Step.RemoteSend 0)
        ≡ Some crossing_14 }
    ensures implicit_nack { next (lean migratory 2) crossing_14 (Step.Up 0) ≡ Some crossing_15 }
{}

/// A remote that completes an input whose message has a reply is due, and sends the reply, which
/// completes two guards of the home.
pub fn reply_to_home()
    ensures fills_slot { next (lean migratory 2) crossing_11 (Step.Down 0) ≡ Some full_slot_12 }
    ensures answer_makes_due { next (lean migratory 2) full_slot_12 (Step.RemoteAnswer 0)
        ≡ Some down_pair_13 }
    ensures reply_is_sent { next (lean migratory 2) down_pair_13 (Step.RemoteReply 0)
        ≡ Some down_pair_14 }
    ensures reply_completes_two { next (lean migratory 2) down_pair_14 (Step.Up 0)
        ≡ Some down_pair_15 }
{}

/// At the start nothing is under way.
pub fn three_items_starts()
    ensures { start three 1 ≡ three_items_0 }
{}

/// The home's request crosses, the remote's is taken and acked, and the home asks again.
pub fn three_items_go_down()
    ensures home_asks { next (plain three 2) three_items_0 (Step.HomeSend 0 0)
        ≡ Some three_items_1 }
    ensures turns_active { next (plain three 2) three_items_1 (Step.RemoteTau 0 0)
        ≡ Some three_items_2 }
    ensures asks { next (plain three 2) three_items_2 (Step.RemoteSend 0) ≡ Some three_items_3 }
    ensures implicit_nack { next (plain three 2) three_items_3 (Step.Up 0) ≡ Some three_items_4 }
    ensures is_taken_and_acked { next (plain three 2) three_items_4 (Step.HomeTake 0)
        ≡ Some three_items_5 }
    ensures home_asks_again { next (plain three 2) three_items_5 (Step.HomeSend 0 0)
        ≡ Some three_items_6 }
{}

/// The first request drops, the ack completes the remote's output, and the second request is
/// answered.
pub fn three_items_arrive()
    ensures old_request_drops { next (plain three 2) three_items_6 (Step.Down 0)
        ≡ Some three_items_7 }
    ensures ack_completes { next (plain three 2) three_items_7 (Step.Down 0) ≡ Some three_items_8 }
    ensures fills_slot { next (plain three 2) three_items_8 (Step.Down 0) ≡ Some three_items_9 }
    ensures answer_is_acked { next (plain three 2) three_items_9 (Step.RemoteAnswer 0)
        ≡ Some three_items_10 }
    ensures ack_completes_home { next (plain three 2) three_items_10 (Step.Up 0)
        ≡ Some three_items_11 }
{}

/// A waiting home with two free slots nacks a request that completes no guard.
pub fn progress_slot_is_kept()
    ensures wants { next (lean migratory 2) progress_kept_11 (Step.RemoteTau 2 0)
        ≡ Some progress_kept_12 }
    ensures asks { next (lean migratory 2) progress_kept_12 (Step.RemoteSend 2)
        ≡ Some progress_kept_13 }
    ensures is_nacked { next (lean migratory 2) progress_kept_13 (Step.Up 2)
        ≡ Some progress_kept_14 }
{}

/// A request is taken by the second input that is open, and the home asks the first reader.
pub fn writer_asks()
    ensures wants { next (lean invalidate 2) progress_used_18 (Step.RemoteTau 3 1)
        ≡ Some progress_used_19 }
    ensures asks { next (lean invalidate 2) progress_used_19 (Step.RemoteSend 3)
        ≡ Some progress_used_20 }
    ensures is_held { next (lean invalidate 2) progress_used_20 (Step.Up 3)
        ≡ Some progress_used_21 }
    ensures is_taken { next (lean invalidate 2) progress_used_21 (Step.HomeTake 3)
        ≡ Some progress_used_22 }
    ensures reader_is_asked { next (lean invalidate 2) progress_used_22 (Step.HomeSend 0 0)
        ≡ Some progress_used_23 }
{}

/// A waiting home keeps a request that completes a guard where one slot is free besides the one
/// that it keeps back, and nacks the next one.
pub fn progress_slot_is_used()
    ensures one_gives_up { next (lean invalidate 2) progress_used_23 (Step.RemoteTau 1 0)
        ≡ Some progress_used_24 }
    ensures one_asks { next (lean invalidate 2) progress_used_24 (Step.RemoteSend 1)
        ≡ Some progress_used_25 }
    ensures one_is_held { next (lean invalidate 2) progress_used_25 (Step.Up 1)
        ≡ Some progress_used_26 }
    ensures other_gives_up { next (lean invalidate 2) progress_used_26 (Step.RemoteTau 2 0)
        ≡ Some progress_used_27 }
    ensures other_asks { next (lean invalidate 2) progress_used_27 (Step.RemoteSend 2)
        ≡ Some progress_used_28 }
    ensures other_is_nacked { next (lean invalidate 2) progress_used_28 (Step.Up 2)
        ≡ Some progress_used_29 }
{}

/// At the start nothing is under way.
pub fn held_of_target_starts()
    ensures { start hold 2 ≡ held_of_target_0 }
{}

/// The home asks no remote whose request it holds. It drops that request first; the nack comes
/// before its own.
pub fn target_is_held()
    ensures asks { next (plain hold 3) held_of_target_0 (Step.RemoteSend 0)
        ≡ Some held_of_target_1 }
    ensures is_held { next (plain hold 3) held_of_target_1 (Step.Up 0) ≡ Some held_of_target_2 }
    ensures target_is_not_asked { next (plain hold 3) held_of_target_2 (Step.HomeSend 0 0) ≡ None }
    ensures is_dropped { next (plain hold 3) held_of_target_2 (Step.HomeDrop 0)
        ≡ Some held_of_target_4 }
    ensures home_asks { next (plain hold 3) held_of_target_4 (Step.HomeSend 0 0)
        ≡ Some held_of_target_5 }
{}

/// The nack brings the remote back, and the request fills its slot. It asks again all the same,
/// and its request is a nack to the home.
pub fn nack_then_request()
    ensures nack_brings_back { next (plain hold 3) held_of_target_5 (Step.Down 0)
        ≡ Some held_of_target_6 }
    ensures fills_slot { next (plain hold 3) held_of_target_6 (Step.Down 0)
        ≡ Some held_of_target_7 }
    ensures sending_empties_slot { next (plain hold 3) held_of_target_7 (Step.RemoteSend 0)
        ≡ Some held_of_target_8 }
    ensures implicit_nack { next (plain hold 3) held_of_target_8 (Step.Up 0)
        ≡ Some held_of_target_2 }
{}

/// With two slots the home asks nobody while it holds a request, and drops the request all the
/// same.
pub fn target_is_held_of_two()
    ensures target_is_not_asked { next (plain hold 2) held_of_target_2 (Step.HomeSend 0 0) ≡ None }
    ensures is_dropped { next (plain hold 2) held_of_target_2 (Step.HomeDrop 0)
        ≡ Some held_of_target_4 }
{}

/// At the start nothing is under way.
pub fn displacement_starts()
    ensures { start tide 3 ≡ displacement_0 }
{}

/// The home holds two requests, and by a local step can use neither.
pub fn home_fills()
    ensures one_wants { next (plain tide 2) displacement_0 (Step.RemoteTau 0 0)
        ≡ Some displacement_1 }
    ensures one_asks { next (plain tide 2) displacement_1 (Step.RemoteSend 0)
        ≡ Some displacement_2 }
    ensures one_is_held { next (plain tide 2) displacement_2 (Step.Up 0) ≡ Some displacement_3 }
    ensures other_wants { next (plain tide 2) displacement_3 (Step.RemoteTau 1 0)
        ≡ Some displacement_4 }
    ensures other_asks { next (plain tide 2) displacement_4 (Step.RemoteSend 1)
        ≡ Some displacement_5 }
    ensures other_is_held { next (plain tide 2) displacement_5 (Step.Up 1) ≡ Some displacement_6 }
    ensures none_is_displaced { displaced_sender (plain tide 2) displacement_5 (Step.Up 1) ≡ None }
    ensures turns { next (plain tide 2) displacement_6 (Step.HomeTau 1) ≡ Some displacement_7 }
{}

/// A request that it can use displaces the last one, which is nacked, and is taken.
pub fn last_is_displaced()
    ensures wants { next (plain tide 2) displacement_7 (Step.RemoteTau 2 1) ≡ Some displacement_8 }
    ensures asks { next (plain tide 2) displacement_8 (Step.RemoteSend 2) ≡ Some displacement_9 }
    ensures displaces_last { next (plain tide 2) displacement_9 (Step.Up 2) ≡ Some displacement_10 }
    ensures last_was_of_another { displaced_sender (plain tide 2) displacement_9 (Step.Up 2)
        ≡ Some 1 }
    ensures is_taken { next (plain tide 2) displacement_10 (Step.HomeTake 2)
        ≡ Some displacement_11 }
{}
