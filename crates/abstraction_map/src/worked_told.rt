//! Worked runs: what is told of each step. There is nothing to run here.
#![tactic(auto, unfolding(async_shape::specs::HomeSteps::home_tau, async_shape::specs::HomeSteps::home_take, async_shape::specs::HomeSteps::home_send, async_shape::specs::HomeSteps::home_drop, async_shape::specs::HomeSteps::up, async_shape::specs::RemoteSteps::remote_tau, async_shape::specs::RemoteSteps::remote_send, async_shape::specs::RemoteSteps::remote_answer, async_shape::specs::RemoteSteps::remote_reply, async_shape::specs::RemoteSteps::down))]

ghost use Rattle.std.specs.Prelude.{◌≡◌};
ghost use Rattle.async_shape.specs.WorkedProtocols.{hold, invalidate, migratory, three, tide, lean};
ghost use Rattle.async_shape.specs.WorkedProtocols.{plain};
ghost use Rattle.async_shape.specs.WorkedCrossing.{crossing_0, crossing_1, crossing_2, crossing_3};
ghost use Rattle.async_shape.specs.WorkedCrossing.{crossing_4, crossing_5, crossing_6, crossing_7};
ghost use Rattle.async_shape.specs.WorkedCrossing.{crossing_8, crossing_9, crossing_10};
ghost use Rattle.async_shape.specs.WorkedCrossing.{crossing_11, crossing_12, crossing_13};
ghost use Rattle.async_shape.specs.WorkedCrossing.{crossing_14, crossing_15};
ghost use Rattle.async_shape.specs.WorkedPlain.{plain_0, plain_1, plain_2, plain_3, plain_4};
ghost use Rattle.async_shape.specs.WorkedPlain.{plain_5, plain_6, plain_7, plain_8};
ghost use Rattle.async_shape.specs.WorkedFullSlot.{full_slot_12, full_slot_13};
ghost use Rattle.async_shape.specs.WorkedDownPair.{down_pair_13, down_pair_14};
ghost use Rattle.async_shape.specs.WorkedThreeItems.{three_items_0, three_items_1, three_items_2};
ghost use Rattle.async_shape.specs.WorkedThreeItems.{three_items_3, three_items_4, three_items_5};
ghost use Rattle.async_shape.specs.WorkedThreeItems.{three_items_6, three_items_7, three_items_8};
ghost use Rattle.async_shape.specs.WorkedThreeItems.{three_items_9, three_items_10};
ghost use Rattle.async_shape.specs.WorkedProgressKept.{progress_kept_11, progress_kept_12};
ghost use Rattle.async_shape.specs.WorkedProgressKept.{progress_kept_13};
ghost use Rattle.async_shape.specs.WorkedProgressUsed.{progress_used_18, progress_used_19};
ghost use Rattle.async_shape.specs.WorkedProgressUsed.{progress_used_20, progress_used_21};
ghost use Rattle.async_shape.specs.WorkedProgressUsed.{progress_used_22, progress_used_23};
ghost use Rattle.async_shape.specs.WorkedProgressUsed.{progress_used_24, progress_used_25};
ghost use Rattle.async_shape.specs.WorkedProgressUsed.{progress_used_26, progress_used_27};
ghost use Rattle.async_shape.specs.WorkedProgressUsed.{progress_used_28};
ghost use Rattle.async_shape.specs.WorkedHeldOfTarget.{held_of_target_0, held_of_target_1};
ghost use Rattle.async_shape.specs.WorkedHeldOfTarget.{held_of_target_2, held_of_target_4};
ghost use Rattle.async_shape.specs.WorkedHeldOfTarget.{held_of_target_5, held_of_target_6};
ghost use Rattle.async_shape.specs.WorkedHeldOfTarget.{held_of_target_7, held_of_target_8};
ghost use Rattle.async_shape.specs.WorkedDisplacement.{displacement_0, displacement_1};
ghost use Rattle.async_shape.specs.WorkedDisplacement.{displacement_2, displacement_3};
ghost use Rattle.async_shape.specs.WorkedDisplacement.{displacement_4, displacement_5};
ghost use Rattle.async_shape.specs.WorkedDisplacement.{displacement_6, displacement_7};
ghost use Rattle.async_shape.specs.WorkedDisplacement.{displacement_8, displacement_9};
ghost use Rattle.async_shape.specs.WorkedDisplacement.{displacement_10};
ghost use Rattle.abstraction_map.specs.Told.{told};

use crate::Told;
use async_shape::Step;
use proto_model::Event;

/// A request is taken, and the reply that is owed stands for its ack.
pub fn first_grant_told()
    ensures wants { told (lean migratory 2) crossing_0 (Step.RemoteTau 0 0)
        ≡ Told.Is (Event.TauRemote 0 0) }
    ensures asks { told (lean migratory 2) crossing_1 (Step.RemoteSend 0) ≡ Told.Stutter }
    ensures is_held { told (lean migratory 2) crossing_2 (Step.Up 0) ≡ Told.Stutter }
    ensures is_taken { told (lean migratory 2) crossing_3 (Step.HomeTake 0)
        ≡ Told.Is (Event.Up 0 0 0) }
    ensures reply_is_paid { told (lean migratory 2) crossing_4 (Step.HomeSend 0 0)
        ≡ Told.Is (Event.Down 0 0 0) }
    ensures reply_completes_two { told (lean migratory 2) crossing_5 (Step.Down 0) ≡ Told.Stutter }
{}

/// Another remote asks, so the home asks the owner.
pub fn second_request_told()
    ensures wants { told (lean migratory 2) crossing_6 (Step.RemoteTau 1 0)
        ≡ Told.Is (Event.TauRemote 1 0) }
    ensures asks { told (lean migratory 2) crossing_7 (Step.RemoteSend 1) ≡ Told.Stutter }
    ensures is_held { told (lean migratory 2) crossing_8 (Step.Up 1) ≡ Told.Stutter }
    ensures is_taken { told (lean migratory 2) crossing_9 (Step.HomeTake 1)
        ≡ Told.Is (Event.Up 1 0 0) }
    ensures owner_is_asked { told (lean migratory 2) crossing_10 (Step.HomeSend 0 0)
        ≡ Told.Stutter }
{}

/// The owner gives the line back meanwhile. The two requests cross: the remote drops the home's,
/// and its own is a nack to the home, which holds it and takes it.
pub fn requests_cross_told()
    ensures gives_back { told (lean migratory 2) crossing_11 (Step.RemoteTau 0 1)
        ≡ Told.Is (Event.TauRemote 0 1) }
    ensures asks { told (lean migratory 2) crossing_12 (Step.RemoteSend 0) ≡ Told.Stutter }
    ensures home_request_drops { told (lean migratory 2) crossing_13 (Step.Down 0) ≡ Told.Stutter }
    ensures implicit_nack { told (lean migratory 2) crossing_14 (Step.Up 0) ≡ Told.Stutter }
    ensures is_taken_and_acked { told (lean migratory 2) crossing_15 (Step.HomeTake 0)
        ≡ Told.Is (Event.Up 0 1 0) }
{}

/// There is no such remote; nothing is on the link; nothing is in the slot.
pub fn nothing_to_do_told()
    ensures no_such_remote { told (lean migratory 2) crossing_0 (Step.RemoteSend 5) ≡ Told.Refused }
    ensures link_is_empty { told (lean migratory 2) crossing_0 (Step.Up 0) ≡ Told.Refused }
    ensures slot_is_empty { told (lean migratory 2) crossing_0 (Step.RemoteAnswer 0)
        ≡ Told.Refused }
{}

/// The home acks the request that it takes, and asks; the ack comes first, and the remote acks in
/// turn.
pub fn both_requests_are_acked_told()
    ensures wants { told (plain migratory 2) plain_0 (Step.RemoteTau 0 0)
        ≡ Told.Is (Event.TauRemote 0 0) }
    ensures asks { told (plain migratory 2) plain_1 (Step.RemoteSend 0) ≡ Told.Stutter }
    ensures is_held { told (plain migratory 2) plain_2 (Step.Up 0) ≡ Told.Stutter }
    ensures is_taken_and_acked { told (plain migratory 2) plain_3 (Step.HomeTake 0)
        ≡ Told.Is (Event.Up 0 0 0) }
    ensures home_asks { told (plain migratory 2) plain_4 (Step.HomeSend 0 0) ≡ Told.Stutter }
    ensures ack_completes { told (plain migratory 2) plain_5 (Step.Down 0) ≡ Told.Stutter }
    ensures fills_slot { told (plain migratory 2) plain_6 (Step.Down 0) ≡ Told.Stutter }
    ensures answer_is_acked { told (plain migratory 2) plain_7 (Step.RemoteAnswer 0)
        ≡ Told.Is (Event.Down 0 0 0) }
    ensures ack_completes_home { told (plain migratory 2) plain_8 (Step.Up 0) ≡ Told.Stutter }
{}

/// A remote that turns active with a full slot answers nothing. It empties the slot as it sends,
/// and its request is a nack to the home.
pub fn active_with_full_slot_told()
    ensures fills_slot { told (lean migratory 2) crossing_11 (Step.Down 0) ≡ Told.Stutter }
    ensures turns_active { told (lean migratory 2) full_slot_12 (Step.RemoteTau 0 1)
        ≡ Told.Is (Event.TauRemote 0 1) }
    ensures active_answers_nothing { told (lean migratory 2) full_slot_13 (Step.RemoteAnswer 0)
        ≡ Told.Refused }
    ensures sending_empties_slot { told (lean migratory 2) full_slot_13 (Step.RemoteSend 0)
        ≡ Told.Stutter }
    ensures implicit_nack { told (lean migratory 2) crossing_14 (Step.Up 0) ≡ Told.Stutter }
{}

/// A remote that completes an input whose message has a reply is due, and sends the reply, which
/// completes two guards of the home.
pub fn reply_to_home_told()
    ensures fills_slot { told (lean migratory 2) crossing_11 (Step.Down 0) ≡ Told.Stutter }
    ensures answer_makes_due { told (lean migratory 2) full_slot_12 (Step.RemoteAnswer 0)
        ≡ Told.Is (Event.Down 0 0 2) }
    ensures reply_is_sent { told (lean migratory 2) down_pair_13 (Step.RemoteReply 0)
        ≡ Told.Is (Event.Up 0 0 0) }
    ensures reply_completes_two { told (lean migratory 2) down_pair_14 (Step.Up 0) ≡ Told.Stutter }
{}

/// The home's request crosses, the remote's is taken and acked, and the home asks again.
pub fn three_items_go_down_told()
    ensures home_asks { told (plain three 2) three_items_0 (Step.HomeSend 0 0) ≡ Told.Stutter }
    ensures turns_active { told (plain three 2) three_items_1 (Step.RemoteTau 0 0)
        ≡ Told.Is (Event.TauRemote 0 0) }
    ensures asks { told (plain three 2) three_items_2 (Step.RemoteSend 0) ≡ Told.Stutter }
    ensures implicit_nack { told (plain three 2) three_items_3 (Step.Up 0) ≡ Told.Stutter }
    ensures is_taken_and_acked { told (plain three 2) three_items_4 (Step.HomeTake 0)
        ≡ Told.Is (Event.Up 0 1 0) }
    ensures home_asks_again { told (plain three 2) three_items_5 (Step.HomeSend 0 0)
        ≡ Told.Stutter }
{}

/// The first request drops, the ack completes the remote's output, and the second request is
/// answered.
pub fn three_items_arrive_told()
    ensures old_request_drops { told (plain three 2) three_items_6 (Step.Down 0) ≡ Told.Stutter }
    ensures ack_completes { told (plain three 2) three_items_7 (Step.Down 0) ≡ Told.Stutter }
    ensures fills_slot { told (plain three 2) three_items_8 (Step.Down 0) ≡ Told.Stutter }
    ensures answer_is_acked { told (plain three 2) three_items_9 (Step.RemoteAnswer 0)
        ≡ Told.Is (Event.Down 0 0 1) }
    ensures ack_completes_home { told (plain three 2) three_items_10 (Step.Up 0) ≡ Told.Stutter }
{}

/// A waiting home with two free slots nacks a request that completes no guard.
pub fn progress_slot_is_kept_told()
    ensures wants { told (lean migratory 2) progress_kept_11 (Step.RemoteTau 2 0)
        ≡ Told.Is (Event.TauRemote 2 0) }
    ensures asks { told (lean migratory 2) progress_kept_12 (Step.RemoteSend 2) ≡ Told.Stutter }
    ensures is_nacked { told (lean migratory 2) progress_kept_13 (Step.Up 2) ≡ Told.Stutter }
{}

/// A request is taken by the second input that is open, and the home asks the first reader.
pub fn writer_asks_told()
    ensures wants { told (lean invalidate 2) progress_used_18 (Step.RemoteTau 3 1)
        ≡ Told.Is (Event.TauRemote 3 1) }
    ensures asks { told (lean invalidate 2) progress_used_19 (Step.RemoteSend 3) ≡ Told.Stutter }
    ensures is_held { told (lean invalidate 2) progress_used_20 (Step.Up 3) ≡ Told.Stutter }
    ensures is_taken { told (lean invalidate 2) progress_used_21 (Step.HomeTake 3)
        ≡ Told.Is (Event.Up 3 1 0) }
    ensures reader_is_asked { told (lean invalidate 2) progress_used_22 (Step.HomeSend 0 0)
        ≡ Told.Stutter }
{}

/// A waiting home keeps a request that completes a guard where one slot is free besides the one
/// that it keeps back, and nacks the next one.
pub fn progress_slot_is_used_told()
    ensures one_gives_up { told (lean invalidate 2) progress_used_23 (Step.RemoteTau 1 0)
        ≡ Told.Is (Event.TauRemote 1 0) }
    ensures one_asks { told (lean invalidate 2) progress_used_24 (Step.RemoteSend 1)
        ≡ Told.Stutter }
    ensures one_is_held { told (lean invalidate 2) progress_used_25 (Step.Up 1) ≡ Told.Stutter }
    ensures other_gives_up { told (lean invalidate 2) progress_used_26 (Step.RemoteTau 2 0)
        ≡ Told.Is (Event.TauRemote 2 0) }
    ensures other_asks { told (lean invalidate 2) progress_used_27 (Step.RemoteSend 2)
        ≡ Told.Stutter }
    ensures other_is_nacked { told (lean invalidate 2) progress_used_28 (Step.Up 2) ≡ Told.Stutter }
{}

/// The home asks no remote whose request it holds. It drops that request first; the nack comes
/// before its own.
pub fn target_is_held_told()
    ensures asks { told (plain hold 3) held_of_target_0 (Step.RemoteSend 0) ≡ Told.Stutter }
    ensures is_held { told (plain hold 3) held_of_target_1 (Step.Up 0) ≡ Told.Stutter }
    ensures target_is_not_asked { told (plain hold 3) held_of_target_2 (Step.HomeSend 0 0)
        ≡ Told.Refused }
    ensures is_dropped { told (plain hold 3) held_of_target_2 (Step.HomeDrop 0) ≡ Told.Stutter }
    ensures home_asks { told (plain hold 3) held_of_target_4 (Step.HomeSend 0 0) ≡ Told.Stutter }
{}

/// The nack brings the remote back, and the request fills its slot. It asks again all the same,
/// and its request is a nack to the home.
pub fn nack_then_request_told()
    ensures nack_brings_back { told (plain hold 3) held_of_target_5 (Step.Down 0) ≡ Told.Stutter }
    ensures fills_slot { told (plain hold 3) held_of_target_6 (Step.Down 0) ≡ Told.Stutter }
    ensures sending_empties_slot { told (plain hold 3) held_of_target_7 (Step.RemoteSend 0)
        ≡ Told.Stutter }
    ensures implicit_nack { told (plain hold 3) held_of_target_8 (Step.Up 0) ≡ Told.Stutter }
{}

/// With two slots the home asks nobody while it holds a request, and drops the request all the
/// same.
pub fn target_is_held_of_two_told()
    ensures target_is_not_asked { told (plain hold 2) held_of_target_2 (Step.HomeSend 0 0)
        ≡ Told.Refused }
    ensures is_dropped { told (plain hold 2) held_of_target_2 (Step.HomeDrop 0) ≡ Told.Stutter }
{}

/// The home holds two requests, and by a local step can use neither.
pub fn home_fills_told()
    ensures one_wants { told (plain tide 2) displacement_0 (Step.RemoteTau 0 0)
        ≡ Told.Is (Event.TauRemote 0 0) }
    ensures one_asks { told (plain tide 2) displacement_1 (Step.RemoteSend 0) ≡ Told.Stutter }
    ensures one_is_held { told (plain tide 2) displacement_2 (Step.Up 0) ≡ Told.Stutter }
    ensures other_wants { told (plain tide 2) displacement_3 (Step.RemoteTau 1 0)
        ≡ Told.Is (Event.TauRemote 1 0) }
    ensures other_asks { told (plain tide 2) displacement_4 (Step.RemoteSend 1) ≡ Told.Stutter }
    ensures other_is_held { told (plain tide 2) displacement_5 (Step.Up 1) ≡ Told.Stutter }
    ensures turns { told (plain tide 2) displacement_6 (Step.HomeTau 1)
        ≡ Told.Is (Event.TauHome 1) }
{}

/// A request that it can use displaces the last one, which is nacked, and is taken.
pub fn last_is_displaced_told()
    ensures wants { told (plain tide 2) displacement_7 (Step.RemoteTau 2 1)
        ≡ Told.Is (Event.TauRemote 2 1) }
    ensures asks { told (plain tide 2) displacement_8 (Step.RemoteSend 2) ≡ Told.Stutter }
    ensures displaces_last { told (plain tide 2) displacement_9 (Step.Up 2) ≡ Told.Stutter }
    ensures is_taken { told (plain tide 2) displacement_10 (Step.HomeTake 2)
        ≡ Told.Is (Event.Up 2 0 0) }
{}
