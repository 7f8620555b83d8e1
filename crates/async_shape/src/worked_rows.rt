//! Worked runs: which row of a controller each step fires. There is nothing to run here.

ghost use Rattle.std.specs.Prelude.{◌≡◌, Some, None};
ghost use Rattle.controller_table.specs.Rows.{guard_id};
ghost use Rattle.async_shape.specs.Fired.{fired, Home, Remote};
ghost use Rattle.async_shape.specs.WorkedRows.{firing};
ghost use Rattle.async_shape.specs.WorkedProtocols.{hold, invalidate, migratory, three, tide};
ghost use Rattle.async_shape.specs.WorkedCrossing.{crossing_0, crossing_1, crossing_2, crossing_3};
ghost use Rattle.async_shape.specs.WorkedCrossing.{crossing_4, crossing_5, crossing_6, crossing_7};
ghost use Rattle.async_shape.specs.WorkedCrossing.{crossing_8, crossing_9, crossing_10};
ghost use Rattle.async_shape.specs.WorkedCrossing.{crossing_11, crossing_12, crossing_13};
ghost use Rattle.async_shape.specs.WorkedCrossing.{crossing_14, crossing_15};
ghost use Rattle.async_shape.specs.WorkedPlain.{plain_0, plain_1, plain_2, plain_3, plain_4};
ghost use Rattle.async_shape.specs.WorkedPlain.{plain_5, plain_6, plain_7, plain_8};
ghost use Rattle.async_shape.specs.WorkedFullSlot.{full_slot_12, full_slot_13};
ghost use Rattle.async_shape.specs.WorkedDownPair.{down_pair_13, down_pair_14};
ghost use Rattle.async_shape.specs.WorkedThreeItems.{three_items_0, three_items_1, three_items_2};
ghost use Rattle.async_shape.specs.WorkedThreeItems.{three_items_3, three_items_4, three_items_5};
ghost use Rattle.async_shape.specs.WorkedThreeItems.{three_items_6, three_items_7, three_items_8};
ghost use Rattle.async_shape.specs.WorkedThreeItems.{three_items_9, three_items_10};
ghost use Rattle.async_shape.specs.WorkedProgressKept.{progress_kept_11, progress_kept_12};
ghost use Rattle.async_shape.specs.WorkedProgressKept.{progress_kept_13};
ghost use Rattle.async_shape.specs.WorkedProgressUsed.{progress_used_18, progress_used_19};
ghost use Rattle.async_shape.specs.WorkedProgressUsed.{progress_used_20, progress_used_21};
ghost use Rattle.async_shape.specs.WorkedProgressUsed.{progress_used_22, progress_used_23};
ghost use Rattle.async_shape.specs.WorkedProgressUsed.{progress_used_24, progress_used_25};
ghost use Rattle.async_shape.specs.WorkedProgressUsed.{progress_used_26, progress_used_27};
ghost use Rattle.async_shape.specs.WorkedProgressUsed.{progress_used_28};
ghost use Rattle.async_shape.specs.WorkedHeldOfTarget.{held_of_target_0, held_of_target_1};
ghost use Rattle.async_shape.specs.WorkedHeldOfTarget.{held_of_target_2, held_of_target_4};
ghost use Rattle.async_shape.specs.WorkedHeldOfTarget.{held_of_target_5, held_of_target_6};
ghost use Rattle.async_shape.specs.WorkedHeldOfTarget.{held_of_target_7, held_of_target_8};
ghost use Rattle.async_shape.specs.WorkedDisplacement.{displacement_0, displacement_1};
ghost use Rattle.async_shape.specs.WorkedDisplacement.{displacement_2, displacement_3};
ghost use Rattle.async_shape.specs.WorkedDisplacement.{displacement_4, displacement_5};
ghost use Rattle.async_shape.specs.WorkedDisplacement.{displacement_6, displacement_7};
ghost use Rattle.async_shape.specs.WorkedDisplacement.{displacement_8, displacement_9};
ghost use Rattle.async_shape.specs.WorkedDisplacement.{displacement_10};

use crate::Step;
use controller_table::{Place, Trigger};
use proto_model::Value;

/// A request is taken, and the reply that is owed stands for its ack.
pub fn first_grant_by_rows()
    ensures wants { fired migratory crossing_0 (Step.RemoteTau 0 0)
        ≡ Some (firing (Remote 0) (Place.Comm 0) (Trigger.Tau 0) Value.Unit) }
    ensures asks { fired migratory crossing_1 (Step.RemoteSend 0)
        ≡ Some (firing (Remote 0) (Place.Comm 1) (Trigger.Send 0) Value.Unit) }
    ensures is_held { fired migratory crossing_2 (Step.Up 0) ≡ None }
    ensures is_taken { fired migratory crossing_3 (Step.HomeTake 0)
        ≡ Some (firing Home (Place.Comm 0) (Trigger.Take 0) Value.Unit) }
    ensures reply_is_paid { fired migratory crossing_4 (Step.HomeSend 0 0)
        ≡ Some (firing Home (Place.Comm 1) (Trigger.Pay 0) Value.Unit) }
    ensures reply_completes_two { fired migratory crossing_5 (Step.Down 0)
        ≡ Some (firing (Remote 0) (Place.Trans (guard_id 1 0)) (Trigger.GotReply 1) (Value.Int 0)) }
{}

/// Another remote asks, so the home asks the owner.
pub fn second_request_by_rows()
    ensures wants { fired migratory crossing_6 (Step.RemoteTau 1 0)
        ≡ Some (firing (Remote 1) (Place.Comm 0) (Trigger.Tau 0) Value.Unit) }
    ensures asks { fired migratory crossing_7 (Step.RemoteSend 1)
        ≡ Some (firing (Remote 1) (Place.Comm 1) (Trigger.Send 0) Value.Unit) }
    ensures is_held { fired migratory crossing_8 (Step.Up 1) ≡ None }
    ensures is_taken { fired migratory crossing_9 (Step.HomeTake 1)
        ≡ Some (firing Home (Place.Comm 2) (Trigger.Take 0) Value.Unit) }
    ensures owner_is_asked { fired migratory crossing_10 (Step.HomeSend 0 0)
        ≡ Some (firing Home (Place.Comm 3) (Trigger.Send 0) Value.Unit) }
{}

/// The owner gives the line back meanwhile. The two requests cross: the remote drops the home's,
/// and its own is a nack to the home, which holds it and takes it.
pub fn requests_cross_by_rows()
    ensures gives_back { fired migratory crossing_11 (Step.RemoteTau 0 1)
        ≡ Some (firing (Remote 0) (Place.Comm 3) (Trigger.Tau 1) Value.Unit) }
    ensures asks { fired migratory crossing_12 (Step.RemoteSend 0)
        ≡ Some (firing (Remote 0) (Place.Comm 4) (Trigger.Send 0) Value.Unit) }
    ensures home_request_drops { fired migratory crossing_13 (Step.Down 0) ≡ None }
    ensures implicit_nack { fired migratory crossing_14 (Step.Up 0)
        ≡ Some (firing Home (Place.Trans (guard_id 3 0)) Trigger.GotRequest Value.Unit) }
    ensures is_taken_and_acked { fired migratory crossing_15 (Step.HomeTake 0)
        ≡ Some (firing Home (Place.Comm 3) (Trigger.Take 1) (Value.Int 0)) }
{}

/// The home acks the request that it takes, and asks; the ack comes first, and the remote acks in
/// turn.
pub fn both_requests_are_acked_by_rows()
    ensures wants { fired migratory plain_0 (Step.RemoteTau 0 0)
        ≡ Some (firing (Remote 0) (Place.Comm 0) (Trigger.Tau 0) Value.Unit) }
    ensures asks { fired migratory plain_1 (Step.RemoteSend 0)
        ≡ Some (firing (Remote 0) (Place.Comm 1) (Trigger.Send 0) Value.Unit) }
    ensures is_held { fired migratory plain_2 (Step.Up 0) ≡ None }
    ensures is_taken_and_acked { fired migratory plain_3 (Step.HomeTake 0)
        ≡ Some (firing Home (Place.Comm 0) (Trigger.Take 0) Value.Unit) }
    ensures home_asks { fired migratory plain_4 (Step.HomeSend 0 0)
        ≡ Some (firing Home (Place.Comm 1) (Trigger.Send 0) Value.Unit) }
    ensures ack_completes { fired migratory plain_5 (Step.Down 0)
        ≡ Some (firing (Remote 0) (Place.Trans (guard_id 1 0)) Trigger.GotAck Value.Unit) }
    ensures fills_slot { fired migratory plain_6 (Step.Down 0) ≡ None }
    ensures answer_is_acked { fired migratory plain_7 (Step.RemoteAnswer 0)
        ≡ Some (firing (Remote 0) (Place.Comm 2) (Trigger.Answer 0) (Value.Int 0)) }
    ensures ack_completes_home { fired migratory plain_8 (Step.Up 0)
        ≡ Some (firing Home (Place.Trans (guard_id 1 0)) Trigger.GotAck Value.Unit) }
{}

/// A remote that turns active with a full slot answers nothing. It empties the slot as it sends,
/// and its request is a nack to the home.
pub fn active_with_full_slot_by_rows()
    ensures fills_slot { fired migratory crossing_11 (Step.Down 0) ≡ None }
    ensures turns_active { fired migratory full_slot_12 (Step.RemoteTau 0 1)
        ≡ Some (firing (Remote 0) (Place.Comm 3) (Trigger.Tau 1) Value.Unit) }
    ensures sending_empties_slot { fired migratory full_slot_13 (Step.RemoteSend 0)
        ≡ Some (firing (Remote 0) (Place.Comm 4) (Trigger.Send 0) Value.Unit) }
    ensures implicit_nack { fired migratory crossing_14 (Step.Up 0)
        ≡ Some (firing Home (Place.Trans (guard_id 3 0)) Trigger.GotRequest Value.Unit) }
{}

/// A remote that completes an input whose message has a reply is due, and sends the reply, which
/// completes two guards of the home.
pub fn reply_to_home_by_rows()
    ensures fills_slot { fired migratory crossing_11 (Step.Down 0) ≡ None }
    ensures answer_makes_due { fired migratory full_slot_12 (Step.RemoteAnswer 0)
        ≡ Some (firing (Remote 0) (Place.Comm 3) (Trigger.Answer 2) Value.Unit) }
    ensures reply_is_sent { fired migratory down_pair_13 (Step.RemoteReply 0)
        ≡ Some (firing (Remote 0) (Place.Due (guard_id 5 0)) (Trigger.Send 0) Value.Unit) }
    ensures reply_completes_two { fired migratory down_pair_14 (Step.Up 0)
        ≡ Some (firing Home (Place.Trans (guard_id 3 0)) (Trigger.GotReply 4) (Value.Int 0)) }
{}

/// The home's request crosses, the remote's is taken and acked, and the home asks again.
pub fn three_items_go_down_by_rows()
    ensures home_asks { fired three three_items_0 (Step.HomeSend 0 0)
        ≡ Some (firing Home (Place.Comm 0) (Trigger.Send 0) Value.Unit) }
    ensures turns_active { fired three three_items_1 (Step.RemoteTau 0 0)
        ≡ Some (firing (Remote 0) (Place.Comm 0) (Trigger.Tau 0) Value.Unit) }
    ensures asks { fired three three_items_2 (Step.RemoteSend 0)
        ≡ Some (firing (Remote 0) (Place.Comm 1) (Trigger.Send 0) Value.Unit) }
    ensures implicit_nack { fired three three_items_3 (Step.Up 0)
        ≡ Some (firing Home (Place.Trans (guard_id 0 0)) Trigger.GotRequest Value.Unit) }
    ensures is_taken_and_acked { fired three three_items_4 (Step.HomeTake 0)
        ≡ Some (firing Home (Place.Comm 0) (Trigger.Take 1) Value.Unit) }
    ensures home_asks_again { fired three three_items_5 (Step.HomeSend 0 0)
        ≡ Some (firing Home (Place.Comm 0) (Trigger.Send 0) Value.Unit) }
{}

/// The first request drops, the ack completes the remote's output, and the second request is
/// answered.
pub fn three_items_arrive_by_rows()
    ensures old_request_drops { fired three three_items_6 (Step.Down 0) ≡ None }
    ensures ack_completes { fired three three_items_7 (Step.Down 0)
        ≡ Some (firing (Remote 0) (Place.Trans (guard_id 1 0)) Trigger.GotAck Value.Unit) }
    ensures fills_slot { fired three three_items_8 (Step.Down 0) ≡ None }
    ensures answer_is_acked { fired three three_items_9 (Step.RemoteAnswer 0)
        ≡ Some (firing (Remote 0) (Place.Comm 0) (Trigger.Answer 1) Value.Unit) }
    ensures ack_completes_home { fired three three_items_10 (Step.Up 0)
        ≡ Some (firing Home (Place.Trans (guard_id 0 0)) Trigger.GotAck Value.Unit) }
{}

/// A waiting home with two free slots nacks a request that completes no guard.
pub fn progress_slot_is_kept_by_rows()
    ensures wants { fired migratory progress_kept_11 (Step.RemoteTau 2 0)
        ≡ Some (firing (Remote 2) (Place.Comm 0) (Trigger.Tau 0) Value.Unit) }
    ensures asks { fired migratory progress_kept_12 (Step.RemoteSend 2)
        ≡ Some (firing (Remote 2) (Place.Comm 1) (Trigger.Send 0) Value.Unit) }
    ensures is_nacked { fired migratory progress_kept_13 (Step.Up 2) ≡ None }
{}

/// A request is taken by the second input that is open, and the home asks the first reader.
pub fn writer_asks_by_rows()
    ensures wants { fired invalidate progress_used_18 (Step.RemoteTau 3 1)
        ≡ Some (firing (Remote 3) (Place.Comm 0) (Trigger.Tau 1) Value.Unit) }
    ensures asks { fired invalidate progress_used_19 (Step.RemoteSend 3)
        ≡ Some (firing (Remote 3) (Place.Comm 3) (Trigger.Send 0) Value.Unit) }
    ensures is_held { fired invalidate progress_used_20 (Step.Up 3) ≡ None }
    ensures is_taken { fired invalidate progress_used_21 (Step.HomeTake 3)
        ≡ Some (firing Home (Place.Comm 0) (Trigger.Take 1) Value.Unit) }
    ensures reader_is_asked { fired invalidate progress_used_22 (Step.HomeSend 0 0)
        ≡ Some (firing Home (Place.Comm 2) (Trigger.Send 0) Value.Unit) }
{}

/// A waiting home keeps a request that completes a guard where one slot is free besides the one
/// that it keeps back, and nacks the next one.
pub fn progress_slot_is_used_by_rows()
    ensures one_gives_up { fired invalidate progress_used_23 (Step.RemoteTau 1 0)
        ≡ Some (firing (Remote 1) (Place.Comm 5) (Trigger.Tau 0) Value.Unit) }
    ensures one_asks { fired invalidate progress_used_24 (Step.RemoteSend 1)
        ≡ Some (firing (Remote 1) (Place.Comm 6) (Trigger.Send 0) Value.Unit) }
    ensures one_is_held { fired invalidate progress_used_25 (Step.Up 1) ≡ None }
    ensures other_gives_up { fired invalidate progress_used_26 (Step.RemoteTau 2 0)
        ≡ Some (firing (Remote 2) (Place.Comm 5) (Trigger.Tau 0) Value.Unit) }
    ensures other_asks { fired invalidate progress_used_27 (Step.RemoteSend 2)
        ≡ Some (firing (Remote 2) (Place.Comm 6) (Trigger.Send 0) Value.Unit) }
    ensures other_is_nacked { fired invalidate progress_used_28 (Step.Up 2) ≡ None }
{}

/// The home asks no remote whose request it holds. It drops that request first; the nack comes
/// before its own.
pub fn target_is_held_by_rows()
    ensures asks { fired hold held_of_target_0 (Step.RemoteSend 0)
        ≡ Some (firing (Remote 0) (Place.Comm 0) (Trigger.Send 0) Value.Unit) }
    ensures is_held { fired hold held_of_target_1 (Step.Up 0) ≡ None }
    ensures is_dropped { fired hold held_of_target_2 (Step.HomeDrop 0) ≡ None }
    ensures home_asks { fired hold held_of_target_4 (Step.HomeSend 0 0)
        ≡ Some (firing Home (Place.Comm 0) (Trigger.Send 0) Value.Unit) }
{}

/// The nack brings the remote back, and the request fills its slot. It asks again all the same,
/// and its request is a nack to the home.
pub fn nack_then_request_by_rows()
    ensures nack_brings_back { fired hold held_of_target_5 (Step.Down 0)
        ≡ Some (firing (Remote 0) (Place.Trans (guard_id 0 0)) Trigger.GotNack Value.Unit) }
    ensures fills_slot { fired hold held_of_target_6 (Step.Down 0) ≡ None }
    ensures sending_empties_slot { fired hold held_of_target_7 (Step.RemoteSend 0)
        ≡ Some (firing (Remote 0) (Place.Comm 0) (Trigger.Send 0) Value.Unit) }
    ensures implicit_nack { fired hold held_of_target_8 (Step.Up 0)
        ≡ Some (firing Home (Place.Trans (guard_id 0 0)) Trigger.GotRequest Value.Unit) }
{}

/// With two slots the home asks nobody while it holds a request, and drops the request all the
/// same.
pub fn target_is_held_of_two_by_rows()
    ensures { fired hold held_of_target_2 (Step.HomeDrop 0) ≡ None }
{}

/// The home holds two requests, and by a local step can use neither.
pub fn home_fills_by_rows()
    ensures one_wants { fired tide displacement_0 (Step.RemoteTau 0 0)
        ≡ Some (firing (Remote 0) (Place.Comm 0) (Trigger.Tau 0) Value.Unit) }
    ensures one_asks { fired tide displacement_1 (Step.RemoteSend 0)
        ≡ Some (firing (Remote 0) (Place.Comm 1) (Trigger.Send 0) Value.Unit) }
    ensures one_is_held { fired tide displacement_2 (Step.Up 0) ≡ None }
    ensures other_wants { fired tide displacement_3 (Step.RemoteTau 1 0)
        ≡ Some (firing (Remote 1) (Place.Comm 0) (Trigger.Tau 0) Value.Unit) }
    ensures other_asks { fired tide displacement_4 (Step.RemoteSend 1)
        ≡ Some (firing (Remote 1) (Place.Comm 1) (Trigger.Send 0) Value.Unit) }
    ensures other_is_held { fired tide displacement_5 (Step.Up 1) ≡ None }
    ensures turns { fired tide displacement_6 (Step.HomeTau 1)
        ≡ Some (firing Home (Place.Comm 0) (Trigger.Tau 1) Value.Unit) }
{}

/// A request that it can use displaces the last one, which is nacked, and is taken.
pub fn last_is_displaced_by_rows()
    ensures wants { fired tide displacement_7 (Step.RemoteTau 2 1)
        ≡ Some (firing (Remote 2) (Place.Comm 0) (Trigger.Tau 1) Value.Unit) }
    ensures asks { fired tide displacement_8 (Step.RemoteSend 2)
        ≡ Some (firing (Remote 2) (Place.Comm 2) (Trigger.Send 0) Value.Unit) }
    ensures displaces_last { fired tide displacement_9 (Step.Up 2) ≡ None }
    ensures is_taken { fired tide displacement_10 (Step.HomeTake 2)
        ≡ Some (firing Home (Place.Comm 1) (Trigger.Take 0) Value.Unit) }
{}
