//! Worked runs: for which rendezvous configurations their moments stand. There is nothing to run
//! here.

ghost use Rattle.std.specs.Prelude.{◌≡◌};
ghost use Rattle.async_shape.specs.WorkedProtocols.{invalidate, migratory, three, tide};
ghost use Rattle.async_shape.specs.WorkedCrossing.{crossing_0, crossing_1, crossing_3, crossing_4};
ghost use Rattle.async_shape.specs.WorkedCrossing.{crossing_5, crossing_6, crossing_7, crossing_9};
ghost use Rattle.async_shape.specs.WorkedCrossing.{crossing_10, crossing_11, crossing_12};
ghost use Rattle.async_shape.specs.WorkedCrossing.{crossing_15, crossing_16};
ghost use Rattle.async_shape.specs.WorkedPlain.{plain_0, plain_1, plain_3, plain_4, plain_7};
ghost use Rattle.async_shape.specs.WorkedPlain.{plain_8};
ghost use Rattle.async_shape.specs.WorkedFullSlot.{full_slot_12, full_slot_13};
ghost use Rattle.async_shape.specs.WorkedDownPair.{down_pair_13, down_pair_14};
ghost use Rattle.async_shape.specs.WorkedThreeItems.{three_items_1, three_items_2, three_items_4};
ghost use Rattle.async_shape.specs.WorkedThreeItems.{three_items_5, three_items_9, three_items_10};
ghost use Rattle.async_shape.specs.WorkedProgressKept.{progress_kept_11, progress_kept_12};
ghost use Rattle.async_shape.specs.WorkedProgressUsed.{progress_used_18, progress_used_19};
ghost use Rattle.async_shape.specs.WorkedProgressUsed.{progress_used_21, progress_used_22};
ghost use Rattle.async_shape.specs.WorkedProgressUsed.{progress_used_23, progress_used_24};
ghost use Rattle.async_shape.specs.WorkedProgressUsed.{progress_used_26, progress_used_27};
ghost use Rattle.async_shape.specs.WorkedDisplacement.{displacement_0, displacement_1};
ghost use Rattle.async_shape.specs.WorkedDisplacement.{displacement_3, displacement_4};
ghost use Rattle.async_shape.specs.WorkedDisplacement.{displacement_6, displacement_7};
ghost use Rattle.async_shape.specs.WorkedDisplacement.{displacement_8, displacement_10};
ghost use Rattle.async_shape.specs.WorkedDisplacement.{displacement_11};
ghost use Rattle.abstraction_map.specs.Abstraction.{abstraction};
ghost use Rattle.abstraction_map.specs.WorkedCrossingMeans.{crossing_0_means, crossing_1_means};
ghost use Rattle.abstraction_map.specs.WorkedCrossingMeans.{crossing_3_means, crossing_4_means};
ghost use Rattle.abstraction_map.specs.WorkedCrossingMeans.{crossing_5_means, crossing_6_means};
ghost use Rattle.abstraction_map.specs.WorkedCrossingMeans.{crossing_7_means, crossing_9_means};
ghost use Rattle.abstraction_map.specs.WorkedCrossingMeans.{crossing_10_means, crossing_11_means};
ghost use Rattle.abstraction_map.specs.WorkedCrossingMeans.{crossing_12_means, crossing_15_means};
ghost use Rattle.abstraction_map.specs.WorkedCrossingMeans.{crossing_16_means};
ghost use Rattle.abstraction_map.specs.WorkedPlainMeans.{plain_0_means, plain_1_means};
ghost use Rattle.abstraction_map.specs.WorkedPlainMeans.{plain_3_means, plain_4_means};
ghost use Rattle.abstraction_map.specs.WorkedPlainMeans.{plain_7_means, plain_8_means};
ghost use Rattle.abstraction_map.specs.WorkedFullSlotMeans.{full_slot_12_means, full_slot_13_means};
ghost use Rattle.abstraction_map.specs.WorkedDownPairMeans.{down_pair_13_means, down_pair_14_means};
ghost use Rattle.abstraction_map.specs.WorkedThreeItemsMeans.{three_items_1_means};
ghost use Rattle.abstraction_map.specs.WorkedThreeItemsMeans.{three_items_2_means};
ghost use Rattle.abstraction_map.specs.WorkedThreeItemsMeans.{three_items_4_means};
ghost use Rattle.abstraction_map.specs.WorkedThreeItemsMeans.{three_items_5_means};
ghost use Rattle.abstraction_map.specs.WorkedThreeItemsMeans.{three_items_9_means};
ghost use Rattle.abstraction_map.specs.WorkedThreeItemsMeans.{three_items_10_means};
ghost use Rattle.abstraction_map.specs.WorkedProgressKeptMeans.{progress_kept_11_means};
ghost use Rattle.abstraction_map.specs.WorkedProgressKeptMeans.{progress_kept_12_means};
ghost use Rattle.abstraction_map.specs.WorkedProgressUsedMeans.{progress_used_18_means};
ghost use Rattle.abstraction_map.specs.WorkedProgressUsedMeans.{progress_used_19_means};
ghost use Rattle.abstraction_map.specs.WorkedProgressUsedMeans.{progress_used_21_means};
ghost use Rattle.abstraction_map.specs.WorkedProgressUsedMeans.{progress_used_22_means};
ghost use Rattle.abstraction_map.specs.WorkedProgressUsedMeans.{progress_used_23_means};
ghost use Rattle.abstraction_map.specs.WorkedProgressUsedMeans.{progress_used_24_means};
ghost use Rattle.abstraction_map.specs.WorkedProgressUsedMeans.{progress_used_26_means};
ghost use Rattle.abstraction_map.specs.WorkedProgressUsedMeans.{progress_used_27_means};
ghost use Rattle.abstraction_map.specs.WorkedDisplacementMeans.{displacement_0_means};
ghost use Rattle.abstraction_map.specs.WorkedDisplacementMeans.{displacement_1_means};
ghost use Rattle.abstraction_map.specs.WorkedDisplacementMeans.{displacement_3_means};
ghost use Rattle.abstraction_map.specs.WorkedDisplacementMeans.{displacement_4_means};
ghost use Rattle.abstraction_map.specs.WorkedDisplacementMeans.{displacement_6_means};
ghost use Rattle.abstraction_map.specs.WorkedDisplacementMeans.{displacement_7_means};
ghost use Rattle.abstraction_map.specs.WorkedDisplacementMeans.{displacement_8_means};
ghost use Rattle.abstraction_map.specs.WorkedDisplacementMeans.{displacement_10_means};
ghost use Rattle.abstraction_map.specs.WorkedDisplacementMeans.{displacement_11_means};

/// Two requests cross: what the moments before and after an event mean.
pub fn crossing_means()
    ensures after_0 { abstraction migratory crossing_0 ≡ crossing_0_means }
    ensures after_1 { abstraction migratory crossing_1 ≡ crossing_1_means }
    ensures after_3 { abstraction migratory crossing_3 ≡ crossing_3_means }
    ensures after_4 { abstraction migratory crossing_4 ≡ crossing_4_means }
    ensures after_5 { abstraction migratory crossing_5 ≡ crossing_5_means }
    ensures after_6 { abstraction migratory crossing_6 ≡ crossing_6_means }
    ensures after_7 { abstraction migratory crossing_7 ≡ crossing_7_means }
    ensures after_9 { abstraction migratory crossing_9 ≡ crossing_9_means }
    ensures after_10 { abstraction migratory crossing_10 ≡ crossing_10_means }
    ensures after_11 { abstraction migratory crossing_11 ≡ crossing_11_means }
    ensures after_12 { abstraction migratory crossing_12 ≡ crossing_12_means }
    ensures after_15 { abstraction migratory crossing_15 ≡ crossing_15_means }
    ensures after_16 { abstraction migratory crossing_16 ≡ crossing_16_means }
{}

/// Two requests are acked, in mode plain: what the moments before and after an event mean.
pub fn plain_means()
    ensures after_0 { abstraction migratory plain_0 ≡ plain_0_means }
    ensures after_1 { abstraction migratory plain_1 ≡ plain_1_means }
    ensures after_3 { abstraction migratory plain_3 ≡ plain_3_means }
    ensures after_4 { abstraction migratory plain_4 ≡ plain_4_means }
    ensures after_7 { abstraction migratory plain_7 ≡ plain_7_means }
    ensures after_8 { abstraction migratory plain_8 ≡ plain_8_means }
{}

/// A remote turns active with a full slot: what the moments before and after an event mean.
pub fn full_slot_means()
    ensures after_12 { abstraction migratory full_slot_12 ≡ full_slot_12_means }
    ensures after_13 { abstraction migratory full_slot_13 ≡ full_slot_13_means }
{}

/// A message that goes down has a reply: what the moments before and after an event mean.
pub fn down_pair_means()
    ensures after_13 { abstraction migratory down_pair_13 ≡ down_pair_13_means }
    ensures after_14 { abstraction migratory down_pair_14 ≡ down_pair_14_means }
{}

/// Three packets are on one down link: what the moments before and after an event mean.
pub fn three_items_means()
    ensures after_1 { abstraction three three_items_1 ≡ three_items_1_means }
    ensures after_2 { abstraction three three_items_2 ≡ three_items_2_means }
    ensures after_4 { abstraction three three_items_4 ≡ three_items_4_means }
    ensures after_5 { abstraction three three_items_5 ≡ three_items_5_means }
    ensures after_9 { abstraction three three_items_9 ≡ three_items_9_means }
    ensures after_10 { abstraction three three_items_10 ≡ three_items_10_means }
{}

/// The progress slot is kept: what the moments before and after an event mean.
pub fn progress_kept_means()
    ensures after_11 { abstraction migratory progress_kept_11 ≡ progress_kept_11_means }
    ensures after_12 { abstraction migratory progress_kept_12 ≡ progress_kept_12_means }
{}

/// The progress slot is used: what the moments before and after an event mean.
pub fn progress_used_means()
    ensures after_18 { abstraction invalidate progress_used_18 ≡ progress_used_18_means }
    ensures after_19 { abstraction invalidate progress_used_19 ≡ progress_used_19_means }
    ensures after_21 { abstraction invalidate progress_used_21 ≡ progress_used_21_means }
    ensures after_22 { abstraction invalidate progress_used_22 ≡ progress_used_22_means }
    ensures after_23 { abstraction invalidate progress_used_23 ≡ progress_used_23_means }
    ensures after_24 { abstraction invalidate progress_used_24 ≡ progress_used_24_means }
    ensures after_26 { abstraction invalidate progress_used_26 ≡ progress_used_26_means }
    ensures after_27 { abstraction invalidate progress_used_27 ≡ progress_used_27_means }
{}

/// A held request is displaced: what the moments before and after an event mean.
pub fn displacement_means()
    ensures after_0 { abstraction tide displacement_0 ≡ displacement_0_means }
    ensures after_1 { abstraction tide displacement_1 ≡ displacement_1_means }
    ensures after_3 { abstraction tide displacement_3 ≡ displacement_3_means }
    ensures after_4 { abstraction tide displacement_4 ≡ displacement_4_means }
    ensures after_6 { abstraction tide displacement_6 ≡ displacement_6_means }
    ensures after_7 { abstraction tide displacement_7 ≡ displacement_7_means }
    ensures after_8 { abstraction tide displacement_8 ≡ displacement_8_means }
    ensures after_10 { abstraction tide displacement_10 ≡ displacement_10_means }
    ensures after_11 { abstraction tide displacement_11 ≡ displacement_11_means }
{}
