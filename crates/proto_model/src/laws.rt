//! Laws of the definitions. These functions do nothing: their contracts are the laws.

ghost use Rattle.std.specs.Prelude.{◌≡◌, ℕ, ◌<◌, not, ◌==◌, ◌&&◌, ◌||◌};
ghost use Rattle.proto_model.specs.NumberSets.{has_number, with_number, without_number};

/// A set with one number more has that number and those that it had; a set without a number has
/// those that it had but this one.
pub fn sets_by_members()
    ensures with { (set j i : ℕ) → j < 64
        → has_number (with_number set j) i ≡ ((i == j) || has_number set i) }
    ensures without { (set j i : ℕ)
        → has_number (without_number set j) i ≡ (not (i == j) && has_number set i) }
{}
