//! The first number that follows a seed.

ghost use Rattle.std.specs.Prelude.{◌≡◌, ◌/◌, ◌^◌};
ghost use Rattle.drive_report.specs.Drive.{number_after};

/// The number that follows the seed 1, and what is left of it where its last 33 bits are dropped,
/// which chooses the first step. This function does nothing: its contract is the law.
pub fn the_number_that_follows_1()
    ensures number { number_after 1 ≡ 7806831264735756412 }
    ensures chooses { number_after 1 / 2 ^ 33 ≡ 908834774 }
{}
