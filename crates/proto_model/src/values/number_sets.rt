//! Sets of numbers below 64, of remotes or of states: each is a number whose bit j stands for j.

ghost use Rattle.std.specs.Prelude.{◌≡◌};
ghost use Rattle.proto_model.specs.NumberSets as sets;

/// Whether the set has the number, of a remote or of a state. Numbers from 64 on are in no set.
pub fn has_number(set: u64, number: u8) -> bool
    ensures { result ≡ sets.has_number set number }
{
    number < 64 && (set >> number) % 2 == 1
}

/// The set with the number; one from 64 on is not added.
pub fn with_number(set: u64, number: u8) -> u64
    ensures { result ≡ sets.with_number set number }
{
    if number < 64 { set | 1 << number } else { set }
}

/// The set without the number.
pub fn without_number(set: u64, number: u8) -> u64
    ensures { result ≡ sets.without_number set number }
{
    if has_number(set, number) {
        set - (1 << number)
    } else {
        set
    }
}
