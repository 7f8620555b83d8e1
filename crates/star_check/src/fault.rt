//! The faults of a protocol.

/// A fault: the item that has it, counted from 0 in file order, and the least of its codes, from 10
/// to 19.
#[derive(Clone, Copy, Debug, PartialEq, Eq, Drop)]
pub struct Fault {
    pub code: u8,
    pub item: u32,
}

/// A 65th message or state, a 17th variable, guard or claim, a guard with more than 8 conditions or
/// assignments, or a claim that names more than 64 states.
pub(crate) const TOO_MANY: u8 = 10;
/// A declared name of more than 32 bytes.
pub(crate) const NAME_TOO_LONG: u8 = 11;
/// A name that an earlier declaration of its kind has.
pub(crate) const DUPLICATE: u8 = 12;
/// The use of a name that is not declared.
pub(crate) const UNKNOWN: u8 = 13;
/// Types that do not agree.
pub(crate) const WRONG_TYPE: u8 = 14;
/// A message that goes the other way.
pub(crate) const WRONG_DIRECTION: u8 = 15;
/// A remote's guard with another partner than the home, or a home's guard with the home.
pub(crate) const NOT_STAR: u8 = 16;
/// A remote's state with an output and another guard.
pub(crate) const ACTIVE_MIXED: u8 = 17;
/// A remote's output with a condition.
pub(crate) const ACTIVE_CONDITION: u8 = 18;
/// An int bound out of range, a first number that is not below it, or too large a number in a guard
/// or a claim.
pub(crate) const BAD_NUMBER: u8 = 19;
