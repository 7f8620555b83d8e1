//! The values of the variables of a process.

ghost use Rattle.std.specs.Prelude.{◌≡◌, ◌<◌, [], ◌∷◌, ◌++◌, length, slice_get, slice_set};

use crate::numbered::Value;
use std::marker::Model;

// The most variables that a process may have.
const ROOM: usize = 16;

/// The values of the variables of a process, at most 16. Contracts see them as the list of them, in
/// file order. The places of the array that no variable uses hold `Unit`.
#[derive(Clone, Copy)]
pub struct Vars {
    values: [Value; ROOM],
    len: u8,
}

impl Model for Vars {
    ghost use Rattle.std.specs.Prelude.{◌-◌, List, ◌++◌, length, take, replicate};
    ghost use Rattle.proto_model.specs.declared.numbered.Value.{Value as AValue};
    ghost use Rattle.proto_model.specs.declared.numbered.Value.TheVariants.{Unit as AUnit};

    ghost Value = { List AValue };

    ghost use Rattle.proto_model.specs.Filled.{IsFilled, vars_back};

    ghost view = { λ vars. take vars.len vars.values };

    ghost invariant = { λ vars. IsFilled vars.len vars.values };

    ghost inverse = { λ xs. record {
      values = xs ++ replicate (16 - length xs) AUnit;
      len = length xs;
    } };

    ghost inverse_ok = { λ vars filled. vars_back vars filled };
}

impl Vars {
    /// No variables.
    pub fn new() -> Vars
        ensures { result ≡ [] }
    {
        Vars {
            values: [Value::Unit; ROOM],
            len: 0,
        }
    }

    /// How many there are.
    pub fn len(&self) -> u8
        ensures { result ≡ length self.now }
    {
        self.len
    }

    /// The value at this place, counted from 0; none exactly past the end.
    pub fn at(&self, place: u8) -> Option<Value>
        ensures { result ≡ slice_get self.now place }
    {
        if place < self.len {
            Some(self.values[place as usize])
        } else {
            None
        }
    }

    /// Puts the value at this place; past the end nothing changes.
    pub fn set(&mut self, place: u8, value: Value)
        ensures { self.new ≡ slice_set self.old place value }
    {
        if place < self.len {
            self.values[place as usize] = value;
        }
    }

    /// One more variable, with this value.
    pub fn push(&mut self, value: Value)
        requires { length self.old < 16 }
        ensures { self.new ≡ self.old ++ value ∷ [] }
    {
        self.values[self.len as usize] = value;
        self.len += 1;
    }
}
