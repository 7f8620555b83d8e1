//! The index of a controller, which tells where the row with a place and a trigger stands.

ghost use Rattle.std.specs.Prelude.{IfOk, option_copied};
ghost use Rattle.controller_table.specs.Keys.{NoTwoShareKey};
ghost use Rattle.controller_table.specs.Indexed.{IsIndexOf};
ghost use Rattle.controller_table.specs.OneRow.{IsOnlyRow};

use crate::rows::{Place, Row, Trigger};
use rv_base::NoMemory;
use std::alloc::Global;
use std::collections::HashMap;

/// Where a controller stands, and what makes it move.
#[derive(Clone, Copy, Debug, PartialEq, Eq, Hash, Drop)]
pub(crate) struct Key {
    at: Place,
    on: Trigger,
}

/// Where the row with a key stands among the rows of a controller.
#[derive(Debug, Drop)]
pub(crate) struct Index {
    places: HashMap<Key, usize>,
}

impl Index {
    /// The index of these rows.
    pub(crate) fn new(alloc: Global, rows: &[Row]) -> Result<Index, NoMemory>
        requires { NoTwoShareKey rows.now }
        ensures { IfOk result (λ index. IsIndexOf rows.now index) }
    {
        let mut places = HashMap::new(alloc);
        for (place, row) in rows.iter().enumerate() {
            let key = Key {
                at: row.at,
                on: row.on,
            };
            places.insert(key, place)?;
        }
        Ok(Index { places })
    }

    /// The one of these rows with this place and trigger. The index is of these rows.
    pub(crate) fn row<'a>(&self, rows: &'a [Row], at: Place, on: Trigger) -> Option<&'a Row>
        requires { IsIndexOf rows.now self.now }
        ensures { IsOnlyRow rows.now at on (option_copied result) }
    {
        match self.places.get(&Key { at, on }) {
            Some(place) => Some(&rows[*place]),
            None => None,
        }
    }
}
