//! The declarations of a kind, looked up by name.

ghost use Rattle.std.specs.Prelude.{◌≡◌, ℕ, ◌<◌, List, map, length, IfOk, IfSome, slice_get};
ghost use Rattle.std.specs.Prelude.{option_copied, take};
ghost use Rattle.std.specs.Option.{option_and_then};
ghost use Rattle.proto_model.specs.Tokens.{Text};
ghost use Rattle.proto_model.specs.Names.{place_of, is_declared};
ghost use Rattle.star_check.specs.Numbering.{IsNumbering};

use indexmap::IndexMap;
use proto_model::{Message, Name, State, Var};
use rv_base::NoMemory;
use std::alloc::Global;
use std::marker::Model;

/// A message, variable or state: what a protocol declares by a name.
pub(crate) trait Declaration {
    ghost name_of: { Self → Text };

    /// The name that it declares.
    fn name(&self) -> &Name
        ensures { result.now ≡ name_of self.now };
}

impl Declaration for Message {
    ghost name_of = { λ m. m.name };

    fn name(&self) -> &Name {
        &self.name
    }
}

impl Declaration for Var {
    ghost name_of = { λ v. v.name };

    fn name(&self) -> &Name {
        &self.name
    }
}

impl Declaration for State {
    ghost name_of = { λ s. s.name };

    fn name(&self) -> &Name {
        &self.name
    }
}

/// The declarations of a kind in file order. Contracts see the list of them. A name means the first
/// one that has it.
#[derive(Drop)]
pub(crate) struct Declared<'a, T: Declaration> {
    items: &'a [T],
    places: IndexMap<&'a [u8], usize>,
}

impl<'a, T: Declaration> Model for Declared<'a, T> {
    ghost use Rattle.std.specs.Prelude.{List, map};
    ghost use Rattle.star_check.specs.Numbering.{IsNumbering};

    ghost Value = { List T };

    ghost view = { λ d. d.items.now };

    ghost invariant = { λ d. IsNumbering d.places (map T.name_of d.items.now) };
}

impl<'a, T: Declaration> Declared<'a, T> {
    /// Numbers the names of these declarations.
    pub(crate) fn new(alloc: Global, items: &'a [T]) -> Result<Declared<'a, T>, NoMemory>
        ensures { IfOk result (λ d. d ≡ items.now) }
    {
        let places = numbering(alloc, items)?;
        Ok(Declared { items, places })
    }

    /// The declarations in file order.
    pub(crate) fn items(&self) -> &'a [T]
        ensures { result.now ≡ self.now }
    {
        self.items
    }

    /// The place, counted from 0, of what the name means; none where it is not declared.
    pub(crate) fn place(&self, name: &Name) -> Option<usize>
        ensures value { result ≡ place_of name.now (map T.name_of self.now) }
        ensures within { IfSome result (λ place. place < length self.now) }
    {
        self.places.get(name.bytes()).copied()
    }

    /// Whether the name is declared.
    pub(crate) fn has(&self, name: &Name) -> bool
        ensures { result ≡ is_declared name.now (map T.name_of self.now) }
    {
        self.place(name).is_some()
    }

    /// Whether a declaration before this place has the name.
    pub(crate) fn has_before(&self, place: usize, name: &Name) -> bool
        ensures { result ≡ is_declared name.now (take place (map T.name_of self.now)) }
    {
        match self.place(name) {
            Some(first) => first < place,
            None => false,
        }
    }

    /// What the name means; none where it is not declared.
    pub(crate) fn named(&self, name: &Name) -> Option<&'a T>
        ensures { option_copied result ≡ option_and_then (λ place. slice_get self.now place)
            (place_of name.now (map T.name_of self.now)) }
    {
        match self.place(name) {
            Some(place) => self.items.get(place),
            None => None,
        }
    }
}

// The place of the first declaration of each name.
fn numbering<'a, T: Declaration>(
    alloc: Global,
    items: &'a [T],
) -> Result<IndexMap<&'a [u8], usize>, NoMemory>
    ensures { IfOk result (λ places. IsNumbering places (map T.name_of items.now)) }
{
    let mut places = IndexMap::new(alloc);
    for (place, item) in items.iter().enumerate() {
        let name = item.name().bytes();
        if !places.contains_key(name) {
            places.insert(name, place)?;
        }
    }
    Ok(places)
}
