//! Copies of the parts of a numbered protocol.

ghost use Rattle.std.specs.Prelude.{◌≡◌, IfOk};

use crate::name::Name;
use crate::numbered::{Body, MessageInfo, Rule, RuleAssign, RuleAtom, StateInfo, VarInfo};
use rv_base::{Items, NoMemory};
use std::alloc::Global;

// The parts of a body.
trait Copied: Drop {
    // An equal value in memory of its own.
    fn copied(&self, alloc: Global) -> Result<Self, NoMemory>
        ensures { IfOk result (λ copy. copy ≡ self.now) };
}

// A list of copies of the items, in order.
fn copied_items<T: Copied>(items: &Items<T>, alloc: Global) -> Result<Items<T>, NoMemory>
    ensures { IfOk result (λ copies. copies ≡ items.now) }
{
    let mut copies = Items::new(alloc);
    for item in items.as_slice() {
        copies.push(item.copied(alloc)?)?;
    }
    Ok(copies)
}

impl Copied for RuleAtom {
    fn copied(&self, _alloc: Global) -> Result<RuleAtom, NoMemory> {
        Ok(*self)
    }
}

impl Copied for RuleAssign {
    fn copied(&self, _alloc: Global) -> Result<RuleAssign, NoMemory> {
        Ok(*self)
    }
}

impl Copied for Rule {
    fn copied(&self, alloc: Global) -> Result<Rule, NoMemory> {
        Ok(Rule {
            kind: self.kind,
            conds: copied_items(&self.conds, alloc)?,
            assigns: copied_items(&self.assigns, alloc)?,
            next: self.next,
        })
    }
}

impl Copied for StateInfo {
    fn copied(&self, alloc: Global) -> Result<StateInfo, NoMemory> {
        Ok(StateInfo {
            name: self.name.copy(alloc)?,
            rules: copied_items(&self.rules, alloc)?,
        })
    }
}

impl Copied for VarInfo {
    fn copied(&self, alloc: Global) -> Result<VarInfo, NoMemory> {
        Ok(VarInfo {
            name: self.name.copy(alloc)?,
            kind: self.kind,
            first: self.first,
        })
    }
}

impl MessageInfo {
    /// An equal message in memory of its own.
    pub fn copy(&self, alloc: Global) -> Result<MessageInfo, NoMemory>
        ensures { IfOk result (λ copy. copy ≡ self.now) }
    {
        Ok(MessageInfo {
            name: self.name.copy(alloc)?,
            up: self.up,
            carries: self.carries,
        })
    }
}

impl Body {
    /// An equal body in memory of its own.
    pub fn copy(&self, alloc: Global) -> Result<Body, NoMemory>
        ensures { IfOk result (λ copy. copy ≡ self.now) }
    {
        Ok(Body {
            vars: copied_items(&self.vars, alloc)?,
            start: self.start,
            states: copied_items(&self.states, alloc)?,
        })
    }
}
