//! Bodies that say of no guard where it goes: `next` of each is 0.

ghost use Rattle.std.specs.Prelude.{◌≡◌, map};
ghost use Rattle.proto_model.specs.Guards.{bare_rule, bare_state, bare_body};
ghost use Rattle.controller_table.specs.Sound.{bare_controller};

use crate::controller::Controller;
use proto_model::{Body, Rule, StateInfo};

// Clears `next` of each rule.
fn clear_rules(rules: &mut [Rule])
    ensures { rules.new ≡ map bare_rule rules.old }
{
    for rule in rules.iter_mut() {
        rule.next = 0;
    }
}

// Clears `next` of each rule of the states.
fn clear_states(states: &mut [StateInfo])
    ensures { states.new ≡ map bare_state states.old }
{
    for state in states.iter_mut() {
        clear_rules(state.rules.as_mut_slice());
    }
}

// Clears `next` of each rule of the body.
fn clear_body(body: &mut Body)
    ensures { body.new ≡ bare_body body.old }
{
    clear_states(body.states.as_mut_slice());
}

impl Controller {
    /// Clears where its guards go, which its rows alone tell then. Takes no memory.
    pub(crate) fn clear(&mut self)
        ensures { self.new ≡ bare_controller self.old }
    {
        clear_body(&mut self.body);
    }
}
