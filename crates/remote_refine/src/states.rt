//! The rows of the states of a body, in the order of its states and of their guards. Both
//! controllers are made so.

ghost use Rattle.std.specs.Prelude.{◌≡◌, ◌≤◌, ◌++◌, ℕ, List, Option, length, OnOk};
ghost use Rattle.proto_model.specs.Proper.{IsProperBody};
ghost use Rattle.proto_model.specs.declared.numbered.Body.{Body as ABody};
ghost use Rattle.proto_model.specs.declared.numbered.MessageInfo.{MessageInfo as AMessage};
ghost use Rattle.proto_model.specs.declared.numbered.Rule.{Rule as ARule};
ghost use Rattle.proto_model.specs.declared.numbered.Side.{Side as ASide};
ghost use Rattle.proto_model.specs.declared.numbered.StateInfo.{StateInfo as AState};
ghost use Rattle.rv_base.specs.Lists.{flat_from};
ghost use Rattle.controller_table.specs.Rows.{guard_id};
ghost use Rattle.controller_table.specs.declared.rows.GuardId.{GuardId as AGuard};
ghost use Rattle.controller_table.specs.declared.rows.Row.{Row as ARow};

use crate::paired_body::PairedBody;
use controller_table::{GuardId, Row};
use proto_model::{Rule, StateInfo};
use rv_base::{Items, NoMemory};

/// One of the two controllers, by the rows that it has for a guard.
pub trait GuardRows {
    /// The rows of a guard.
    ghost guard_rows: { List AMessage → List (Option ℕ) → ABody → AGuard → ARule → List ARow };

    /// Pushes the rows of a guard.
    fn push_guard(
        rows: &mut Items<Row>,
        of: &PairedBody,
        guard: GuardId,
        rule: &Rule,
    ) -> Result<(), NoMemory>
        ensures { OnOk result (rows.new ≡ rows.old ++ guard_rows of.now.messages.now
            of.now.replies.now of.now.body.now guard rule.now) };
}

/// One of the two controllers, by the rows that it has for a state.
pub trait StateRows {
    /// Whose controller it is.
    ghost side: { ASide };

    /// The rows of the state at this place.
    ghost state_rows: { List AMessage → List (Option ℕ) → ABody → ℕ → AState → List ARow };

    /// Pushes the rows of the state at this place.
    fn push_state(
        rows: &mut Items<Row>,
        of: &PairedBody,
        state: u8,
        info: &StateInfo,
    ) -> Result<(), NoMemory>
        requires { length info.now.rules ≤ 16 }
        ensures { OnOk result (rows.new ≡ rows.old ++ state_rows of.now.messages.now
            of.now.replies.now of.now.body.now state info.now) };
}

/// Pushes the rows of the guards of the state at this place, in order.
pub fn push_guards<R: GuardRows>(
    rows: &mut Items<Row>,
    of: &PairedBody,
    state: u8,
    info: &StateInfo,
) -> Result<(), NoMemory>
    requires { length info.now.rules ≤ 16 }
    ensures { OnOk result (rows.new ≡ rows.old ++ flat_from (λ g. R.guard_rows of.now.messages.now
        of.now.replies.now of.now.body.now (guard_id state g)) 0 info.now.rules) }
{
    for (place, rule) in info.rules.as_slice().iter().enumerate() {
        let guard = place as u8;
        R::push_guard(rows, of, GuardId { state, guard }, rule)?;
    }
    Ok(())
}

/// Pushes the rows of the states of the body, in order.
pub fn push_states<R: StateRows>(rows: &mut Items<Row>, of: &PairedBody) -> Result<(), NoMemory>
    requires { IsProperBody R.side of.now.messages.now of.now.body.now }
    ensures { OnOk result (rows.new ≡ rows.old ++ flat_from (R.state_rows of.now.messages.now
        of.now.replies.now of.now.body.now) 0 of.now.body.now.states) }
{
    for (state, info) in of.body.states.as_slice().iter().enumerate() {
        R::push_state(rows, of, state as u8, info)?;
    }
    Ok(())
}
