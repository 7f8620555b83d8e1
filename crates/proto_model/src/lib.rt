//! What a protocol is and what it means. The named form is as a file gives it; the numbered form is
//! the one that is computed with.
//!
//! - `name`, `protocol`, `guard`: the named form.
//! - `numbered`, `mode`: the numbered form, and the two modes in which it is compiled.
//! - `rendezvous`: the configurations and events of the rendezvous meaning.
//! - `values`: how expressions, conditions and guards compute.
//! - `offers`: the guards of a state, and what each of them gives or accepts.
//! - `layout`: the laid-out text of a protocol.
//! - `texts`: the texts of values, events and processes, and the names of states and messages.
//! - `appending`: how both put their texts together.
//! - `schedule_numbers`: the numbers that a line of a schedule says.
//! - `copies`: copies of the parts of a protocol.
//! - `laws`: what follows from the definitions alone.
//!
//! `specs/` has the definitions of a file's tokens, of the grammar and of the laid-out text, of
//! faults, of values, of guards and of the rendezvous meaning, and of requests and their replies.
#![tactic(auto)]

mod appending;
mod copies;
mod guard;
mod laws;
mod layout;
mod mode;
mod name;
mod numbered;
mod offers;
mod protocol;
mod rendezvous;
mod schedule_numbers;
mod texts;
mod values;

pub use appending::{Appending, append, append_number};
pub use guard::{Assign, Atom, Expr, Guard, GuardKind, Partner, Rel, Term};
pub use laws::sets_by_members;
pub use layout::print;
pub use mode::Mode;
pub use name::Name;
pub use numbered::{
    Body, MessageInfo, NumberedClaim, Rule, RuleAssign, RuleAtom, RuleExpr, RuleKind, RulePartner,
    RuleTerm, Side, StateInfo, Value, ValueType, VarInfo,
};
pub use offers::{accepts, given, guard_at, guards_of, is_open_tau, is_output};
pub use protocol::{Carry, Claim, Initial, Message, Process, Protocol, State, Var, VarKind};
pub use rendezvous::{Event, Part, RvConfig};
pub use schedule_numbers::schedule_number;
pub use texts::{
    append_argument, event_text, message_name, message_text, rv_line, separator, state_name,
    vars_text,
};
pub use values::{
    Vars, complete, eval, first_vars, guard_open, has_number, is_at_most, is_below, is_in,
    is_target, same_value, send_value, targets, with_number, without_number,
};
