//! What a pass over the guards looks at.

ghost use Rattle.std.specs.Prelude.{◌≡◌, option_map, option_copied};
ghost use Rattle.proto_model.specs.Guards.{only_next as the_only_next};
ghost use Rattle.proto_model.specs.Pairs as pairs;
ghost use Rattle.proto_model.specs.ValueTypes as types;
ghost use Rattle.request_reply.specs.Looks as spec;

use proto_model::{Body, Rule, RuleKind, RulePartner, guards_of};

/// Which guards of a process are looked at, and for which reply of their message.
#[derive(Clone, Copy, Debug, PartialEq, Eq, Drop)]
pub(crate) enum Look {
    /// The remote's outputs: the message that the next state awaits.
    RemoteOutputs,
    /// The home's outputs: the message that the next state awaits from the remote to which they go.
    HomeOutputs,
    /// The remote's inputs: the message that the next state gives.
    RemoteInputs,
}

// The message of an output.
fn message_out(kind: RuleKind) -> Option<u8>
    ensures { result ≡ types.message_out kind }
{
    match kind {
        RuleKind::Tau | RuleKind::Input(_, _, _) => None,
        RuleKind::Output(_, message, _) => Some(message),
    }
}

// The message of an input.
fn message_in(kind: RuleKind) -> Option<u8>
    ensures { result ≡ types.message_in kind }
{
    match kind {
        RuleKind::Tau | RuleKind::Output(_, _, _) => None,
        RuleKind::Input(_, message, _) => Some(message),
    }
}

// The variable that names the remote met.
fn partner_var(partner: RulePartner) -> Option<u8>
    ensures { result ≡ pairs.partner_var partner }
{
    match partner {
        RulePartner::Home => None,
        RulePartner::Any(var) | RulePartner::Member(var, _) | RulePartner::Named(var) => Some(var),
    }
}

// The variable that names the remote to which an output goes.
fn output_var(kind: RuleKind) -> Option<u8>
    ensures { result ≡ pairs.output_var kind }
{
    match kind {
        RuleKind::Tau | RuleKind::Input(_, _, _) => None,
        RuleKind::Output(partner, _, _) => partner_var(partner),
    }
}

// The partner is the remote that the variable holds.
fn is_held_by(var: u8, partner: RulePartner) -> bool
    ensures { result ≡ pairs.is_held_by var partner }
{
    match partner {
        RulePartner::Home | RulePartner::Any(_) | RulePartner::Member(_, _) => false,
        RulePartner::Named(named) => named == var,
    }
}

// The guard is an input from the remote that the variable holds.
fn is_from(var: u8, kind: RuleKind) -> bool
    ensures { result ≡ pairs.is_from var kind }
{
    match kind {
        RuleKind::Tau | RuleKind::Output(_, _, _) => false,
        RuleKind::Input(partner, _, _) => is_held_by(var, partner),
    }
}

// The guard assigns no value to the variable.
fn leaves_alone(var: u8, rule: &Rule) -> bool
    ensures { result ≡ pairs.leaves_alone var rule.now }
{
    rule.assigns
        .as_slice()
        .iter()
        .all(|assign| !(assign.var == var))
}

// The one guard of the state to which the guard goes, where that state has one alone.
fn only_next<'a>(body: &'a Body, rule: &Rule) -> Option<&'a Rule>
    ensures { option_copied result ≡ the_only_next body.now rule.now }
{
    match guards_of(body, rule.next) {
        [only] => Some(only),
        _ => None,
    }
}

// The message of the guard, where it is an input without a condition.
fn awaited(rule: &Rule) -> Option<u8>
    ensures { result ≡ spec.awaited rule.now }
{
    if rule.conds.as_slice().is_empty() {
        message_in(rule.kind)
    } else {
        None
    }
}

// The message that the guard awaits, where it awaits it from the remote that the variable holds.
fn awaited_from(var: u8, rule: &Rule) -> Option<u8>
    ensures { result ≡ spec.awaited_from var rule.now }
{
    if is_from(var, rule.kind) {
        awaited(rule)
    } else {
        None
    }
}

// The message that the state behind the home's output awaits from the remote to which it goes.
fn awaited_from_target(home: &Body, rule: &Rule) -> Option<u8>
    ensures { result ≡ spec.awaited_from_target home.now rule.now }
{
    let var = output_var(rule.kind)?;
    if leaves_alone(var, rule) {
        awaited_from(var, only_next(home, rule)?)
    } else {
        None
    }
}

impl Look {
    /// The message of the guard, where the guard is looked at.
    pub(crate) fn message(self, rule: &Rule) -> Option<u8>
        ensures { result ≡ spec.message_at self rule.now }
    {
        match self {
            Look::RemoteOutputs | Look::HomeOutputs => message_out(rule.kind),
            Look::RemoteInputs => message_in(rule.kind),
        }
    }

    /// The reply to which the guard of this process leads, if it leads to one.
    pub(crate) fn reply(self, body: &Body, rule: &Rule) -> Option<u8>
        ensures { result ≡ spec.reply_behind self body.now rule.now }
    {
        match self {
            Look::RemoteOutputs => awaited(only_next(body, rule)?),
            Look::HomeOutputs => awaited_from_target(body, rule),
            Look::RemoteInputs => message_out(only_next(body, rule)?.kind),
        }
    }
}
