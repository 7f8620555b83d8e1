//! What the guards of a process can name, and what a guard may say there.

ghost use Rattle.std.specs.Prelude.{◌≡◌, IfOk};
ghost use Rattle.proto_model.specs.Known as known;
ghost use Rattle.proto_model.specs.Agreement as agreement;
ghost use Rattle.proto_model.specs.Star as star;

use crate::declared::Declared;
use proto_model::{Guard, GuardKind, Message, Name, Process, Side, State, Var};
use rv_base::NoMemory;
use std::alloc::Global;

/// The declarations that a guard of a process can name, which process it is, and the name of its
/// start.
#[derive(Drop)]
pub(crate) struct Scope<'m, 'a> {
    pub(crate) side: Side,
    pub(crate) messages: &'m Declared<'a, Message>,
    pub(crate) vars: Declared<'a, Var>,
    pub(crate) states: Declared<'a, State>,
    pub(crate) start: &'a Name,
}

impl<'m, 'a> Scope<'m, 'a> {
    ghost use Rattle.star_check.specs.Scopes.{IsScopeOf};

    /// The scope of the guards of this process.
    pub(crate) fn new(
        alloc: Global,
        side: Side,
        messages: &'m Declared<'a, Message>,
        process: &'a Process,
    ) -> Result<Scope<'m, 'a>, NoMemory>
        ensures { IfOk result (λ s. IsScopeOf s side messages.now process.now) }
    {
        let vars = Declared::new(alloc, process.vars.as_slice())?;
        let states = Declared::new(alloc, process.states.as_slice())?;
        Ok(Scope {
            side,
            messages,
            vars,
            states,
            start: &process.start,
        })
    }
}

impl Scope<'_, '_> {
    fn knows_action(&self, kind: &GuardKind) -> bool
        ensures { result ≡ known.knows_action self.now.vars self.now.side self.now.messages.now
            kind.now }
    {
        match kind {
            GuardKind::Tau => true,
            GuardKind::Input(partner, message, bound) => {
                self.messages.has(message)
                    && self.vars.knows_partner(self.side, partner)
                    && self.vars.knows_bound(bound)
            }
            GuardKind::Output(partner, message, value) => {
                self.messages.has(message)
                    && self.vars.knows_partner(self.side, partner)
                    && self.vars.knows_value(value)
            }
        }
    }

    /// Whether each variable, message and state that the guard uses is declared.
    pub(crate) fn knows_guard(&self, guard: &Guard) -> bool
        ensures { result ≡ known.knows_guard self.now.side self.now.messages.now self.now.vars
            self.now.states guard.now }
    {
        self.knows_action(&guard.kind)
            && self.vars.knows_atoms(guard.conds.as_slice())
            && self.vars.knows_assigns(guard.assigns.as_slice())
            && self.states.has(&guard.next)
    }

    fn action_agrees(&self, kind: &GuardKind) -> bool
        ensures { result ≡ agreement.action_agrees self.now.vars self.now.side self.now.messages.now
            kind.now }
    {
        match kind {
            GuardKind::Tau => true,
            GuardKind::Input(partner, message, bound) => {
                self.vars.partner_agrees(self.side, partner)
                    && self
                        .vars
                        .bound_agrees(self.messages.type_of_message(message), bound)
            }
            GuardKind::Output(partner, message, value) => {
                self.vars.partner_agrees(self.side, partner)
                    && self
                        .vars
                        .value_agrees(self.messages.type_of_message(message), value)
            }
        }
    }

    /// Whether the types of the guard agree.
    pub(crate) fn guard_agrees(&self, guard: &Guard) -> bool
        ensures { result ≡ agreement.guard_agrees self.now.side self.now.messages.now self.now.vars
            guard.now }
    {
        self.action_agrees(&guard.kind)
            && self.vars.atoms_agree(guard.conds.as_slice())
            && self.vars.assigns_agree(guard.assigns.as_slice())
    }

    /// Whether the message of the guard goes the way that the guard says.
    pub(crate) fn is_directed(&self, kind: &GuardKind) -> bool
        ensures { result ≡ agreement.is_directed self.now.side self.now.messages.now kind.now }
    {
        match kind {
            GuardKind::Tau => true,
            GuardKind::Input(_, name, _) => match self.messages.named(name) {
                Some(message) => goes_in(self.side, message.up),
                None => true,
            },
            GuardKind::Output(_, name, _) => match self.messages.named(name) {
                Some(message) => goes_out(self.side, message.up),
                None => true,
            },
        }
    }
}

fn goes_in(side: Side, up: bool) -> bool
    ensures { result ≡ star.goes_in side up }
{
    match side {
        Side::Home => up,
        Side::Remote => !up,
    }
}

fn goes_out(side: Side, up: bool) -> bool
    ensures { result ≡ star.goes_out side up }
{
    match side {
        Side::Home => !up,
        Side::Remote => up,
    }
}
