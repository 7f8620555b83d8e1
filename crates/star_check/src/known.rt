//! Whether the variables that the parts of a guard use are declared, and the states of a claim.

ghost use Rattle.std.specs.Prelude.{◌≡◌};
ghost use Rattle.std.specs.List.{list_all};
ghost use Rattle.proto_model.specs.Known as spec;
ghost use Rattle.proto_model.specs.Names.{is_declared, state_names};

use crate::declared::Declared;
use proto_model::{Assign, Atom, Claim, Expr, Name, Partner, Side, State, Term, Var};

impl Declared<'_, Var> {
    fn knows_term(&self, term: &Term) -> bool
        ensures { result ≡ spec.knows_term self.now term.now }
    {
        match term {
            Term::Named(name) => self.has(name),
            Term::Number(_) | Term::Nowhere | Term::Empty => true,
        }
    }

    fn knows_expr(&self, expr: &Expr) -> bool
        ensures { result ≡ spec.knows_expr self.now expr.now }
    {
        match expr {
            Expr::One(term) => self.knows_term(term),
            Expr::Plus(left, right) | Expr::Minus(left, right) => {
                self.knows_term(left) && self.knows_term(right)
            }
        }
    }

    fn knows_atom(&self, atom: &Atom) -> bool
        ensures { result ≡ spec.knows_atom self.now atom.now }
    {
        self.knows_expr(&atom.left) && self.knows_expr(&atom.right)
    }

    fn knows_assign(&self, assign: &Assign) -> bool
        ensures { result ≡ spec.knows_assign self.now assign.now }
    {
        self.has(&assign.var) && self.knows_expr(&assign.value)
    }

    /// Whether the variables of the conditions are declared.
    pub(crate) fn knows_atoms(&self, atoms: &[Atom]) -> bool
        ensures { result ≡ list_all (spec.knows_atom self.now) atoms.now }
    {
        atoms.iter().all(|atom| self.knows_atom(atom))
    }

    /// Whether the variables of the assignments are declared.
    pub(crate) fn knows_assigns(&self, assigns: &[Assign]) -> bool
        ensures { result ≡ list_all (spec.knows_assign self.now) assigns.now }
    {
        assigns.iter().all(|assign| self.knows_assign(assign))
    }

    /// Whether the variables of the partner are declared; those of a remote's are not looked up.
    pub(crate) fn knows_partner(&self, side: Side, partner: &Partner) -> bool
        ensures { result ≡ spec.knows_partner self.now side partner.now }
    {
        match side {
            Side::Remote => true,
            Side::Home => match partner {
                Partner::Home => true,
                Partner::Any(node) | Partner::Named(node) => self.has(node),
                Partner::Member(node, set) => self.has(node) && self.has(set),
            },
        }
    }

    /// Whether the variable that gets the value of an input is declared, where there is one.
    pub(crate) fn knows_bound(&self, bound: &Option<Name>) -> bool
        ensures { result ≡ spec.knows_bound self.now bound.now }
    {
        match bound {
            Some(name) => self.has(name),
            None => true,
        }
    }

    /// Whether the variables of the value sent are declared, where there is one.
    pub(crate) fn knows_value(&self, value: &Option<Expr>) -> bool
        ensures { result ≡ spec.knows_value self.now value.now }
    {
        match value {
            Some(expr) => self.knows_expr(expr),
            None => true,
        }
    }
}

impl Declared<'_, State> {
    fn has_all(&self, names: &[Name]) -> bool
        ensures { result ≡ list_all (λ name. is_declared name (state_names self.now)) names.now }
    {
        names.iter().all(|name| self.has(name))
    }

    /// Whether each state that the claim names is declared.
    pub(crate) fn knows_claim(&self, claim: &Claim) -> bool
        ensures { result ≡ spec.knows_claim self.now claim.now }
    {
        match claim {
            Claim::AtMost(_, names) => self.has_all(names.as_slice()),
            Claim::Apart(one, other) => self.has(one) && self.has(other),
        }
    }
}
