//! Whether a guard writes a number that no int holds, or a claim one above all numbers of remotes.

ghost use Rattle.std.specs.Prelude.{◌≡◌};
ghost use Rattle.std.specs.List.{list_any};
ghost use Rattle.proto_model.specs.Faults as spec;

use proto_model::{Assign, Atom, Claim, Expr, Guard, GuardKind, Term};

// The greatest int.
const GREATEST: u32 = 65535;
// How many remotes there are at most.
const MOST_REMOTES: u32 = 64;

fn is_large_term(term: &Term) -> bool
    ensures { result ≡ spec.is_large_term term.now }
{
    match term {
        Term::Number(number) => *number > GREATEST,
        Term::Named(_) | Term::Nowhere | Term::Empty => false,
    }
}

fn is_large_expr(expr: &Expr) -> bool
    ensures { result ≡ spec.is_large_expr expr.now }
{
    match expr {
        Expr::One(term) => is_large_term(term),
        Expr::Plus(left, right) | Expr::Minus(left, right) => {
            is_large_term(left) || is_large_term(right)
        }
    }
}

fn is_large_atom(atom: &Atom) -> bool
    ensures { result ≡ spec.is_large_atom atom.now }
{
    is_large_expr(&atom.left) || is_large_expr(&atom.right)
}

fn is_large_assign(assign: &Assign) -> bool
    ensures { result ≡ spec.is_large_assign assign.now }
{
    is_large_expr(&assign.value)
}

fn is_large_action(kind: &GuardKind) -> bool
    ensures { result ≡ spec.is_large_action kind.now }
{
    match kind {
        GuardKind::Tau | GuardKind::Input(_, _, _) => false,
        GuardKind::Output(_, _, None) => false,
        GuardKind::Output(_, _, Some(value)) => is_large_expr(value),
    }
}

fn has_large_atom(atoms: &[Atom]) -> bool
    ensures { result ≡ list_any spec.is_large_atom atoms.now }
{
    atoms.iter().any(|atom| is_large_atom(atom))
}

fn has_large_assign(assigns: &[Assign]) -> bool
    ensures { result ≡ list_any spec.is_large_assign assigns.now }
{
    assigns.iter().any(|assign| is_large_assign(assign))
}

/// Whether some number that the guard sends, compares or assigns is above 65,535.
pub(crate) fn is_large_guard(guard: &Guard) -> bool
    ensures { result ≡ spec.is_large_guard guard.now }
{
    is_large_action(&guard.kind)
        || has_large_atom(guard.conds.as_slice())
        || has_large_assign(guard.assigns.as_slice())
}

/// Whether the number of the claim is above 64.
pub(crate) fn is_large_claim(claim: &Claim) -> bool
    ensures { result ≡ spec.is_large_claim claim.now }
{
    match claim {
        Claim::AtMost(most, _) => *most > MOST_REMOTES,
        Claim::Apart(_, _) => false,
    }
}
