//! The tokens of a guard.
#![tactic(auto, using(crate::proofs::Writing::layout))]

ghost use Rattle.std.specs.Prelude.{[], ◌∷◌, codes};
ghost use Rattle.proto_model.specs.Tokens.{part};
ghost use Rattle.proto_model.specs.Grammar as grammar;
ghost use Rattle.proto_model.specs.Marks.{Lays, words};

use crate::guard::{Assign, Atom, Expr, Guard, GuardKind, Partner, Rel, Term};
use crate::layout::writer::Writer;
use crate::name::Name;

impl Writer {
    // A term, which is one token.
    fn term(&mut self, term: &Term)
        ensures { Lays (words (grammar.term_token term.now ∷ [])) self.old self.new }
    {
        match term {
            Term::Number(number) => self.number(*number),
            Term::Named(name) => self.word(name.bytes()),
            Term::Nowhere => self.word(b"none"),
            Term::Empty => self.word(b"empty"),
        }
    }

    // A term, or two with the sign between them.
    fn expr(&mut self, expr: &Expr)
        ensures { Lays (words (grammar.expr_tokens expr.now)) self.old self.new }
    {
        match expr {
            Expr::One(term) => self.term(term),
            Expr::Plus(left, right) => {
                self.term(left);
                self.word(b"+");
                self.term(right);
            }
            Expr::Minus(left, right) => {
                self.term(left);
                self.word(b"-");
                self.term(right);
            }
        }
    }

    // A relation, which is one token.
    fn relation(&mut self, relation: Rel)
        ensures { Lays (words (grammar.rel_token relation ∷ [])) self.old self.new }
    {
        self.word(match relation {
            Rel::Eq => b"eq".as_slice(),
            Rel::Ne => b"ne".as_slice(),
            Rel::Lt => b"lt".as_slice(),
            Rel::Le => b"le".as_slice(),
            Rel::Inside => b"in".as_slice(),
            Rel::Outside => b"notin".as_slice(),
        });
    }

    // A condition.
    fn atom(&mut self, atom: &Atom)
        ensures { Lays (words (grammar.atom_tokens atom.now)) self.old self.new }
    {
        self.expr(&atom.left);
        self.relation(atom.rel);
        self.expr(&atom.right);
    }

    // The conditions of a guard: `when` stands before the first, `and` before each other one.
    fn conditions(&mut self, atoms: &[Atom])
        ensures { Lays (words (grammar.conds_tokens atoms.now)) self.old self.new }
    {
        if let Some((first, more)) = atoms.split_first() {
            self.word(b"when");
            self.atom(first);
            for atom in more {
                self.word(b"and");
                self.atom(atom);
            }
        }
    }

    // An assignment.
    fn assign(&mut self, assign: &Assign)
        ensures { Lays (words (grammar.assign_tokens assign.now)) self.old self.new }
    {
        self.word(assign.var.bytes());
        self.word(b"=");
        self.expr(&assign.value);
    }

    // The assignments of a guard: `do` stands before the first, a comma before each other one.
    fn assigns(&mut self, assigns: &[Assign])
        ensures { Lays (words (grammar.assigns_tokens assigns.now)) self.old self.new }
    {
        if let Some((first, more)) = assigns.split_first() {
            self.word(b"do");
            self.assign(first);
            for assign in more {
                self.word(b",");
                self.assign(assign);
            }
        }
    }

    // With whom a guard meets.
    fn partner(&mut self, partner: &Partner)
        ensures { Lays (words (grammar.partner_tokens partner.now)) self.old self.new }
    {
        match partner {
            Partner::Home => self.word(b"home"),
            Partner::Any(name) => {
                self.word(b"any");
                self.word(name.bytes());
            }
            Partner::Member(name, set) => {
                self.word(b"any");
                self.word(name.bytes());
                self.word(b"in");
                self.word(set.bytes());
            }
            Partner::Named(name) => self.word(name.bytes()),
        }
    }

    // The variable that an input binds, if it binds one, in parentheses.
    fn bound(&mut self, bound: &Option<Name>)
        ensures { Lays (words (grammar.bound_tokens bound.now)) self.old self.new }
    {
        if let Some(name) = bound {
            self.word(b"(");
            self.word(name.bytes());
            self.word(b")");
        }
    }

    // The value of an output, if it has one, in parentheses.
    fn value(&mut self, value: &Option<Expr>)
        ensures { Lays (words (grammar.value_tokens value.now)) self.old self.new }
    {
        if let Some(expr) = value {
            self.word(b"(");
            self.expr(expr);
            self.word(b")");
        }
    }

    // What a guard does.
    fn action(&mut self, kind: &GuardKind)
        ensures { Lays (words (grammar.action_tokens kind.now)) self.old self.new }
    {
        match kind {
            GuardKind::Tau => self.word(b"tau"),
            GuardKind::Input(partner, message, bound) => {
                self.word(b"from");
                self.partner(partner);
                self.word(b"?");
                self.word(message.bytes());
                self.bound(bound);
            }
            GuardKind::Output(partner, message, value) => {
                self.word(b"to");
                self.partner(partner);
                self.word(b"!");
                self.word(message.bytes());
                self.value(value);
            }
        }
    }

    // The name of the next state.
    fn goto(&mut self, next: &Name)
        ensures { Lays (words (part (codes "goto") ∷ part next.now ∷ grammar.semicolon ∷ []))
            self.old self.new }
    {
        self.word(b"goto");
        self.word(next.bytes());
        self.word(b";");
    }

    /// A guard.
    pub(super) fn guard(&mut self, guard: &Guard)
        ensures { Lays (words (grammar.guard_tokens guard.now)) self.old self.new }
    {
        self.action(&guard.kind);
        self.conditions(guard.conds.as_slice());
        self.assigns(guard.assigns.as_slice());
        self.goto(&guard.next);
    }
}
