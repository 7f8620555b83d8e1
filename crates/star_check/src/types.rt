//! The types of values, of expressions and of what a message carries.

ghost use Rattle.std.specs.Prelude.{◌≡◌};
ghost use Rattle.std.specs.List.{list_all};
ghost use Rattle.std.specs.Option.{option_map};
ghost use Rattle.proto_model.specs.Types as types;
ghost use Rattle.proto_model.specs.Agreement as spec;

use crate::declared::Declared;
use proto_model::{
    Assign, Atom, Carry, Expr, Message, Name, Partner, Rel, Side, Term, ValueType, Var, VarKind,
};

fn type_of_kind(kind: VarKind) -> ValueType
    ensures { result ≡ types.kind_type kind }
{
    match kind {
        VarKind::Int(_) => ValueType::Int,
        VarKind::Node => ValueType::Node,
        VarKind::Set => ValueType::Set,
    }
}

// The type of the value that a message carries, none where it carries nothing.
fn type_carried(carry: Carry) -> Option<ValueType>
    ensures { result ≡ types.carried_type carry }
{
    match carry {
        Carry::Nothing => None,
        Carry::Int(_) => Some(ValueType::Int),
        Carry::Node => Some(ValueType::Node),
        Carry::Set => Some(ValueType::Set),
    }
}

fn is_same(left: ValueType, right: ValueType) -> bool
    ensures { result ≡ types.same_type left right }
{
    left == right
}

fn is_type(wanted: ValueType, found: Option<ValueType>) -> bool
    ensures { result ≡ types.is_of_type wanted found }
{
    match found {
        Some(found) => is_same(wanted, found),
        None => false,
    }
}

// Whether there are two types, and they are the same.
fn is_one_type(left: Option<ValueType>, right: Option<ValueType>) -> bool
    ensures { result ≡ types.are_of_one_type left right }
{
    match left {
        Some(left) => is_type(left, right),
        None => false,
    }
}

fn operation(left: Option<ValueType>, right: Option<ValueType>) -> Option<ValueType>
    ensures { result ≡ types.operation_type left right }
{
    if is_type(ValueType::Int, left) && is_type(ValueType::Int, right) {
        Some(ValueType::Int)
    } else if is_type(ValueType::Set, left) && is_type(ValueType::Node, right) {
        Some(ValueType::Set)
    } else {
        None
    }
}

fn relates(rel: Rel, left: Option<ValueType>, right: Option<ValueType>) -> bool
    ensures { result ≡ types.relation_agrees rel left right }
{
    match rel {
        Rel::Eq | Rel::Ne => is_one_type(left, right),
        Rel::Lt | Rel::Le => is_type(ValueType::Int, left) && is_type(ValueType::Int, right),
        Rel::Inside | Rel::Outside => {
            is_type(ValueType::Node, left) && is_type(ValueType::Set, right)
        }
    }
}

impl Declared<'_, Var> {
    fn type_of_var(&self, name: &Name) -> Option<ValueType>
        ensures { result ≡ spec.var_type self.now name.now }
    {
        match self.named(name) {
            Some(var) => Some(type_of_kind(var.kind)),
            None => None,
        }
    }

    fn type_of_term(&self, term: &Term) -> Option<ValueType>
        ensures { result ≡ spec.term_type self.now term.now }
    {
        match term {
            Term::Number(_) => Some(ValueType::Int),
            Term::Named(name) => self.type_of_var(name),
            Term::Nowhere => Some(ValueType::Node),
            Term::Empty => Some(ValueType::Set),
        }
    }

    fn type_of_expr(&self, expr: &Expr) -> Option<ValueType>
        ensures { result ≡ spec.expr_type self.now expr.now }
    {
        match expr {
            Expr::One(term) => self.type_of_term(term),
            Expr::Plus(left, right) | Expr::Minus(left, right) => {
                operation(self.type_of_term(left), self.type_of_term(right))
            }
        }
    }

    fn atom_agrees(&self, atom: &Atom) -> bool
        ensures { result ≡ spec.atom_agrees self.now atom.now }
    {
        relates(
            atom.rel,
            self.type_of_expr(&atom.left),
            self.type_of_expr(&atom.right),
        )
    }

    fn assign_agrees(&self, assign: &Assign) -> bool
        ensures { result ≡ spec.assign_agrees self.now assign.now }
    {
        is_one_type(
            self.type_of_var(&assign.var),
            self.type_of_expr(&assign.value),
        )
    }

    /// Whether the operands of each condition are of the types that its relation compares.
    pub(crate) fn atoms_agree(&self, atoms: &[Atom]) -> bool
        ensures { result ≡ list_all (spec.atom_agrees self.now) atoms.now }
    {
        atoms.iter().all(|atom| self.atom_agrees(atom))
    }

    /// Whether each variable gets a value of its type.
    pub(crate) fn assigns_agree(&self, assigns: &[Assign]) -> bool
        ensures { result ≡ list_all (spec.assign_agrees self.now) assigns.now }
    {
        assigns.iter().all(|assign| self.assign_agrees(assign))
    }

    /// Whether the partner is a node and what stands after its `in` a set; nothing is asked of a
    /// remote's.
    pub(crate) fn partner_agrees(&self, side: Side, partner: &Partner) -> bool
        ensures { result ≡ spec.partner_agrees self.now side partner.now }
    {
        match side {
            Side::Remote => true,
            Side::Home => match partner {
                Partner::Home => true,
                Partner::Any(node) | Partner::Named(node) => {
                    is_type(ValueType::Node, self.type_of_var(node))
                }
                Partner::Member(node, set) => {
                    is_type(ValueType::Node, self.type_of_var(node))
                        && is_type(ValueType::Set, self.type_of_var(set))
                }
            },
        }
    }

    /// Whether the variable that gets the value of an input is of the type that the message
    /// carries, where there is one.
    pub(crate) fn bound_agrees(&self, carried: Option<ValueType>, bound: &Option<Name>) -> bool
        ensures { result ≡ types.bound_agrees carried
            (option_map (spec.var_type self.now) bound.now) }
    {
        match bound {
            Some(name) => is_one_type(carried, self.type_of_var(name)),
            None => true,
        }
    }

    /// Whether an output has a value exactly where its message carries one, and of its type.
    pub(crate) fn value_agrees(&self, carried: Option<ValueType>, value: &Option<Expr>) -> bool
        ensures { result ≡ types.value_agrees carried
            (option_map (spec.expr_type self.now) value.now) }
    {
        match value {
            Some(expr) => is_one_type(carried, self.type_of_expr(expr)),
            None => carried.is_none(),
        }
    }
}

impl Declared<'_, Message> {
    /// The type of the value of the message that the name means.
    pub(crate) fn type_of_message(&self, name: &Name) -> Option<ValueType>
        ensures { result ≡ spec.message_type self.now name.now }
    {
        match self.named(name) {
            Some(message) => type_carried(message.carries),
            None => None,
        }
    }
}
