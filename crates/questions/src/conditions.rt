//! Conditions, read from words.

ghost use Rattle.std.specs.Prelude.{◌≡◌, ◌≤◌, length, map, IfOk, OnOk, option_map};
ghost use Rattle.std.specs.Option.{option_and_then};
ghost use Rattle.proto_model.specs.Types as types;
ghost use Rattle.questions.specs.Reading as reading;
ghost use Rattle.questions.specs.Adding.{AddsCond};

use crate::scope::{Scope, place_in};
use proto_model::{Rel, RuleAtom, RuleExpr, RuleTerm, ValueType};
use rv_base::{Items, NoMemory, read_number};
use std::alloc::Global;

// The relation that the word names.
fn rel_of(word: &[u8]) -> Option<Rel>
    ensures { result ≡ reading.rel_of word.now }
{
    if word == b"eq".as_slice() {
        return Some(Rel::Eq);
    }
    if word == b"ne".as_slice() {
        return Some(Rel::Ne);
    }
    if word == b"lt".as_slice() {
        return Some(Rel::Lt);
    }
    if word == b"le".as_slice() {
        return Some(Rel::Le);
    }
    if word == b"in".as_slice() {
        return Some(Rel::Inside);
    }
    if word == b"notin".as_slice() {
        return Some(Rel::Outside);
    }
    None
}

// The sum or the difference of these two.
fn sum_of(word: &[u8], left: RuleTerm, right: RuleTerm) -> Option<RuleExpr>
    ensures { result ≡ reading.sum_of word.now left right }
{
    if word == b"+".as_slice() {
        return Some(RuleExpr::Plus(left, right));
    }
    if word == b"-".as_slice() {
        return Some(RuleExpr::Minus(left, right));
    }
    None
}

// Whether the word stands for a sum or a difference.
fn is_operator(word: &[u8]) -> bool
    ensures { result ≡ reading.is_operator word.now }
{
    word == b"+".as_slice() || word == b"-".as_slice()
}

// The term that the word says.
fn term_of(scope: &Scope, word: &[u8]) -> Option<RuleTerm>
    requires { length scope.now.names ≤ 256 }
    ensures { result ≡ reading.term_of scope.now word.now }
{
    if word == b"none".as_slice() {
        return Some(RuleTerm::Nowhere);
    }
    if word == b"empty".as_slice() {
        return Some(RuleTerm::Empty);
    }
    if let Some(number) = read_number(word, 65_535) {
        return Some(RuleTerm::Number(number as u16));
    }
    let place = place_in(scope.names.as_slice(), word)?;
    Some(RuleTerm::Var(place as u8))
}

// The expression of one term.
fn one_term(scope: &Scope, word: &[u8]) -> Option<RuleExpr>
    requires { length scope.now.names ≤ 256 }
    ensures { result ≡ reading.one_term scope.now word.now }
{
    Some(RuleExpr::One(term_of(scope, word)?))
}

// The expression of two terms.
fn two_terms(scope: &Scope, left: &[u8], word: &[u8], right: &[u8]) -> Option<RuleExpr>
    requires { length scope.now.names ≤ 256 }
    ensures { result ≡ reading.two_terms scope.now left.now word.now right.now }
{
    let left = term_of(scope, left)?;
    let right = term_of(scope, right)?;
    sum_of(word, left, right)
}

// The condition of two expressions.
fn related(left: Option<RuleExpr>, word: &[u8], right: Option<RuleExpr>) -> Option<RuleAtom>
    ensures { result ≡ reading.related left word.now right }
{
    let (left, right) = (left?, right?);
    let rel = rel_of(word)?;
    Some(RuleAtom { left, rel, right })
}

// The condition that these words say.
fn cond_of(scope: &Scope, words: &[&[u8]]) -> Option<RuleAtom>
    requires { length scope.now.names ≤ 256 }
    ensures { result ≡ reading.cond_of scope.now (map (λ w. w.now) words.now) }
{
    match words {
        [a, rel, b] => related(one_term(scope, a), rel, one_term(scope, b)),
        [a, word, b, rel, c] if is_operator(word) => {
            related(two_terms(scope, a, word, b), rel, one_term(scope, c))
        }
        [a, rel, b, word, c] => related(one_term(scope, a), rel, two_terms(scope, b, word, c)),
        [a, v, b, rel, c, w, d] => {
            related(two_terms(scope, a, v, b), rel, two_terms(scope, c, w, d))
        }
        _ => None,
    }
}

// ---- types

// The type of a term.
fn type_of_term(scope: &Scope, term: RuleTerm) -> Option<ValueType>
    ensures { result ≡ reading.type_of_term scope.now term }
{
    match term {
        RuleTerm::Number(_) => Some(ValueType::Int),
        RuleTerm::Var(place) => scope.types.as_slice().get(place as usize).copied(),
        RuleTerm::Nowhere => Some(ValueType::Node),
        RuleTerm::Empty => Some(ValueType::Set),
    }
}

// Whether there is a type, and it is this one.
fn is_of_type(wanted: ValueType, found: Option<ValueType>) -> bool
    ensures { result ≡ types.is_of_type wanted found }
{
    match (wanted, found) {
        (ValueType::Int, Some(ValueType::Int)) => true,
        (ValueType::Node, Some(ValueType::Node)) => true,
        (ValueType::Set, Some(ValueType::Set)) => true,
        _ => false,
    }
}

// Whether there are two types, and they are the same.
fn are_of_one_type(left: Option<ValueType>, right: Option<ValueType>) -> bool
    ensures { result ≡ types.are_of_one_type left right }
{
    match left {
        Some(wanted) => is_of_type(wanted, right),
        None => false,
    }
}

// The type of a sum or a difference.
fn operation_type(left: Option<ValueType>, right: Option<ValueType>) -> Option<ValueType>
    ensures { result ≡ types.operation_type left right }
{
    if is_of_type(ValueType::Int, left) && is_of_type(ValueType::Int, right) {
        return Some(ValueType::Int);
    }
    if is_of_type(ValueType::Set, left) && is_of_type(ValueType::Node, right) {
        return Some(ValueType::Set);
    }
    None
}

// The type of an expression.
fn type_of_expr(scope: &Scope, expr: RuleExpr) -> Option<ValueType>
    ensures { result ≡ reading.type_of_expr scope.now expr }
{
    match expr {
        RuleExpr::One(term) => type_of_term(scope, term),
        RuleExpr::Plus(left, right) | RuleExpr::Minus(left, right) => {
            operation_type(type_of_term(scope, left), type_of_term(scope, right))
        }
    }
}

// Whether the relation compares values of these types.
fn relation_agrees(rel: Rel, left: Option<ValueType>, right: Option<ValueType>) -> bool
    ensures { result ≡ types.relation_agrees rel left right }
{
    match rel {
        Rel::Eq | Rel::Ne => are_of_one_type(left, right),
        Rel::Lt | Rel::Le => {
            is_of_type(ValueType::Int, left) && is_of_type(ValueType::Int, right)
        }
        Rel::Inside | Rel::Outside => {
            is_of_type(ValueType::Node, left) && is_of_type(ValueType::Set, right)
        }
    }
}

// Whether the types of the condition agree.
fn agrees(scope: &Scope, cond: RuleAtom) -> bool
    ensures { result ≡ reading.agrees scope.now cond }
{
    relation_agrees(
        cond.rel,
        type_of_expr(scope, cond.left),
        type_of_expr(scope, cond.right),
    )
}

// The condition that these words say, if its types agree.
fn typed_cond(scope: &Scope, words: &[&[u8]]) -> Option<RuleAtom>
    requires { length scope.now.names ≤ 256 }
    ensures { result ≡ reading.typed_cond scope.now (map (λ w. w.now) words.now) }
{
    let cond = cond_of(scope, words)?;
    if agrees(scope, cond) {
        Some(cond)
    } else {
        None
    }
}

// Adds the condition that these words say. False: they say none.
fn add_cond(scope: &Scope, conds: &mut Items<RuleAtom>, words: &[&[u8]]) -> Result<bool, NoMemory>
    requires { length scope.now.names ≤ 256 }
    ensures { IfOk result (λ said. AddsCond conds.old conds.new
        (reading.typed_cond scope.now (map (λ w. w.now) words.now)) said) }
{
    match typed_cond(scope, words) {
        Some(cond) => {
            conds.push(cond)?;
            Ok(true)
        }
        None => Ok(false),
    }
}

// Whether the word is `and`.
fn is_and(word: &[u8]) -> bool
    ensures { result ≡ reading.is_and word.now }
{
    word == b"and".as_slice()
}

/// The conditions that these words say: at most eight, with `and` between them. `None` where they
/// say no such.
pub(crate) fn conds_of(
    alloc: Global,
    scope: &Scope,
    words: &[&[u8]],
) -> Result<Option<Items<RuleAtom>>, NoMemory>
    requires { length scope.now.names ≤ 256 }
    ensures { IfOk result (λ conds.
        conds ≡ reading.conds_of scope.now (map (λ w. w.now) words.now)) }
{
    let mut conds = Items::new(alloc);
    let mut start = 0;
    for place in 0..words.len() {
        if is_and(words[place]) {
            if !add_cond(scope, &mut conds, &words[start..place])? {
                return Ok(None);
            }
            start = place + 1;
        }
    }
    if !add_cond(scope, &mut conds, &words[start..])? {
        return Ok(None);
    }
    if conds.as_slice().len() <= 8 {
        Ok(Some(conds))
    } else {
        Ok(None)
    }
}
