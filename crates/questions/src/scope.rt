//! What a question may name.

ghost use Rattle.std.specs.Prelude.{◌≡◌, ◌≤◌, ◌<◌, IfSome, [], ◌∷◌, ◌++◌, length, IfOk, OnOk, map, codes};
ghost use Rattle.proto_model.specs.Names.{place_of};
ghost use Rattle.proto_model.specs.Types as types;
ghost use Rattle.proto_model.specs.declared.numbered.ValueType.TheVariants as type;
ghost use Rattle.questions.specs.Reading as reading;

use proto_model::{Body, StateInfo, ValueType, VarInfo, VarKind};
use rv_base::{Items, NoMemory};
use std::alloc::Global;

/// What the conditions of a question may name, in order, and the type of each.
#[derive(Drop)]
pub(crate) struct Scope {
    pub(crate) names: Items<Items<u8>>,
    pub(crate) types: Items<ValueType>,
}

/// The place of the word among these names.
pub(crate) fn place_in(names: &[Items<u8>], word: &[u8]) -> Option<usize>
    ensures place { result ≡ place_of word.now names.now }
    ensures within { IfSome result (λ place. place < length names.now) }
{
    names.iter().position(|name| word == name.as_slice())
}

// The bytes behind the text.
fn extend(text: &mut Items<u8>, bytes: &[u8]) -> Result<(), NoMemory>
    ensures { OnOk result (text.new ≡ text.old ++ bytes.now) }
{
    for byte in bytes {
        text.push(*byte)?;
    }
    Ok(())
}

// This front and the bytes behind it.
fn joined(alloc: Global, front: &[u8], bytes: &[u8]) -> Result<Items<u8>, NoMemory>
    ensures { IfOk result (λ text. text ≡ front.now ++ bytes.now) }
{
    let mut text = Items::new(alloc);
    extend(&mut text, front)?;
    extend(&mut text, bytes)?;
    Ok(text)
}

/// The names of the states of a process.
pub(crate) fn states_named(alloc: Global, body: &Body) -> Result<Items<Items<u8>>, NoMemory>
    ensures { IfOk result (λ names. names ≡ reading.states_named body.now) }
{
    let mut names = Items::new(alloc);
    for state in body.states.as_slice() {
        names.push(joined(alloc, b"", state.name.bytes())?)?;
    }
    Ok(names)
}

// The type of a variable.
fn kind_type(kind: VarKind) -> ValueType
    ensures { result ≡ types.kind_type kind }
{
    match kind {
        VarKind::Int(_) => ValueType::Int,
        VarKind::Node => ValueType::Node,
        VarKind::Set => ValueType::Set,
    }
}

// Adds the variables of a process, named behind this front.
fn add_vars(alloc: Global, scope: &mut Scope, front: &[u8], body: &Body) -> Result<(), NoMemory>
    ensures names { OnOk result (scope.new.names
        ≡ scope.old.names ++ reading.vars_named front.now body.now) }
    ensures types { OnOk result (scope.new.types
        ≡ scope.old.types ++ reading.vars_typed body.now) }
{
    for var in body.vars.as_slice() {
        scope.names.push(joined(alloc, front, var.name.bytes())?)?;
        scope.types.push(kind_type(var.kind))?;
    }
    Ok(())
}

// Nothing.
fn nothing(alloc: Global) -> Scope
    ensures { (result.names ≡ []) × (result.types ≡ []) }
{
    Scope {
        names: Items::new(alloc),
        types: Items::new(alloc),
    }
}

/// What a question of the home alone may name.
pub(crate) fn home_scope(alloc: Global, home: &Body) -> Result<Scope, NoMemory>
    ensures { IfOk result (λ scope. scope ≡ reading.home_scope home.now) }
{
    let mut scope = nothing(alloc);
    add_vars(alloc, &mut scope, b"home.", home)?;
    Ok(scope)
}

/// What a question of remotes may name.
pub(crate) fn remote_scope(alloc: Global, home: &Body, remote: &Body) -> Result<Scope, NoMemory>
    ensures { IfOk result (λ scope. scope ≡ reading.remote_scope home.now remote.now) }
{
    let mut scope = nothing(alloc);
    add_vars(alloc, &mut scope, b"home.", home)?;
    add_vars(alloc, &mut scope, b"remote.", remote)?;
    scope.names.push(joined(alloc, b"remote", b"")?)?;
    scope.types.push(ValueType::Node)?;
    Ok(scope)
}
