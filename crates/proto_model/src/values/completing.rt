//! The variables of a process at the start, and after a rule is completed.

ghost use Rattle.std.specs.Prelude.{◌≡◌, ◌<◌, ◌≤◌, List, length};
ghost use Rattle.std.specs.List.{AllByRecursion};
ghost use Rattle.proto_model.specs.Proper.{AreProperKinds, IsProperKind, IsProperVar};
ghost use Rattle.proto_model.specs.Values as values;
ghost use Rattle.proto_model.specs.ValueTypes.{AreOfKinds, IsReceived, IsTyped};
ghost use Rattle.proto_model.specs.declared.numbered.MessageInfo.{MessageInfo};

use crate::numbered::{Rule, RuleAssign, RuleKind, RulePartner, Value, VarInfo};
use crate::protocol::VarKind;
use crate::values::evaluation::{eval, modulo};
use crate::values::vars::Vars;

/// The first values of the variables, of which there are at most 16. Where the declarations are
/// proper, each is of its variable's type.
pub fn first_vars(infos: &[VarInfo]) -> Vars
    requires { length infos.now ≤ 16 }
    ensures value { result ≡ values.first_values infos.now }
    ensures kinds { AllByRecursion IsProperVar infos.now → AreOfKinds infos.now result }
{
    let mut vars = Vars::new();
    for info in infos {
        vars.push(info.first);
    }
    vars
}

// The value as a variable of this type stores it.
fn stored(kind: VarKind, value: Value) -> Value
    requires { IsProperKind kind }
    ensures { result ≡ values.stored kind value }
{
    match kind {
        VarKind::Int(bound) => modulo(value, bound),
        VarKind::Node | VarKind::Set => value,
    }
}

// The value as the variable at this place stores it.
fn stored_at(infos: &[VarInfo], place: u8, value: Value) -> Value
    requires { AreProperKinds infos.now }
    ensures { result ≡ values.stored_at infos.now place value }
{
    match infos.get(place as usize) {
        Some(info) => stored(info.kind, value),
        None => value,
    }
}

// Stores the value in the variable at this place.
fn set_var(infos: &[VarInfo], vars: &mut Vars, place: u8, value: Value)
    requires { AreProperKinds infos.now }
    ensures { vars.new ≡ values.with_var infos.now vars.old place value }
{
    vars.set(place, stored_at(infos, place, value));
}

fn set_partner(infos: &[VarInfo], vars: &mut Vars, partner: RulePartner, node: u8)
    requires { AreProperKinds infos.now }
    ensures { vars.new ≡ values.with_partner infos.now vars.old partner node }
{
    match partner {
        RulePartner::Any(place) | RulePartner::Member(place, _) => {
            set_var(infos, vars, place, Value::Node(node));
        }
        RulePartner::Home | RulePartner::Named(_) => {}
    }
}

fn set_bound(infos: &[VarInfo], vars: &mut Vars, bound: Option<u8>, value: Value)
    requires { AreProperKinds infos.now }
    ensures { vars.new ≡ values.with_bound infos.now vars.old bound value }
{
    if let Some(place) = bound {
        set_var(infos, vars, place, value);
    }
}

// Sets the partner variable, and then the bound variable.
fn meet(infos: &[VarInfo], vars: &mut Vars, kind: RuleKind, partner: u8, value: Value)
    requires { AreProperKinds infos.now }
    ensures { vars.new ≡ values.after_meeting infos.now vars.old kind partner value }
{
    match kind {
        RuleKind::Tau => {}
        RuleKind::Input(with, _, bound) => {
            set_partner(infos, vars, with, partner);
            set_bound(infos, vars, bound, value);
        }
        RuleKind::Output(with, _, _) => set_partner(infos, vars, with, partner),
    }
}

fn assign(infos: &[VarInfo], vars: &mut Vars, assign: &RuleAssign)
    requires { AreProperKinds infos.now }
    ensures { vars.new ≡ values.after_assign infos.now vars.old assign.now }
{
    let value = eval(&assign.value, vars);
    set_var(infos, vars, assign.var, value);
}

/// Completes the rule with this partner and value, in the variables of a process with these
/// declarations: the partner variable becomes the partner, then the bound variable the value, then
/// the assignments are made in order. A remote's rule has no partner variable, so its partner is
/// ignored; a rule that is no input ignores the value. Where the rule is proper, the partner below
/// 64, the value of the type of the message taken in and each variable of its type, each variable
/// still is.
pub fn complete(rule: &Rule, infos: &[VarInfo], vars: &mut Vars, partner: u8, value: Value)
    requires { AreProperKinds infos.now }
    ensures value { vars.new ≡ values.completed infos.now vars.old rule.now partner value }
    ensures kinds { (messages : List MessageInfo)
        → IsTyped messages infos.now vars.old rule.now → partner < 64 → IsReceived messages
        rule.now.kind value
        → AreOfKinds infos.now vars.new }
{
    meet(infos, vars, rule.kind, partner, value);
    for change in rule.assigns.as_slice() {
        assign(infos, vars, change);
    }
}
