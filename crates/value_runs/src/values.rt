//! The values that rules compute with.

ghost use Rattle.std.specs.Prelude.{◌≡◌, IfOk};
ghost use Rattle.proto_model.specs.Proper.{IsBound, IsProperKind};

use proto_model::{
    Carry, Name, Rule, RuleAssign, RuleExpr, RuleKind, RulePartner, RuleTerm, Value, VarInfo,
    VarKind, complete, eval, first_vars, guard_open, send_value, targets,
};
use rv_base::{Items, NoMemory};
use std::alloc::Global;
use std::test::Fail;

// The variable `x`.
#[tactic(auto, unfolding(proto_model::specs::Tokens::is_word))]
fn variable(alloc: Global, kind: VarKind, first: Value) -> Result<VarInfo, NoMemory>
    ensures { IfOk result (λ v. (v.kind ≡ kind) × (v.first ≡ first)) }
{
    Ok(VarInfo {
        name: Name::new(alloc, b"x")?,
        kind,
        first,
    })
}

// An int below the bound, which is 0 at first.
fn int_below(alloc: Global, bound: u32) -> Result<VarInfo, NoMemory>
    requires { IsBound bound }
    ensures { IfOk result (λ v. IsProperKind v.kind) }
{
    variable(alloc, VarKind::Int(bound), Value::Int(0))
}

fn rule(alloc: Global, kind: RuleKind) -> Rule {
    Rule {
        kind,
        conds: Items::new(alloc),
        assigns: Items::new(alloc),
        next: 0,
    }
}

// The variable less one.
fn one_less(place: u8) -> RuleExpr {
    RuleExpr::Minus(RuleTerm::Var(place), RuleTerm::Number(1))
}

#[test]
fn ints_are_modulo_65536_and_reduced_where_they_are_sent(rt: HostRuntime) -> Result<(), Fail> {
    let alloc = rt.alloc();
    let vars = first_vars(&[variable(alloc, VarKind::Int(4), Value::Int(0))?]);
    let below_none = one_less(0);
    assert_eq!(rt; eval(&below_none, &vars), Value::Int(65_535));
    let more = RuleExpr::Plus(RuleTerm::Number(65_535), RuleTerm::Number(1));
    assert_eq!(rt; eval(&more, &vars), Value::Int(0));
    let output = rule(
        alloc,
        RuleKind::Output(RulePartner::Home, 0, Some(below_none)),
    );
    for (bound, sent) in [(2, 1), (3, 0), (4, 3), (65_536, 65_535)] {
        assert_eq!(rt;
            send_value(&output, &vars, Carry::Int(bound)),
            Value::Int(sent)
        );
    }
    Ok(())
}

#[test]
fn assignments_are_reduced_and_see_the_ones_before(rt: HostRuntime) -> Result<(), Fail> {
    let alloc = rt.alloc();
    let infos = [int_below(alloc, 4)?, int_below(alloc, 3)?];
    let mut vars = first_vars(&infos);
    let mut tau = rule(alloc, RuleKind::Tau);
    tau.assigns.push(RuleAssign {
        var: 0,
        value: one_less(0),
    })?;
    tau.assigns.push(RuleAssign {
        var: 1,
        value: one_less(0),
    })?;
    assert!(rt; guard_open(&tau, &vars));
    complete(&tau, &infos, &mut vars, 0, Value::Unit);
    assert_eq!(rt; vars.at(0), Some(Value::Int(3)));
    assert_eq!(rt; vars.at(1), Some(Value::Int(2)));
    assert_eq!(rt; vars.at(2), None);
    Ok(())
}

#[test]
fn targets_are_below_n(rt: HostRuntime) -> Result<(), Fail> {
    let alloc = rt.alloc();
    let vars = first_vars(&[
        variable(alloc, VarKind::Node, Value::Node(5))?,
        variable(alloc, VarKind::Set, Value::Set(1 << 63 | 0b110))?,
        variable(alloc, VarKind::Node, Value::Nowhere)?,
    ]);
    for (partner, n, set) in [
        (RulePartner::Any(0), 1, 1),
        (RulePartner::Any(0), 64, u64::MAX),
        (RulePartner::Member(0, 1), 2, 0b10),
        (RulePartner::Member(0, 1), 64, 1 << 63 | 0b110),
        (RulePartner::Named(0), 5, 0),
        (RulePartner::Named(0), 6, 1 << 5),
        (RulePartner::Named(2), 64, 0),
    ] {
        let input = rule(alloc, RuleKind::Input(partner, 0, None));
        assert_eq!(rt; targets(&input, &vars, n), set);
    }
    Ok(())
}
