//! The texts of values, messages with their values, variables, rendezvous lines and events.

ghost use Rattle.proto_model.specs.ValueTypes.{IsCarried};

use proto_model::{
    Body, Carry, Event, MessageInfo, Name, Part, StateInfo, Value, VarInfo, VarKind, event_text,
    first_vars, message_text, rv_line, vars_text,
};
use rv_base::{Items, NoMemory};
use std::alloc::Global;
use std::test::Fail;

fn variable(name: Name, kind: VarKind, first: Value) -> VarInfo {
    VarInfo { name, kind, first }
}

// Four variables and the one state `H`.
#[tactic(auto, unfolding(proto_model::specs::Tokens::is_word))]
fn body(alloc: Global) -> Result<Body, NoMemory> {
    let mut vars = Items::new(alloc);
    vars.push(variable(Name::new(alloc, b"c")?, VarKind::Int(4), Value::Int(3)))?;
    vars.push(variable(Name::new(alloc, b"e")?, VarKind::Int(3), Value::Int(0)))?;
    vars.push(variable(Name::new(alloc, b"x")?, VarKind::Node, Value::Nowhere))?;
    vars.push(variable(Name::new(alloc, b"s")?, VarKind::Set, Value::Set(0)))?;
    let mut states = Items::new(alloc);
    states.push(StateInfo {
        name: Name::new(alloc, b"H")?,
        rules: Items::new(alloc),
    })?;
    Ok(Body {
        vars,
        start: 0,
        states,
    })
}

// Appends the message `m` with this value, and a space.
#[tactic(auto, unfolding(proto_model::specs::Tokens::is_word))]
fn show(alloc: Global, carries: Carry, value: Value, out: &mut Vec<u8>) -> Result<(), NoMemory>
    requires { IsCarried carries value }
{
    let message = MessageInfo {
        name: Name::new(alloc, b"m")?,
        up: true,
        carries,
    };
    message_text(alloc, &message, value, out)?;
    Ok(out.push(b' ')?)
}

#[test]
fn messages_show_their_values(rt: HostRuntime) -> Result<(), Fail> {
    let alloc = rt.alloc();
    let mut out = Vec::new(alloc);
    show(alloc, Carry::Nothing, Value::Unit, &mut out)?;
    show(alloc, Carry::Int(65_536), Value::Int(65_535), &mut out)?;
    show(alloc, Carry::Node, Value::Nowhere, &mut out)?;
    show(alloc, Carry::Node, Value::Node(63), &mut out)?;
    show(alloc, Carry::Set, Value::Set(0), &mut out)?;
    show(alloc, Carry::Set, Value::Set(1 << 63 | 0b101), &mut out)?;
    assert_eq!(rt;
        out.as_slice(),
        b"m m(65535) m(none) m(#63) m({}) m({0,2,63}) ".as_slice()
    );
    Ok(())
}

#[test]
fn lines_show_states_and_variables(rt: HostRuntime) -> Result<(), Fail> {
    let alloc = rt.alloc();
    let body = body(alloc)?;
    let infos = body.vars.as_slice();
    assert!(rt; infos.len() <= 16);
    let part = Part {
        state: body.start,
        vars: first_vars(infos),
    };
    assert_eq!(rt; part.vars.len() as usize, infos.len());
    assert!(rt; (part.state as usize) < body.states.as_slice().len());
    let mut out = Vec::new(alloc);
    vars_text(alloc, &body, &part.vars, &mut out)?;
    out.push(b'\n')?;
    rv_line(alloc, &body, &part, None, &mut out)?;
    rv_line(alloc, &body, &part, Some(0), &mut out)?;
    assert_eq!(rt;
        out.as_slice(),
        b" c=3 e=0 x=none s={}\n  home H c=3 e=0 x=none s={}\n  remote 0 H c=3 e=0 x=none s={}\n".as_slice()
    );
    Ok(())
}

#[test]
fn events_are_their_words(rt: HostRuntime) -> Result<(), Fail> {
    let alloc = rt.alloc();
    let mut out = Vec::new(alloc);
    for event in [
        Event::TauHome(1),
        Event::TauRemote(63, 15),
        Event::Up(0, 1, 2),
        Event::Down(0, 99_999, 0),
    ] {
        event_text(alloc, event, &mut out)?;
        out.push(b'\n')?;
    }
    assert_eq!(rt;
        out.as_slice(),
        b"tau home 1\ntau 63 15\nup 0 1 2\ndown 0 99999 0\n".as_slice()
    );
    Ok(())
}
