//! Where the processes that an event names stand after it, if it takes place.

ghost use Rattle.std.specs.Prelude.{◌≡◌, ◌<◌, ◌≤◌, length, Some, None};
ghost use Rattle.proto_model.specs.Proper.{AreProperKinds};
ghost use Rattle.proto_model.specs.Guards as guards;
ghost use Rattle.proto_model.specs.RendezvousNext as next;
ghost use Rattle.rendezvous_meaning.specs.GivenMessage as texts;

use proto_model::{
    Body, Part, Rule, Value, accepts, complete, given, guard_at, guard_open, is_open_tau, is_target,
};
use star_check::Checked;

// The process after it has completed the guard with this partner and value.
fn after_guard(body: &Body, part: &Part, rule: &Rule, partner: u8, value: Value) -> Part
    requires { AreProperKinds body.now.vars }
    ensures { result ≡ guards.after_guard body.now part.now.vars rule.now rule.now.next partner
        value }
{
    let mut vars = part.vars;
    complete(rule, body.vars.as_slice(), &mut vars, partner, value);
    Part {
        state: rule.next,
        vars,
    }
}

/// The process after its local step by the guard of this number.
pub(crate) fn tau_part(body: &Body, part: &Part, number: u32) -> Option<Part>
    requires { AreProperKinds body.now.vars }
    ensures { result ≡ next.tau_part body.now part.now number }
{
    let rule = guard_at(body, part.state, number as usize)?;
    if is_open_tau(rule, &part.vars) {
        Some(after_guard(body, part, rule, 0, Value::Unit))
    } else {
        None
    }
}

/// The number of the message that the process gives by its guard with this number, and the value.
pub(crate) fn given_by(
    protocol: &Checked,
    body: &Body,
    part: &Part,
    number: u32,
) -> Option<(u8, Value)>
    ensures { result ≡ texts.given_by protocol.now.protocol.messages body.now part.now number }
{
    let rule = guard_at(body, part.state, number as usize)?;
    given(protocol.messages(), rule, &part.vars)
}

/// The home and remote j after a rendezvous in which the remote's guard r gives a message to the
/// home's guard h.
pub(crate) fn up_parts(
    protocol: &Checked,
    home: &Part,
    remote: &Part,
    j: u8,
    h: u32,
    r: u32,
) -> Option<(Part, Part)>
    ensures { result ≡ next.up_parts protocol.now.protocol home.now remote.now j h r }
{
    let output = guard_at(protocol.remote(), remote.state, r as usize)?;
    let input = guard_at(protocol.home(), home.state, h as usize)?;
    let (message, value) = given(protocol.messages(), output, &remote.vars)?;
    if accepts(input, &home.vars, message) && is_target(input, &home.vars, j) {
        Some((
            after_guard(protocol.home(), home, input, j, value),
            after_guard(protocol.remote(), remote, output, 0, Value::Unit),
        ))
    } else {
        None
    }
}

/// The home and remote j after a rendezvous in which the home's guard h gives a message to the
/// remote's guard r.
pub(crate) fn down_parts(
    protocol: &Checked,
    home: &Part,
    remote: &Part,
    j: u8,
    h: u32,
    r: u32,
) -> Option<(Part, Part)>
    ensures { result ≡ next.down_parts protocol.now.protocol home.now remote.now j h r }
{
    let output = guard_at(protocol.home(), home.state, h as usize)?;
    let input = guard_at(protocol.remote(), remote.state, r as usize)?;
    if !(guard_open(output, &home.vars) && is_target(output, &home.vars, j)) {
        return None;
    }
    let (message, value) = given(protocol.messages(), output, &home.vars)?;
    if accepts(input, &remote.vars, message) {
        Some((
            after_guard(protocol.home(), home, output, j, Value::Unit),
            after_guard(protocol.remote(), remote, input, 0, value),
        ))
    } else {
        None
    }
}
