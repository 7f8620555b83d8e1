//! Which deliveries wait.

ghost use Rattle.std.specs.Prelude.{◌≡◌, ◌<◌, length};
ghost use Rattle.ordered_links.specs.Lists.{packets_on};
ghost use Rattle.faulty_link.specs.Moves.{link_on};
ghost use Rattle.faulty_link.specs.Wire.{wire_on, wire_lists};
ghost use Rattle.lossy_replay.specs.LossyTrace as spec;
ghost use Rattle.lossy_replay.specs.Standing.{running_of};

use async_machine::{Machine, Step};
use faulty_link::{LossyLinks, Way};
use ordered_links::Links;

// Whether packets are on this link of remote j, and none has arrived there.
fn none_arrived(links: &LossyLinks, j: u8, way: Way) -> bool
    requires { j < length links.now }
    ensures { result ≡ spec.none_arrived (packets_on (link_on j way) (wire_lists links.now))
        (wire_on (link_on j way) links.now).inbox }
{
    if links.arrived(j, way) {
        return false;
    }
    match way {
        Way::Up => links.up_at(j, 0).is_some(),
        Way::Down => links.down_at(j, 0).is_some(),
    }
}

// The same of the remote with this number; false where there is no such remote.
fn none_arrived_of(links: &LossyLinks, j: u32, way: Way) -> bool
    ensures { result ≡ spec.none_arrived (packets_on (link_on j way) (wire_lists links.now))
        (wire_on (link_on j way) links.now).inbox }
{
    if j >= u32::from(links.count()) {
        return false;
    }
    none_arrived(links, j as u8, way)
}

/// Whether the step waits: it is a delivery from a link on which packets are, and none has arrived
/// there. Each other step goes on, whether the machine takes or refuses it.
pub(crate) fn waits(machine: &Machine<LossyLinks>, step: Step) -> bool
    ensures { result ≡ spec.waits (running_of machine.now) step }
{
    match step {
        Step::Up(j) => none_arrived_of(machine.links(), j, Way::Up),
        Step::Down(j) => none_arrived_of(machine.links(), j, Way::Down),
        Step::HomeTau(_)
        | Step::HomeTake(_)
        | Step::HomeSend(_, _)
        | Step::HomeDrop(_)
        | Step::RemoteTau(_, _)
        | Step::RemoteSend(_)
        | Step::RemoteAnswer(_)
        | Step::RemoteReply(_) => false,
    }
}
