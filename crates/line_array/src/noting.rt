//! A step of the machine of one line, with the link on which it put a packet.

ghost use Rattle.std.specs.Prelude.{◌≡◌, ◌≤◌, length, nat_lt, None, if◌then◌else◌};
ghost use Rattle.ordered_links.specs.Lists.{packets_on};
ghost use Rattle.async_machine.specs.Standing.{setting};
ghost use Rattle.line_array.specs.Noted.{link_of, link_if, count_if, may_put_in, IsNoted};
ghost use Rattle.line_array.specs.Standing.{ring_config};

use crate::shared::SharedLink;
use async_machine::{Machine, Stepped};
use async_shape::Step;
use ordered_links::{Links, RingLinks};

/// What became of a step of one line.
#[derive(Clone, Copy, Debug, PartialEq, Eq)]
pub(crate) enum Noted {
    /// The step is done, and it put a packet on this link, if on any.
    Moved(Option<SharedLink>),
    /// The step is not enabled, and nothing changed.
    Refused,
}

// The link on which the step puts a packet, if it puts one: only a request that arrives can send a
// packet to another remote than the one that is named, which is then the sender of the request that
// it displaces.
fn put_link(machine: &Machine<RingLinks>, step: Step) -> Option<SharedLink>
    ensures { link_if result
        ≡ may_put_in (setting machine.now) (ring_config machine.now) step }
{
    match step {
        Step::HomeTau(_) | Step::RemoteTau(_, _) | Step::Down(_) => None,
        Step::HomeTake(j) | Step::HomeSend(_, j) | Step::HomeDrop(j) => Some(SharedLink::Down(j)),
        Step::RemoteSend(j) | Step::RemoteAnswer(j) | Step::RemoteReply(j) => {
            Some(SharedLink::Up(j))
        }
        Step::Up(j) => match machine.would_displace(step) {
            Some(sender) => Some(SharedLink::Down(sender as u32)),
            None => Some(SharedLink::Down(j)),
        },
    }
}

// Whether there is a packet at this place of the link. There is none past the last remote.
fn has_packet(links: &RingLinks, link: SharedLink, place: usize) -> bool
    ensures { result ≡ nat_lt place (length (packets_on (link_of link) links.now)) }
{
    match link {
        SharedLink::Up(j) => j < links.count() as u32 && links.up_at(j as u8, place).is_some(),
        SharedLink::Down(j) => j < links.count() as u32 && links.down_at(j as u8, place).is_some(),
    }
}

// How many packets are on the link, if there is one.
fn count_on(links: &RingLinks, link: Option<SharedLink>) -> usize
    requires { count_if links.now link ≤ 3 }
    ensures { result ≡ count_if links.now link }
{
    let Some(link) = link else {
        return 0;
    };
    for place in 0..3 {
        if !has_packet(links, link, place) {
            return place;
        }
    }
    3
}

// The link, where there are more packets on it than before.
fn grown(link: Option<SharedLink>, before: usize, after: usize) -> Option<SharedLink>
    ensures { result ≡ (if nat_lt before after then link else None) }
{
    if before < after { link } else { None }
}

/// Takes the step, and answers on which link it put a packet, if on any.
pub(crate) fn step_noting(machine: &mut Machine<RingLinks>, step: Step) -> Noted
    ensures step { IsNoted result (setting machine.old) (ring_config machine.old)
        (ring_config machine.new) step }
    ensures kept { (machine.new.table ≡ machine.old.table)
        × (machine.new.slots ≡ machine.old.slots) }
    ensures refused { result ≡ Noted.Refused → machine.new ≡ machine.old }
{
    machine.shaped();
    let link = put_link(machine, step);
    let before = count_on(machine.links(), link);
    match machine.step(step) {
        Stepped::Moved => {
            machine.shaped();
            Noted::Moved(grown(link, before, count_on(machine.links(), link)))
        }
        Stepped::Refused => Noted::Refused,
    }
}
