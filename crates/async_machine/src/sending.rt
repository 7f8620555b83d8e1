//! What a step does to the links: one put at most, and then one take at most.

ghost use Rattle.std.specs.Prelude.{◌≡◌, ◌<◌, length};
ghost use Rattle.ordered_links.specs.Lists.{first_packet, packets_on};
ghost use Rattle.async_shape.specs.Next.{links_put, links_left};
ghost use Rattle.async_shape.specs.Site.{site, arrival_link};
ghost use Rattle.async_machine.specs.Moves.{put_said, HasRoom};
ghost use Rattle.async_machine.specs.Effects.{DidPut, DidTake};
ghost use Rattle.async_machine.specs.Arriving.{IsLinked, arriving_on};

use async_shape::Step;
use ordered_links::{Links, Packet};

/// What a step puts on a link.
#[derive(Clone, Copy, Debug, PartialEq, Eq, Drop)]
pub enum Sends {
    /// It puts nothing.
    Nothing,
    /// It puts this packet on the up link of this remote.
    Up(u8, Packet),
    /// It puts this packet on the down link of this remote.
    Down(u8, Packet),
}

/// The packet that arrives in the step: the first one of the link from which it takes.
pub(crate) fn arriving<L: Links>(links: &L, step: Step) -> Option<Packet>
    requires { IsLinked (length (L.lists links.now)) step }
    ensures { result ≡ arriving_on (L.lists links.now) step }
{
    match step {
        Step::Up(j) => links.up_at(j as u8, 0),
        Step::Down(j) => links.down_at(j as u8, 0),
        Step::HomeTau(_)
        | Step::HomeTake(_)
        | Step::HomeSend(_, _)
        | Step::HomeDrop(_)
        | Step::RemoteTau(_, _)
        | Step::RemoteSend(_)
        | Step::RemoteAnswer(_)
        | Step::RemoteReply(_) => None,
    }
}

/// Puts what the step sends on its link.
pub(crate) fn send<L: Links>(links: &mut L, sends: Sends)
    requires { HasRoom (L.lists links.old) sends }
    ensures lists { L.lists links.new ≡ links_put (put_said sends) (L.lists links.old) }
    ensures effect { DidPut L.put_effect links.old (put_said sends) links.new }
{
    match sends {
        Sends::Nothing => {}
        Sends::Up(j, packet) => links.put_up(j, packet),
        Sends::Down(j, packet) => links.put_down(j, packet),
    }
}

/// Takes the packet that arrived in the step from its link.
pub(crate) fn take<L: Links>(links: &mut L, step: Step)
    requires { IsLinked (length (L.lists links.old)) step }
    ensures lists { L.lists links.new
        ≡ links_left (arrival_link (site step)) (L.lists links.old) }
    ensures effect { DidTake L.take_effect links.old (arrival_link (site step)) links.new }
{
    match step {
        Step::Up(j) => {
            let _ = links.take_up(j as u8);
        }
        Step::Down(j) => {
            let _ = links.take_down(j as u8);
        }
        Step::HomeTau(_)
        | Step::HomeTake(_)
        | Step::HomeSend(_, _)
        | Step::HomeDrop(_)
        | Step::RemoteTau(_, _)
        | Step::RemoteSend(_)
        | Step::RemoteAnswer(_)
        | Step::RemoteReply(_) => {}
    }
}
