//! The steps of the asynchronous machine.

/// A step. Guards are numbered within the state in which their process stands, and remotes, both
/// from 0.
#[derive(Clone, Copy, Debug, PartialEq, Eq)]
pub enum Step {
    /// The home takes the local step of this guard.
    HomeTau(u32),
    /// The home takes the request that it holds of this remote.
    HomeTake(u32),
    /// The home sends by this guard (first) to this remote (second): the reply that it owes, or a
    /// request.
    HomeSend(u32, u32),
    /// The home drops the request that it holds of this remote, and nacks it.
    HomeDrop(u32),
    /// This remote (first) takes the local step of this guard (second).
    RemoteTau(u32, u32),
    /// This remote sends its request.
    RemoteSend(u32),
    /// This remote answers the request in its slot.
    RemoteAnswer(u32),
    /// This remote sends the reply that is due.
    RemoteReply(u32),
    /// The first packet on the up link of this remote arrives at the home.
    Up(u32),
    /// The first packet on the down link of this remote arrives.
    Down(u32),
}
