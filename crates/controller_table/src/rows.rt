//! What a row of a controller is.

/// A guard of a process: the place of its state, and its number within the state. Both count from
/// 0.
#[derive(Clone, Copy, Debug, PartialEq, Eq, Hash, Drop)]
pub struct GuardId {
    pub state: u8,
    pub guard: u8,
}

/// Where a controller stands.
#[derive(Clone, Copy, Debug, PartialEq, Eq, Hash, Drop)]
pub enum Place {
    /// In the communication state at this place.
    Comm(u8),
    /// In the transient state after the request of this guard was sent.
    Trans(GuardId),
    /// A remote that has taken a request and still has to send the reply, the output of this guard.
    Due(GuardId),
}

/// What makes a controller move. The number of a guard is the one within the state of the place.
#[derive(Clone, Copy, Debug, PartialEq, Eq, Hash, Drop)]
pub enum Trigger {
    /// It takes the local step of this guard.
    Tau(u8),
    /// It sends the message of this output.
    Send(u8),
    /// The home pays the reply that it owes by this output.
    Pay(u8),
    /// The home takes a request that it holds by this input.
    Take(u8),
    /// A remote answers the request in its slot by this input.
    Answer(u8),
    /// A remote answers the request in its slot, which no input takes.
    AnswerNone,
    /// An ack came.
    GotAck,
    /// A nack came.
    GotNack,
    /// The reply that is this message came.
    GotReply(u8),
    /// A request came from the remote for which the home waits.
    GotRequest,
}

/// What a controller puts on a link, or what it then owes. The number is that of a message.
#[derive(Clone, Copy, Debug, PartialEq, Eq, Hash, Drop)]
pub enum Puts {
    Nothing,
    Request(u8),
    Ack,
    Nack,
    Reply(u8),
    /// The home puts nothing, and owes this reply to the remote whose request it took.
    Owe(u8),
}

/// The guards that a controller completes: none, one, or one and then another.
#[derive(Clone, Copy, Debug, PartialEq, Eq, Hash, Drop)]
pub enum Does {
    Nothing,
    One(GuardId),
    Two(GuardId, GuardId),
}

/// One row of a controller: where it stands and what makes it move, what it puts on a link, the
/// guards that it completes, and where it stands then.
#[derive(Clone, Copy, Debug, PartialEq, Eq, Hash, Drop)]
pub struct Row {
    pub at: Place,
    pub on: Trigger,
    pub puts: Puts,
    pub does: Does,
    pub to: Place,
}
