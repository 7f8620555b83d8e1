//! What is counted over a run.

ghost use Rattle.std.specs.Prelude.{◌≡◌};
ghost use Rattle.drive_report.specs.Turns.{nothing_counted};

/// What is counted over a run that was driven from the start.
#[derive(Clone, Copy, Debug, PartialEq, Eq)]
pub struct Summary {
    /// The steps that were taken.
    pub steps: u64,
    /// Those that are told as events.
    pub events: u64,
    /// The requests that were put on links.
    pub requests: u64,
    /// The acks that were put on links.
    pub acks: u64,
    /// The nacks that were put on links.
    pub nacks: u64,
    /// The replies that were put on links.
    pub replies: u64,
    /// The requests that arrived at a home that waited on their sender.
    pub crossed: u64,
    /// The greatest number of requests held in any configuration.
    pub most_held: u64,
    /// The greatest number of packets on one up link in any configuration.
    pub most_up: u64,
    /// The greatest number of packets on one down link in any configuration.
    pub most_down: u64,
    /// A turn found no enabled step.
    pub stopped: bool,
}

impl Summary {
    /// The summary of no run yet.
    pub(crate) fn nothing() -> Summary
        ensures { result ≡ nothing_counted }
    {
        Summary {
            steps: 0,
            events: 0,
            requests: 0,
            acks: 0,
            nacks: 0,
            replies: 0,
            crossed: 0,
            most_held: 0,
            most_up: 0,
            most_down: 0,
            stopped: false,
        }
    }
}
