//! What no event of the rendezvous meaning can break, no interleaving of the controllers can: what
//! a run of the controllers stands for is a run of events. There is no code here, only laws of the
//! definitions, each of them the contract of a function that does nothing.
//!
//! - `laws`: what each run of the controllers keeps, if events keep it.
//! - `worked_events`: which events worked runs tell, and where these lead.
#![tactic(auto)]

mod laws;
pub mod worked_events;

pub use laws::{
    driven_runs_never_stop, events_lead_where_interleavings_mean, interleavings_reach_nothing_new,
    interleavings_report_no_other_events, never_stuck, what_events_keep_interleavings_keep,
};
