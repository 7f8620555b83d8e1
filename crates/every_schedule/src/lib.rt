//! What no event of the rendezvous meaning can break, no schedule can: of steps, of steps over a
//! network that loses, repeats and reorders, and of steps of many cache lines. There is no code
//! here, only laws of the definitions, each of them the contract of a function that does nothing.
#![tactic(auto)]

mod laws;

pub use laws::{
    no_schedule_breaks_a_claim, what_events_keep_each_line_keeps, what_events_keep_networks_keep,
    what_events_keep_schedules_keep,
};
