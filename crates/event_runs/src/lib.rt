//! Runs of the rendezvous meaning: where a list of events leads, and which configurations events
//! reach. There is no code here, only definitions and laws of them, each of them the contract of a
//! function that does nothing.
#![tactic(auto)]

mod laws;
mod property;

pub use laws::{events_reach_on, what_each_event_keeps, where_events_lead_is_computed};
pub use property::Property;
