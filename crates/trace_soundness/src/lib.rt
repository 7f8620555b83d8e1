//! What each trace of a run is: a text that the auditor of traces accepts, in lines that are not
//! long. There is no code here, only laws of the definitions, each of them the contract of a
//! function that does nothing.
#![tactic(auto)]

pub mod laws;
