//! The asynchronous machine as a definition: its configurations, its steps, the rows that they
//! fire, and the shape that each configuration of a run has. There is no code here but the plain
//! data of which the definitions speak.
//!
//! - `config`: where the home and the remotes stand.
//! - `step`: the steps.
//! - `laws`: what holds of each configuration of each run.
//! - `worked_steps`: what the definition of a step says of worked runs.
//! - `worked_rows`: which row each of their steps fires.
//!
//! The definitions stand in `specs/`, and each file uses those before it:
//!
//! - `Setting`, `Config`: what the controllers are given, and what they are in at a moment.
//! - `Guards`, `Requests`: the guard by which a process moves, and what becomes of a request that
//!   comes to the home.
//! - `Outcome`, `HomeSteps`, `RemoteSteps`: what each kind of step does.
//! - `Site`, `Next`, `Run`: where it does it, the configuration after it, and a run of steps.
//! - `Fired`: the row that a step fires, and what this row explains.
//! - `View`, `Phase`, `Shape`: what holds of each configuration of a run, remote by remote.
//! - `Bounded`, `Admitting`: what is bounded there and can arrive, and which requests are refused.
#![tactic(auto)]

mod config;
mod laws;
mod step;
pub mod worked_rows;
pub mod worked_steps;

pub use config::{HomePlace, HomeState, RemoteState, Request, Waiting};
pub use laws::{
    every_run_admits_what_is_useful, every_run_is_bounded, every_run_is_shaped,
    every_step_is_by_a_row,
};
pub use step::Step;
