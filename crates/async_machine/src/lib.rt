//! The asynchronous machine: the home and its remotes, which run the controllers of a table over
//! links, one step at a time.
//!
//! The machine sees a table and never a protocol: where a guard leads is told by its row alone.
//! What a step is, is defined in `async_shape`; each function here computes one definition.
//!
//! - `controls`: what the machine asks of its table, as a guard with the state to which it goes.
//! - `choosing`: which guard a process takes, and what becomes of a request that comes to the home.
//! - `parts`: where a process stands after it has completed guards.
//! - `planned`: what a step does, as a plan says it.
//! - `home` and `remote`: the plans of the steps of each; `planning`: the plan of any step.
//! - `performing`: the processes change as a plan says.
//! - `sending`: what a step does to the links.
//! - `start`: where the processes stand at the start.
//! - `machine`: the machine; `stepped`: what becomes of a step.
//! - `inner`: moves of the links by themselves.
//! - `taken_by`: the guards by which requests are taken and answered.
//! - `texts`: the text of a step.
#![tactic(auto)]

mod choosing;
mod controls;
mod home;
mod inner;
mod machine;
mod parts;
mod performing;
mod planned;
mod planning;
mod remote;
mod sending;
mod start;
mod stepped;
mod taken_by;
mod texts;

pub use async_shape::{HomePlace, Request, Step};
pub use controls::{given, home_guard, remote_guard};
pub use machine::Machine;
pub use parts::{home_after_ack, home_after_reply, remote_after_ack, remote_after_reply};
pub use planned::{Change, Debt, HeldChange, HomeChange, Planned};
pub use sending::Sends;
pub use stepped::Stepped;
pub use texts::step_text;
