//! The steps that are enabled, and runs that a number chooses.
//!
//! - `ready_list`: the steps that are enabled, asked of a machine; `forms`: the kinds of step, by
//!   which they are asked.
//! - `driven`: a run that a number chooses; `turns`: one step of it, and what is counted of it.
//! - `rows`: the enabled steps, kept from turn to turn; `changes`: what a step can change of them;
//!   `silent`: forms of which none is enabled.
//! - `counted`: links that count what is put on them.
//! - `summary`: what is counted over a run; `texts`: the text of it.
//! - `laws`: that where no step is enabled no event takes place either.
#![tactic(auto)]

mod changes;
mod counted;
mod driven;
mod forms;
pub mod laws;
mod ready_list;
mod rows;
mod silent;
mod summary;
mod texts;
mod turns;

pub use driven::drive;
pub use ready_list::ready;
pub use summary::Summary;
pub use texts::summary_text;
