//! The call that does all that the program does: it takes words, a protocol file and a schedule,
//! and gives a text and a status.
//!
//! - `command`: the words of the command line, and what they mean.
//! - `status`: how a run ends.
//! - `top`: the call itself, which does what the words ask.
//! - `file` and `checked_file`: the protocol file, read to its end and taken for the value that a
//!   command wants of it, or refused.
//! - `file_command`: a command that reads the file alone, and how it is run; `file_commands`: each
//!   of them, with the text that it writes of the value that the file holds.
//! - `schedule_command`: a command that reads the file and then replays a schedule, and how it is
//!   run; `schedule_commands`: each of them, with what it does with the schedule.
//! - `conclusion`: how a run ends by how its replay ended.
//! - `store` and `boot`: what a command stores of a protocol, and an image taken for what was
//!   stored.
//! - `reply`: a text is written, and the run ends with it.
//! - `example`: the example protocols.
//! - `steady`: the call over sources and a sink that never fail.
//! - `laws`: each run has a verdict, and one alone; `store_laws`: an image is of one protocol in
//!   one mode, and booting it is running that; `audit_laws`: each trace is accepted, and what is
//!   accepted is a run; `kept_laws`: what no event can break, no run can; `boot_laws`: what is
//!   stored is booted; `headline`: what `run` and `boot` show, as one statement; `lossy_laws`: what
//!   `lossy` shows is what `run` does.
//!
//! The definitions that the contracts cite are in `specs/`: what each command does stands once, in
//! `Commands`, and all else follows from that. The verdict is in `Verdict`, what a run leaves in
//! `Endings`.
#![tactic(auto)]

mod audit_laws;
mod boot;
mod boot_laws;
mod checked_file;
mod command;
mod conclusion;
mod example;
mod file;
mod file_command;
mod file_commands;
mod headline;
mod kept_laws;
mod laws;
mod lossy_laws;
mod reply;
mod schedule_command;
mod schedule_commands;
mod status;
mod steady;
mod store;
mod store_laws;
mod top;

pub use array_replay::read_array_line;
pub use audit_laws::{every_trace_is_accepted, what_is_accepted_is_a_run};
pub use boot_laws::what_is_stored_is_booted;
pub use command::{Command, Driving, words_mean};
pub use example::{Example, example_text};
pub use headline::{what_boot_shows, what_run_shows};
pub use kept_laws::what_events_keep_runs_keep;
pub use laws::{every_run_is_decided, every_verdict_is_one};
pub use lossy_laws::what_lossy_shows;
pub use status::Status;
pub use steady::rvc_steady;
pub use store_laws::{an_image_is_of_one_protocol, booting_is_running};
pub use top::rvc;
