//! Schedules, read line by line and replayed.
//!
//! A schedule is a text of lines, each of which says an item: an event, or a step. It is played on
//! a machine item by item, and its trace tells what the machine did at each. The loop knows no
//! machine: whoever replays something else writes a `Player`.
//!
//! - `limits`: how long a line and a schedule may be.
//! - `line_buffer`: what a reader of lines holds of its source.
//! - `lines`: the lines of a source, one at a time.
//! - `player`: what a schedule is played on.
//! - `replaying`: the loop that replays a schedule, and how it ends.
//! - `events`: what a line of a schedule of events says.
//! - `given_message`: the message that is given in an event, as a trace tells of it.
//! - `rv_trace`: the texts of which a trace of events is made.
//! - `rv_player`: schedules of events, played on the rendezvous meaning of a protocol.
#![tactic(auto)]

mod events;
mod given_message;
mod limits;
mod line_buffer;
mod lines;
mod player;
mod replaying;
mod rv_player;
mod rv_trace;

pub use events::{leading_event, read_event_line};
pub use given_message::{put_given, put_message};
pub use limits::{Limits, SCHEDULE_LIMITS};
pub use lines::{Lines, NextLine};
pub use player::{Meaning, Player};
pub use replaying::{Replayed, play_schedule};
pub use rv_player::{RvPlayer, replay_events};
pub use rv_trace::{put_home_line, put_remote_line, rv_lines};
