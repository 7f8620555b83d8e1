//! Questions about the configurations of a protocol: what they ask, and how they are read.
//!
//! - `question`: a question, and its line.
//! - `scope`: what a question may name.
//! - `words`: the words of a line.
//! - `conditions`: conditions, read from words.
//! - `line`: a line, read as a question.
//! - `asking`: all questions of a source, and how reading them ends.
//! - `needs`: which variables questions read, and in which states.
//! - `laws`: what the definitions say, remote by remote.
//! - `worked_lock`: questions about a lock, worked out.
#![tactic(auto)]

mod asking;
mod conditions;
mod laws;
mod line;
mod needs;
mod question;
mod scope;
mod words;
pub mod worked_lock;

pub use asking::{Unread, read_questions};
pub use laws::a_question_is_answered_remote_by_remote;
pub use needs::{asked_of_home, asked_of_remotes};
pub use question::{Asked, Question};
