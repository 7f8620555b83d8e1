//! The rows of the controller of a remote, and the rows that both controllers have.
//!
//! - `replies`: the reply of each message.
//! - `paired_body`: a body beside the messages of its protocol and their replies.
//! - `both_sides`: the rows of local steps and of outputs, which are alike in both controllers.
//! - `states`: the rows of all states of a body, in order, for both controllers.
//! - `remote`: the rows of a remote.
#![tactic(auto)]

mod both_sides;
mod paired_body;
mod remote;
mod replies;
mod states;

pub use both_sides::{back_row, push_sending, tau_row};
pub use paired_body::PairedBody;
pub use remote::{remote_rows, remote_rows_of};
pub use replies::all_replies;
pub use states::{GuardRows, StateRows, push_guards, push_states};
