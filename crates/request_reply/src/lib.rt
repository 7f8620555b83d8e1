//! Which message is the reply of which.
#![tactic(auto)]

mod candidates;
mod laws;
mod look;
mod pairs;

pub use laws::{one_reply, plain_pairs_nothing, replies_are_pairs, reply_goes_back};
pub use pairs::{Pairs, down_pairs, pairs_in, up_pairs};
