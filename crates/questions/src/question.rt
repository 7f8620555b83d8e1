//! A question.

use proto_model::RuleAtom;
use rv_base::Items;

/// A question about configurations of a protocol. Each condition is to be true whenever the home
/// stands in one of some states, for each remote that stands in one of some states. The conditions
/// speak of the variables of the home, then of those of the remote, then of the remote itself, by
/// their places in this order.
#[derive(Drop)]
pub struct Question {
    /// The states of the home, where bit s of the set stands for the state at place s. `None` where
    /// the home may stand anywhere.
    pub home: Option<u64>,
    /// The states of the remotes, as a set. `None` where the question is of the home alone.
    pub with: Option<u64>,
    /// The conditions, in the order of the line.
    pub conds: Items<RuleAtom>,
}

/// A question with the number of its line, counted from 1.
#[derive(Drop)]
pub struct Asked {
    pub line: u32,
    pub question: Question,
}
