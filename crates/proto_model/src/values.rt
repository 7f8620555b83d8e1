//! The values that rules compute with. No call here takes memory.

mod completing;
mod evaluation;
mod number_sets;
mod vars;

pub use completing::{complete, first_vars};
pub use evaluation::{
    eval, guard_open, is_at_most, is_below, is_in, is_target, same_value, send_value, targets,
};
pub use number_sets::{has_number, with_number, without_number};
pub use vars::Vars;
