//! The grammar by recursive descent: each function takes what the reading rule of its name takes.

mod assignment;
mod claim;
mod condition;
mod expression;
mod guard;
mod message;
mod name;
mod number;
mod process;
mod protocol;
mod repeated;
mod token;
mod variable;

pub use protocol::file;
