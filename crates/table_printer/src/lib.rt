//! The two forms in which a table is written: as text, and as JSON.
//!
//! - `names`: names as text.
//! - `rows`: the five texts of a row, which both forms show.
//! - `text`: the table as lines of text.
//! - `json`: the table as JSON.
//!
//! What each of them is, to the byte, is defined in `specs/`.
#![tactic(auto)]

mod json;
mod names;
mod rows;
mod text;

pub use json::table_json;
pub use text::table_text;
