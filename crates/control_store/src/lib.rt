//! The image of a table, for a control store: the text of a protocol and the rows of its two
//! controllers as words of 16 bytes.
//!
//! - `row_words`: a row as a word, and the row for which a word stands.
//! - `writing`: the image of a table.
//! - `heads` and `reading`: the head of an image, which tells its parts, and how it is read.
//! - `comparing`: how the rows of an image differ from those of a table.
//! - `laws`: what follows from the definitions alone.
//!
//! What a word, an image and its head are, to the byte, is defined in `specs/`.
#![tactic(auto)]

mod comparing;
mod heads;
mod laws;
mod reading;
mod row_words;
mod writing;

pub use comparing::{Compared, compare};
pub use heads::Head;
pub use laws::{a_word_is_of_one_row, images_tell_their_parts, rows_are_in_range};
pub use reading::{head, text_in};
pub use row_words::{decode_row, encode_row};
pub use writing::image;
