//! The image of a table.

ghost use Rattle.std.specs.Prelude.{◌≡◌, length};
ghost use Rattle.rv_base.specs.Appended.{Appends};
ghost use Rattle.proto_model.specs.Continued.{Continues};
ghost use Rattle.control_store.specs.Image as images;

use crate::row_words::encode_row;
use controller_table::{Row, Table};
use proto_model::{Appending, Mode, append};
use rv_base::NoMemory;

/// The bytes with which each image begins.
pub(crate) const MARK: &[u8] = b"RVCIMG01";

// The number of a mode.
fn mode_number(mode: Mode) -> u64
    ensures { result ≡ images.mode_number mode }
{
    match mode {
        Mode::Plain => 0,
        Mode::Lean => 1,
    }
}

// Appends a number as eight bytes, the greatest first, unless memory ran out before.
#[tactic(auto, unfolding(crate::specs::Image::eight))]
fn append_eight(out: &mut Vec<u8>, so_far: Appending, number: u64) -> Appending
    ensures { Continues (images.eight number) so_far out.old.items result out.new.items }
{
    append(out, so_far, &number.to_be_bytes())
}

// Appends the words of the rows, unless memory ran out before.
fn append_words(out: &mut Vec<u8>, so_far: Appending, rows: &[Row]) -> Appending
    ensures { Continues (images.words_of rows.now) so_far out.old.items result out.new.items }
{
    let mut so_far = so_far;
    for row in rows {
        so_far = append(out, so_far, &encode_row(row));
    }
    so_far
}

// Appends the head of the table's image with a text of so many bytes.
fn append_head(out: &mut Vec<u8>, table: &Table, text: usize) -> Appending
    ensures { Appends (images.head_bytes table.now.mode text (length table.now.home.rows)
        (length table.now.remote.rows)) result out.old.items out.new.items }
{
    let home = table.home().rows.as_slice().len();
    let remote = table.remote().rows.as_slice().len();
    let so_far = append(out, Ok(()), MARK);
    let so_far = append_eight(out, so_far, mode_number(table.mode()));
    let so_far = append_eight(out, so_far, text as u64);
    let so_far = append_eight(out, so_far, home as u64);
    append_eight(out, so_far, remote as u64)
}

/// Appends the image of this table with this text, the laid-out text of its protocol: it tells the
/// table's mode, and has the text and the table's rows. After `NoMemory` the vector is as before
/// followed by a front of the image.
pub fn image(text: &[u8], table: &Table, out: &mut Vec<u8>) -> Result<(), NoMemory>
    ensures { Appends (images.image text.now table.now) result out.old.items out.new.items }
{
    let so_far = append_head(out, table, text.len());
    let so_far = append(out, so_far, text);
    let so_far = append_words(out, so_far, table.home().rows.as_slice());
    append_words(out, so_far, table.remote().rows.as_slice())
}
