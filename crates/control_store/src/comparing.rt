//! How the rows of an image differ from those of a table.

ghost use Rattle.std.specs.Prelude.{◌*◌, ◌≤◌, ◌↔◌, IsTrue, length, Some};
ghost use Rattle.control_store.specs.RowWord.{DecodesRow};
ghost use Rattle.control_store.specs.Head.{Begins};
ghost use Rattle.control_store.specs.Compared.{Compares, FirstWrong};

use crate::heads::Head;
use crate::reading::words_in;
use crate::row_words::decode_row;
use controller_table::{Row, Table};

/// How the rows of an image differ from those of a table.
#[derive(Clone, Copy, Debug, PartialEq, Eq, Drop)]
pub enum Compared {
    /// They are the table's rows.
    Same,
    /// The home or a remote has another number of rows.
    Counts,
    /// The numbers of rows are the table's. This row, counted from 0 over the home and the remote,
    /// is the first one that differs.
    Row(u32),
}

// Whether the word stands for the row.
fn stands_for(word: &[u8; 16], row: &Row) -> bool
    ensures { IsTrue result ↔ DecodesRow word.now (Some row.now) }
{
    match decode_row(word) {
        Some(found) => found == *row,
        None => false,
    }
}

// The place of the first of the rows for which its word doesn't stand, if there is one.
fn first_wrong(rows: &[Row], words: &[u8]) -> Option<usize>
    requires { 16 * length rows.now ≤ length words.now }
    ensures { FirstWrong rows.now words.now result }
{
    for (place, row) in rows.iter().enumerate() {
        let (_, rest) = words.split_at(16 * place);
        let word = rest.first_chunk::<16>()?;
        if !stands_for(word, row) {
            return Some(place);
        }
    }
    None
}

/// Compares the rows of the image that these bytes are, and that begins with this head, with those
/// of the table. Takes no memory.
pub fn compare(head: &Head, bytes: &[u8], table: &Table) -> Compared
    requires { Begins bytes.now head.now }
    ensures { Compares head.now bytes.now table.now result }
{
    let home = table.home().rows.as_slice();
    let remote = table.remote().rows.as_slice();
    if head.home != home.len() as u64 || head.remote != remote.len() as u64 {
        return Compared::Counts;
    }
    let words = words_in(head, bytes);
    if let Some(place) = first_wrong(home, words) {
        return Compared::Row(place as u32);
    }
    let (_, rest) = words.split_at(16 * home.len());
    match first_wrong(remote, rest) {
        Some(place) => Compared::Row((home.len() + place) as u32),
        None => Compared::Same,
    }
}
