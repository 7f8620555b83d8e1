//! A row as a word, and the row for which a word stands.

use control_store::{decode_row, encode_row};
use controller_table::{Does, Place, Puts, Row, Trigger};

// The row of a remote that is nacked where it stands in its only state, which is passive.
const NACKED: Row = Row {
    at: Place::Comm(0),
    on: Trigger::AnswerNone,
    puts: Puts::Nack,
    does: Does::Nothing,
    to: Place::Comm(0),
};

#[test]
fn a_row_and_its_word(rt: HostRuntime) {
    let mut word = [0, 0, 0, 5, 0, 3, 0, 0, 0, 0, 0, 0, 0, 0, 0, 0];
    assert_eq!(rt; encode_row(&NACKED), word);
    assert_eq!(rt; decode_row(&word), Some(NACKED));
    word[15] = 1;
    assert_eq!(rt; decode_row(&word), None);
}
