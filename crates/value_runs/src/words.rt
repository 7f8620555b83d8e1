//! The words of a line of text.

use rv_base::{next_word, word_at};
use std::test::Fail;

#[test]
fn blanks_part_words_and_a_comment_ends_them(rt: HostRuntime) -> Result<(), Fail> {
    let line = b" \tup\r 0/1/\x0b/ 2//3 4".as_slice();
    let words: [&[u8]; 3] = [b"up", b"0/1/\x0b/", b"2"];
    let mut rest = line;
    for (place, word) in words.iter().enumerate() {
        assert_eq!(rt; word_at(line, place), Some(*word));
        let Some((first, others)) = next_word(rest) else {
            return Err("no word".into());
        };
        assert_eq!(rt; first, *word);
        rest = others;
    }
    assert!(rt; word_at(line, 3).is_none());
    assert!(rt; next_word(rest).is_none());
    assert!(rt; word_at(b" // up 0", 0).is_none());
    assert!(rt; next_word(b" // up 0").is_none());
    Ok(())
}
