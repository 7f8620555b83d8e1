//! Numbers read from decimal text.

use rv_base::read_number;
use std::test::Fail;

#[test]
fn only_a_decimal_text_within_the_bound_is_read(rt: HostRuntime) -> Result<(), Fail> {
    let cases: [(&[u8], u64, Option<u64>); 9] = [
        (b"0", 0, Some(0)),
        (b"99999", 99_999, Some(99_999)),
        (b"18446744073709551615", u64::MAX, Some(u64::MAX)),
        (b"18446744073709551616", u64::MAX, None),
        (b"65", 64, None),
        (b"02", 64, None),
        (b"", 64, None),
        (b"+1", 64, None),
        (b"1\xb2", 64, None),
    ];
    for (text, most, number) in cases {
        assert_eq!(rt; read_number(text, most), number);
    }
    Ok(())
}
