//! Numbers as decimal text.

use rv_base::put_number;
use std::test::Fail;

#[test]
fn a_number_follows_what_stands_before_it(rt: HostRuntime) -> Result<(), Fail> {
    let mut out = b"n=".to_vec(rt.alloc())?;
    for number in [0, 65_536, u64::MAX] {
        put_number(rt.alloc(), number, &mut out)?;
        out.push(b' ')?;
    }
    assert_eq!(rt;
        out.as_slice(),
        b"n=0 65536 18446744073709551615 ".as_slice()
    );
    Ok(())
}
