//! The head of an image, read.

use control_store::{Head, head};
use proto_model::Mode;

// The head of an image of mode lean, with a text of 90 bytes, no row of the home and one of a
// remote.
#[test]
fn a_head_and_its_numbers(rt: HostRuntime) {
    let mut bytes = [0u8; 146];
    bytes[..8].copy_from_slice(b"RVCIMG01");
    bytes[15] = 1;
    bytes[23] = 90;
    bytes[39] = 1;
    let told = Head {
        mode: Mode::Lean,
        text: 90,
        home: 0,
        remote: 1,
    };
    assert_eq!(rt; head(&bytes), Some(told));
    assert_eq!(rt; head(&bytes[..145]), None);
}
