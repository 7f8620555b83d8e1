//! The slots.

use proto_model::Value;
use slot_reserve::{Admitted, Held, Slots};
use std::test::Fail;

fn request(from: u8) -> Held {
    Held {
        from,
        message: 3,
        value: Value::Unit,
    }
}

#[test]
fn the_last_free_slot_is_kept_for_progress(rt: HostRuntime) -> Result<(), Fail> {
    let mut slots = Slots::new(rt.alloc(), 2)?;
    assert_eq!(rt; slots.size(), 2);
    assert_eq!(rt; slots.held().len(), 0);
    assert_eq!(rt; slots.admit(request(5), false, false), Admitted::Kept);
    assert_eq!(rt; slots.admit(request(7), false, false), Admitted::Nacked);
    assert_eq!(rt; slots.admit(request(7), true, false), Admitted::Kept);
    assert_eq!(rt; slots.held(), [request(5), request(7)].as_slice());
    Ok(())
}
