//! Links that are rings.

use ordered_links::{Links, RingLinks};
use std::test::Fail;

#[test]
fn links_are_made_empty(rt: HostRuntime) -> Result<(), Fail> {
    for n in [1, 64] {
        let links = RingLinks::new(rt.alloc(), n)?;
        assert_eq!(rt; links.count(), n);
        assert_eq!(rt; links.up_at(n - 1, 0), None);
        assert_eq!(rt; links.down_at(n - 1, 0), None);
    }
    Ok(())
}
