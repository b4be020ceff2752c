//! Lists of least widths.

use crate::Floors;
use std::process::Abort;
use std::test::Fail;

/// Takes what may be sent to other threads and shared between them.
fn share<T: Send + Sync>(_value: &T) {}

#[test]
fn least_widths_are_kept_in_order(rt: HostRuntime) -> Result<(), Fail> {
    let none = Floors::none();
    assert_eq!(rt; none.as_slice(), [0u32; 0].as_slice());
    let one = none.with(500);
    let two = one.with(0);
    assert_eq!(rt; one.as_slice(), [500u32].as_slice());
    assert_eq!(rt; two.as_slice(), [500u32, 0].as_slice());
    assert_eq!(rt; two.len(), 2);
    Ok(())
}

#[test]
fn least_widths_may_go_to_other_threads() {
    share(&Floors::none());
}
