//! Lists of sides.

use crate::{Align, Side, Sides};
use std::process::Abort;
use std::test::Fail;

/// Takes what may be sent to other threads and shared between them.
fn share<T: Send + Sync>(_value: &T) {}

#[test]
fn sides_are_kept_in_order(rt: HostRuntime) -> Result<(), Fail> {
    let none = Sides::none();
    assert_eq!(rt; none.as_slice(), [Side::Left; 0].as_slice());
    let one = none.with(Side::Right);
    let two = one.with(Side::Center);
    assert_eq!(rt; one.as_slice(), [Side::Right].as_slice());
    assert_eq!(rt; two.as_slice(), [Side::Right, Side::Center].as_slice());
    assert_eq!(rt; two.len(), 2);
    Ok(())
}

#[test]
fn sides_may_go_to_other_threads() {
    share(&Sides::none());
    share(&Align::Columns(Sides::none()));
    share(&Align::Auto);
    share(&Align::Cells);
}
