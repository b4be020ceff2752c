//! Sides as attributes name them.

ghost use Rattle.std.specs.Prelude.{◌≡◌, chars};
ghost use Rattle.tl_token.specs.Elements.{side_named};

use crate::elements::is_word;
use tl_sides::Side;

/// The side of that name, in any case.
pub(crate) fn side_named(name: &str) -> Option<Side>
    ensures { result ≡ side_named (chars name.now) }
{
    if is_word(name, "left") {
        Some(Side::Left)
    } else if is_word(name, "right") {
        Some(Side::Right)
    } else if is_word(name, "center") {
        Some(Side::Center)
    } else {
        None
    }
}
