//! The widest of the units that are not too wide.

ghost use Rattle.std.specs.Prelude.{◌≡◌};
ghost use Rattle.tl_text.specs.Widest as spec;

use crate::Para;
use crate::measure::measured;

/// The width in columns of the widest of those units that are at most `most` columns wide, and 0 where
/// there is none.
pub fn widest_within(p: &Para, most: u32) -> u32
    ensures { result ≡ spec.widest_within most p.now }
{
    let atoms = p.atoms();
    let mut widest: u32 = 0;
    for atom in atoms {
        let width = measured(atom).width();
        if width <= most {
            widest = widest.max(width);
        }
    }
    widest
}
