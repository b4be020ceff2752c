//! How many lines a paragraph needs, and how wide they must be.

ghost use Rattle.std.specs.Prelude.{◌*◌, ◌<◌, ◌≤◌, ◌↔◌, ℕ, Any, IsNone, IfSome, sum_by};
ghost use Rattle.tl_text.specs.Cuttings.{HasCutting, LeastLines};
ghost use Rattle.tl_text.specs.Paragraph.{unit_width, atom_size};

use crate::Para;
use crate::filling::Filling;
use crate::measure::measured;

/// The widest unit's width in columns, and 0 where there is no unit: the least width at which the
/// paragraph can be cut into lines.
pub fn least_width(p: &Para) -> u32
    ensures holds { (w : ℕ) → result ≤ w → HasCutting w p.now }
    ensures least { (w : ℕ) → HasCutting w p.now → result ≤ w }
    // No unit takes more than two columns for each of its bytes.
    ensures bytes { result ≤ 2 * sum_by atom_size p.now }
{
    let atoms = p.atoms();
    let mut widest: u32 = 0;
    for atom in atoms {
        widest = widest.max(measured(atom).width());
    }
    widest
}

/// The least number of lines of `width` columns that the paragraph can be cut into. `None` exactly
/// where a unit is wider than `width`.
pub fn count_lines(p: &Para, width: u32) -> Option<u32>
    ensures lines { IfSome result (LeastLines width p.now) }
    ensures too_wide { IsNone result ↔ Any (λ atom. width < unit_width atom) p.now }
{
    let atoms = p.atoms();
    let mut filling = Filling::new(u64::from(width) + 1);
    for atom in atoms {
        let measure = measured(atom);
        if measure.width() > width {
            return None;
        }
        filling = filling.with(measure, width);
    }
    Some(filling.lines())
}
