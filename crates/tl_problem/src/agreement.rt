//! Whether the cells of a problem need the same by `low` and by `high`.

ghost use Rattle.std.specs.Prelude.{◌≡◌, ◌≤◌, ◌↔◌, IsTrue};
ghost use Rattle.std.specs.List.{All};
ghost use Rattle.tl_base.specs.Steps.{height_at};
ghost use Rattle.tl_problem.specs.Agreement.{AgreeUpTo, AgreesOnPage, LowIsHigh};
ghost use Rattle.tl_problem.specs.inner.Agreeing.{AreSameAt, AreSameUpTo};

use crate::Problem;
use tl_base::{Config, Steps};

impl Problem {
    /// Whether each cell needs the same by `low` and by `high` at all widths that the page has room for. No
    /// memory is taken.
    pub fn low_is_high(&self) -> bool
        ensures { IsTrue result ↔ LowIsHigh self.now }
    {
        let spacing = self.spacing();
        agree_up_to(self, self.width().saturating_sub(spacing.edges))
    }

    /// Whether each cell needs the same by `low` and by `high`, or has no height by either, at all widths
    /// up to the page's: also at the last ones of a page with edges, which no room reaches. No memory is
    /// taken.
    pub fn agrees_on_page(&self) -> bool
        ensures page { IsTrue result ↔ AgreesOnPage self.now }
        ensures rooms { IsTrue result → LowIsHigh self.now }
    {
        agree_up_to(self, self.width())
    }
}

/// Whether each cell needs the same by `low` and by `high` at all widths up to `most`.
fn agree_up_to(problem: &Problem, most: u32) -> bool
    ensures { IsTrue result ↔ AgreeUpTo problem.now most }
{
    let cells = problem.cells();
    for number in 0..cells.len() {
        let cell = &cells[number];
        if !are_same_up_to(&cell.low, &cell.high, most) {
            return false;
        }
    }
    true
}

/// Whether both have the same height at each width up to `most`.
fn are_same_up_to(low: &Steps, high: &Steps, most: u32) -> bool
    ensures { IsTrue result ↔ AreSameUpTo low.now high.now most }
{
    // A height changes only where a step begins.
    are_same_at(low, high, low.configs(), most) && are_same_at(low, high, high.configs(), most)
}

/// Whether both have the same height at each width up to `most` at which one of these steps begins.
fn are_same_at(low: &Steps, high: &Steps, steps: &[Config], most: u32) -> bool
    ensures { IsTrue result ↔ All (AreSameAt low.now high.now most) steps.now }
{
    for number in 0..steps.len() {
        let width = steps[number].width;
        if width <= most && !is_same(low, high, width) {
            return false;
        }
    }
    true
}

/// Whether both have the same height at the width.
fn is_same(low: &Steps, high: &Steps, width: u32) -> bool
    ensures { IsTrue result ↔ (height_at low.now width ≡ height_at high.now width) }
{
    low.height_at(width) == high.height_at(width)
}
