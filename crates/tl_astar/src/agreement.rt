//! Whether `low` and `high` have the same steps for every cell of a problem.

ghost use Rattle.std.specs.Prelude.{◌≡◌, ◌↔◌, IsTrue};
ghost use Rattle.tl_astar.specs.Best.{HaveSameSteps};

use tl_base::Config;
use tl_problem::Problem;

/// Whether each cell has the same steps by `low` and by `high`.
pub(crate) fn have_same_steps(problem: &Problem) -> bool
    ensures { IsTrue result ↔ HaveSameSteps problem.now }
{
    let cells = problem.cells();
    for number in 0..cells.len() {
        if !are_same(cells[number].low.configs(), cells[number].high.configs()) {
            return false;
        }
    }
    true
}

/// Whether the steps are the same.
fn are_same(first: &[Config], second: &[Config]) -> bool
    ensures { IsTrue result ↔ (first.now ≡ second.now) }
{
    if first.len() != second.len() {
        return false;
    }
    for number in 0..first.len() {
        if first[number].width != second[number].width
            || first[number].height != second[number].height
        {
            return false;
        }
    }
    true
}
