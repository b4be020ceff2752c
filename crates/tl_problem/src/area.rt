//! The area bound of a zone, and that of whatever constraints a work holds.

ghost use Rattle.std.specs.Prelude.{◌≡◌, ◌+◌, ◌<◌, ◌≤◌, length, Contains, MatchOption};
ghost use Rattle.tl_diff.specs.Bounds.{IsSatisfiable};
ghost use Rattle.tl_problem.specs.Areas.{IsAreaBound, IsGreatestEnd, IsLeastArea};
ghost use Rattle.tl_problem.specs.Bounds.{HasNoWidths};
ghost use Rattle.tl_problem.specs.Sound.{IsSound, IsSoundCell};
ghost use Rattle.tl_problem.specs.Works.{AreAllowed, IsWorkOf, KeepsPage};
ghost use Rattle.tl_problem.specs.Zones.{InZone, IsZone};
ghost use Rattle.tl_problem.specs.inner.Least.{HaveAreas, IsLeastStep, area_with};

use crate::bound::{greatest_room, least_room};
use crate::constraints::add_ranges;
use crate::{Cell, Problem, Work, Zone};
use tl_base::{Config, MAX_PAGE_WIDTH};
use tl_diff::Matrix;

impl Problem {
    /// The area bound of the widths that the work leaves: the lines that hold the least areas of the
    /// cells on the widest of them. `None` exactly where no widths are left. No memory is taken.
    pub fn held_area(&self, work: &Work) -> Option<u32>
        requires { IsWorkOf self.now work.now }
        ensures { MatchOption result (HasNoWidths (AreAllowed self.now work.now.matrix.bounds))
            (IsAreaBound self.now (AreAllowed self.now work.now.matrix.bounds)) }
    {
        if !work.matrix.holds() {
            return None;
        }
        Some(area_bound(self, &work.matrix))
    }

    /// The area bound of the zone, which no layout in the zone is lower than. `None` exactly where no
    /// widths lie in the zone. Constraints that a caller added to the work do not matter, and the work is
    /// afterwards as it was. No memory is taken.
    pub fn area_of(&self, zone: &Zone, work: &mut Work) -> Option<u32>
        requires zone { IsZone self.now zone.now }
        requires work { IsWorkOf self.now work.old }
        ensures bound { MatchOption result (HasNoWidths (InZone self.now zone.now))
            (IsAreaBound self.now (InZone self.now zone.now)) }
        ensures same { work.new ≡ work.old }
    {
        work.start.mark();
        let bound = if add_ranges(self, zone, &mut work.start) {
            Some(area_bound(self, &work.start))
        } else {
            None
        };
        work.start.undo();
        bound
    }
}

/// The area bound where some widths are left.
fn area_bound(problem: &Problem, matrix: &Matrix) -> u32
    requires sound { IsSound problem.now }
    requires keeps { KeepsPage problem.now matrix.now.bounds }
    requires some { IsSatisfiable matrix.now.bounds }
    ensures { IsAreaBound problem.now (AreAllowed problem.now matrix.now.bounds) result }
{
    if problem.cols() == 0 {
        return 0;
    }
    let spacing = problem.spacing();
    let end = greatest_end(problem, matrix);
    let lines = sum_of_areas(problem, matrix, end).div_ceil(u64::from(end)) as u32;
    (spacing.lines + lines).saturating_sub(spacing.row_gap)
}

/// The greatest place at which the columns end.
fn greatest_end(problem: &Problem, matrix: &Matrix) -> u32
    requires sound { IsSound problem.now }
    requires keeps { KeepsPage problem.now matrix.now.bounds }
    requires some { IsSatisfiable matrix.now.bounds }
    requires columns { 0 < problem.now.cols }
    ensures end { IsGreatestEnd problem.now (AreAllowed problem.now matrix.now.bounds) result }
    ensures some { 0 < result }
    ensures small { result ≤ MAX_PAGE_WIDTH + 2 }
{
    matrix.upper(0, problem.cols()).unwrap() as u32
}

/// The sum of the least areas of the cells. The columns end at `end` at most.
fn sum_of_areas(problem: &Problem, matrix: &Matrix, end: u32) -> u64
    requires sound { IsSound problem.now }
    requires keeps { KeepsPage problem.now matrix.now.bounds }
    requires some { IsSatisfiable matrix.now.bounds }
    requires end { IsGreatestEnd problem.now (AreAllowed problem.now matrix.now.bounds) end }
    requires small { end ≤ MAX_PAGE_WIDTH + 2 }
    ensures { HaveAreas problem.now (AreAllowed problem.now matrix.now.bounds) (length problem.now.cells) result }
{
    let cells = problem.cells();
    let mut areas: u64 = 0;
    for number in 0..cells.len() {
        areas += least_area(problem, matrix, &cells[number]);
    }
    areas
}

/// The least area of the cell, over the widths from its least to its greatest room.
fn least_area(problem: &Problem, matrix: &Matrix, cell: &Cell) -> u64
    requires sound { IsSound problem.now }
    requires keeps { KeepsPage problem.now matrix.now.bounds }
    requires some { IsSatisfiable matrix.now.bounds }
    requires cell { IsSoundCell problem.now cell.now }
    requires inside { Contains problem.now.cells cell.now }
    ensures { IsLeastArea problem.now (AreAllowed problem.now matrix.now.bounds) cell.now result }
{
    let gap = problem.spacing().gap;
    let row_gap = problem.spacing().row_gap;
    let low = least_room(problem, gap, matrix, cell);
    let high = greatest_room(problem, gap, matrix, cell);
    let height = cell.low.height_at(low).unwrap();
    let start = area_at(gap, row_gap, low, height);
    least_step(gap, row_gap, cell.low.configs(), low, high, start)
}

/// The least of `start` and of the areas where steps begin, past `low` and up to `high`.
fn least_step(gap: u32, row_gap: u32, steps: &[Config], low: u32, high: u32, start: u64) -> u64
    requires gap { gap ≤ 2 }
    requires row_gap { row_gap ≤ 2 }
    requires narrow { high ≤ MAX_PAGE_WIDTH }
    ensures { IsLeastStep gap row_gap steps.now (length steps.now) low high start result }
{
    let mut least = start;
    for number in 0..steps.len() {
        let step = steps[number];
        if low < step.width && step.width <= high {
            least = least.min(area_at(gap, row_gap, step.width, step.height));
        }
    }
    least
}

/// The area of a width and a height, with a gap at the right and one below.
fn area_at(gap: u32, row_gap: u32, width: u32, height: u32) -> u64
    requires gap { gap ≤ 2 }
    requires row_gap { row_gap ≤ 2 }
    requires narrow { width ≤ MAX_PAGE_WIDTH }
    ensures { result ≡ area_with gap row_gap width height }
{
    u64::from(width + gap) * (u64::from(height) + u64::from(row_gap))
}
