//! The bound of a zone, and that of whatever constraints a work holds.

ghost use Rattle.std.specs.Prelude.{◌≡◌, ℕ, ◌+◌, ◌<◌, ◌≤◌, pos, ◌+ℤ◌, ◌≤ℤ◌, List, length, Contains};
ghost use Rattle.std.specs.Prelude.{Some, IfOk, MatchOption};
ghost use Rattle.tl_base.specs.Steps.{first_width, height_at};
ghost use Rattle.tl_diff.specs.Bounds.{IsSatisfiable, assignment_of};
ghost use Rattle.tl_problem.specs.Bounds.{HasNoWidths, IsBound, IsGreatestRoom};
ghost use Rattle.tl_problem.specs.Layouts.{WithinPage};
ghost use Rattle.tl_problem.specs.Placements.{AreLeast, IsOutline, IsPlacementIn};
ghost use Rattle.tl_problem.specs.Sound.{IsSound, IsSoundCell};
ghost use Rattle.tl_problem.specs.Works.{AreAllowed, IsWorkOf, KeepsPage, widths_of};
ghost use Rattle.tl_problem.specs.Zones.{InZone, IsZone};
ghost use Rattle.tl_problem.specs.inner.Needs.{IsLeastRoom, NeedLow};

use crate::constraints::add_ranges;
use crate::demands::least_height;
use crate::placing::place_under;
use crate::{Cell, Outline, Placed, Problem, Work, Zone};
use std::alloc::AllocError;
use tl_base::{List, MAX_PAGE_WIDTH, Steps};
use tl_diff::{Arc, Matrix};

impl Problem {
    /// The bound of the widths that the work leaves: the least total height of rows that give each cell
    /// its `low` at the greatest room of its span. `None` exactly where no widths are left. The
    /// constraints stay as they are, and no memory is taken.
    pub fn held_bound(&self, work: &mut Work) -> Option<u32>
        requires { IsWorkOf self.now work.old }
        ensures bound { MatchOption result (HasNoWidths (AreAllowed self.now work.old.matrix.bounds))
            (IsBound self.now (AreAllowed self.now work.old.matrix.bounds)) }
        ensures work_of { IsWorkOf self.now work.new }
        ensures matrix { work.new.matrix ≡ work.old.matrix }
    {
        if !work.matrix.holds() {
            return None;
        }
        Some(bound_in(
            self,
            &work.matrix,
            &mut work.demands,
            &mut work.arcs,
            &mut work.ends,
        ))
    }

    /// The bound of the zone: the least total height of rows that give each cell its `low` at the
    /// greatest room which its span has in the zone. `None` exactly where no widths lie in the zone.
    /// Constraints that a caller added to the work do not matter, and stay. No memory is taken.
    pub fn bound_of(&self, zone: &Zone, work: &mut Work) -> Option<u32>
        requires zone { IsZone self.now zone.now }
        requires work { IsWorkOf self.now work.old }
        ensures bound { MatchOption result (HasNoWidths (InZone self.now zone.now))
            (IsBound self.now (InZone self.now zone.now)) }
        ensures work_of { IsWorkOf self.now work.new }
        ensures matrix { work.new.matrix ≡ work.old.matrix }
    {
        work.start.mark();
        let bound = if add_ranges(self, zone, &mut work.start) {
            Some(bound_in(
                self,
                &work.start,
                &mut work.demands,
                &mut work.arcs,
                &mut work.ends,
            ))
        } else {
            None
        };
        work.start.undo();
        bound
    }

    /// The widths at the least positions of the zone. `None` exactly where no widths lie in the zone.
    /// Constraints that a caller added to the work do not matter, and stay.
    pub fn least_in(&self, zone: &Zone, work: &mut Work) -> Result<Option<List<u32>>, AllocError>
        requires zone { IsZone self.now zone.now }
        requires work { IsWorkOf self.now work.old }
        ensures widths { IfOk result (λ found. MatchOption found (HasNoWidths (InZone self.now zone.now))
            (AreLeast self.now.spacing.gap (InZone self.now zone.now))) }
        ensures work_of { IsWorkOf self.now work.new }
        ensures matrix { work.new.matrix ≡ work.old.matrix }
    {
        work.start.mark();
        let found = zone_widths(self, zone, &mut work.start);
        work.start.undo();
        found
    }

    /// The placement at the least positions of the zone. `None` exactly where no widths lie in the
    /// zone. Constraints that a caller added to the work do not matter, and stay.
    pub fn place_in(&self, zone: &Zone, work: &mut Work) -> Result<Option<Placed>, AllocError>
        requires zone { IsZone self.now zone.now }
        requires work { IsWorkOf self.now work.old }
        ensures placed { IfOk result (λ found. MatchOption found (HasNoWidths (InZone self.now zone.now))
            (IsPlacementIn self.now (InZone self.now zone.now))) }
        ensures work_of { IsWorkOf self.now work.new }
        ensures matrix { work.new.matrix ≡ work.old.matrix }
    {
        let found = self.least_in(zone, work)?;
        let Some(widths) = found else {
            return Ok(None);
        };
        let placed = place_under(self, widths.as_slice())?;
        Ok(Some(placed))
    }

    /// The bound of the zone, and the widths at its least positions. `None` exactly where no widths lie in
    /// the zone. Constraints that a caller added to the work do not matter, and stay.
    pub fn outline_of(&self, zone: &Zone, work: &mut Work) -> Result<Option<Outline>, AllocError>
        requires zone { IsZone self.now zone.now }
        requires work { IsWorkOf self.now work.old }
        ensures outline { IfOk result (λ found. MatchOption found (HasNoWidths (InZone self.now zone.now))
            (IsOutline self.now (InZone self.now zone.now))) }
        ensures work_of { IsWorkOf self.now work.new }
        ensures matrix { work.new.matrix ≡ work.old.matrix }
    {
        work.start.mark();
        let found = zone_outline(
            self,
            zone,
            &mut work.start,
            &mut work.demands,
            &mut work.arcs,
            &mut work.ends,
        );
        work.start.undo();
        found
    }
}

/// The outline of the zone, whose constraints join those of the page. `demands`, `arcs` and `ends` are room.
fn zone_outline(
    problem: &Problem,
    zone: &Zone,
    matrix: &mut Matrix,
    demands: &mut [u32],
    arcs: &mut [Arc],
    ends: &mut [u32],
) -> Result<Option<Outline>, AllocError>
    requires sound { IsSound problem.now }
    requires zone { IsZone problem.now zone.now }
    requires keeps { KeepsPage problem.now matrix.old.bounds }
    requires whole { (widths : List ℕ) → WithinPage problem.now widths → AreAllowed problem.now matrix.old.bounds widths }
    requires demand_room { length demands.old ≡ length problem.now.cells }
    requires arc_room { length arcs.old ≡ length problem.now.cells }
    requires end_room { length ends.old ≡ problem.now.rows + 1 }
    ensures outline { IfOk result (λ found. MatchOption found (HasNoWidths (InZone problem.now zone.now))
        (IsOutline problem.now (InZone problem.now zone.now))) }
    ensures held { matrix.new.held ≡ matrix.old.held }
    ensures marks { matrix.new.marks ≡ matrix.old.marks }
{
    if !add_ranges(problem, zone, matrix) {
        return Ok(None);
    }
    let outline = outline_in(problem, matrix, demands, arcs, ends)?;
    Ok(Some(outline))
}

/// The bound of the widths that the matrix leaves, of which there are some, and those at the least places.
/// `demands`, `arcs` and `ends` are room.
fn outline_in(
    problem: &Problem,
    matrix: &Matrix,
    demands: &mut [u32],
    arcs: &mut [Arc],
    ends: &mut [u32],
) -> Result<Outline, AllocError>
    requires sound { IsSound problem.now }
    requires keeps { KeepsPage problem.now matrix.now.bounds }
    requires some { IsSatisfiable matrix.now.bounds }
    requires demand_room { length demands.old ≡ length problem.now.cells }
    requires arc_room { length arcs.old ≡ length problem.now.cells }
    requires end_room { length ends.old ≡ problem.now.rows + 1 }
    ensures { IfOk result (IsOutline problem.now (AreAllowed problem.now matrix.now.bounds)) }
{
    let bound = bound_in(problem, matrix, demands, arcs, ends);
    let widths = least_widths(problem, matrix)?;
    Ok(Outline { bound, widths })
}

/// The widths at the least places in the zone, whose constraints join those of the page.
fn zone_widths(
    problem: &Problem,
    zone: &Zone,
    matrix: &mut Matrix,
) -> Result<Option<List<u32>>, AllocError>
    requires sound { IsSound problem.now }
    requires zone { IsZone problem.now zone.now }
    requires keeps { KeepsPage problem.now matrix.old.bounds }
    requires whole { (widths : List ℕ) → WithinPage problem.now widths → AreAllowed problem.now matrix.old.bounds widths }
    ensures widths { IfOk result (λ found. MatchOption found (HasNoWidths (InZone problem.now zone.now))
        (AreLeast problem.now.spacing.gap (InZone problem.now zone.now))) }
    ensures held { matrix.new.held ≡ matrix.old.held }
    ensures marks { matrix.new.marks ≡ matrix.old.marks }
{
    if !add_ranges(problem, zone, matrix) {
        return Ok(None);
    }
    let widths = least_widths(problem, matrix)?;
    Ok(Some(widths))
}

/// The widths at the least places that satisfy the constraints.
fn least_widths(problem: &Problem, matrix: &Matrix) -> Result<List<u32>, AllocError>
    requires sound { IsSound problem.now }
    requires keeps { KeepsPage problem.now matrix.now.bounds }
    requires some { IsSatisfiable matrix.now.bounds }
    ensures { IfOk result (AreLeast problem.now.spacing.gap (AreAllowed problem.now matrix.now.bounds)) }
{
    let mut places = vec![in problem.alloc(); 0; problem.cols() as usize + 1]?;
    let widths = widths_in(problem, matrix, &mut places)?;
    Ok(widths)
}

/// The widths at the least places that satisfy the constraints. `places` is room.
fn widths_in(
    problem: &Problem,
    matrix: &Matrix,
    places: &mut [i32],
) -> Result<List<u32>, AllocError>
    requires sound { IsSound problem.now }
    requires keeps { KeepsPage problem.now matrix.now.bounds }
    requires some { IsSatisfiable matrix.now.bounds }
    requires room { length places.old ≡ problem.now.cols + 1 }
    ensures { IfOk result (AreLeast problem.now.spacing.gap (AreAllowed problem.now matrix.now.bounds)) }
{
    matrix.solve_least(places);
    let widths = widths_between(problem, places)?;
    Ok(widths)
}

/// The bound of the widths that the matrix leaves, of which there are some. `demands`, `arcs` and
/// `ends` are room.
fn bound_in(
    problem: &Problem,
    matrix: &Matrix,
    demands: &mut [u32],
    arcs: &mut [Arc],
    ends: &mut [u32],
) -> u32
    requires keeps { KeepsPage problem.now matrix.now.bounds }
    requires some { IsSatisfiable matrix.now.bounds }
    requires demand_room { length demands.old ≡ length problem.now.cells }
    requires arc_room { length arcs.old ≡ length problem.now.cells }
    requires end_room { length ends.old ≡ problem.now.rows + 1 }
    ensures { IsBound problem.now (AreAllowed problem.now matrix.now.bounds) result }
{
    fill_low(problem, matrix, demands);
    least_height(problem, demands, arcs, ends)
}

/// Fills `demands` with the `low` of each cell at the greatest room of its span.
fn fill_low(problem: &Problem, matrix: &Matrix, demands: &mut [u32])
    requires keeps { KeepsPage problem.now matrix.now.bounds }
    requires some { IsSatisfiable matrix.now.bounds }
    requires room { length demands.old ≡ length problem.now.cells }
    ensures low { NeedLow problem.now (AreAllowed problem.now matrix.now.bounds) demands.new }
    ensures sound { IsSound problem.now }
{
    let gap = problem.spacing().gap;
    let cells = problem.cells();
    for number in 0..cells.len() {
        demands[number] = low_at_greatest(problem, gap, matrix, &cells[number]);
    }
}

/// The `low` of the cell at the greatest room of its span.
fn low_at_greatest(problem: &Problem, gap: u32, matrix: &Matrix, cell: &Cell) -> u32
    requires sound { IsSound problem.now }
    requires keeps { KeepsPage problem.now matrix.now.bounds }
    requires some { IsSatisfiable matrix.now.bounds }
    requires gap { gap ≡ problem.now.spacing.gap }
    requires cell { IsSoundCell problem.now cell.now }
    requires inside { Contains problem.now.cells cell.now }
    ensures { (w : ℕ) × (IsGreatestRoom problem.now (AreAllowed problem.now matrix.now.bounds) cell.now.left cell.now.right w
        × (height_at cell.now.low w ≡ Some result)) }
{
    let room = greatest_room(problem, gap, matrix, cell);
    height_in(&cell.low, room)
}

/// The height at a room that is not below the first width. At the greatest rooms it is most often that of the last
/// step, which so is looked at first.
fn height_in(steps: &Steps, room: u32) -> u32
    requires { first_width steps.now ≤ room }
    ensures { height_at steps.now room ≡ Some result }
{
    let configs = steps.configs();
    let last = configs[configs.len() - 1];
    if last.width <= room {
        return last.height;
    }
    steps.height_at(room).unwrap()
}

/// The greatest room of the cell's span.
pub fn greatest_room(problem: &Problem, gap: u32, matrix: &Matrix, cell: &Cell) -> u32
    requires sound { IsSound problem.now }
    requires keeps { KeepsPage problem.now matrix.now.bounds }
    requires some { IsSatisfiable matrix.now.bounds }
    requires gap { gap ≡ problem.now.spacing.gap }
    requires cell { IsSoundCell problem.now cell.now }
    ensures room { IsGreatestRoom problem.now (AreAllowed problem.now matrix.now.bounds) cell.now.left cell.now.right result }
    ensures small { result ≤ MAX_PAGE_WIDTH }
{
    let apart = matrix.upper(cell.left, cell.right).unwrap();
    apart as u32 - gap
}

/// The least room of the cell's span.
pub fn least_room(problem: &Problem, gap: u32, matrix: &Matrix, cell: &Cell) -> u32
    requires sound { IsSound problem.now }
    requires keeps { KeepsPage problem.now matrix.now.bounds }
    requires some { IsSatisfiable matrix.now.bounds }
    requires gap { gap ≡ problem.now.spacing.gap }
    requires cell { IsSoundCell problem.now cell.now }
    ensures room { IsLeastRoom problem.now (AreAllowed problem.now matrix.now.bounds) cell.now.left cell.now.right result }
    ensures small { result ≤ MAX_PAGE_WIDTH }
{
    let apart = matrix.upper(cell.right, cell.left).unwrap();
    let apart = -apart;
    apart as u32 - gap
}

/// The widths of columns that begin at these places, with a gap after each.
fn widths_between(problem: &Problem, places: &[i32]) -> Result<List<u32>, AllocError>
    requires count { length places.now ≡ problem.now.cols + 1 }
    requires small { (k : ℕ) → k ≤ problem.now.cols →
        (pos 0 ≤ℤ assignment_of places.now k) × (assignment_of places.now k ≤ℤ pos (MAX_PAGE_WIDTH + 2)) }
    requires rising { (k : ℕ) → k < problem.now.cols →
        (assignment_of places.now k +ℤ pos problem.now.spacing.gap) ≤ℤ assignment_of places.now (k + 1) }
    ensures { IfOk result (λ widths.
        widths ≡ widths_of (assignment_of places.now) problem.now.spacing.gap problem.now.cols) }
{
    let gap = problem.spacing().gap as i32;
    let mut widths = List::new(problem.alloc());
    for column in 0..problem.cols() as usize {
        widths.push((places[column + 1] - places[column] - gap) as u32)?;
    }
    Ok(widths)
}
