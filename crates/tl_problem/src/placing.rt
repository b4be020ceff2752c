//! Placements: the least heights of rows under given widths, and tight and opening placements.

ghost use Rattle.std.specs.Prelude.{◌≡◌, ℕ, ◌+◌, ◌<◌, ◌≤◌, length, sum, IfOk, IsTrue, ◌↔◌, MatchOption};
ghost use Rattle.tl_base.specs.Steps.{AreSteps, IsLeastWidthFor, first_width, height_at};
ghost use Rattle.tl_problem.specs.Layouts.{GiveHigh, WithinPage};
ghost use Rattle.tl_problem.specs.Placements.{HasNoLower, IsOpening, IsPlacement};
ghost use Rattle.tl_base.specs.Sizes.{IsLeastTotal, room};
ghost use Rattle.tl_problem.specs.Sound.{IsSound};
ghost use Rattle.tl_problem.specs.Tight.{IsTight, IsTightFrom};
ghost use Rattle.tl_problem.specs.Works.{IsWorkOf};
ghost use Rattle.tl_problem.specs.inner.Needs.{NeedHigh, NeedLeast, NeedWidths};

use crate::axis::Axis;
use crate::demands::{least_height, least_sizes};
use crate::{Cell, Placed, Problem, Work};
use std::alloc::AllocError;
use tl_base::{List, MAX_COLUMNS, MAX_PAGE_WIDTH, room_on_page, total_size};
use tl_diff::Arc;

impl Problem {
    /// The least heights of the rows under these widths, by the `high` steps of the cells. `None`
    /// exactly where the widths are not within the page: there is not one for each column, the total
    /// width passes that of the page, or a cell has less than its least width.
    pub fn place(&self, widths: &[u32]) -> Result<Option<Placed>, AllocError>
        ensures { IfOk result (λ found. MatchOption found (WithinPage self.now widths.now → ⊥)
            (λ placed. IsPlacement self.now placed × (placed.widths ≡ widths.now))) }
    {
        if !is_within_page(self, widths) {
            return Ok(None);
        }
        let placed = place_under(self, widths)?;
        Ok(Some(placed))
    }

    /// The placement under these widths, where it is lower than `height` lines. `None` exactly where no rows
    /// under them are.
    pub fn place_lower(
        &self,
        widths: &[u32],
        height: u32,
        work: &mut Work,
    ) -> Result<Option<Placed>, AllocError>
        requires page { WithinPage self.now widths.now }
        requires work { IsWorkOf self.now work.old }
        ensures lower { IfOk result (λ found. MatchOption found (HasNoLower self.now widths.now height)
            (λ placed. IsPlacement self.now placed × (placed.widths ≡ widths.now) × (placed.height < height))) }
        ensures work_of { IsWorkOf self.now work.new }
        ensures matrix { work.new.matrix ≡ work.old.matrix }
    {
        let least = height_under(
            self,
            widths,
            &mut work.demands,
            &mut work.arcs,
            &mut work.ends,
        );
        if least >= height {
            return Ok(None);
        }
        let placed = place_under(self, widths)?;
        Ok(Some(placed))
    }

    /// The placement at the least positions of all widths within the page. It is tight.
    pub fn opening(&self) -> Result<Placed, AllocError>
        ensures opening { IfOk result (IsOpening self.now) }
        ensures tight { IfOk result (IsTight self.now) }
    {
        let cells = self.cells();
        let demands = least_needs(self, cells)?;
        let widths = least_sizes(self, Axis::Columns, &demands)?;
        let placed = place_under(self, widths.as_slice())?;
        Ok(placed)
    }

    /// The placement made tight: its columns begin at the least places at which no cell needs more
    /// lines than it does now. Neither its width nor its height is more than before, and making it
    /// tight again changes nothing.
    pub fn tight(&self, placed: &Placed) -> Result<Placed, AllocError>
        requires { IsPlacement self.now placed.now }
        ensures tight { IfOk result (IsTightFrom self.now placed.now.widths) }
        ensures no_wider { IfOk result (λ tight. tight.width ≤ placed.now.width) }
        ensures no_higher { IfOk result (λ tight. tight.height ≤ placed.now.height) }
    {
        let cells = self.cells();
        let demands = width_needs(self, cells, placed.widths.as_slice())?;
        let widths = least_sizes(self, Axis::Columns, &demands)?;
        let tight = place_under(self, widths.as_slice())?;
        Ok(tight)
    }
}

/// Whether the widths are within the page.
fn is_within_page(problem: &Problem, widths: &[u32]) -> bool
    ensures { IsTrue result ↔ WithinPage problem.now widths.now }
{
    let cells = problem.cells();
    let spacing = problem.spacing();
    if widths.len() != problem.cols() as usize
        || total_size(spacing.gap, spacing.edges, widths) > u64::from(problem.width())
    {
        return false;
    }
    for number in 0..cells.len() {
        let cell = &cells[number];
        if room_on_page(spacing.gap, widths, cell.left, cell.right) < cell.low.least() {
            return false;
        }
    }
    true
}

/// The least heights of the rows under these widths.
pub fn place_under(problem: &Problem, widths: &[u32]) -> Result<Placed, AllocError>
    requires { WithinPage problem.now widths.now }
    ensures { IfOk result (λ placed. IsPlacement problem.now placed × (placed.widths ≡ widths.now)) }
{
    let cells = problem.cells();
    let demands = high_needs(problem, cells, widths)?;
    let heights = least_sizes(problem, Axis::Rows, &demands)?;
    let spacing = problem.spacing();
    let width = total_size(spacing.gap, spacing.edges, widths) as u32;
    let height = total_size(spacing.row_gap, spacing.lines, heights.as_slice()) as u32;
    Ok(Placed {
        widths: List::from_slice(problem.alloc(), widths)?,
        heights,
        width,
        height,
    })
}

/// The least width of each cell.
fn least_needs(problem: &Problem, cells: &[Cell]) -> Result<Vec<u32>, AllocError>
    requires { cells.now ≡ problem.now.cells }
    ensures { IfOk result (λ demands. NeedLeast problem.now demands.items) }
{
    let mut demands = Vec::new(problem.alloc());
    for number in 0..cells.len() {
        demands.push(cells[number].low.least())?;
    }
    Ok(demands)
}

/// The height that each cell needs by `high` under these widths.
fn high_needs(problem: &Problem, cells: &[Cell], widths: &[u32]) -> Result<Vec<u32>, AllocError>
    requires cells { cells.now ≡ problem.now.cells }
    requires sound { IsSound problem.now }
    requires page { WithinPage problem.now widths.now }
    ensures { IfOk result (λ demands. NeedHigh problem.now widths.now demands.items) }
{
    let gap = problem.spacing().gap;
    let mut demands = Vec::new(problem.alloc());
    for number in 0..cells.len() {
        demands.push(high_at(gap, widths, &cells[number]))?;
    }
    Ok(demands)
}

/// The least total height of rows under these widths. `demands`, `arcs` and `ends` are room.
fn height_under(
    problem: &Problem,
    widths: &[u32],
    demands: &mut [u32],
    arcs: &mut [Arc],
    ends: &mut [u32],
) -> u32
    requires page { WithinPage problem.now widths.now }
    requires demand_room { length demands.old ≡ length problem.now.cells }
    requires arc_room { length arcs.old ≡ length problem.now.cells }
    requires end_room { length ends.old ≡ problem.now.rows + 1 }
    ensures { IsLeastTotal problem.now.spacing.row_gap problem.now.spacing.lines (GiveHigh problem.now widths.now) result }
{
    fill_high(problem, widths, demands);
    least_height(problem, demands, arcs, ends)
}

/// Fills `demands` with the height that each cell needs by `high` under these widths.
fn fill_high(problem: &Problem, widths: &[u32], demands: &mut [u32])
    requires page { WithinPage problem.now widths.now }
    requires room { length demands.old ≡ length problem.now.cells }
    ensures high { NeedHigh problem.now widths.now demands.new }
    ensures sound { IsSound problem.now }
{
    let gap = problem.spacing().gap;
    let cells = problem.cells();
    for number in 0..cells.len() {
        demands[number] = high_at(gap, widths, &cells[number]);
    }
}

/// The least width at which each cell needs no more by `high` than under these widths.
fn width_needs(problem: &Problem, cells: &[Cell], widths: &[u32]) -> Result<Vec<u32>, AllocError>
    requires cells { cells.now ≡ problem.now.cells }
    requires sound { IsSound problem.now }
    requires page { WithinPage problem.now widths.now }
    ensures { IfOk result (λ demands. NeedWidths problem.now widths.now demands.items) }
{
    let gap = problem.spacing().gap;
    let mut demands = Vec::new(problem.alloc());
    for number in 0..cells.len() {
        demands.push(width_at(gap, widths, &cells[number]))?;
    }
    Ok(demands)
}

/// The height that the cell needs by `high` under these widths.
fn high_at(gap: u32, widths: &[u32], cell: &Cell) -> u32
    requires gap { gap ≤ 2 }
    requires sum { sum widths.now ≤ MAX_PAGE_WIDTH }
    requires ahead { cell.now.left < cell.now.right }
    requires within { cell.now.right ≤ length widths.now }
    requires few { length widths.now ≤ MAX_COLUMNS }
    requires wide { first_width cell.now.high ≤ room gap widths.now cell.now.left cell.now.right }
    ensures { height_at cell.now.high (room gap widths.now cell.now.left cell.now.right) ≡ Some result }
{
    let room = room_on_page(gap, widths, cell.left, cell.right);
    cell.high.height_at(room).unwrap()
}

/// The least width at which the cell needs no more by `high` than under these widths.
fn width_at(gap: u32, widths: &[u32], cell: &Cell) -> u32
    requires gap { gap ≤ 2 }
    requires sum { sum widths.now ≤ MAX_PAGE_WIDTH }
    requires ahead { cell.now.left < cell.now.right }
    requires within { cell.now.right ≤ length widths.now }
    requires few { length widths.now ≤ MAX_COLUMNS }
    requires wide { first_width cell.now.high ≤ room gap widths.now cell.now.left cell.now.right }
    requires steps { AreSteps cell.now.high }
    ensures { (h : ℕ) × ((height_at cell.now.high (room gap widths.now cell.now.left cell.now.right) ≡ Some h)
        × IsLeastWidthFor cell.now.high h result) }
{
    let height = high_at(gap, widths, cell);
    cell.high.width_for(height).unwrap()
}
