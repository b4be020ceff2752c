//! The test for a sound problem.

ghost use Rattle.std.specs.Prelude.{◌≡◌, ℕ, ◌+◌, ◌*◌, ◌<◌, ◌≤◌, ◌↔◌, List, length, get_or, sum_by, None, IfNone, IfSome, IsTrue};
ghost use Rattle.std.specs.List.{All, Any};
ghost use Rattle.tl_base.specs.declared.limits.TheConstants.{MAX_COLUMNS};
ghost use Rattle.tl_base.specs.Style.{IsSpacing};
ghost use Rattle.tl_base.specs.Steps.{AreSteps, IsLowAt, first_height};
ghost use Rattle.tl_problem.specs.declared.cell.Cell.{Cell};
ghost use Rattle.tl_problem.specs.declared.sound.TheConstants.{PLACES};
ghost use Rattle.tl_problem.specs.Layouts.{WithinPage};
ghost use Rattle.tl_problem.specs.Sound.{IsSound, IsSoundCell, ShareSlot};
ghost use Rattle.tl_problem.specs.inner.Axes.{start_of};
ghost use Rattle.tl_problem.specs.inner.Soundness.{AreByTop, AreSeparate, AreWidest, BeginsNowhere, EachBegins, FitsPageWidth, IsNextPlace, IsOnPlaces};
ghost use Rattle.tl_problem.specs.inner.Soundness.{IsNowhereAbove, IsSeparate, grid};
ghost use Rattle.tl_problem.specs.inner.Spanning.{IsInGrid};

use crate::axis::Axis;
use crate::{Cell, Problem};
use tl_base::{Config, MAX_COLUMNS, MAX_HEIGHT, MAX_PAGE_WIDTH, MAX_ROWS, Spacing, Steps};

/// The places of columns: where each begins, and where the last one ends.
const PLACES: usize = MAX_COLUMNS + 1;

/// The places of the columns of a table of few columns, as most are.
const FEW_PLACES: usize = 9;

impl Problem {
    /// Whether these are a sound problem's columns, rows, spacing, width and cells, so that
    /// `Problem::new` may be called with them: in the limits, no two cells over one slot, a cell that
    /// begins in each column and row, and a layout within the page. No memory is taken. If the cells stand
    /// by their tops, each is compared with the later ones that begin beside it alone; in another order with
    /// all later ones, and the time grows with the square of their number.
    pub fn is_sound(cols: u32, rows: u32, spacing: Spacing, width: u32, cells: &[Cell]) -> bool
        ensures { IsTrue result ↔ IsSound (record { cols = cols; rows = rows; spacing = spacing; width = width; cells = cells.now }) }
    {
        if !is_spacing(spacing) {
            return false;
        }
        if cols as usize > MAX_COLUMNS || rows as usize > MAX_ROWS + 1 || width > MAX_PAGE_WIDTH {
            return false;
        }
        if !are_sound_cells(cols, rows, cells) || !are_separate(cells) || !are_low_enough(cells) {
            return false;
        }
        if !each_begins(cells, Axis::Columns, cols) || !each_begins(cells, Axis::Rows, rows) {
            return false;
        }
        fits(cols, spacing, width, cells)
    }
}

/// Whether columns stand apart, rows at most by a line, and what stands beside them is little.
fn is_spacing(spacing: Spacing) -> bool
    ensures { IsTrue result ↔ IsSpacing spacing }
{
    spacing.gap >= 1
        && spacing.gap <= 2
        && spacing.row_gap <= 1
        && spacing.edges <= 2
        && spacing.lines as usize <= MAX_ROWS + 2
}

/// Whether each cell lies in the grid and is sound.
fn are_sound_cells(cols: u32, rows: u32, cells: &[Cell]) -> bool
    ensures { IsTrue result ↔ All (IsSoundCell (grid cols rows)) cells.now }
{
    for number in 0..cells.len() {
        if !is_sound_cell(cols, rows, &cells[number]) {
            return false;
        }
    }
    true
}

/// Whether the cell lies in the grid, `low` and `high` begin at one width, and `low` is nowhere above
/// `high`.
fn is_sound_cell(cols: u32, rows: u32, cell: &Cell) -> bool
    ensures { IsTrue result ↔ IsSoundCell (grid cols rows) cell.now }
{
    if cell.left >= cell.right || cell.right > cols {
        return false;
    }
    if cell.top >= cell.bottom || cell.bottom > rows {
        return false;
    }
    let low = cell.low.configs();
    let high = cell.high.configs();
    low[0].width == high[0].width && is_nowhere_above(&cell.low, high)
}

/// Whether `low` is nowhere above `high`: at each width from which `high` has a height it has one that
/// is no greater. It is enough to ask where the steps of `high` begin.
fn is_nowhere_above(low: &Steps, high: &[Config]) -> bool
    requires low { AreSteps low.now }
    requires high { AreSteps high.now }
    ensures { IsTrue result ↔ IsNowhereAbove low.now high.now }
{
    for number in 0..high.len() {
        if !is_low_at(low, high[number]) {
            return false;
        }
    }
    true
}

/// Whether at the width of the step no more than its height is needed.
fn is_low_at(low: &Steps, step: Config) -> bool
    ensures { IsTrue result ↔ IsLowAt low.now step.height step.width }
{
    match low.height_at(step.width) {
        None => false,
        Some(height) => height <= step.height,
    }
}

/// Whether no two cells cover one slot.
fn are_separate(cells: &[Cell]) -> bool
    ensures { IsTrue result ↔ AreSeparate cells.now }
{
    let by_top = are_by_top(cells);
    for number in 0..cells.len() {
        if !is_separate(cells, number, by_top) {
            return false;
        }
    }
    true
}

/// Whether no cell begins above the one before it.
fn are_by_top(cells: &[Cell]) -> bool
    ensures { IsTrue result → AreByTop cells.now }
{
    for number in 1..cells.len() {
        if cells[number].top < cells[number - 1].top {
            return false;
        }
    }
    true
}

/// Whether the cell with this number covers no slot that a later one covers. If the cells stand by their
/// tops, the first that begins below this one ends the comparing.
fn is_separate(cells: &[Cell], number: usize, by_top: bool) -> bool
    requires within { number < length cells.now }
    requires order { IsTrue by_top → AreByTop cells.now }
    ensures { IsTrue result ↔ IsSeparate cells.now number }
{
    for later in number + 1..cells.len() {
        if by_top && cells[number].bottom <= cells[later].top {
            return true;
        }
        if share_slot(&cells[number], &cells[later]) {
            return false;
        }
    }
    true
}

/// Whether both cells cover some slot.
fn share_slot(a: &Cell, b: &Cell) -> bool
    ensures { IsTrue result ↔ ShareSlot a.now b.now }
{
    a.left < b.right && b.left < a.right && a.top < b.bottom && b.top < a.bottom
}

/// Whether in each of so many columns, or rows, a cell begins.
fn each_begins(cells: &[Cell], axis: Axis, count: u32) -> bool
    ensures { IsTrue result ↔ EachBegins axis count cells.now }
{
    let mut number = 0;
    for place in 0..count {
        match beginning_at(cells, axis, place, number) {
            Some(found) => number = found,
            None => return false,
        }
    }
    true
}

/// The number of a cell that begins in this column, or row: of those from `from` on the first, or else of
/// those before.
fn beginning_at(cells: &[Cell], axis: Axis, place: u32, from: usize) -> Option<usize>
    requires { from ≤ length cells.now }
    ensures some { IfSome result (λ number. number < length cells.now) }
    ensures there { IfSome result (λ _. Any (λ cell. start_of axis cell ≡ place) cells.now) }
    ensures none { IfNone result (Any (λ cell. start_of axis cell ≡ place) cells.now → ⊥) }
{
    match beginning_between(cells, axis, place, from, cells.len()) {
        Some(number) => Some(number),
        None => beginning_between(cells, axis, place, 0, from),
    }
}

/// The number of the first cell that begins in this column, or row, of those from `first` to before `past`.
fn beginning_between(
    cells: &[Cell],
    axis: Axis,
    place: u32,
    first: usize,
    past: usize,
) -> Option<usize>
    requires { past ≤ length cells.now }
    ensures some { IfSome result (λ number. number < length cells.now) }
    ensures there { IfSome result (λ _. Any (λ cell. start_of axis cell ≡ place) cells.now) }
    ensures none { IfNone result (BeginsNowhere axis place cells.now first past) }
{
    for number in first..past {
        if axis.start(&cells[number]) == place {
            return Some(number);
        }
    }
    None
}

/// Whether the greatest heights of the cells sum to a height in the limits.
fn are_low_enough(cells: &[Cell]) -> bool
    ensures { IsTrue result ↔ (sum_by (λ cell. first_height cell.high) cells.now ≤ MAX_HEIGHT) }
{
    let mut height: u64 = 0;
    for cell in cells {
        height += u64::from(cell.high.max_height());
        if height > u64::from(MAX_HEIGHT) {
            return false;
        }
    }
    true
}

/// Whether some widths are within the page: whether the columns can end there, if each begins at the
/// least place that the least widths of the cells leave.
fn fits(cols: u32, spacing: Spacing, width: u32, cells: &[Cell]) -> bool
    requires spaced { IsSpacing spacing }
    requires few { cols ≤ MAX_COLUMNS }
    requires narrow { width ≤ MAX_PAGE_WIDTH }
    requires grid { All (IsInGrid cols) cells.now }
    ensures { IsTrue result ↔ FitsPageWidth cols spacing width cells.now }
{
    // To clear room for all pairs of places takes longer than all else here where columns are few.
    if (cols as usize) < FEW_PLACES {
        let mut widest = [None; FEW_PLACES * FEW_PLACES];
        return fits_between(cols, spacing, width, cells, FEW_PLACES, &mut widest);
    }
    let mut widest = [None; PLACES * PLACES];
    fits_between(cols, spacing, width, cells, PLACES, &mut widest)
}

/// Whether some widths are within the page. `widest` is room for each two of `side` places, and clear.
fn fits_between(
    cols: u32,
    spacing: Spacing,
    width: u32,
    cells: &[Cell],
    side: usize,
    widest: &mut [Option<u32>],
) -> bool
    requires spaced { IsSpacing spacing }
    requires few { cols < side }
    requires side { side ≤ PLACES }
    requires narrow { width ≤ MAX_PAGE_WIDTH }
    requires grid { All (IsInGrid cols) cells.now }
    requires size { length widest.old ≡ side * side }
    requires clear { (pair : ℕ) → get_or widest.old pair None ≡ None }
    ensures { IsTrue result ↔ FitsPageWidth cols spacing width cells.now }
{
    let end = width + spacing.gap;
    find_widest(cells, side, widest);
    let mut places = [0; PLACES];
    for column in 0..cols as usize {
        let place = next_place(widest, side, spacing.gap, &places, column);
        if place > u64::from(end) {
            return false;
        }
        places[column + 1] = place as u32;
    }
    if cols == 0 {
        return true;
    }
    places[cols as usize] + spacing.edges <= end
}

/// Writes for each two of `side` places of columns the greatest least width of the cells between them, and
/// leaves `None` where there is none.
fn find_widest(cells: &[Cell], side: usize, widest: &mut [Option<u32>])
    requires grid { All (IsOnPlaces side) cells.now }
    requires side { side ≤ PLACES }
    requires size { length widest.old ≡ side * side }
    requires clear { (pair : ℕ) → get_or widest.old pair None ≡ None }
    ensures { AreWidest side cells.now (length cells.now) widest.new }
{
    for number in 0..cells.len() {
        let cell = &cells[number];
        let pair = cell.left as usize * side + cell.right as usize;
        let before = widest[pair].unwrap_or(0);
        widest[pair] = Some(before.max(cell.low.least()));
    }
}

/// The least place for the column after this one: a gap past this column's place, and past each cell
/// that ends there. It is that of any cells whose greatest least widths these are.
fn next_place(widest: &[Option<u32>], side: usize, gap: u32, places: &[u32], column: usize) -> u64
    requires inside { column + 1 < side }
    requires side { side ≤ PLACES }
    requires pairs { length widest.now ≡ side * side }
    requires places { length places.now ≡ PLACES }
    requires small { gap ≤ 2 }
    ensures { (cells : List Cell) → All (IsOnPlaces side) cells → AreWidest side cells (length cells) widest.now →
        IsNextPlace gap cells (column + 1) places.now column result }
{
    let mut place = u64::from(places[column]) + u64::from(gap);
    for left in 0..column + 1 {
        if let Some(least) = widest[left * side + column + 1] {
            place = place.max(u64::from(places[left]) + u64::from(least) + u64::from(gap));
        }
    }
    place
}
