//! The problem of a table: its grid, and the heights that its cells need at each width.

ghost use Rattle.std.specs.Prelude.{◌≡◌, ◌≤◌, ◌↔◌, IfOk, IsTrue, MatchOption};
ghost use Rattle.std.specs.List.{AllZip};
ghost use Rattle.tl_table.specs.declared.cell.Table.{out-Table};
ghost use Rattle.tl_table.specs.declared.cell.TableCell.{out-TableCell};
ghost use Rattle.tl_problem.specs.Sound.{IsSound};
ghost use Rattle.tl_form.specs.Problems.{HasSoundProblem, IsCellBy, IsProblemOf, inside_of};
ghost use Rattle.tl_table.specs.Sound.{IsSound as IsSoundTable};
ghost use Rattle.tl_table.specs.Tables.{inner_tables, tables_in};
ghost use Rattle.tl_form.specs.inner.CellSteps.{AreLowCells, HaveSteps, IsLowByBoth, NeedsBy};
ghost use Rattle.tl_form.specs.declared.heights.HeightBound.TheVariants.{Low, High};

use crate::cell_steps::{cell_steps, high_steps};
use crate::heights::{HeightBound, InnerSteps, have_steps};
use std::alloc::{AllocError, Global};
use tl_base::{List, MAX_HEIGHT, MAX_PAGE_WIDTH, Style};
use tl_problem::{Cell, Problem};
use tl_table::{Table, TableCell, head_end, lines_inside, spacing};

/// The cell of the problem: the place of this one, and what it needs by both bounds, with `lines` lines
/// inside the place. `None` exactly where it has no height on the page by one of them, or one above the limit.
fn problem_cell(
    alloc: Global,
    cell: &TableCell,
    lines: u32,
    page: u32,
    inner: &[InnerSteps],
) -> Result<Option<Cell>, AllocError>
    requires steps { HaveSteps inner.now (tables_in (out-TableCell cell.now)) }
    requires few { lines ≤ MAX_HEIGHT }
    requires narrow { page ≤ MAX_PAGE_WIDTH }
    ensures { IfOk result (λ found. MatchOption found (IsLowByBoth inner.now page lines (out-TableCell cell.now) → ⊥)
        (IsCellBy (NeedsBy Low inner.now) (NeedsBy High inner.now) page lines (out-TableCell cell.now))) }
{
    let Some(low) = cell_steps(alloc, cell, lines, page, inner, HeightBound::Low)? else {
        return Ok(None);
    };
    let Some(high) = high_steps(alloc, cell, lines, page, inner, &low)? else {
        return Ok(None);
    };
    let place = cell.place;
    Ok(Some(Cell {
        left: place.left,
        right: place.right,
        top: place.top,
        bottom: place.bottom,
        low,
        high,
    }))
}

/// The cells of the problem, in the order of the table's. `None` exactly where one of them has no height on
/// the page by one of both bounds, or one above the limit.
fn problem_cells(
    alloc: Global,
    table: &Table,
    style: Style,
    page: u32,
    inner: &[InnerSteps],
) -> Result<Option<List<Cell>>, AllocError>
    requires sound { IsSoundTable table.now }
    requires steps { HaveSteps inner.now (inner_tables (out-Table table.now)) }
    requires narrow { page ≤ MAX_PAGE_WIDTH }
    ensures { IfOk result (λ found. MatchOption found
        (AreLowCells inner.now page (inside_of style (out-Table table.now)) (out-Table table.now).cells → ⊥)
        (AllZip (λ cell made. IsCellBy (NeedsBy Low inner.now) (NeedsBy High inner.now) page
        (inside_of style (out-Table table.now) cell) (out-TableCell cell) made) (out-Table table.now).cells)) }
{
    let end = head_end(table);
    let mut cells = Vec::with_capacity(alloc, table.cells.len())?;
    for cell in table.cells.as_slice() {
        let lines = lines_inside(cell.place, style, end);
        let Some(made) = problem_cell(alloc, cell, lines, page, inner)? else {
            return Ok(None);
        };
        cells.push(made)?;
    }
    Ok(Some(List::from_vec(cells)))
}

/// The problem of the table on a page of `width` columns, with these heights for the tables nested
/// directly in it. A cell needs at a width as many lines of its rows as its blocks need there, one under
/// the other, less the lines between its rows: a paragraph the least number of lines of its cuttings, a
/// nested table what its steps say. It begins at its floor, or at the least width at which each of its
/// blocks has a height.
pub fn problem(
    alloc: Global,
    table: &Table,
    style: Style,
    width: u32,
    inner: &[InnerSteps],
) -> Result<Problem, AllocError>
    requires sound { IsSoundTable table.now }
    requires problem { HasSoundProblem table.now style width inner.now }
    ensures { IfOk result (IsProblemOf table.now style width inner.now) }
{
    Ok(sound_problem(alloc, table, style, width, inner)?.unwrap())
}

/// The problem of the table on a page of `width` columns, with these heights for the tables nested
/// directly in it. `None` exactly where it has no sound one.
pub fn sound_problem(
    alloc: Global,
    table: &Table,
    style: Style,
    width: u32,
    inner: &[InnerSteps],
) -> Result<Option<Problem>, AllocError>
    requires { IsSoundTable table.now }
    ensures { IfOk result (λ found. MatchOption found (HasSoundProblem table.now style width inner.now → ⊥)
        (λ problem. IsProblemOf table.now style width inner.now problem × IsSound problem)) }
{
    if width > MAX_PAGE_WIDTH {
        return Ok(None);
    }
    if !have_steps(table, inner) {
        return Ok(None);
    }
    let Some(cells) = problem_cells(alloc, table, style, width, inner)? else {
        return Ok(None);
    };
    let spacing = spacing(table, style);
    if !Problem::is_sound(table.cols, table.rows, spacing, width, cells.as_slice()) {
        return Ok(None);
    }
    let problem = Problem::new(alloc, table.cols, table.rows, spacing, width, cells)?;
    Ok(Some(problem))
}

/// Whether the table has a sound problem on a page of `width` columns, with these heights for the
/// tables nested directly in it, so that `problem` may be called with them.
pub fn has_sound_problem(
    alloc: Global,
    table: &Table,
    style: Style,
    width: u32,
    inner: &[InnerSteps],
) -> Result<bool, AllocError>
    requires { IsSoundTable table.now }
    ensures { IfOk result (λ sound. IsTrue sound ↔ HasSoundProblem table.now style width inner.now) }
{
    let problem = sound_problem(alloc, table, style, width, inner)?;
    Ok(problem.is_some())
}
