//! `form`: counts the cells, forms them, and drops the columns and rows without an anchor.

ghost use Rattle.std.specs.Prelude.{◌≡◌, ◌<◌, ◌≤◌, ◌^◌, ℕ, length, All, IfOk, IfErr, alloc_error};
ghost use Rattle.std.specs.List.{AllPairs, AllByRecursion};
ghost use Rattle.tl_grid.specs.declared.shape.Grid.{Grid};
ghost use Rattle.tl_grid.specs.declared.error.GridError.{GridError};
ghost use Rattle.tl_grid.specs.declared.error.GridError.TheVariants.{Memory};
ghost use Rattle.tl_grid.specs.Shapes.{AllSpans};
ghost use Rattle.tl_grid.specs.Forming.{cell_count, row_count, cells_in_groups, formed};
ghost use Rattle.tl_grid.specs.Dropping.{IsPlaced};
ghost use Rattle.tl_grid.specs.Slots.{AreApart, HasAnchorInColumn, HasAnchorInRow, IsFilledToLeft, KeepsSlots};
ghost use Rattle.tl_grid.specs.Form.{HasGrid, LacksGrid};
ghost use Rattle.tl_base.specs.Returned.{ReturnsOk, ReturnsError, IsMemoryOr};

use crate::dropping::{kept_columns, kept_rows, places_as_written};
use crate::error::GridError;
use crate::shape::{Grid, Shape, ShapeGroup};
use crate::table::{count_cells, form_table};
use std::alloc::Global;
use tl_base::{MAX_CELLS, MAX_COLUMNS, MAX_DECLARED_COLUMNS, MAX_ROWS};

/// How many cells the groups have.
fn count_all(groups: &[ShapeGroup]) -> u32
    requires { cells_in_groups groups.now < 2 ^ 32 }
    ensures { result ≡ cells_in_groups groups.now }
{
    let mut count = 0;
    for group in groups {
        count += count_cells(group.rows.as_slice());
    }
    count
}

/// The grid, or the first reason why there is none.
fn first_result(alloc: Global, shape: &Shape) -> Result<Grid, GridError>
    requires spans { AllSpans shape.now.groups }
    requires columns { shape.now.columns ≤ MAX_DECLARED_COLUMNS }
    requires rows { row_count shape.now < 2 ^ 20 }
    requires cells { cell_count shape.now < 2 ^ 32 }
    ensures ok { IfOk result (λ grid. HasGrid shape.now grid) }
    ensures err { IfErr result (IsMemoryOr (Memory alloc_error) (LacksGrid shape.now)) }
{
    let groups = shape.groups.as_slice();
    let count = count_all(groups);
    if count as usize > MAX_CELLS {
        return Err(GridError::TooManyCells(count));
    }
    let table = form_table(alloc, groups)?;
    let blocks = table.blocks.as_slice();
    let columns = kept_columns(alloc, blocks)?;
    if columns.len() > MAX_COLUMNS {
        return Err(GridError::TooManyColumns(columns.len() as u32));
    }
    let rows = kept_rows(alloc, blocks)?;
    if rows.len() > MAX_ROWS {
        return Err(GridError::TooManyRows(rows.len() as u32));
    }
    let places = places_as_written(alloc, blocks, columns.as_slice(), rows.as_slice(), count)?;
    Ok(Grid {
        cols: columns.len() as u32,
        rows: rows.len() as u32,
        places,
    })
}

/// Forms the grid of a table (HTML Standard, "Forming a table") and drops the columns and rows in
/// which no cell is anchored. A `tfoot` is formed last; a cell of rowspan 0 grows to the end of its
/// row group; two cells over one slot are refused. No slot is made: the time does not depend on how
/// many slots a cell covers. A row without cells takes one step, and any other walks the cells from
/// rows above that it meets on the way to its own.
pub fn form(alloc: Global, shape: &Shape) -> Result<Grid, GridError>
    requires spans { AllSpans shape.now.groups }
    requires columns { shape.now.columns ≤ MAX_DECLARED_COLUMNS }
    requires rows { row_count shape.now < 2 ^ 20 }
    requires cells { cell_count shape.now < 2 ^ 32 }
    ensures ok { IfOk result (λ grid. HasGrid shape.now grid) }
    ensures count { IfOk result (λ grid. length grid.places ≡ cell_count shape.now) }
    ensures within { IfOk result (λ grid. All (IsPlaced grid.cols grid.rows) grid.places) }
    // No two places share a slot.
    ensures apart { IfOk result (λ grid. AllPairs AreApart grid.places) }
    // In each column and in each row a cell is anchored.
    ensures columns { IfOk result (λ grid.
        (x : ℕ) → x < grid.cols → HasAnchorInColumn grid.places x) }
    ensures rows { IfOk result (λ grid. (y : ℕ) → y < grid.rows → HasAnchorInRow grid.places y) }
    // All slots to the left of an anchored cell are covered in its row.
    ensures left { IfOk result (λ grid. All (IsFilledToLeft grid.places) grid.places) }
    // The kept slots of a cell are exactly those of its place.
    ensures kept { IfOk result (λ grid.
        AllByRecursion (KeepsSlots (formed shape.now)) (formed shape.now).cells) }
    ensures err { IfErr result (IsMemoryOr (Memory alloc_error) (LacksGrid shape.now)) }
    // The grid and the causes exclude one another: each is the only result.
    ensures each_ok { (grid : Grid) → HasGrid shape.now grid
        → ReturnsOk (Memory alloc_error) grid result }
    ensures each_err { (error : GridError) → LacksGrid shape.now error
        → ReturnsError (Memory alloc_error) error result }
{
    first_result(alloc, shape)
}
