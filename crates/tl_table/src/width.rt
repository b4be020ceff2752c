//! The least width of a table: that of the narrowest page that any of its layouts fits.

ghost use Rattle.std.specs.Prelude.{◌≡◌, ◌+◌, ◌<◌, ◌≤◌, sum_by, IfOk};
ghost use Rattle.tl_base.specs.declared.limits.TheConstants.{MAX_HEIGHT};
ghost use Rattle.tl_table.specs.declared.cell.Content.{out-Content};
ghost use Rattle.tl_table.specs.declared.cell.Table.{out-Table};
ghost use Rattle.tl_table.specs.declared.cell.TableCell.{out-TableCell};
ghost use Rattle.tl_table.specs.Least.{IsLeastWidth};
ghost use Rattle.tl_table.specs.Sound.{IsSound, table_size, cell_size, content_size, IsSoundBlock, IsSoundCell};
ghost use Rattle.tl_table.specs.inner.Demands.{AreDemands, AreSmallDemands, IsLeastFor, most_gaps, most_width};
ghost use Rattle.tl_table.specs.inner.LeastRooms.{AreDemandsOf, IsLeastForBlock, IsLeastCellRoom};

use crate::cell::{Content, Table, TableCell};
use crate::widest::{Demand, heaviest_chain};
use std::alloc::{AllocError, Global};
use tl_base::Style;

/// The least total width of columns that give each demand its room.
pub fn least_total(
    alloc: Global,
    cols: u32,
    demands: &[Demand],
    style: Style,
) -> Result<u32, AllocError>
    requires { AreDemands cols demands.now }
    ensures least { IfOk result (IsLeastFor style cols demands.now) }
    ensures small { IfOk result (λ width. width ≤ sum_by (λ demand. demand.width) demands.now + most_gaps) }
    ensures none { IfOk result (λ width. cols ≡ 0 → width ≡ 0) }
{
    if cols == 0 {
        return Ok(0);
    }
    let chain = heaviest_chain(alloc, cols, demands, style)?;
    Ok(chain.weight)
}

/// The least width of the table by its cells' demands.
fn width_by(
    alloc: Global,
    table: &Table,
    demands: &[Demand],
    style: Style,
) -> Result<u32, AllocError>
    requires sound { IsSound table.now }
    requires each { AreDemandsOf style (out-Table table.now).cells demands.now }
    requires small { AreSmallDemands demands.now (table_size table.now) }
    ensures least { IfOk result (IsLeastWidth table.now style) }
    ensures small { IfOk result (λ width. width ≤ most_width (table_size table.now)) }
{
    let width = least_total(alloc, table.cols, demands, style)?;
    Ok(width)
}

/// What each cell of the table asks of its columns, in the order of the cells.
#[cycle(width)]
pub fn demands_of(alloc: Global, table: &Table, style: Style) -> Result<Vec<Demand>, AllocError>
    requires { IsSound table.now }
    ensures each { IfOk result (λ demands. AreDemandsOf style (out-Table table.now).cells demands.items) }
    ensures small { IfOk result (λ demands. AreSmallDemands demands.items (table_size table.now)) }
{
    let mut demands = Vec::with_capacity(alloc, table.cells.len())?;
    for cell in table.cells.as_slice() {
        let width = cell_width(alloc, cell, style)?;
        demands.push(Demand {
            left: cell.place.left,
            right: cell.place.right,
            width,
        })?;
    }
    Ok(demands)
}

/// The least width of the room in which the cell fits.
#[cycle(width)]
fn cell_width(alloc: Global, cell: &TableCell, style: Style) -> Result<u32, AllocError>
    requires { IsSoundCell (out-TableCell cell.now) }
    ensures least { IfOk result (IsLeastCellRoom style (out-TableCell cell.now)) }
    ensures small { IfOk result (λ width. width + most_gaps ≤ most_width (cell_size cell.now)) }
{
    let mut width = cell.least;
    for block in cell.blocks.as_slice() {
        width = width.max(block_width(alloc, block, style)?);
    }
    Ok(width)
}

/// The least width in which the block fits.
#[cycle(width)]
fn block_width(alloc: Global, block: &Content, style: Style) -> Result<u32, AllocError>
    requires { IsSoundBlock (out-Content block.now) }
    ensures least { IfOk result (IsLeastForBlock style (out-Content block.now)) }
    ensures small { IfOk result (λ width. width ≤ most_width (content_size block.now)) }
{
    match block {
        Content::Para(paragraph) => Ok(tl_text::least_width(paragraph)),
        Content::Table(table) => {
            let demands = demands_of(alloc, table, style)?;
            let width = width_by(alloc, table, &demands, style)?;
            Ok(width)
        }
    }
}

/// The least width of a page that any layout of the table fits, over all layouts of the tables
/// nested in it too, in columns of text: no more than a certificate can name. It costs what the cells,
/// at all depths, and their demands do, and no width is tried. The error is out of memory.
pub fn least_width(alloc: Global, table: &Table, style: Style) -> Result<u32, AllocError>
    requires { IsSound table.now }
    ensures least { IfOk result (IsLeastWidth table.now style) }
    ensures small { IfOk result (λ width. width ≤ MAX_HEIGHT) }
{
    let demands = demands_of(alloc, table, style)?;
    width_by(alloc, table, &demands, style)
}
