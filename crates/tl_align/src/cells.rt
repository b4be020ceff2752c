//! The side of each cell of a table.

ghost use Rattle.std.specs.Prelude.{◌≡◌, IfOk, map};
ghost use Rattle.tl_table.specs.declared.cell.Table.{out-Table};
ghost use Rattle.tl_table.specs.declared.cell.TableCell.{out-TableCell};
ghost use Rattle.tl_table.specs.Sound.{IsSound};
ghost use Rattle.tl_align.specs.Sides.{sides_of};
ghost use Rattle.tl_align.specs.inner.Tallies.{given_side, listed_side};

use crate::columns::{is_single, sides_by_numbers};
use std::alloc::{AllocError, Global};
use tl_base::List;
use tl_sides::{Align, Side, Sides};
use tl_table::{Table, TableCell};

/// The side of a cell by those of the first columns; further columns stand left.
fn listed_side(cell: &TableCell, columns: &[Side]) -> Side
    ensures { result ≡ listed_side columns.now (out-TableCell cell.now) }
{
    if !is_single(cell) {
        return Side::Left;
    }
    match columns.get(cell.place.left as usize) {
        Some(&side) => side,
        None => Side::Left,
    }
}

/// The side that a cell asks for, if it is asked and asks for one, and else that by those of the first
/// columns.
fn side_of(cell: &TableCell, columns: &[Side], asked: bool) -> Side
    ensures { result ≡ given_side asked columns.now (out-TableCell cell.now) }
{
    let listed = listed_side(cell, columns);
    if asked {
        cell.align.unwrap_or(listed)
    } else {
        listed
    }
}

/// The sides of the cells, which are asked for their own or not, by those of the first columns.
fn sides_by(
    alloc: Global,
    cells: &[TableCell],
    columns: &Sides,
    asked: bool,
) -> Result<List<Side>, AllocError>
    ensures { IfOk result (λ sides. sides ≡ map (λ cell. given_side asked columns.now (out-TableCell cell)) cells.now) }
{
    let mut sides = List::new(alloc);
    for cell in cells {
        sides.push(side_of(cell, columns.as_slice(), asked))?;
    }
    Ok(sides)
}

/// On which side the lines of each cell of the table stand, in the order of the cells. Tables nested in
/// it are asked for one by one, with the same `align`. The time grows with the number of cells.
pub fn sides(alloc: Global, table: &Table, align: Align) -> Result<List<Side>, AllocError>
    requires { IsSound table.now }
    ensures { IfOk result (λ sides. sides ≡ sides_of align (out-Table table.now)) }
{
    let cells = table.cells.as_slice();
    match align {
        Align::Columns(columns) => sides_by(alloc, cells, &columns, false),
        Align::Auto => sides_by(alloc, cells, &sides_by_numbers(table), false),
        Align::Cells => sides_by(alloc, cells, &sides_by_numbers(table), true),
    }
}
