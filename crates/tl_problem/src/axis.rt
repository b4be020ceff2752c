//! The two directions of a grid, and its cells in the order in which they begin along one of them.

ghost use Rattle.std.specs.Prelude.{◌≡◌, ◌<◌, ◌^◌, length, IfOk};
ghost use Rattle.tl_problem.specs.inner.Axes.{IsOrder, count_on, end_of, gap_on, start_of};

use crate::{Cell, Problem};
use std::alloc::{AllocError, Global};

/// A direction of a grid.
#[derive(Clone, Copy, Debug, PartialEq, Eq)]
pub enum Axis {
    /// From column to column.
    Columns,
    /// From row to row.
    Rows,
}

impl Axis {
    /// The first column, or row, of the cell.
    pub fn start(self, cell: &Cell) -> u32
        ensures { result ≡ start_of self cell.now }
    {
        match self {
            Axis::Columns => cell.left,
            Axis::Rows => cell.top,
        }
    }

    /// The first column, or row, past the cell.
    pub fn end(self, cell: &Cell) -> u32
        ensures { result ≡ end_of self cell.now }
    {
        match self {
            Axis::Columns => cell.right,
            Axis::Rows => cell.bottom,
        }
    }

    /// How many columns, or rows, the problem has.
    pub fn count(self, problem: &Problem) -> u32
        ensures { result ≡ count_on self problem.now }
    {
        match self {
            Axis::Columns => problem.cols(),
            Axis::Rows => problem.rows(),
        }
    }

    /// The gap between two columns, or rows, of the problem.
    pub fn gap(self, problem: &Problem) -> u32
        ensures { result ≡ gap_on self problem.now }
    {
        match self {
            Axis::Columns => problem.spacing().gap,
            Axis::Rows => problem.spacing().row_gap,
        }
    }
}

/// A cell, by its number, with the column or row where it begins.
#[derive(Clone, Copy, Debug)]
pub struct Turn {
    pub start: u32,
    pub cell: u32,
}

/// The cells in the order in which they begin.
pub fn order(alloc: Global, cells: &[Cell], axis: Axis) -> Result<Vec<Turn>, AllocError>
    requires { length cells.now < 2 ^ 32 }
    ensures { IfOk result (λ turns. IsOrder axis cells.now turns.items) }
{
    let mut turns = Vec::new(alloc);
    for (number, cell) in cells.iter().enumerate() {
        turns.push(Turn {
            start: axis.start(cell),
            cell: number as u32,
        })?;
    }
    turns.sort_by_key(|turn| turn.start)?;
    Ok(turns)
}
