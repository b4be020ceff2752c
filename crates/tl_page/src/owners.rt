//! The owners of all slots of a grid.

ghost use Rattle.std.specs.Prelude.{◌≡◌, ◌+◌, ◌*◌, ◌<◌, ◌≤◌, ◌⊎◌, ℕ, length, map, get_or, replicate, None, Some, IfOk};
ghost use Rattle.std.specs.List.{All};
ghost use Rattle.tl_table.specs.Sound.{place_of, places_of};
ghost use Rattle.tl_table.specs.declared.cell.Table.{out-Table};
ghost use Rattle.tl_grid.specs.Dropping.{IsPlaced};
ghost use Rattle.tl_page.specs.Corners.{number_over, owner_of};
ghost use Rattle.tl_page.specs.Pages.{grid_of};
ghost use Rattle.tl_page.specs.inner.Drawing.{owner_in};

use crate::owner::Owner;
use std::alloc::{AllocError, Global};
use tl_base::List;
use tl_grid::Place;
use tl_table::{Table, TableCell};

/// The owner of each slot of a grid.
#[derive(Drop)]
pub struct Owners {
    /// How many columns the grid has.
    pub cols: u32,
    /// How many rows it has.
    pub rows: u32,
    /// The number of the cell over each slot, row by row.
    pub slots: List<Option<usize>>,
}

impl Owners {
    /// The owners of the slots of a table.
    pub fn new(alloc: Global, table: &Table) -> Result<Owners, AllocError>
        requires { All (IsPlaced (out-Table table.now).cols (out-Table table.now).rows) (places_of (out-Table table.now)) }
        ensures { IfOk result (λ owners. (column row : ℕ) → owner_in owners column row ≡ owner_of (grid_of (out-Table table.now)) column row) }
    {
        let mut slots = no_numbers(alloc, table.cols as usize * table.rows as usize)?;
        put_cells(&mut slots, table.cols, table.cells.as_slice());
        Ok(Owners {
            cols: table.cols,
            rows: table.rows,
            slots: List::from_vec(slots),
        })
    }

    /// The owner of the slot of this column and row, both counted from 1.
    pub fn at(&self, column: u32, row: u32) -> Owner
        ensures { result ≡ owner_in self.now column row }
    {
        if column == 0 || column > self.cols || row == 0 || row > self.rows {
            return Owner::Outside;
        }
        let place = u64::from(row - 1) * u64::from(self.cols) + u64::from(column - 1);
        match cell_at(self.slots.as_slice(), place as usize) {
            Some(number) => Owner::Cell(number),
            None => Owner::Bare(column, row),
        }
    }
}

/// So many slots without a cell.
fn no_numbers(alloc: Global, count: usize) -> Result<Vec<Option<usize>>, AllocError>
    ensures { IfOk result (λ slots. slots.items ≡ replicate count None) }
{
    vec![in alloc; None; count]
}

/// The number at a place; none past the end.
fn cell_at(slots: &[Option<usize>], place: usize) -> Option<usize>
    ensures { result ≡ get_or slots.now place None }
{
    if place < slots.len() {
        slots[place]
    } else {
        None
    }
}

/// Puts the number of each cell into its slots. Where two cells share a slot, the earlier one has it.
fn put_cells(slots: &mut [Option<usize>], cols: u32, cells: &[TableCell])
    requires { (rows : ℕ) × (length slots.old ≡ rows * cols) × All (IsPlaced cols rows) (map place_of cells.now) }
    ensures { (column row : ℕ) → column < cols → get_or slots.old (row * cols + column) None ≡ None
        → get_or slots.new (row * cols + column) None ≡ number_over 0 (map place_of cells.now) (column + 1) (row + 1) }
{
    let mut number = cells.len();
    while number > 0 {
        number -= 1;
        put_cell(slots, cols, cells[number].place, number);
    }
}

/// Puts a number into the slots of a place.
fn put_cell(slots: &mut [Option<usize>], cols: u32, place: Place, number: usize)
    requires { (rows : ℕ) × (length slots.old ≡ rows * cols) × IsPlaced cols rows place }
    ensures covered { (column row : ℕ) → place.left ≤ column → column < place.right → place.top ≤ row → row < place.bottom
        → get_or slots.new (row * cols + column) None ≡ Some number }
    ensures other { (column row : ℕ) → column < cols
        → ((column < place.left) ⊎ (place.right ≤ column)) ⊎ ((row < place.top) ⊎ (place.bottom ≤ row))
        → get_or slots.new (row * cols + column) None ≡ get_or slots.old (row * cols + column) None }
{
    for row in place.top..place.bottom {
        let begin = row as usize * cols as usize;
        put_row(
            slots,
            begin + place.left as usize,
            begin + place.right as usize,
            number,
        );
    }
}

/// Puts a number into a range of slots.
fn put_row(slots: &mut [Option<usize>], from: usize, past: usize, number: usize)
    requires ahead { from ≤ past }
    requires within { past ≤ length slots.old }
    ensures covered { (k : ℕ) → from ≤ k → k < past → get_or slots.new k None ≡ Some number }
    ensures before { (k : ℕ) → k < from → get_or slots.new k None ≡ get_or slots.old k None }
    ensures after { (k : ℕ) → past ≤ k → get_or slots.new k None ≡ get_or slots.old k None }
{
    for k in from..past {
        slots[k] = Some(number);
    }
}
