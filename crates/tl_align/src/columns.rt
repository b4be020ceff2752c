//! Columns of numbers: a table's cells are looked at once, and each column's state is kept.

ghost use Rattle.std.specs.Prelude.{◌≡◌, ◌<◌, ℕ, slice_index_or};
ghost use Rattle.tl_base.specs.declared.limits.TheConstants.{MAX_COLUMNS};
ghost use Rattle.tl_sides.specs.declared.side.Side.TheVariants.{Left};
ghost use Rattle.tl_table.specs.declared.cell.Table.{out-Table};
ghost use Rattle.tl_table.specs.declared.cell.TableCell.{out-TableCell};
ghost use Rattle.tl_table.specs.Sound.{IsSound};
ghost use Rattle.tl_align.specs.Sides as spec;
ghost use Rattle.tl_align.specs.inner.Tallies as inner;

use crate::number::is_number_word;
use tl_base::MAX_COLUMNS;
use tl_sides::{Side, Sides};
use tl_table::{Content, Kind, Table, TableCell, head_end};

/// What the cells that tell what is in a column were so far.
#[derive(Clone, Copy)]
enum Tally {
    /// There was none.
    Blank,
    /// All were numbers.
    Numbers,
    /// One was no number.
    Other,
}

impl Tally {
    /// With one cell more.
    fn with(self, is_number: bool) -> Tally
        ensures { result ≡ inner.with self is_number }
    {
        match self {
            Tally::Blank | Tally::Numbers if is_number => Tally::Numbers,
            Tally::Blank | Tally::Numbers | Tally::Other => Tally::Other,
        }
    }

    /// The side of the column.
    fn side(self) -> Side
        ensures { result ≡ inner.side self }
    {
        match self {
            Tally::Numbers => Side::Right,
            Tally::Blank | Tally::Other => Side::Left,
        }
    }
}

/// Whether the cell is over one column, and no caption.
pub(crate) fn is_single(cell: &TableCell) -> bool
    ensures { result ≡ spec.is_single (out-TableCell cell.now) }
{
    let place = cell.place;
    place.left < place.right && place.right - place.left == 1 && !matches!(cell.kind, Kind::Caption)
}

/// Whether the cell is a number.
fn is_number_cell(cell: &TableCell) -> bool
    ensures { result ≡ spec.are_number (out-TableCell cell.now).blocks }
{
    match cell.blocks.as_slice() {
        [Content::Para(paragraph)] => is_number_word(paragraph.atoms()),
        _ => false,
    }
}

/// Whether the cell tells what is in its column, in a table whose head ends at this row.
fn tells(cell: &TableCell, head_end: u32) -> bool
    ensures { result ≡ spec.tells head_end (out-TableCell cell.now).place.left (out-TableCell cell.now) }
{
    is_single(cell) && head_end <= cell.place.top && !cell.blocks.as_slice().is_empty()
}

/// What is in each column.
fn tallies(table: &Table) -> [Tally; MAX_COLUMNS]
    requires { IsSound table.now }
    ensures { inner.AreTallies (out-Table table.now) result }
{
    let end = head_end(table);
    let cells = table.cells.as_slice();
    let mut tallies = [Tally::Blank; MAX_COLUMNS];
    for cell in cells {
        if tells(cell, end) {
            let column = cell.place.left as usize;
            tallies[column] = tallies[column].with(is_number_cell(cell));
        }
    }
    tallies
}

/// The side of each column: the right for a column of numbers, and else the left.
pub(crate) fn sides_by_numbers(table: &Table) -> Sides
    requires { IsSound table.now }
    ensures { (column : ℕ) → column < MAX_COLUMNS → slice_index_or result column Left ≡ spec.numbers_side (out-Table table.now) column }
{
    let mut sides = Sides::none();
    let tallies = tallies(table);
    for tally in &tallies {
        sides = sides.with(tally.side());
    }
    sides
}
