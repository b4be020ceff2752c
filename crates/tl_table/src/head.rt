//! The head of a table: the row at which it ends, and the caption's row above it.

ghost use Rattle.std.specs.Prelude.{◌≡◌, map};
ghost use Rattle.std.specs.List.{list_any};
ghost use Rattle.tl_table.specs.declared.cell.Table.{out-Table};
ghost use Rattle.tl_table.specs.declared.cell.TableCell.{out-TableCell};
ghost use Rattle.tl_table.specs.Heads.{caption_height, head_end, head_row, is_caption, is_header, run_end, stands_with};
ghost use Rattle.tl_table.specs.Sound.{IsSound};
ghost use Rattle.tl_table.specs.inner.Marks.{has_mark};

use crate::cell::{Kind, Table, TableCell};

/// What the cells of a run of rows are.
#[derive(Clone, Copy)]
enum Mark {
    /// They are of a `thead` group.
    Group,
    /// They are header cells.
    Header,
}

/// Whether a cell is a caption.
fn is_caption(kind: Kind) -> bool
    ensures { result ≡ is_caption kind }
{
    match kind {
        Kind::Caption => true,
        Kind::Head | Kind::Plain => false,
    }
}

/// Whether a cell is a header cell.
fn is_header(kind: Kind) -> bool
    ensures { result ≡ is_header kind }
{
    match kind {
        Kind::Head => true,
        Kind::Caption | Kind::Plain => false,
    }
}

/// Whether the cell has the mark.
fn has_mark(cell: &TableCell, mark: Mark) -> bool
    ensures { result ≡ has_mark mark (out-TableCell cell.now) }
{
    match mark {
        Mark::Group => cell.in_head,
        Mark::Header => is_header(cell.kind),
    }
}

/// Whether the cell stands with a run of first rows that ends at this row.
fn stands_with(cell: &TableCell, mark: Mark, end: u32) -> bool
    ensures { result ≡ stands_with (has_mark mark) end (out-TableCell cell.now) }
{
    let may_stand = is_caption(cell.kind) || has_mark(cell, mark);
    end <= cell.place.top || (cell.place.bottom <= end && may_stand)
}

/// The row at which the longest run of first rows ends. From the last cell up, each that does not stand
/// with the rows above the end takes it to the row where the cell begins.
fn run_end(table: &Table, mark: Mark) -> u32
    requires { IsSound table.now }
    ensures { result ≡ run_end (has_mark mark) (map out-TableCell (out-Table table.now).cells) (out-Table table.now).rows }
{
    let cells = table.cells.as_slice();
    let mut end = table.rows;
    for number in (0..cells.len()).rev() {
        let cell = &cells[number];
        if !stands_with(cell, mark, end) {
            end = cell.place.top;
        }
    }
    end
}

/// Whether one of the cells is a caption.
fn has_caption(cells: &[TableCell]) -> bool
    ensures { result ≡ list_any (λ cell. is_caption cell.kind) (map out-TableCell cells.now) }
{
    for cell in cells {
        if is_caption(cell.kind) {
            return true;
        }
    }
    false
}

/// How many rows the table's caption takes, above all others: 1, or 0 where it has none.
pub fn caption_height(table: &Table) -> u32
    ensures { result ≡ caption_height table.now }
{
    u32::from(has_caption(table.cells.as_slice()))
}

/// The row at which the table's head ends: the rows from the caption's end on and above this one are the
/// head, and no cell crosses it. The head is the first rows that are of `thead` groups or, without them,
/// the first rows of header cells from which none reaches below. Without either the head ends where the
/// caption does. The time grows with the number of cells.
pub fn head_end(table: &Table) -> u32
    requires { IsSound table.now }
    ensures { result ≡ head_end table.now }
{
    let grouped = run_end(table, Mark::Group);
    if caption_height(table) < grouped {
        grouped
    } else {
        run_end(table, Mark::Header)
    }
}

/// The last row of the table's head, counted from 1, where a line may be drawn under it: the table has
/// a head, and a row below it.
pub fn head_row(table: &Table) -> Option<u32>
    requires { IsSound table.now }
    ensures { result ≡ head_row (out-Table table.now) }
{
    let end = head_end(table);
    if caption_height(table) < end && end < table.rows {
        Some(end)
    } else {
        None
    }
}
