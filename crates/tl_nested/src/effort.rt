//! How long the searches of tables take, as far as their text tells it before. No contract depends on it: it
//! tells only whether tables are small enough to be searched one after the other.

ghost use Rattle.std.specs.Prelude.{◌≤◌};
ghost use Rattle.std.specs.List.{All};
ghost use Rattle.tl_form.specs.Expected.{own_number};
ghost use Rattle.tl_form.specs.Subjects.{IsSubject, meant};

use tl_form::Subject;
use tl_table::{Content, Table, TableCell};

/// About how many microseconds all searches of a small table take for each of its cells and each of its words.
/// Those of a larger table take more, as it has more widths: 27, where a table has 30 rows of 3 cells.
const WORD_TIME: u64 = 15;

/// One for the cell, and one for each of its words. Those of nested tables are not counted.
fn cell_size(cell: &TableCell) -> u64 {
    let mut size = 1u64;
    for block in cell.blocks.as_slice() {
        if let Content::Para(paragraph) = block {
            size = size.saturating_add(paragraph.atoms().len() as u64);
        }
    }
    size
}

/// How many cells and words the table has, without those of nested tables.
fn table_size(table: &Table) -> u64 {
    let mut size = 0u64;
    for cell in table.cells.as_slice() {
        size = size.saturating_add(cell_size(cell));
    }
    size
}

/// About how many microseconds it takes to search the tables with these numbers.
pub fn effort_of(subject: &Subject, numbers: &[u32]) -> u64
    requires subject { IsSubject subject.now }
    requires there { All (λ number. (own_number (meant subject.now) ≤ number) × (number ≤ subject.now.last)) numbers.now }
{
    let mut size = 0u64;
    for &number in numbers {
        size = size.saturating_add(table_size(subject.table_of(number)));
    }
    size.saturating_mul(WORD_TIME)
}
