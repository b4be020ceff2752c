//! The units of all paragraphs of a table, those of nested tables included.

ghost use Rattle.std.specs.Prelude.{◌≡◌};
ghost use Rattle.tl_text.specs.Widest.{widest_within};
ghost use Rattle.tl_fit.specs.Units.{units_in_cell, units_in_content, units_in_table};

use tl_table::{Content, Table, TableCell};

/// The width in columns of the widest of those units of the table that are at most `most` columns wide, and
/// 0 where there is none.
#[cycle(widest)]
pub fn widest_in_table(table: &Table, most: u32) -> u32
    ensures { result ≡ widest_within most (units_in_table table.now) }
{
    let mut widest: u32 = 0;
    for cell in table.cells.as_slice() {
        widest = widest.max(widest_in_cell(cell, most));
    }
    widest
}

/// The same of the units of a cell.
#[cycle(widest)]
fn widest_in_cell(cell: &TableCell, most: u32) -> u32
    ensures { result ≡ widest_within most (units_in_cell cell.now) }
{
    let mut widest: u32 = 0;
    for block in cell.blocks.as_slice() {
        widest = widest.max(widest_in_block(block, most));
    }
    widest
}

/// The same of the units of a block.
#[cycle(widest)]
fn widest_in_block(block: &Content, most: u32) -> u32
    ensures { result ≡ widest_within most (units_in_content block.now) }
{
    match block {
        Content::Para(paragraph) => tl_text::widest_within(paragraph, most),
        Content::Table(table) => widest_in_table(table, most),
    }
}
