//! How many tables a table has inside.

ghost use Rattle.std.specs.Prelude.{◌≡◌, ◌<◌, ◌^◌};
ghost use Rattle.tl_table.specs.Sound.{IsSound, nested_in_table, nested_in_cell, nested_in_content};

use crate::cell::{Content, Table, TableCell};

/// How many tables are inside the table.
#[cycle(count)]
fn tables_in_table(table: &Table) -> u32
    requires { nested_in_table table.now < 2 ^ 32 }
    ensures { result ≡ nested_in_table table.now }
{
    let mut count = 0;
    for cell in table.cells.as_slice() {
        count += tables_in_cell(cell);
    }
    count
}

/// How many tables are inside the cell.
#[cycle(count)]
fn tables_in_cell(cell: &TableCell) -> u32
    requires { nested_in_cell cell.now < 2 ^ 32 }
    ensures { result ≡ nested_in_cell cell.now }
{
    let mut count = 0;
    for block in cell.blocks.as_slice() {
        count += tables_in_block(block);
    }
    count
}

/// How many tables the block is and has inside.
#[cycle(count)]
fn tables_in_block(block: &Content) -> u32
    requires { nested_in_content block.now < 2 ^ 32 }
    ensures { result ≡ nested_in_content block.now }
{
    match block {
        Content::Para(_) => 0,
        Content::Table(table) => 1 + tables_in_table(table),
    }
}

/// The number of tables inside the table, at all depths; the table itself is not counted.
pub fn nested(table: &Table) -> u32
    requires { IsSound table.now }
    ensures { result ≡ nested_in_table table.now }
{
    tables_in_table(table)
}
