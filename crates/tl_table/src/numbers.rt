//! The tables of a document by their numbers.

ghost use Rattle.std.specs.Prelude.{[], ◌∷◌, IfOk, length};
ghost use Rattle.tl_table.specs.declared.cell.Content.{out-Content};
ghost use Rattle.tl_table.specs.declared.cell.TableCell.{out-TableCell};
ghost use Rattle.tl_table.specs.Numbered.{AreByNumber};
ghost use Rattle.tl_table.specs.Sound.{IsSound};
ghost use Rattle.tl_table.specs.Tables.{tables_of, tables_in};
ghost use Rattle.tl_table.specs.inner.Numbers.{ArePut, HavePlaces};

use crate::cell::{Content, Table, TableCell};
use crate::count::nested;
use std::alloc::{AllocError, Global};

/// The table and those nested in it at any depth, by their numbers from that of the table itself on.
pub fn by_number<'a>(alloc: Global, table: &'a Table) -> Result<Vec<&'a Table>, AllocError>
    requires { IsSound table.now }
    ensures { IfOk result (λ tables. AreByNumber table.now tables.items) }
{
    let mut tables = vec![in alloc; table; nested(table) as usize + 1]?;
    put_table(tables.as_mut_slice(), table.number, table);
    Ok(tables)
}

/// Puts the tables nested in the table and then itself into their places. The first place is for the number `first`.
#[cycle(numbers)]
fn put_table<'a>(places: &mut [&'a Table], first: u32, table: &'a Table)
    requires { HavePlaces first (length places.old) (table.now ∷ []) }
    ensures { ArePut first (table.now ∷ []) places.old places.new }
{
    for cell in table.cells.as_slice() {
        put_cell(places, first, cell);
    }
    places[(table.number - first) as usize] = table;
}

/// Puts the tables in the cell into their places.
#[cycle(numbers)]
fn put_cell<'a>(places: &mut [&'a Table], first: u32, cell: &'a TableCell)
    requires { HavePlaces first (length places.old) (tables_in (out-TableCell cell.now)) }
    ensures { ArePut first (tables_in (out-TableCell cell.now)) places.old places.new }
{
    for block in cell.blocks.as_slice() {
        put_block(places, first, block);
    }
}

/// Puts the table that the block is and those inside it into their places. A paragraph has none.
#[cycle(numbers)]
fn put_block<'a>(places: &mut [&'a Table], first: u32, block: &'a Content)
    requires { HavePlaces first (length places.old) (tables_of (out-Content block.now)) }
    ensures { ArePut first (tables_of (out-Content block.now)) places.old places.new }
{
    match block {
        Content::Para(_) => {}
        Content::Table(table) => put_table(places, first, table),
    }
}
