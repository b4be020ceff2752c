//! Chains of columns: why no page narrower than a table's least width holds it.

ghost use Rattle.std.specs.Prelude.{◌≡◌, ◌+◌, ◌*◌, ◌<◌, ◌++◌, ◌∷◌, ℕ, None, [], IfOk, MatchOption};
ghost use Rattle.tl_table.specs.declared.cell.Content.{out-Content};
ghost use Rattle.tl_table.specs.declared.cell.Table.{out-Table};
ghost use Rattle.tl_table.specs.declared.cell.TableCell.{out-TableCell};
ghost use Rattle.tl_table.specs.Chains.{IsHeaviestChain, own_width, widest_in};
ghost use Rattle.tl_table.specs.Least.{IsLeastWidth};
ghost use Rattle.tl_table.specs.Sound.{IsSound, table_size, IsSoundBlock, IsSoundCell};
ghost use Rattle.tl_table.specs.inner.Demands.{AreSmallDemands, IsRowOf};
ghost use Rattle.tl_table.specs.inner.LeastRooms.{AreDemandsOf, IsLeastCellRoom};
ghost use Rattle.tl_table.specs.inner.Links.{AreOthers, IsLinked, IsLinkedBy};

use crate::cell::{Content, Table, TableCell};
use crate::widest::{Demand, HeaviestChain, heaviest_chain};
use crate::width::{demands_of, least_width};
use std::alloc::{AllocError, Global};
use tl_base::{Chain, Entry, List, Style};

/// Why a cell is as wide as it is: `None`, for its floor or its widest unit; or the number of a table
/// nested in it, with that table's chains.
#[derive(Drop)]
pub struct Linked {
    pub inner: Option<u32>,
    pub chains: List<Chain>,
}

/// The width of the block's widest unit; a nested table has none of its own.
fn widest_of_block(block: &Content) -> u32
    ensures { result ≡ widest_in (out-Content block.now) }
{
    match block {
        Content::Para(paragraph) => tl_text::least_width(paragraph),
        Content::Table(_) => 0,
    }
}

/// The width of the cell by itself, in columns: the greater of its floor and its widest unit. It leaves
/// out the tables nested in the cell.
pub fn own_width(cell: &TableCell) -> u32
    ensures { result ≡ own_width (out-TableCell cell.now) }
{
    let mut width = cell.least;
    for block in cell.blocks.as_slice() {
        width = width.max(widest_of_block(block));
    }
    width
}

/// The reason that a cell is as wide as itself.
fn unlinked(alloc: Global) -> Linked
    ensures inner { result.inner ≡ None }
    ensures chains { result.chains ≡ [] }
{
    Linked {
        inner: None,
        chains: List::new(alloc),
    }
}

/// The chains of `first`, and after them those of `second`.
fn chained(mut first: List<Chain>, second: List<Chain>) -> Result<List<Chain>, AllocError>
    ensures { IfOk result (λ chains. chains ≡ first ++ second) }
{
    for chain in second.into_vec() {
        first.push(chain)?;
    }
    Ok(first)
}

/// The chain, and after it those of `rest`.
fn followed(alloc: Global, first: Chain, rest: List<Chain>) -> Result<List<Chain>, AllocError>
    ensures { IfOk result (λ chains. chains ≡ first ∷ rest) }
{
    let mut chains = List::new(alloc);
    chains.push(first)?;
    chained(chains, rest)
}

/// A heaviest chain of the cells' demands. It weighs the least width of the table.
fn heaviest_of(
    alloc: Global,
    table: &Table,
    demands: &[Demand],
    style: Style,
) -> Result<HeaviestChain, AllocError>
    requires sound { IsSound table.now }
    requires column { 0 < (out-Table table.now).cols }
    requires each { AreDemandsOf style (out-Table table.now).cells demands.now }
    requires small { AreSmallDemands demands.now (table_size table.now) }
    ensures least { IfOk result (λ chain. IsLeastWidth table.now style chain.weight) }
    ensures chain { IfOk result (λ chain. IsRowOf style (out-Table table.now).cols demands.now chain.numbers chain.weight) }
{
    let chain = heaviest_chain(alloc, table.cols, demands, style)?;
    Ok(chain)
}

/// A heaviest chain of the table, and after it, for its entries in order, the chains of the nested
/// tables that give their widths, each with those that follow from it. The first weighs the least
/// width of the table.
#[cycle(narrow)]
pub fn narrow_chain(alloc: Global, table: &Table, style: Style) -> Result<List<Chain>, AllocError>
    requires sound { IsSound table.now }
    requires column { 0 < (out-Table table.now).cols }
    ensures { IfOk result (λ chains. (weight : ℕ) × IsLeastWidth table.now style weight
        × IsHeaviestChain table.now style chains weight) }
{
    let demands = demands_of(alloc, table, style)?;
    let demands = demands.as_slice();
    let heaviest = heaviest_of(alloc, table, demands, style)?;
    let mut entries = List::new(alloc);
    let mut inner = List::new(alloc);
    let cells = table.cells.as_slice();
    for number in heaviest.numbers.as_slice() {
        let at = *number as usize;
        let linked = link_of(alloc, &cells[at], demands[at].width, style)?;
        let nested = linked.inner;
        inner = chained(inner, linked.chains)?;
        entries.push(Entry {
            cell: *number,
            inner: nested,
        })?;
    }
    let first = Chain {
        table: table.number,
        entries,
    };
    followed(alloc, first, inner)
}

/// The reason why the cell's room is at least so wide.
#[cycle(narrow)]
fn link_of(alloc: Global, cell: &TableCell, width: u32, style: Style) -> Result<Linked, AllocError>
    requires sound { IsSoundCell (out-TableCell cell.now) }
    requires least { IsLeastCellRoom style (out-TableCell cell.now) width }
    ensures { IfOk result (IsLinked style (out-TableCell cell.now) width) }
{
    if own_width(cell) >= width {
        return Ok(unlinked(alloc));
    }
    for block in cell.blocks.as_slice() {
        match link_by(alloc, block, width, style)? {
            Some(linked) => return Ok(linked),
            None => {}
        }
    }
    Ok(unlinked(alloc))
}

/// The chains of the table that the block is, where its least width is `width`.
#[cycle(narrow)]
fn link_by(
    alloc: Global,
    block: &Content,
    width: u32,
    style: Style,
) -> Result<Option<Linked>, AllocError>
    requires sound { IsSoundBlock (out-Content block.now) }
    requires wide { 0 < width }
    ensures { IfOk result (λ found. MatchOption found
        (AreOthers style width block.now)
        (IsLinkedBy style (out-Content block.now) width)) }
{
    match block {
        Content::Para(_) => Ok(None),
        Content::Table(table) => {
            let least = least_width(alloc, table, style)?;
            if least != width {
                return Ok(None);
            }
            let chains = narrow_chain(alloc, table, style)?;
            Ok(Some(Linked {
                inner: Some(table.number),
                chains,
            }))
        }
    }
}
