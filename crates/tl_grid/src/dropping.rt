//! Drops the columns and rows in which no cell is anchored, and gives each cell its place.

ghost use Rattle.std.specs.Prelude.{◌≡◌, ◌<◌, ◌≤◌, ◌^◌, ℕ, length, IfOk, IfErr, MatchResult};
ghost use Rattle.std.specs.Prelude.{alloc_error, replicate, map};
ghost use Rattle.std.specs.List.Sorted.{IsStrictlyIncreasing};
ghost use Rattle.tl_grid.specs.declared.block.Block.{Block};
ghost use Rattle.tl_grid.specs.declared.error.GridError.TheVariants.{Memory};
ghost use Rattle.tl_base.specs.Lists.{is_among};
ghost use Rattle.tl_grid.specs.inner.Places.{begins_in_column, begins_in_row, nowhere, place_of_block, put_places};

use crate::block::Block;
use crate::error::GridError;
use crate::kept::{in_order, new_number};
use crate::shape::Place;
use std::alloc::{AllocError, Global};
use tl_base::List;

/// The column in which each block begins.
fn anchor_columns(alloc: Global, blocks: &[Block]) -> Result<Vec<u32>, AllocError>
    ensures { IfOk result (λ columns.
        columns.items ≡ map (λ (block : Block). block.left) blocks.now) }
{
    blocks.iter().map(|block| block.left).collect(alloc)
}

/// The row in which each block begins.
fn anchor_rows(alloc: Global, blocks: &[Block]) -> Result<Vec<u32>, AllocError>
    ensures { IfOk result (λ rows. rows.items ≡ map (λ (block : Block). block.top) blocks.now) }
{
    blocks.iter().map(|block| block.top).collect(alloc)
}

/// The columns in which a cell is anchored, in order.
pub fn kept_columns(alloc: Global, blocks: &[Block]) -> Result<List<u32>, GridError>
    ensures rises { IfOk result (λ kept. IsStrictlyIncreasing kept) }
    ensures same { IfOk result (λ kept. (x : ℕ) → is_among kept x ≡ begins_in_column blocks.now x) }
    ensures few { IfOk result (λ kept. length kept ≤ length blocks.now) }
    ensures err { IfErr result (λ e. e ≡ Memory alloc_error) }
{
    Ok(List::from_vec(in_order(anchor_columns(alloc, blocks)?)))
}

/// The rows in which a cell is anchored, in order.
pub fn kept_rows(alloc: Global, blocks: &[Block]) -> Result<List<u32>, GridError>
    ensures rises { IfOk result (λ kept. IsStrictlyIncreasing kept) }
    ensures same { IfOk result (λ kept. (y : ℕ) → is_among kept y ≡ begins_in_row blocks.now y) }
    ensures few { IfOk result (λ kept. length kept ≤ length blocks.now) }
    ensures err { IfErr result (λ e. e ≡ Memory alloc_error) }
{
    Ok(List::from_vec(in_order(anchor_rows(alloc, blocks)?)))
}

/// Where a block lies once columns and rows are dropped.
fn place_of(columns: &[u32], rows: &[u32], block: Block) -> Place
    requires columns { IsStrictlyIncreasing columns.now }
    requires few_columns { length columns.now < 2 ^ 32 }
    requires rows { IsStrictlyIncreasing rows.now }
    requires few_rows { length rows.now < 2 ^ 32 }
    ensures { result ≡ place_of_block columns.now rows.now block }
{
    Place {
        left: new_number(columns, block.left),
        right: new_number(columns, block.right),
        top: new_number(rows, block.top),
        bottom: new_number(rows, block.bottom),
    }
}

/// The places of the `count` cells in the order of the cells as written.
pub fn places_as_written(
    alloc: Global,
    blocks: &[Block],
    columns: &[u32],
    rows: &[u32],
    count: u32,
) -> Result<List<Place>, GridError>
    requires columns { IsStrictlyIncreasing columns.now }
    requires few_columns { length columns.now < 2 ^ 32 }
    requires rows { IsStrictlyIncreasing rows.now }
    requires few_rows { length rows.now < 2 ^ 32 }
    ensures count { IfOk result (λ places. length places ≡ count) }
    ensures places { MatchResult result
        (λ places. places ≡ put_places columns.now rows.now (replicate count nowhere) blocks.now)
        (λ e. e ≡ Memory alloc_error) }
{
    let nowhere = Place {
        left: 0,
        right: 0,
        top: 0,
        bottom: 0,
    };
    let mut places = vec![in alloc; nowhere; count as usize]?;
    for block in blocks {
        if let Some(place) = places.get_mut(block.number as usize) {
            *place = place_of(columns, rows, *block);
        }
    }
    Ok(List::from_vec(places))
}
