//! One cell of a row: the walk to its column, its block, and the overlap that it may run into.

ghost use Rattle.std.specs.Prelude.{◌≡◌, ◌+◌, ◌*◌, ◌<◌, ◌≤◌, ◌^◌, IfOk, max, length};
ghost use Rattle.tl_grid.specs.inner.Walk.{block_at, place_cell};
ghost use Rattle.tl_grid.specs.Shapes.{IsSpan};
ghost use Rattle.tl_grid.specs.inner.States.{row_over, IsWalked, StaysWithin};

use crate::block::Block;
use crate::error::GridError;
use crate::open_blocks::OpenBlocks;
use crate::shape::SpanOf;
use tl_base::{List, MAX_CELLS, MAX_COLSPAN, MAX_ROWSPAN};

/// A row while its cells are formed.
#[derive(Drop)]
pub struct RowState {
    /// The table's height so far.
    pub height: u32,
    /// The blocks of the row group so far, in the order in which they were formed.
    pub blocks: List<Block>,
    /// The open ones, and the walk of the row over them.
    pub open_blocks: OpenBlocks,
}

/// The block of a cell that begins in column `column` of row `row`.
fn block_of(number: u32, column: u32, row: u32, span: SpanOf) -> Block
    requires span { IsSpan span }
    requires column { column + MAX_COLSPAN < 2 ^ 32 }
    requires row { row + MAX_ROWSPAN < 2 ^ 32 }
    ensures { result ≡ block_at number column row span }
{
    let rows = if span.rowspan == 0 { 1 } else { span.rowspan };
    Block {
        number,
        left: column,
        right: column + span.colspan,
        top: row,
        bottom: row + rows,
        grows: span.rowspan == 0,
    }
}

/// Forms the cell `number`, the next one of row `y`. It overlaps the first block after its column
/// if it runs into it.
pub fn form_cell(y: u32, number: u32, span: SpanOf, row: RowState) -> Result<RowState, GridError>
    requires span { IsSpan span }
    requires number { number < MAX_CELLS }
    requires row { y + MAX_ROWSPAN < 2 ^ 32 }
    requires columns { StaysWithin (MAX_COLSPAN * number) (row_over row) }
    ensures cell { IsWalked row_over (place_cell y number (row_over row) span) result }
    ensures columns { IfOk result (λ after. StaysWithin (MAX_COLSPAN * (number + 1)) (row_over after)) }
    ensures height { IfOk result (λ after. after.height ≤ max row.height (y + MAX_ROWSPAN)) }
    ensures count { IfOk result (λ after. length after.blocks ≡ length row.blocks + 1) }
    ensures higher { IfOk result (λ after. row.height ≤ after.height) }
{
    let RowState {
        height,
        mut blocks,
        open_blocks,
    } = row;
    let open_blocks = open_blocks.pass_taken(y)?;
    let block = block_of(number, open_blocks.column(), y, span);
    if let Some(hit) = open_blocks.first_hit(block.right) {
        return Err(GridError::Overlap {
            first: hit.number,
            second: number,
            x: hit.left,
            y,
        });
    }
    let open_blocks = open_blocks.place(block)?;
    blocks.push(block)?;
    Ok(RowState {
        height: height.max(block.bottom),
        blocks,
        open_blocks,
    })
}
