//! One row group: its rows in order.

ghost use Rattle.std.specs.Prelude.{◌≡◌, ◌+◌, ◌*◌, ◌<◌, ◌≤◌, ◌^◌, IfOk, length, Ok};
ghost use Rattle.std.specs.List.{AllByRecursion};
ghost use Rattle.tl_grid.specs.Forming.{cells_in};
ghost use Rattle.tl_grid.specs.inner.Walk.{place_cells, row_of, after_row, then_ok, group_at, place_rows};
ghost use Rattle.tl_grid.specs.Shapes.{IsSpan};
ghost use Rattle.tl_grid.specs.inner.States.{IsWalked, BlockEndsBy, group_over};

use crate::block::Block;
use crate::error::GridError;
use crate::open_blocks::OpenBlocks;
use crate::row::{RowState, form_cell};
use crate::shape::SpanOf;
use std::alloc::Global;
use tl_base::{List, MAX_CELLS, MAX_COLSPAN, MAX_ROWSPAN};

/// A row group between two rows.
#[derive(Drop)]
pub struct Group {
    /// The next row.
    pub row: u32,
    /// The table's height so far.
    pub height: u32,
    /// The blocks of the group's cells, in the order in which they were formed.
    pub blocks: List<Block>,
    /// The open ones.
    pub open_blocks: OpenBlocks,
}

/// Forms the next row of a group; `number` is that of its first cell. A row without cells looks at
/// no block.
fn form_row(mut number: u32, spans: &[SpanOf], group: Group) -> Result<Group, GridError>
    requires spans { AllByRecursion IsSpan spans.now }
    requires number { number + length spans.now ≤ MAX_CELLS }
    requires low { group.row ≤ group.height }
    requires room { group.height + MAX_ROWSPAN < 2 ^ 32 }
    requires columns { AllByRecursion (BlockEndsBy (MAX_COLSPAN * number)) (group_over group).open_blocks }
    ensures row { IsWalked group_over
        (then_ok (λ row. Ok (after_row group.row row))
        (place_cells group.row number (row_of (group_over group)) spans.now))
        result }
    ensures columns { IfOk result (λ after.
        AllByRecursion (BlockEndsBy (MAX_COLSPAN * (number + length spans.now)))
        (group_over after).open_blocks) }
    ensures count { IfOk result (λ after.
        length after.blocks ≡ length group.blocks + length spans.now) }
    ensures low { IfOk result (λ after. after.row ≤ after.height) }
    ensures height { IfOk result (λ after.
        after.height ≤ group.height + MAX_ROWSPAN * length spans.now + 1) }
{
    let Group {
        row,
        height,
        blocks,
        open_blocks,
    } = group;
    let height = height.max(row + 1);
    if spans.is_empty() {
        return Ok(Group {
            row: row + 1,
            height,
            blocks,
            open_blocks,
        });
    }
    let mut state = RowState {
        height,
        blocks,
        open_blocks: open_blocks.begin_row(row)?,
    };
    for span in spans {
        state = form_cell(row, number, *span, state)?;
        number += 1;
    }
    Ok(Group {
        row: row + 1,
        height: state.height,
        blocks: state.blocks,
        open_blocks: state.open_blocks,
    })
}

/// Forms the rows of a group that begins at row `row`; `number` is that of the group's first cell.
pub fn form_group(
    alloc: Global,
    mut number: u32,
    rows: &[List<SpanOf>],
    row: u32,
) -> Result<Group, GridError>
    requires spans { AllByRecursion (AllByRecursion IsSpan) rows.now }
    requires number { number + cells_in rows.now ≤ MAX_CELLS }
    requires room { row + MAX_ROWSPAN * cells_in rows.now + length rows.now + MAX_ROWSPAN < 2 ^ 32 }
    ensures rows { IsWalked group_over (place_rows number (group_at row) rows.now) result }
    ensures count { IfOk result (λ after. length after.blocks ≡ cells_in rows.now) }
    ensures height { IfOk result (λ after.
        after.height ≤ row + MAX_ROWSPAN * cells_in rows.now + length rows.now) }
{
    let mut group = Group {
        row,
        height: row,
        blocks: List::new(alloc),
        open_blocks: OpenBlocks::new(alloc),
    };
    for spans in rows {
        let spans = spans.as_slice();
        group = form_row(number, spans, group)?;
        number += spans.len() as u32;
    }
    Ok(group)
}
