//! A whole table: its row groups in order, the footers last.

ghost use Rattle.std.specs.Prelude.{◌≡◌, ◌+◌, ◌*◌, ◌<◌, ◌≤◌, ◌^◌, IfOk, MatchResult, alloc_error, length};
ghost use Rattle.tl_grid.specs.declared.error.GridError.TheVariants.{Memory};
ghost use Rattle.tl_grid.specs.Forming.{cells_in, cells_in_groups, rows_in_groups};
ghost use Rattle.tl_grid.specs.inner.Walk.{after_group, has_turn, place_groups, place_all};
ghost use Rattle.tl_grid.specs.Shapes.{AllSpans};
ghost use Rattle.tl_grid.specs.inner.States.{IsWalked, group_over};

use crate::block::Block;
use crate::error::GridError;
use crate::group::{Group, form_group};
use crate::shape::{ShapeGroup, SpanOf};
use std::alloc::Global;
use tl_base::{List, MAX_CELLS, MAX_ROWSPAN};

/// A table between two row groups.
#[derive(Drop)]
pub struct Table {
    /// The next row, below all rows so far.
    pub row: u32,
    /// The blocks of all cells so far, in the order in which they were formed.
    pub blocks: List<Block>,
}

/// How many cells the rows have.
pub fn count_cells(rows: &[List<SpanOf>]) -> u32
    requires { cells_in rows.now < 2 ^ 32 }
    ensures { result ≡ cells_in rows.now }
{
    let mut count = 0;
    for spans in rows {
        count += spans.len() as u32;
    }
    count
}

/// Ends a row group: the next row is below the table's height, to which growing cells reach.
fn end_group(mut table: Table, group: Group) -> Result<Table, GridError>
    ensures { MatchResult result
        (λ after. after ≡ after_group table (group_over group))
        (λ e. e ≡ Memory alloc_error) }
{
    for block in group.blocks.as_slice() {
        let bottom = if block.grows {
            group.height
        } else {
            block.bottom
        };
        table.blocks.push(Block {
            bottom,
            grows: false,
            ..*block
        })?;
    }
    table.row = group.height;
    Ok(table)
}

/// Whether a group is formed with the footers, or with the others.
fn is_formed(footers: bool, group: &ShapeGroup) -> bool
    ensures { result ≡ has_turn footers group.now }
{
    group.foot == footers
}

/// Forms the groups that are footers, or those that are not, in order.
fn form_groups(
    alloc: Global,
    footers: bool,
    groups: &[ShapeGroup],
    mut table: Table,
) -> Result<Table, GridError>
    requires spans { AllSpans groups.now }
    requires cells { cells_in_groups groups.now ≤ MAX_CELLS }
    requires room { table.row + MAX_ROWSPAN * cells_in_groups groups.now + rows_in_groups groups.now + MAX_ROWSPAN
        < 2 ^ 32 }
    ensures groups { IsWalked (λ after. after)
        (place_groups (has_turn footers) 0 table groups.now)
        result }
    ensures count { IfOk result (λ after.
        length after.blocks ≤ length table.blocks + cells_in_groups groups.now) }
    ensures row { IfOk result (λ after.
        after.row ≤ table.row + MAX_ROWSPAN * cells_in_groups groups.now + rows_in_groups groups.now) }
{
    let mut number = 0;
    for group in groups {
        let rows = group.rows.as_slice();
        if is_formed(footers, group) {
            let formed = form_group(alloc, number, rows, table.row)?;
            table = end_group(table, formed)?;
        }
        number += count_cells(rows);
    }
    Ok(table)
}

/// Forms all groups, the footers last.
pub fn form_table(alloc: Global, groups: &[ShapeGroup]) -> Result<Table, GridError>
    requires spans { AllSpans groups.now }
    requires cells { cells_in_groups groups.now ≤ MAX_CELLS }
    requires rows { rows_in_groups groups.now < 2 ^ 20 }
    ensures table { IsWalked (λ table. table) (place_all groups.now) result }
    ensures count { IfOk result (λ table. length table.blocks ≤ 2 * cells_in_groups groups.now) }
{
    let table = Table {
        row: 0,
        blocks: List::new(alloc),
    };
    let table = form_groups(alloc, false, groups, table)?;
    form_groups(alloc, true, groups, table)
}
