//! Decides whether a layout fits a page, by what each cell takes of its room.

ghost use Rattle.std.specs.Prelude.{◌↔◌, ◌<◌, ◌≤◌, ◌^◌, ℕ, IfSome, IsTrue};
ghost use Rattle.tl_table.specs.Layouts.{Fits};
ghost use Rattle.tl_table.specs.Sound.{IsSound, IsSoundBlock, IsSoundCell};
ghost use Rattle.tl_table.specs.declared.cell.Content.{out-Content};
ghost use Rattle.tl_table.specs.declared.cell.TableCell.{out-TableCell};
ghost use Rattle.tl_page.specs.inner.Taking.{TakesBlock, TakesCell, TakesTable};

use tl_base::{MAX_HEIGHT, Style, room_size, total_size};
use tl_table::{Content, Layout, Table, TableCell, head_end, lines_beside, lines_inside};
use tl_text::count_lines;

/// What a block takes of its cell.
#[derive(Clone, Copy)]
pub struct Taken {
    /// How many lines.
    pub lines: u64,
    /// The number of the layout that the next nested table has.
    pub next: usize,
}

/// The height of a page of `width` columns that the layout fits; `None` where it fits none.
#[cycle(measure)]
fn height_in(table: &Table, style: Style, width: u32, layout: &Layout) -> Option<u64>
    requires sound { IsSound table.now }
    ensures takes { TakesTable style width table.now layout.now result }
    ensures small { IfSome result (λ height. height < 2 ^ 45) }
{
    let widths = layout.widths.as_slice();
    let heights = layout.heights.as_slice();
    if widths.len() != table.cols as usize || heights.len() != table.rows as usize {
        return None;
    }
    if total_size(style.gap(), style.edges(), widths) > u64::from(width) {
        return None;
    }
    let end = head_end(table);
    let mut next = 0;
    for cell in table.cells.as_slice() {
        let place = cell.place;
        let columns = room_size(style.gap(), widths, place.left, place.right);
        let room = room_size(style.row_gap(), heights, place.top, place.bottom);
        let lines = room + u64::from(lines_inside(place, style, end));
        let inner = layout.inner.as_slice();
        next = match past_cell(cell, style, columns as u32, lines, inner, next) {
            Some(past) => past,
            None => return None,
        };
    }
    if next < layout.inner.len() {
        return None;
    }
    Some(total_size(style.row_gap(), lines_beside(table, style), heights))
}

/// The number of the layout after those of a cell in a room of `width` columns and `height` lines, of
/// which the first is `next`; `None` where the cell does not fit.
#[cycle(measure)]
fn past_cell(
    cell: &TableCell,
    style: Style,
    width: u32,
    height: u64,
    inner: &[Layout],
    next: usize,
) -> Option<usize>
    requires sound { IsSoundCell (out-TableCell cell.now) }
    requires low { height < 2 ^ 46 }
    ensures { TakesCell style width height (out-TableCell cell.now) inner.now next result }
{
    if cell.least > width {
        return None;
    }
    let mut lines: u64 = 0;
    let mut next = next;
    for block in cell.blocks.as_slice() {
        let taken = match taken_by(block, style, width, inner, next) {
            Some(taken) => taken,
            None => return None,
        };
        lines += taken.lines;
        next = taken.next;
        if lines > height {
            return None;
        }
    }
    Some(next)
}

/// What a block takes in `width` columns; `None` where it does not fit.
#[cycle(measure)]
fn taken_by(
    block: &Content,
    style: Style,
    width: u32,
    inner: &[Layout],
    next: usize,
) -> Option<Taken>
    requires sound { IsSoundBlock (out-Content block.now) }
    ensures takes { TakesBlock style width (out-Content block.now) inner.now next result }
    ensures small { IfSome result (λ taken. taken.lines < 2 ^ 45) }
{
    match block {
        Content::Para(paragraph) => match count_lines(paragraph, width) {
            Some(lines) => Some(Taken {
                lines: u64::from(lines),
                next,
            }),
            None => None,
        },
        Content::Table(table) => {
            if next >= inner.len() {
                return None;
            }
            match height_in(table, style, width, &inner[next]) {
                Some(height) => Some(Taken {
                    lines: height,
                    next: next + 1,
                }),
                None => None,
            }
        }
    }
}

/// Whether the layout fits a page of `width` columns and at most [`MAX_HEIGHT`] lines. A layout that
/// does, on a page of at most [`tl_base::MAX_PAGE_WIDTH`] columns, may be drawn by [`crate::page`].
pub fn fits(table: &Table, style: Style, width: u32, layout: &Layout) -> bool
    requires { IsSound table.now }
    ensures { IsTrue result ↔ ((height : ℕ) × (height ≤ MAX_HEIGHT) × Fits table.now style width height layout.now) }
{
    match height_in(table, style, width, layout) {
        Some(height) => height <= u64::from(MAX_HEIGHT),
        None => false,
    }
}
