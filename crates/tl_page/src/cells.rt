//! The content of the cells of a table: blocks one under the other, paragraphs and nested pages.

ghost use Rattle.std.specs.Prelude.{◌≡◌, ◌<◌, ◌++◌, ◌+◌, ◌*◌, ◌^◌, List, length, sum, OnOk, IfOk};
ghost use Rattle.tl_table.specs.Sound.{IsSound, IsSoundBlock, IsSoundCell};
ghost use Rattle.tl_table.specs.declared.cell.Content.{out-Content};
ghost use Rattle.tl_table.specs.declared.cell.Table.{out-Table};
ghost use Rattle.tl_table.specs.declared.cell.TableCell.{out-TableCell};
ghost use Rattle.tl_table.specs.declared.layout.Layout.{out-Layout};
ghost use Rattle.tl_page.specs.Pages.{grid_of, nested_lines};
ghost use Rattle.tl_page.specs.Pictures.{lines_of, lined_rows, row_gaps};
ghost use Rattle.tl_page.specs.inner.Contents.{FitsPage, FitsCellRoom, FitsBlockRoom, ShowsPart, ShowsParts, ShowsCells, picture_with};

use crate::line::{Drawn, Room, TextLine};
use crate::look::Look;
use crate::owners::Owners;
use crate::paragraph::put_paragraph;
use crate::picture::{Drawing, draw};
use crate::strip::{Gaps, Lined};
use crate::strips::{begin_of, room_in, strips, total_in};
use std::alloc::{AllocError, Global};
use tl_base::{List, Style};
use tl_table::{Content, Layout, Table, TableCell, head_end, head_row};

/// The lines of a cell, and the number of the first layout of a nested table that it leaves.
#[derive(Drop)]
pub struct Part {
    pub lines: List<TextLine>,
    pub next: usize,
}

/// Each cell of the table with its lines.
#[cycle(cells)]
pub fn drawn_cells(
    alloc: Global,
    table: &Table,
    look: &Look,
    layout: &Layout,
) -> Result<List<Drawn>, AllocError>
    requires sound { IsSound table.now }
    requires fit { FitsPage look.now.style table.now layout.now }
    ensures { IfOk result (ShowsCells look.now table.now layout.now) }
{
    let style = look.style;
    let columns = Gaps::even(style.gap());
    let across = strips(alloc, columns, style.edge(), layout.widths.as_slice())?;
    let rows = row_gaps(table, style);
    let down = strips(alloc, rows, style.edge(), layout.heights.as_slice())?;
    let mut cells = Vec::with_capacity(alloc, table.cells.len())?;
    let sides = tl_align::sides(alloc, table, look.align)?;
    let mut next = 0;
    for (at, cell) in table.cells.as_slice().iter().enumerate() {
        let place = cell.place;
        let columns = room_in(across.as_slice(), place.left, place.right);
        let side = sides.as_slice()[at];
        let room = Room { columns, side };
        let part = cell_part(alloc, cell, look, room, layout.inner.as_slice(), next)?;
        next = part.next;
        cells.push(Drawn {
            left: place.left,
            columns,
            first: begin_of(down.as_slice(), place.top),
            lines: part.lines,
        })?;
    }
    Ok(List::from_vec(cells))
}

/// How far the rows of the table stand apart.
fn row_gaps(table: &Table, style: Style) -> Gaps
    requires { IsSound table.now }
    ensures { result ≡ row_gaps style (grid_of (out-Table table.now)) }
{
    Gaps {
        between: style.row_gap(),
        lined: lined_rows(style, head_row(table), head_end(table)),
    }
}

/// The rows after which a line of its own stands, by the last row of the head, if the line under it is
/// drawn, and the row at which the head ends.
fn lined_rows(style: Style, head: Option<u32>, end: u32) -> Lined
    requires { end < 2 ^ 31 }
    ensures { result ≡ lined_rows style head end }
{
    match (style, head) {
        (Style::Rule, Some(row)) => Lined::After(row),
        (Style::Apart, Some(row)) => Lined::From(row),
        (Style::Apart, None) => Lined::From(end + 1),
        (Style::Rule, None)
        | (Style::Plain | Style::Compact | Style::Frame | Style::Grid | Style::Box, _) => Lined::No,
    }
}

/// The lines of a cell in its room. `next` is the number of the layout of its first
/// nested table.
#[cycle(cells)]
fn cell_part(
    alloc: Global,
    cell: &TableCell,
    look: &Look,
    room: Room,
    inner: &[Layout],
    next: usize,
) -> Result<Part, AllocError>
    requires sound { IsSoundCell (out-TableCell cell.now) }
    requires fit { FitsCellRoom look.now.style room.columns (out-TableCell cell.now) inner.now next }
    ensures { IfOk result (λ part. ShowsParts look.now room.side room.columns (out-TableCell cell.now) inner.now next part.next part.lines) }
{
    // Most blocks are one line.
    let lines = List::from_vec(Vec::with_capacity(alloc, cell.blocks.len())?);
    let mut part = Part { lines, next };
    for block in cell.blocks.as_slice() {
        part = with_block(alloc, part, block, look, room, inner)?;
    }
    Ok(part)
}

/// The part with the lines of one more block.
#[cycle(cells)]
fn with_block(
    alloc: Global,
    part: Part,
    block: &Content,
    look: &Look,
    room: Room,
    inner: &[Layout],
) -> Result<Part, AllocError>
    requires sound { IsSoundBlock (out-Content block.now) }
    requires fit { FitsBlockRoom look.now.style room.columns (out-Content block.now) inner.now part.next }
    ensures { IfOk result (λ after. ShowsPart look.now room.side room.columns (out-Content block.now) inner.now
        part.next after.next part.lines after.lines) }
{
    let Part { mut lines, next } = part;
    match block {
        Content::Para(paragraph) => {
            put_paragraph(alloc, &mut lines, paragraph, room)?;
            Ok(Part { lines, next })
        }
        Content::Table(table) => {
            let style = look.style;
            let layout = &inner[next];
            let cells = drawn_cells(alloc, table, look, layout)?;
            let page = page_with(alloc, table, style, layout, cells)?;
            put_page(alloc, &mut lines, page, style, layout)?;
            Ok(Part {
                lines,
                next: next + 1,
            })
        }
    }
}

/// The lines of the page of a table with these cells.
pub fn page_with(
    alloc: Global,
    table: &Table,
    style: Style,
    layout: &Layout,
    cells: List<Drawn>,
) -> Result<List<List<u8>>, AllocError>
    requires sound { IsSound table.now }
    requires fit { FitsPage style table.now layout.now }
    ensures { IfOk result (λ page. page ≡ lines_of (picture_with style (out-Table table.now) (out-Layout layout.now) cells)) }
{
    let head = head_row(table);
    let columns = Gaps::even(style.gap());
    let rows = row_gaps(table, style);
    let drawing = Drawing {
        style,
        across: strips(alloc, columns, style.edge(), layout.widths.as_slice())?,
        down: strips(alloc, rows, style.edge(), layout.heights.as_slice())?,
        owners: Owners::new(alloc, table)?,
        head,
        cells,
    };
    draw(alloc, &drawing)
}

/// Puts the lines of a nested table's page after others, each as wide as its layout.
fn put_page(
    alloc: Global,
    lines: &mut List<TextLine>,
    page: List<List<u8>>,
    style: Style,
    layout: &Layout,
) -> Result<(), AllocError>
    requires { sum (out-Layout layout.now).widths + 3 * length (out-Layout layout.now).widths < 2 ^ 31 }
    ensures { OnOk result (lines.new ≡ lines.old ++ nested_lines style layout.now page) }
{
    let columns = Gaps::even(style.gap());
    let across = strips(alloc, columns, style.edge(), layout.widths.as_slice())?;
    let width = total_in(across.as_slice(), style.edge());
    for text in page.into_vec() {
        lines.push(TextLine { text, width })?;
    }
    Ok(())
}
