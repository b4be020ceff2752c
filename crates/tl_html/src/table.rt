//! Tables as HTML.

ghost use Rattle.std.specs.Prelude.{◌≡◌, ◌++◌, ◌≤◌, OnOk, IfOk, length, map};
ghost use Rattle.std.specs.List.{flat_map, list_any};
ghost use Rattle.tl_html.specs.Html.{blocks_html, html_bytes, caption_html, caption_line, cell_of, column_html};
ghost use Rattle.tl_html.specs.Html.{columns_html, fill, flow_of, html_of, is_caption, rows_html};
ghost use Rattle.tl_html.specs.Readable.{IsHtmlPage, ReadsBack, ReadsBackAsFormed};
ghost use Rattle.tl_html.specs.inner.Flows.{Flowed, IsFilled};

use crate::builder::TextBuilder;
use crate::filled::Filled;
use crate::laws::page_reads_back;
use crate::paragraph::write_paragraph;
use crate::row::write_row;
use std::alloc::{AllocError, Global};
use tl_base::List;
use tl_table::{Content, Kind, Layout, Table, TableCell, formed_tables_are_sound};

/// Appends a block of a cell. Of the layouts of nested tables `taken` were taken before it; returns
/// how many are taken after it.
#[cycle(html)]
fn write_block(
    alloc: Global,
    out: &mut TextBuilder,
    block: &Content,
    inner: &[Layout],
    taken: usize,
) -> Result<usize, AllocError>
    requires { taken ≤ length inner.now }
    ensures { IfOk result (λ next. Flowed (flow_of block.now) inner.now taken next out.old out.new) }
{
    match block {
        Content::Para(paragraph) => {
            write_paragraph(out, paragraph)?;
            Ok(taken)
        }
        Content::Table(table) => match inner.get(taken) {
            Some(layout) => {
                write_table(alloc, out, table, layout)?;
                Ok(taken + 1)
            }
            None => Ok(taken),
        },
    }
}

/// Appends the blocks of a cell. Of the layouts of nested tables `taken` were taken before them;
/// returns how many are taken after them.
#[cycle(html)]
fn write_blocks(
    alloc: Global,
    out: &mut TextBuilder,
    blocks: &[Content],
    inner: &[Layout],
    taken: usize,
) -> Result<usize, AllocError>
    requires { taken ≤ length inner.now }
    ensures { IfOk result (λ next.
        Flowed (blocks_html (map flow_of blocks.now)) inner.now taken next out.old out.new) }
{
    let mut next = taken;
    for block in blocks {
        next = write_block(alloc, out, block, inner, next)?;
    }
    Ok(next)
}

/// A cell with the text of its blocks, and how many of the layouts are taken after them.
#[cycle(html)]
fn fill_cell(
    alloc: Global,
    cell: &TableCell,
    inner: &[Layout],
    taken: usize,
) -> Result<(Filled, usize), AllocError>
    requires { taken ≤ length inner.now }
    ensures { IfOk result (λ r. IsFilled (cell_of cell.now) inner.now taken r.1 r.0) }
{
    let mut out = TextBuilder::new(alloc);
    let next = write_blocks(alloc, &mut out, cell.blocks.as_slice(), inner, taken)?;
    let filled = Filled {
        kind: cell.kind,
        place: cell.place,
        least: cell.least,
        text: out.into_text(),
    };
    Ok((filled, next))
}

/// The cells of a table with the texts of their blocks.
#[cycle(html)]
fn fill_cells(
    alloc: Global,
    cells: &[TableCell],
    inner: &[Layout],
) -> Result<List<Filled>, AllocError>
    ensures { IfOk result (λ filled. filled ≡ fill (map cell_of cells.now) inner.now) }
{
    let mut filled = List::new(alloc);
    let mut taken = 0;
    for cell in cells {
        let (cell, next) = fill_cell(alloc, cell, inner, taken)?;
        filled.push(cell)?;
        taken = next;
    }
    Ok(filled)
}

/// Appends a caption's line, if the cell is one.
fn write_caption_line(out: &mut TextBuilder, cell: &Filled) -> Result<(), AllocError>
    ensures { OnOk result (out.new ≡ out.old ++ caption_line cell.now) }
{
    if cell.kind == Kind::Caption {
        out.push_ascii("<caption>")?;
        out.push_str(cell.text.as_str())?;
        out.push_ascii("</caption>\n")?;
    }
    Ok(())
}

/// Appends the line of the caption, where there is one.
fn write_caption(out: &mut TextBuilder, cells: &[Filled]) -> Result<(), AllocError>
    ensures { OnOk result (out.new ≡ out.old ++ caption_html cells.now) }
{
    for cell in cells {
        write_caption_line(out, cell)?;
    }
    Ok(())
}

/// Appends a column by its width.
fn write_column(alloc: Global, out: &mut TextBuilder, width: u32) -> Result<(), AllocError>
    ensures { OnOk result (out.new ≡ out.old ++ column_html width) }
{
    out.push_ascii("<col style=\"width:")?;
    out.push_number(alloc, width)?;
    out.push_ascii("ch\">")?;
    Ok(())
}

/// Appends the columns by their widths.
fn write_column_list(alloc: Global, out: &mut TextBuilder, widths: &[u32]) -> Result<(), AllocError>
    ensures { OnOk result (out.new ≡ out.old ++ flat_map column_html widths.now) }
{
    for width in widths {
        write_column(alloc, out, *width)?;
    }
    Ok(())
}

/// Appends the line of the columns, where there is one.
fn write_columns(alloc: Global, out: &mut TextBuilder, widths: &[u32]) -> Result<(), AllocError>
    ensures { OnOk result (out.new ≡ out.old ++ columns_html widths.now) }
{
    if widths.is_empty() {
        return Ok(());
    }
    out.push_ascii("<colgroup>")?;
    write_column_list(alloc, out, widths)?;
    out.push_ascii("</colgroup>\n")
}

/// Appends the rows of a table below its caption.
fn write_rows(
    alloc: Global,
    out: &mut TextBuilder,
    cells: &[Filled],
    rows: u32,
) -> Result<(), AllocError>
    ensures { OnOk result (out.new ≡ out.old ++ rows_html rows cells.now) }
{
    let captions = u32::from(has_caption(cells));
    for row in captions..rows {
        write_row(alloc, out, cells, row)?;
    }
    Ok(())
}

/// Whether one of the cells is a caption.
fn has_caption(cells: &[Filled]) -> bool
    ensures { result ≡ list_any is_caption cells.now }
{
    for cell in cells {
        if cell.kind == Kind::Caption {
            return true;
        }
    }
    false
}

/// Appends a table in a layout.
#[cycle(html)]
fn write_table(
    alloc: Global,
    out: &mut TextBuilder,
    table: &Table,
    layout: &Layout,
) -> Result<(), AllocError>
    ensures { OnOk result (out.new ≡ out.old ++ html_of table.now layout.now) }
{
    let cells = fill_cells(alloc, table.cells.as_slice(), layout.inner.as_slice())?;
    out.push_ascii("<table>\n")?;
    write_caption(out, cells.as_slice())?;
    write_columns(alloc, out, layout.widths.as_slice())?;
    write_rows(alloc, out, cells.as_slice(), table.rows)?;
    out.push_ascii("</table>\n")
}

/// The HTML page of a table in a layout, in UTF-8: a `table` element with its caption, a `col` for each
/// column with its width in `ch` (CSS Values and Units, 6.1.2), and a line for each row. A nested
/// table takes the next layout of `layout.inner`, in the order of the cells and their blocks.
pub fn html(alloc: Global, table: &Table, layout: &Layout) -> Result<List<u8>, AllocError>
    ensures bytes { IfOk result (λ bytes. bytes ≡ html_bytes table.now layout.now) }
    ensures page { IfOk result (IsHtmlPage table.now layout.now) }
    // They spell each sound table again, and so each that is read.
    ensures reads_back { IfOk result (ReadsBack table.now layout.now) }
    ensures reads_formed { IfOk result (ReadsBackAsFormed table.now layout.now) }
{
    page_reads_back();
    formed_tables_are_sound();
    let mut out = TextBuilder::new(alloc);
    write_table(alloc, &mut out, table, layout)?;
    Ok(out.into_bytes())
}
