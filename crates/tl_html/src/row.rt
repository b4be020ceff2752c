//! Rows of cells as HTML.

ghost use Rattle.std.specs.Prelude.{◌≡◌, ◌++◌, ◌<◌, OnOk, true};
ghost use Rattle.std.specs.List.{flat_map};
ghost use Rattle.tl_table.specs.declared.cell.Kind.{Kind};
ghost use Rattle.tl_base.specs.Text.{is_ascii};
ghost use Rattle.tl_html.specs.Html.{number_attribute, attributes, element, cell_html, cell_in_row, row_html};

use crate::builder::TextBuilder;
use crate::filled::Filled;
use std::alloc::{AllocError, Global};
use tl_table::Kind;

/// Appends an attribute, where its number is above its default.
fn write_attribute(
    alloc: Global,
    out: &mut TextBuilder,
    name: &str,
    default: u32,
    number: u32,
) -> Result<(), AllocError>
    requires { is_ascii name.now ≡ true }
    ensures { OnOk result (out.new ≡ out.old ++ number_attribute name.now default number) }
{
    if number > default {
        out.push_ascii(" ")?;
        out.push_ascii(name)?;
        out.push_ascii("=\"")?;
        out.push_number(alloc, number)?;
        out.push_ascii("\"")?;
    }
    Ok(())
}

/// Appends the attributes of a cell.
fn write_attributes(alloc: Global, out: &mut TextBuilder, cell: &Filled) -> Result<(), AllocError>
    ensures { OnOk result (out.new ≡ out.old ++ attributes cell.now) }
{
    let colspan = cell.place.right.saturating_sub(cell.place.left);
    let rowspan = cell.place.bottom.saturating_sub(cell.place.top);
    write_attribute(alloc, out, "colspan", 1, colspan)?;
    write_attribute(alloc, out, "rowspan", 1, rowspan)?;
    write_attribute(alloc, out, "data-min", 0, cell.least)
}

/// The name of the element of a cell in a row.
fn element(kind: Kind) -> &'static str
    ensures ascii { is_ascii result.now ≡ true }
    ensures name { result.now ≡ element kind }
{
    match kind {
        Kind::Head => "th",
        Kind::Plain | Kind::Caption => "td",
    }
}

/// Appends a cell.
fn write_cell(alloc: Global, out: &mut TextBuilder, cell: &Filled) -> Result<(), AllocError>
    ensures { OnOk result (out.new ≡ out.old ++ cell_html cell.now) }
{
    let element = element(cell.kind);
    out.push_ascii("<")?;
    out.push_ascii(element)?;
    write_attributes(alloc, out, cell)?;
    out.push_ascii(">")?;
    out.push_str(cell.text.as_str())?;
    out.push_ascii("</")?;
    out.push_ascii(element)?;
    out.push_ascii(">")
}

/// Appends a cell, if it begins in the row.
fn write_cell_in_row(
    alloc: Global,
    out: &mut TextBuilder,
    cell: &Filled,
    row: u32,
) -> Result<(), AllocError>
    ensures { OnOk result (out.new ≡ out.old ++ cell_in_row row cell.now) }
{
    if cell.place.top == row {
        write_cell(alloc, out, cell)?;
    }
    Ok(())
}

/// Appends the cells that begin in a row.
fn write_cells(
    alloc: Global,
    out: &mut TextBuilder,
    cells: &[Filled],
    row: u32,
) -> Result<(), AllocError>
    ensures { OnOk result (out.new ≡ out.old ++ flat_map (cell_in_row row) cells.now) }
{
    for cell in cells {
        write_cell_in_row(alloc, out, cell, row)?;
    }
    Ok(())
}

/// Appends the line of a row.
pub(crate) fn write_row(
    alloc: Global,
    out: &mut TextBuilder,
    cells: &[Filled],
    row: u32,
) -> Result<(), AllocError>
    ensures { OnOk result (out.new ≡ out.old ++ row_html cells.now row) }
{
    out.push_ascii("<tr>")?;
    write_cells(alloc, out, cells, row)?;
    out.push_ascii("</tr>\n")
}
