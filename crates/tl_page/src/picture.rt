//! Writes the lines of a picture, each from left to right.

ghost use Rattle.std.specs.Prelude.{◌≡◌, ◌+◌, ◌++◌, slice_get, OnOk, IfOk, ◌&&◌, ◌==◌};
ghost use Rattle.tl_page.specs.Corners.{corner_of, is_on_line, is_under};
ghost use Rattle.tl_page.specs.Pictures.{filled, inside, inside_cell, piece, picture_line, spaces, strip_lines, lines_of};
ghost use Rattle.tl_page.specs.Signs.{run};
ghost use Rattle.tl_page.specs.inner.Drawing.{owner_in, shown};

use crate::corner::Corner;
use crate::line::{Drawn, TextLine};
use crate::owner::Owner;
use crate::owners::Owners;
use crate::strip::Strip;
use std::alloc::{AllocError, Global};
use tl_base::{List, Style};

/// A table that is to be drawn.
#[derive(Drop)]
pub struct Drawing {
    pub style: Style,
    /// The strips of columns, from left to right.
    pub across: List<Strip>,
    /// The strips of rows, from top to bottom.
    pub down: List<Strip>,
    /// Who owns each slot.
    pub owners: Owners,
    /// The last row of the head, counted from 1, where the line under it may be drawn.
    pub head: Option<u32>,
    /// The cells by their numbers.
    pub cells: List<Drawn>,
}

/// The corner where a strip of columns crosses a strip of rows.
fn corner_at(owners: &Owners, across: &Strip, down: &Strip) -> Corner
    ensures { result ≡ corner_of (owner_in owners.now) across.now down.now }
{
    Corner {
        up_left: owners.at(across.before, down.before),
        up_right: owners.at(across.after, down.before),
        down_left: owners.at(across.before, down.after),
        down_right: owners.at(across.after, down.after),
    }
}

/// Writes so many spaces.
pub fn write_spaces(line: &mut List<u8>, count: u64) -> Result<(), AllocError>
    ensures { OnOk result (line.new ≡ line.old ++ spaces count) }
{
    for _ in 0..count {
        line.push(b' ')?;
    }
    Ok(())
}

/// Writes the sign of a line of the table so many times.
fn write_run(line: &mut List<u8>, sign: char, count: u64) -> Result<(), AllocError>
    ensures { OnOk result (line.new ≡ line.old ++ run count sign) }
{
    let mut buffer = [0; 4];
    let bytes = sign.encode_utf8(&mut buffer).as_bytes();
    for _ in 0..count {
        line.extend_from_slice(bytes)?;
    }
    Ok(())
}

/// Whether a strip of rows is the line under the head.
fn is_under(head: Option<u32>, down: &Strip) -> bool
    ensures { result ≡ is_under head down.now }
{
    match head {
        Some(row) => down.before == row && row < down.after,
        None => false,
    }
}

/// Whether the place where two strips cross is on the line under the head. In styles rule and apart the
/// gaps between the columns stay blank.
fn is_on_line(style: Style, head: Option<u32>, across: &Strip, down: &Strip) -> bool
    ensures { result ≡ is_on_line style head across.now down.now }
{
    match style {
        Style::Rule | Style::Apart => is_under(head, down) && across.before == across.after,
        Style::Plain | Style::Compact | Style::Frame | Style::Grid | Style::Box => {
            is_under(head, down)
        }
    }
}

/// Writes a line of content, filled with spaces to so many columns; spaces where there is none.
fn write_filled(
    line: &mut List<u8>,
    columns: u32,
    lines: &[TextLine],
    place: u64,
) -> Result<(), AllocError>
    ensures { OnOk result (line.new ≡ line.old ++ filled columns (slice_get lines.now place)) }
{
    let columns = u64::from(columns);
    if place >= lines.len() as u64 {
        return write_spaces(line, columns);
    }
    let content = &lines[place as usize];
    line.extend_from_slice(content.text.as_slice())?;
    write_spaces(line, columns.saturating_sub(content.width))
}

/// Writes what stands inside a cell at a strip of columns: its line, at its first column.
fn write_cell(line: &mut List<u8>, cell: &Drawn, across: &Strip, y: u64) -> Result<(), AllocError>
    ensures { OnOk result (line.new ≡ line.old ++ inside_cell (Some cell.now) across.now y) }
{
    let column = u64::from(cell.left) + 1;
    if u64::from(across.before) == column && u64::from(across.after) == column {
        return write_filled(
            line,
            cell.columns,
            cell.lines.as_slice(),
            y.saturating_sub(u64::from(cell.first)),
        );
    }
    Ok(())
}

/// Writes what stands inside an owner's slots at a strip of columns.
fn write_inside(
    line: &mut List<u8>,
    cells: &[Drawn],
    owner: Owner,
    across: &Strip,
    y: u64,
) -> Result<(), AllocError>
    ensures { OnOk result (line.new ≡ line.old ++ inside cells.now owner across.now y) }
{
    let Owner::Cell(number) = owner else {
        return write_spaces(line, u64::from(across.size));
    };
    if number >= cells.len() {
        return Ok(());
    }
    write_cell(line, &cells[number], across, y)
}

/// Writes what stands on a line of the page where a strip of columns crosses a strip of rows.
fn write_piece(
    line: &mut List<u8>,
    drawing: &Drawing,
    down: &Strip,
    y: u64,
    across: &Strip,
) -> Result<(), AllocError>
    ensures { OnOk result (line.new ≡ line.old ++ piece (shown drawing.now) down.now y across.now) }
{
    let corner = corner_at(&drawing.owners, across, down);
    if corner.is_one() {
        write_inside(line, drawing.cells.as_slice(), corner.up_left, across, y)
    } else {
        let on_line = is_on_line(drawing.style, drawing.head, across, down);
        let sign = corner.sign(drawing.style, on_line);
        write_run(line, sign, u64::from(across.size))
    }
}

/// A line of the page, which lies in a strip of rows.
fn page_line(alloc: Global, drawing: &Drawing, down: &Strip, y: u64) -> Result<List<u8>, AllocError>
    ensures { IfOk result (λ line. line ≡ picture_line (shown drawing.now) down.now y) }
{
    let mut line = List::new(alloc);
    for across in drawing.across.as_slice() {
        write_piece(&mut line, drawing, down, y, across)?;
    }
    Ok(line)
}

/// Puts the lines of a strip of rows after others.
fn put_lines(
    alloc: Global,
    page: &mut List<List<u8>>,
    drawing: &Drawing,
    down: &Strip,
) -> Result<(), AllocError>
    ensures { OnOk result (page.new ≡ page.old ++ strip_lines (shown drawing.now) down.now) }
{
    let from = u64::from(down.from);
    for k in 0..down.size {
        let line = page_line(alloc, drawing, down, from + u64::from(k))?;
        page.push(line)?;
    }
    Ok(())
}

/// The lines of the page.
pub fn draw(alloc: Global, drawing: &Drawing) -> Result<List<List<u8>>, AllocError>
    ensures { IfOk result (λ page. page ≡ lines_of (shown drawing.now)) }
{
    let mut page = List::new(alloc);
    for down in drawing.down.as_slice() {
        put_lines(alloc, &mut page, drawing, down)?;
    }
    Ok(page)
}
