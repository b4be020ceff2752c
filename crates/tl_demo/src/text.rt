//! The text of a drawn table.

ghost use Rattle.std.specs.Prelude.{◌≡◌, ◌++◌, ◌+◌, ℕ, List, OnOk, IfOk};
ghost use Rattle.std.specs.List.{flat_map};
ghost use Rattle.tl_demo.specs.Demo.{DemoCell, cell_from, cell_text, cell_words_from, cells_from, demo_text_of};
ghost use Rattle.tl_demo.specs.Demo.{drawn_number, next_state, row_text, rows_from, tag_text, word_text};
ghost use Rattle.tl_demo.specs.Demo.{words_from, words_text};
ghost use Rattle.tl_demo.specs.inner.Writing.{Appended, cells_text, colspan_of, next_word_text, next_words_text};

use crate::draws::Draws;
use std::alloc::{AllocError, Global};
use tl_base::List;

/// How many columns a row is over.
const COLUMNS: u32 = 6;

/// How many rows a table has.
const ROWS: u32 = 30;

/// Appends a word of so many letters.
fn write_word(out: &mut List<u8>, length: u32) -> Result<(), AllocError>
    ensures { OnOk result (out.new ≡ out.old ++ word_text length) }
{
    for _ in 0..length {
        out.push(b'a')?;
    }
    Ok(())
}

/// Draws a word and appends it, with a space before it.
fn write_next_word(out: &mut List<u8>, draws: &mut Draws) -> Result<(), AllocError>
    ensures text { let length = 1 + drawn_number 8 draws.old.state in
        OnOk result (out.new ≡ out.old ++ next_word_text length) }
    ensures state { OnOk result (draws.new.state ≡ next_state draws.old.state) }
{
    let length = 1 + draws.draw(8);
    out.push(b' ')?;
    write_word(out, length)
}

/// Draws so many words and appends them, each with a space before it.
fn write_next_words(out: &mut List<u8>, draws: &mut Draws, count: u32) -> Result<(), AllocError>
    ensures { let words = words_from count draws.old.state in
        OnOk result (Appended (List ℕ) next_words_text words out.old out.new draws.new.state) }
{
    for _ in 0..count {
        write_next_word(out, draws)?;
    }
    Ok(())
}

/// Draws the words of a cell and appends them.
fn write_words(out: &mut List<u8>, draws: &mut Draws) -> Result<(), AllocError>
    ensures { let words = cell_words_from draws.old.state in
        OnOk result (Appended (List ℕ) words_text words out.old out.new draws.new.state) }
{
    let others = draws.draw(6);
    let length = 1 + draws.draw(8);
    write_word(out, length)?;
    write_next_words(out, draws, others)
}

/// How many columns a cell is over, by what was drawn and how many columns are left.
fn colspan(drawn: u32, left: u32) -> u32
    ensures { result ≡ colspan_of drawn left }
{
    if drawn == 0 && left >= 2 { 2 } else { 1 }
}

/// Appends the tag of a cell over one column, or over two.
fn write_tag(out: &mut List<u8>, colspan: u32) -> Result<(), AllocError>
    ensures { OnOk result (out.new ≡ out.old ++ tag_text colspan) }
{
    let tag = if colspan == 2 {
        "<td colspan=2>"
    } else {
        "<td>"
    };
    out.extend_from_slice(tag.as_bytes())
}

/// Draws a cell over so many columns and appends it.
fn write_cell(out: &mut List<u8>, draws: &mut Draws, colspan: u32) -> Result<(), AllocError>
    ensures { let cell = cell_from colspan draws.old.state in
        OnOk result (Appended DemoCell cell_text cell out.old out.new draws.new.state) }
{
    write_tag(out, colspan)?;
    write_words(out, draws)
}

/// Draws the cells of a row and appends them.
fn write_cells(out: &mut List<u8>, draws: &mut Draws) -> Result<(), AllocError>
    ensures { let cells = cells_from COLUMNS draws.old.state in
        OnOk result (Appended (List DemoCell) cells_text cells out.old out.new draws.new.state) }
{
    let mut left = COLUMNS;
    while left > 0 {
        let colspan = colspan(draws.draw(5), left);
        write_cell(out, draws, colspan)?;
        left -= colspan;
    }
    Ok(())
}

/// Draws a row and appends it.
fn write_row(out: &mut List<u8>, draws: &mut Draws) -> Result<(), AllocError>
    ensures { let cells = cells_from COLUMNS draws.old.state in
        OnOk result (Appended (List DemoCell) row_text cells out.old out.new draws.new.state) }
{
    out.extend_from_slice(b"<tr>")?;
    write_cells(out, draws)
}

/// Draws the rows and appends them.
fn write_rows(out: &mut List<u8>, draws: &mut Draws) -> Result<(), AllocError>
    ensures { let rows = rows_from ROWS draws.old.state in
        OnOk result (out.new ≡ out.old ++ flat_map row_text rows.value) }
{
    for _ in 0..ROWS {
        write_row(out, draws)?;
    }
    Ok(())
}

/// The text of the table of a number, a table file in ASCII: thirty rows over six columns, each
/// cell over one column or two, with one to six words of one to eight letters. [`demo_fits`] says
/// that it is within the limits of a file. Numbers that differ in their highest bit alone have the
/// same table. The error is out of memory.
///
/// [`demo_fits`]: crate::demo_fits
pub fn demo_text(alloc: Global, number: u32) -> Result<List<u8>, AllocError>
    ensures { IfOk result (λ text. text ≡ demo_text_of number) }
{
    let mut draws = Draws::new(number);
    let mut out = List::new(alloc);
    out.extend_from_slice(b"<table>")?;
    write_rows(&mut out, &mut draws)?;
    out.extend_from_slice(b"</table>")?;
    Ok(out)
}
