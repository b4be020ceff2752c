//! The text page of a table without the spaces at the ends of its lines.

ghost use Rattle.std.specs.Prelude.{◌≡◌, ◌≤◌, ◌++◌, ◌∷◌, [], ℕ, IfOk, OnOk};
ghost use Rattle.tl_table.specs.Layouts.{Fits};
ghost use Rattle.tl_table.specs.Sound.{IsSound};
ghost use Rattle.tl_page.specs.Trimmed.{IsTrimmedPage, trimmed};
ghost use Rattle.tl_page.specs.Trimmed.{TrimmingTakesSpaces, TrimmedLinesEndInText, TrimmingKeepsText, TrimmedLinesFillUp};

use crate::cells::{drawn_cells, page_with};
use crate::look::Look;
use crate::pages::put_line;
use std::alloc::{AllocError, Global};
use tl_base::{List, MAX_HEIGHT, MAX_PAGE_WIDTH};
use tl_table::{Layout, Table};

/// The text page of a table in a layout that fits a page, as [`crate::page`] writes it, without the spaces at
/// the ends of its lines.
pub fn trimmed_page(
    alloc: Global,
    table: &Table,
    look: Look,
    layout: &Layout,
) -> Result<List<u8>, AllocError>
    requires sound { IsSound table.now }
    requires fit { (width height : ℕ) × (width ≤ MAX_PAGE_WIDTH) × (height ≤ MAX_HEIGHT) × Fits table.now look.style width height layout.now }
    ensures { IfOk result (IsTrimmedPage look table.now layout.now) }
{
    let cells = drawn_cells(alloc, table, &look, layout)?;
    let lines = page_with(alloc, table, look.style, layout, cells)?;
    let mut bytes = List::new(alloc);
    for line in lines.as_slice() {
        put_line(&mut bytes, trimmed(line.as_slice()))?;
    }
    Ok(bytes)
}

/// Lends the line without the spaces at its end.
fn trimmed(line: &[u8]) -> &[u8]
    ensures { result.now ≡ trimmed line.now }
{
    let mut rest = line;
    while let Some((&last, before)) = rest.split_last() {
        if last != b' ' {
            return rest;
        }
        rest = before;
    }
    rest
}

/// Trimming takes spaces alone: each line is its trimmed line and then spaces.
pub fn trimming_takes_spaces()
    ensures { TrimmingTakesSpaces }
{}

/// It takes all of them: no trimmed line ends with a space.
pub fn trimmed_lines_end_in_text()
    ensures { TrimmedLinesEndInText }
{}

/// A text that ends in no space stands on the trimmed page where it stood, whole.
pub fn trimming_keeps_text()
    ensures { TrimmingKeepsText }
{}

/// No trimmed line is wider than the line was: filled with spaces, it takes as many columns.
pub fn trimmed_lines_fill_up()
    ensures { TrimmedLinesFillUp }
{}
