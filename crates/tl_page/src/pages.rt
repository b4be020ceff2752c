//! The text page of a table.

ghost use Rattle.std.specs.Prelude.{◌≡◌, ◌≤◌, ◌++◌, ◌∷◌, [], List, ℕ, IfOk, OnOk};
ghost use Rattle.tl_table.specs.Layouts.{Fits};
ghost use Rattle.tl_table.specs.Sound.{IsSound};
ghost use Rattle.tl_page.specs.Pages.{IsPage, page_bytes};

use crate::cells::{drawn_cells, page_with};
use crate::look::Look;
use std::alloc::{AllocError, Global};
use tl_base::{List, MAX_HEIGHT, MAX_PAGE_WIDTH};
use tl_table::{Layout, Table};

/// The text page of a table in a layout that fits a page: as many lines as the layout is high, each
/// filled to the width of the layout and ended by a line feed, in UTF-8. A paragraph is cut greedily
/// in the room of its cell, where each line is aligned alone, and a nested table stands at the left of its
/// cell as its own page, drawn by the same look (docs/CLAIMS.md, "A page").
pub fn page(
    alloc: Global,
    table: &Table,
    look: Look,
    layout: &Layout,
) -> Result<List<u8>, AllocError>
    requires sound { IsSound table.now }
    requires fit { (width height : ℕ) × (width ≤ MAX_PAGE_WIDTH) × (height ≤ MAX_HEIGHT) × Fits table.now look.style width height layout.now }
    ensures { IfOk result (λ bytes. (lines : List (List ℕ)) × IsPage look table.now layout.now lines × (bytes ≡ page_bytes lines)) }
{
    let cells = drawn_cells(alloc, table, &look, layout)?;
    let lines = page_with(alloc, table, look.style, layout, cells)?;
    let mut bytes = List::new(alloc);
    for line in lines.as_slice() {
        put_line(&mut bytes, line.as_slice())?;
    }
    Ok(bytes)
}

/// Puts a line and a line feed after others.
pub fn put_line(bytes: &mut List<u8>, line: &[u8]) -> Result<(), AllocError>
    ensures { OnOk result (bytes.new ≡ bytes.old ++ (line.now ++ 0x0A ∷ [])) }
{
    bytes.extend_from_slice(line)?;
    bytes.push(b'\n')?;
    Ok(())
}
