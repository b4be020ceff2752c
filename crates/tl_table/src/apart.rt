//! How far the columns and rows of a table stand apart: all that layouts see of a style.

ghost use Rattle.std.specs.Prelude.{◌≡◌, ◌<◌, ◌≤◌, ◌+◌, ◌-◌};
ghost use Rattle.tl_base.specs.declared.limits.TheConstants.{MAX_ROWS};
ghost use Rattle.tl_table.specs.Layouts.{lines_inside, lines_of, spacing_in};
ghost use Rattle.tl_table.specs.Sound.{IsSound};
ghost use Rattle.tl_table.specs.declared.cell.Table.{out-Table};
ghost use Rattle.tl_table.specs.Heads.{end_of_head, head_end};
ghost use Rattle.tl_table.specs.Tables.{OpenTable};

use crate::cell::Table;
use crate::head::{head_end, head_row};
use tl_base::{Spacing, Style};
use tl_grid::Place;

/// The lines that a page of the table has beside those of its rows and of the gaps between any two: those
/// of both edges; in [`Style::Rule`] the one under the head; and in [`Style::Apart`] that one, and one
/// between any two rows below.
pub fn lines_beside(table: &Table, style: Style) -> u32
    requires { IsSound table.now }
    ensures lines { result ≡ lines_of style (out-Table table.now) }
    ensures few { result ≤ MAX_ROWS + 2 }
{
    match style {
        Style::Rule => u32::from(head_row(table).is_some()),
        Style::Apart => u32::from(head_row(table).is_some()) + lines_below(table),
        Style::Plain | Style::Compact | Style::Frame | Style::Grid | Style::Box => style.edges(),
    }
}

/// How many pairs of neighbouring rows stand below the head.
fn lines_below(table: &Table) -> u32
    requires { IsSound table.now }
    ensures lines { result ≡ (out-Table table.now).rows - head_end table.now - 1 }
    ensures few { result ≤ MAX_ROWS }
{
    table.rows.saturating_sub(head_end(table)).saturating_sub(1)
}

/// The lines that lie inside a place of the table, beside those of its rows and of the gaps between any two:
/// in [`Style::Apart`] one between any two of its rows below the head, which ends at the row `head_end`.
pub fn lines_inside(place: Place, style: Style, head_end: u32) -> u32
    requires { place.top < place.bottom }
    ensures { (table : OpenTable) → end_of_head table ≡ head_end → result ≡ lines_inside style table place }
{
    match style {
        Style::Apart if head_end <= place.top => place.bottom - place.top - 1,
        _ => 0,
    }
}

/// How far the columns and rows of the table stand apart in this style.
pub fn spacing(table: &Table, style: Style) -> Spacing
    requires { IsSound table.now }
    ensures { result ≡ spacing_in style (out-Table table.now) }
{
    style.spacing(lines_beside(table, style))
}
