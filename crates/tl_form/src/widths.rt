//! How many columns the columns of a layout, or the placement of a section, take on a page.

ghost use Rattle.std.specs.Prelude.{◌≡◌, ◌≤◌, length};
ghost use Rattle.tl_base.specs.declared.limits.TheConstants.{MAX_COLUMNS};
ghost use Rattle.tl_base.specs.Style.{gap_of, edges_of};
ghost use Rattle.tl_base.specs.Sizes.{total};
ghost use Rattle.tl_form.specs.Expected.{placed_width};

use tl_base::{Style, total_size};
use tl_cert::Section;

/// The columns of the page that columns of these widths take.
pub fn total_width(style: Style, widths: &[u32]) -> u64
    requires { length widths.now ≤ MAX_COLUMNS }
    ensures { result ≡ total (gap_of style) (edges_of style) widths.now }
{
    total_size(style.gap(), style.edges(), widths)
}

/// The columns that the placement of the section takes.
pub(crate) fn placed_width(style: Style, section: &Section) -> u64
    requires { length section.now.widths ≤ MAX_COLUMNS }
    ensures { result ≡ placed_width style section.now }
{
    total_width(style, section.widths.as_slice())
}
