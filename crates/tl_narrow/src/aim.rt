//! What a search for the narrowest page looks for.

use tl_base::Style;

/// What a search for the narrowest page looks for: a page of at most so many columns on which a table has at most
/// so many lines.
#[derive(Clone, Copy)]
pub struct Aim {
    /// The style in which the table is laid out.
    pub style: Style,
    /// The most lines that the page may have.
    pub height: u32,
    /// The most columns that the page may have, from 1 to `MAX_PAGE_WIDTH`.
    pub most: u32,
    /// How many cuts the search of each section may make, up to `MAX_BUDGET`.
    pub budget: u32,
}
