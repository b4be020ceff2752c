//! Placements: widths of columns with the least heights of rows under them. And what is found of a zone before it
//! is placed.
use tl_base::List;

/// Widths of a problem's columns, in columns of the page, and the least heights of its rows under
/// these widths, in lines, by the `high` steps of its cells.
#[derive(Debug, Drop)]
pub struct Placed {
    /// The widths of the columns, from left to right.
    pub widths: List<u32>,
    /// The heights of the rows, from top to bottom.
    pub heights: List<u32>,
    /// The total width, with gaps and edges.
    pub width: u32,
    /// The total height, with gaps and edges.
    pub height: u32,
}

/// What is found of a zone that has widths before it is placed.
#[derive(Debug, Drop)]
pub struct Outline {
    /// Its bound, in lines.
    pub bound: u32,
    /// The widths at its least positions, in columns of the page.
    pub widths: List<u32>,
}
