//! Layouts of a table.

use tl_base::List;

/// The widths of a table's columns, in columns of the page, the heights of its rows, in lines, and the
/// layouts of the tables nested in it.
#[derive(Debug, Drop)]
pub struct Layout {
    /// The widths of the columns, from left to right.
    pub widths: List<u32>,
    /// The heights of the rows, from top to bottom.
    pub heights: List<u32>,
    /// A layout of each table nested directly in a cell, in the order of the cells and their blocks.
    pub inner: List<Layout>,
}
