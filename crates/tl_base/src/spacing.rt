//! How far the columns and rows of a table stand apart.

/// What layouts, and the bounds on them, see of the way in which a table is drawn.
#[derive(Clone, Copy, Debug, PartialEq, Eq)]
pub struct Spacing {
    /// The columns between two columns of the table.
    pub gap: u32,
    /// The lines between two rows, wherever two rows follow each other.
    pub row_gap: u32,
    /// The columns beside those of the table: what both outer edges take together.
    pub edges: u32,
    /// The lines beside the rows and the gaps between them, in each height of a table with rows.
    pub lines: u32,
}
