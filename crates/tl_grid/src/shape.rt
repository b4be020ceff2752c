//! What is given of a table, its *shape*, and the dropped grid that is formed of it.

use tl_base::List;

/// How many columns and rows a cell takes, as its attributes `colspan` and `rowspan` say.
#[derive(Debug, Drop, Clone, Copy)]
pub struct SpanOf {
    /// 1 to [`tl_base::MAX_COLSPAN`] columns.
    pub colspan: u32,
    /// 1 to [`tl_base::MAX_ROWSPAN`] rows, or 0 for a cell that grows downward to the end of its row
    /// group.
    pub rowspan: u32,
}

/// A row group: a `thead`, `tbody` or `tfoot`, or the rows outside of any.
#[derive(Debug, Drop)]
pub struct ShapeGroup {
    /// Whether it is a `tfoot`, which is formed after all groups that are none.
    pub foot: bool,
    /// The cells of each row, as written.
    pub rows: List<List<SpanOf>>,
}

/// What the grid of a table depends on.
#[derive(Debug, Drop)]
pub struct Shape {
    /// The columns that `col` and `colgroup` ask for. Those in which no cell begins are dropped, so
    /// this number changes no grid.
    pub columns: u32,
    /// The row groups, as written.
    pub groups: List<ShapeGroup>,
}

/// Where a cell lies in the dropped grid: in the columns `left..right` and the rows `top..bottom`,
/// each counted from 0.
#[derive(Debug, Drop, Clone, Copy)]
pub struct Place {
    pub left: u32,
    pub right: u32,
    pub top: u32,
    pub bottom: u32,
}

/// The dropped grid of a table.
#[derive(Debug, Drop)]
pub struct Grid {
    /// How many columns it has.
    pub cols: u32,
    /// How many rows it has.
    pub rows: u32,
    /// The place of each cell, in the order of the cells as written.
    pub places: List<Place>,
}
