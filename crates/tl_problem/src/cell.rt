//! The cells of a problem's grid, and the spans of columns that they cover.
use tl_base::Steps;

/// A cell of the grid, with the heights in lines that it needs at each width in columns. What it
/// needs lies between `low` and `high`; for a cell with no nested table the two are the same.
#[derive(Debug, Drop)]
pub struct Cell {
    /// The first column that it covers, from 0.
    pub left: u32,
    /// The first column past it.
    pub right: u32,
    /// The first row that it covers, from 0.
    pub top: u32,
    /// The first row past it.
    pub bottom: u32,
    /// Heights that it needs at least.
    pub low: Steps,
    /// Heights that are enough.
    pub high: Steps,
}

/// The columns from `left` on and before `right`.
#[derive(Clone, Copy, Debug, PartialEq, Eq)]
pub struct Span {
    pub left: u32,
    pub right: u32,
}
