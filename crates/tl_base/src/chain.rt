//! Chains of cells, by which it is shown that a table fits no narrower page.
use crate::items::List;

/// One cell of a chain, with the reason for its width.
#[derive(Clone, Copy, Debug, PartialEq, Eq)]
pub struct Entry {
    /// The place of the cell, from 0, in the list of its table's cells by top, then left.
    pub cell: u32,
    /// The number of the nested table, directly in the cell, whose own chain gives the width; `None`
    /// where the cell's floor or its widest unit does.
    pub inner: Option<u32>,
}

/// Cells of one table side by side, each beginning at or past the right edge of the one before. No
/// page narrower than the chain weighs holds the table.
#[derive(Debug, Drop)]
pub struct Chain {
    /// The number of the table, by the order of the start tags, from 0.
    pub table: u32,
    /// The cells, from left to right, at least one.
    pub entries: List<Entry>,
}
