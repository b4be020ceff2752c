//! A cell as a rectangle of slots.

/// A cell in the grid before columns and rows are dropped: the slots in the columns `left..right`
/// and from the row `top` on.
#[derive(Drop, Clone, Copy)]
pub struct Block {
    /// The cell's number as written, counted from 0.
    pub number: u32,
    pub left: u32,
    pub right: u32,
    pub top: u32,
    /// The row below its last one. While the cell grows, the row below the one it began in.
    pub bottom: u32,
    /// Whether the cell grows downward to the end of its row group.
    pub grows: bool,
}
