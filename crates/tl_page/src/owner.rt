//! Who a slot of a table's grid belongs to.

/// The owner of a slot. Slots are counted from 1 in both directions, and slot 0 and the one past the
/// last lie outside of the grid.
#[derive(Clone, Copy, PartialEq, Eq)]
pub enum Owner {
    /// The slot lies outside of the grid.
    Outside,
    /// No cell covers the slot of this column and row: it is a cell of its own.
    Bare(u32, u32),
    /// The cell of this number, counted from 0, covers the slot.
    Cell(usize),
}
