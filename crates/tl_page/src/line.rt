//! The lines that stand in the cells of a page.

use tl_base::List;
use tl_sides::Side;

/// A line of a cell's content.
#[derive(Drop)]
pub struct TextLine {
    /// Its bytes, in UTF-8.
    pub text: List<u8>,
    /// How many columns of the page it takes.
    pub width: u64,
}

/// Where the lines of a cell stand.
#[derive(Clone, Copy)]
pub struct Room {
    /// How many columns of the page there are.
    pub columns: u32,
    /// On which side of them each line of a paragraph stands.
    pub side: Side,
}

/// A cell that is to be drawn.
#[derive(Drop)]
pub struct Drawn {
    /// The column of the grid in which it begins, counted from 0.
    pub left: u32,
    /// How many columns of the page its room has.
    pub columns: u32,
    /// The line of the page on which its room begins, counted from 0.
    pub first: u32,
    /// Its content, from top to bottom.
    pub lines: List<TextLine>,
}
