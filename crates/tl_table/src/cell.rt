//! A table with its grid formed: cells in their places, and what stands in them.

use tl_base::List;
use tl_grid::Place;
use tl_sides::Side;
use tl_text::Para;

/// What a cell is in its table.
#[derive(Clone, Copy, Debug, PartialEq, Eq)]
pub enum Kind {
    /// The table's caption, in a row of its own above all others.
    Caption,
    /// A header cell (`th`).
    Head,
    /// Any other cell (`td`).
    Plain,
}

/// A block of a cell. A cell's blocks stand one under the other.
#[cycle(table)]
#[derive(Debug, Drop)]
pub enum Content {
    /// A paragraph.
    Para(Para),
    /// A nested table.
    Table(Box<Table>),
}

/// A cell of a table's grid.
#[cycle(table)]
#[derive(Debug, Drop)]
pub struct TableCell {
    /// What it is in its table.
    pub kind: Kind,
    /// Whether its row is of a `thead` group.
    pub in_head: bool,
    /// The columns and rows that it covers.
    pub place: Place,
    /// Its floor: how many columns of the page its room has at least, up to
    /// [`tl_base::MAX_PAGE_WIDTH`].
    pub least: u32,
    /// The side of its place that it asks for. A caption asks for none.
    pub align: Option<Side>,
    /// Its blocks, from top to bottom.
    pub blocks: List<Content>,
}

/// A table whose grid is formed (HTML Standard, "Forming a table"), without the columns and rows in
/// which no cell begins.
#[cycle(table)]
#[derive(Debug, Drop)]
pub struct Table {
    /// Its number: the tables of a document are numbered from 0 by their start tags.
    pub number: u32,
    /// How many columns it has.
    pub cols: u32,
    /// How many rows it has, a caption's row counted.
    pub rows: u32,
    /// Its cells by top, then left.
    pub cells: List<TableCell>,
}
