//! Cells with the text of their flows.

use tl_base::Text;
use tl_grid::Place;
use tl_table::Kind;

/// A cell of a table with the text that stands for its blocks.
#[derive(Drop)]
pub struct Filled {
    /// What it is in its table.
    pub kind: Kind,
    /// The columns and rows that it covers.
    pub place: Place,
    /// Its floor, in columns of the page.
    pub least: u32,
    /// Its blocks in order, as HTML.
    pub text: Text,
}
