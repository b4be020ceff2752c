//! Forms the grid of a table from the spans of its cells, as the HTML Standard's "Forming a table"
//! does, and drops the columns and rows in which no cell begins. It sees no text and no width. Its
//! one contract: `form` gives exactly the dropped grid of the standard's set of slots, or names the
//! first reason why there is none.
#![tactic(auto)]

mod block;
mod dropping;
mod error;
mod forming;
mod group;
mod kept;
mod open_blocks;
mod row;
mod shape;
mod table;

pub use error::GridError;
pub use forming::form;
pub use shape::{Grid, Place, Shape, ShapeGroup, SpanOf};
