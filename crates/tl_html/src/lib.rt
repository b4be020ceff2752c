//! Writes the HTML page of a table in a layout, with the widths of its columns. It knows no search and
//! no certificate. Its one contract: the bytes are exactly those of the page's definition, which spell
//! the same table again, but for the numbers of tables and their `thead` groups.
#![tactic(auto)]

mod builder;
mod filled;
mod laws;
mod paragraph;
mod row;
mod table;

pub use laws::{a_fitting_layout_has_columns, page_reads_back};
pub use table::html;
