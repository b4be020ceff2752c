//! Makes a large table from a number, as the text of a table file. Its code reads no table and lays
//! none out. Its one contract: the bytes are exactly those of the text's definition, which spell a
//! table, within all limits, that fits a page of 60 columns.
#![tactic(auto)]

mod draws;
mod laws;
#[cfg(test)]
mod tests;
mod text;

pub use laws::{DEMO_WIDTH, demo_fits};
pub use text::demo_text;
