//! Reads the bytes of a file as a table, or says why they are refused: what is wrong with them and where, or
//! which limit they pass. It knows each kind of file that a table can come from, and nothing of layouts. Its
//! one contract: `read` is the table that the bytes are, or the refusal of the first step that cannot be done.
#![tactic(auto)]

mod reading;
mod refusal;
mod source;
#[cfg(test)]
mod tests;

pub use reading::{Reading, read};
pub use refusal::{Fault, Limit, RecordFault, Refusal};
pub use source::Source;
