//! On which side the lines of a cell stand, and how a user asks for it, as values that need no memory.
//! It reads no arguments and knows no tables. Its one contract: a `Sides` is a list of at most 60 sides.
#![tactic(auto)]

mod align;
mod side;
#[cfg(test)]
mod tests;

pub use align::Align;
pub use side::{Side, Sides};
