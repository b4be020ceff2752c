//! On which side the lines of each cell of a table stand. It draws nothing. Its one contract: there is
//! one side for each cell, in the order of the cells, and it is the one that was asked for.
#![tactic(auto)]

mod cells;
mod columns;
mod laws;
mod number;
#[cfg(test)]
mod tests;

pub use cells::sides;
pub use laws::numbers_are_by_the_grammar;
pub use number::is_number;
