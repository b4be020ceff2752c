//! Which words of a file may break so that a page of a width holds its table: those alone that are wider than
//! the greatest number of columns with which some page does. It knows readings and least widths, and no
//! search. Its one contract: `fit` is that number, a property of file, style and width.
#![tactic(auto)]

mod fitting;
mod laws;
#[cfg(test)]
mod tests;
mod units;

pub use fitting::fit;
pub use laws::a_file_has_one_fit;
