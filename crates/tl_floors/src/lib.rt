//! The least widths of columns that a user gives, as a value that needs no memory. It reads no
//! arguments and knows no tables. Its one contract: a `Floors` is a list of at most 60 widths that a
//! page may have.
#![tactic(auto)]

mod floors;
#[cfg(test)]
mod tests;

pub use floors::Floors;
