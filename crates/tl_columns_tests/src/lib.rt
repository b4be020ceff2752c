//! The tests of `tl_columns`, by its public calls alone: CSV files whose tables are written by
//! hand, files that are refused, and files at the limits. They stand apart, so that `tl_columns` is
//! proved once, and not again with each test. It has no code.
#![tactic(auto)]

#[cfg(test)]
mod tests;
