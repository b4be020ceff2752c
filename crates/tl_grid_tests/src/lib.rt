//! The tests of `tl_grid`, by its public calls alone: tables with their grids drawn by hand, the
//! message of each error, and tables at the limits. They stand apart, so that `tl_grid` is proved
//! once, and not again with each test. It has no code.
#![tactic(auto)]

#[cfg(test)]
mod tests;
