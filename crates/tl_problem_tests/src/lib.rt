//! The tests of `tl_problem`, by its public calls alone: problems, zones, bounds and placements, counted by hand.
//! They stand apart, so that `tl_problem` is proved once, and not again with each test. It has no code.
#![tactic(auto)]

#[cfg(test)]
mod tests;
