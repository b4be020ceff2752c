//! The tests of `tl_diff`, by its public calls alone: matrices against constraints that are closed
//! anew, and paths of small graphs counted by hand. They stand apart, so that `tl_diff` is proved
//! once, and not again with each test. It has no code.
#![tactic(auto)]

#[cfg(test)]
mod matrices;
#[cfg(test)]
mod paths;
