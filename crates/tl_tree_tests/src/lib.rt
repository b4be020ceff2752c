//! The tests of `tl_tree`, by its public calls alone: files with their trees or refusals, counted by hand.
//! They stand apart, so that `tl_tree` is proved once, and not again with each test. It has no code.
#![tactic(auto)]

#[cfg(test)]
mod tests;
