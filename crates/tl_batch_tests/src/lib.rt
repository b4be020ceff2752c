//! The tests of `tl_batch`, by its public calls alone: requests and their answers, over readers and writers in memory. They
//! stand apart, so that the crate is proved once, and not again with its tests. It has no code.
#![tactic(auto)]

#[cfg(test)]
mod tests;
