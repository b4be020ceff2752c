//! The tests of `tl_program`, by its public call alone: command lines over files in memory. They stand apart, so
//! that the crate is proved once, and not again with its tests. It has no code.
#![tactic(auto)]

#[cfg(test)]
mod tests;
