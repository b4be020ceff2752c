//! The tests of `tl_fan`, by its public calls alone: pieces of work behind gates that see them.
//! They stand apart, so that `tl_fan` is proved once, and not again with each test. It has no code.
#![tactic(auto)]

#[cfg(test)]
mod tests;
