//! The tests of `tl_check`, by its public calls alone: traces and logs that are good or not.
//! They stand apart, so that `tl_check` is proved once, and not again with each test. It has no code.
#![tactic(auto)]

#[cfg(test)]
mod tests;
