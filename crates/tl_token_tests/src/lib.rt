//! The tests of `tl_token`, by its public calls alone: files of a few bytes with their tokens or
//! their error, counted by hand. They stand apart, so that `tl_token` is proved once, and not again
//! with each test. It has no code.
#![tactic(auto)]

#[cfg(test)]
mod tests;
