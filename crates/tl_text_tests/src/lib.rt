//! The tests of `tl_text`, by its public calls alone: words, units, lines and configurations counted by hand.
//! They stand apart, so that `tl_text` is proved once, and not again with each test. It has no code.
#![tactic(auto)]

#[cfg(test)]
mod tests;
