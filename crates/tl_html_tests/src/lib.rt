//! The tests of `tl_html`, by its public calls alone: pages of small tables, written out by hand,
//! each read back. They stand apart, so that `tl_html` is proved once, and not again with each
//! test. It has no code.
#![tactic(auto)]

#[cfg(test)]
mod tests;
