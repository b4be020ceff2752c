//! The tests of `tl_cert`, by its public calls alone: texts of certificates that are read, written or refused.
//! They stand apart, so that `tl_cert` is proved once, and not again with each test. It has no code.
#![tactic(auto)]

#[cfg(test)]
mod tests;
