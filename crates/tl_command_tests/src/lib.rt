//! The tests of `tl_command`, by its public calls alone: command lines, and what they ask for. They
//! stand apart, so that `tl_command` is proved once, and not again with each test. It has no code.
#![tactic(auto)]

#[cfg(test)]
mod tests;
