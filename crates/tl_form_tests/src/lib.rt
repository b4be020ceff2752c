//! The tests of `tl_table` and `tl_form`, by their public calls alone: tables of files, their least widths
//! and their problems. They stand apart, so that each is proved once, and not again with each test. It has no code.
#![tactic(auto)]

#[cfg(test)]
mod head_tests;
#[cfg(test)]
mod nested_tests;
#[cfg(test)]
mod problem_tests;
#[cfg(test)]
mod tests;
#[cfg(test)]
mod thread_tests;
