//! The tests of what searches and judges whole documents, by public calls alone: of `tl_nested`, `tl_verify`
//! and `tl_narrow`. They stand apart, so that each of these is proved once, and not again with its tests, and
//! together, since they read documents alike. It has no code.
#![tactic(auto)]

#[cfg(test)]
mod certificates;
#[cfg(test)]
mod documents;
#[cfg(test)]
mod narrowest;
#[cfg(test)]
mod sections;
