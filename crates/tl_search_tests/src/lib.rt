//! The tests of all searches and of what they stand on, by public calls alone: of `tl_solve`, `tl_astar`,
//! `tl_store`, `tl_branch`, `tl_rounds` and `tl_tidy`. They stand apart, so that each of these is proved once,
//! and not again with its tests, and together, since they search the same problems. It has no code.
#![tactic(auto)]

#[cfg(test)]
mod best;
#[cfg(test)]
mod choices;
#[cfg(test)]
mod learning;
#[cfg(test)]
mod pieces;
#[cfg(test)]
mod plain;
#[cfg(test)]
mod problems;
#[cfg(test)]
mod rounds;
#[cfg(test)]
mod stores;
#[cfg(test)]
mod watched;
