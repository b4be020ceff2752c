//! Keeps nogoods that a search has learnt, each once, closes zones by them, and shrinks lines before they are
//! kept. It knows no order in which zones are cut, and cuts none. Its one contract: a zone is closed by the
//! first nogood that its widths imply whole, and a line that is shrunk is good, from which no bound can be
//! taken.
#![tactic(auto)]

mod closing;
mod groups;
mod keys;
mod shrinking;
mod store;

pub use store::Store;
