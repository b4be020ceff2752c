//! Searches for a lowest layout of a problem in pieces: a book takes in what searches of single zones found
//! and left, in any order, and rounds hand out the zones that are left to so many workers at once. It knows
//! no table, and not how a zone is searched. Its one contract: whatever the order, the zones stay covered, so
//! that the outcome is one of a search; and the cuts of `Rounds` are made of rounds.
#![tactic(auto)]

mod book;
mod fan;
mod laws;
mod rounds;
mod taking;

pub use book::Book;
pub use fan::pieces_at_once;
pub use laws::pieces_stay;
pub use rounds::Rounds;
