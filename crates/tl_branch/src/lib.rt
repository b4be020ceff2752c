//! The search that learns: zones in the order of their classes, each closed zone with a line whose bounds are
//! shrunk to those that matter, and no zone cut that a line known by then closes. It knows no table and no
//! text. Its one contract: the promises of every search, the order in which it cuts zones, and, where `low`
//! is `high` for every cell, a trace and a log that are learnt.
#![tactic(auto)]

mod learn;
mod learning;
mod lines;
mod lower;
mod lowest;
mod opens;
mod pieces;
mod under_way;

pub use learn::Learn;
pub use pieces::MakeLearnPiece;
