//! Checks the lines that prove a lower bound: traces of cuts, lines of logs, and whether a search was
//! worked to its end. Whoever has a certificate trusts no search: none stands below this crate. Its one
//! contract: each call says yes exactly where the definitions of certificates do, and once a checker is
//! reserved no call takes memory.
#![tactic(auto)]

mod bounds;
mod checker;
mod firing;
mod left;
mod line;
mod nogoods;
mod ranges;
mod traces;
mod worked;
mod zones;

pub use bounds::is_implied;
pub use checker::Checker;
pub use nogoods::is_empty_nogood;
pub use ranges::{bounds_of_zone, keep_ranges};
