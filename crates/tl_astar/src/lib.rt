//! The best-first search: of the zones that may still hold a lower layout it cuts one of least bound, where
//! that helps most. It knows no table and no text. Its one contract: the promises of every search, and the
//! order in which it cuts zones.
#![tactic(auto)]

mod agreement;
mod arrangement;
mod best;
mod choosing;
mod columns;
mod greedy;
mod laws;
mod lower;
mod opens;
mod parts;
mod rises;
mod search;
mod sight;
mod spread;
mod whole;

pub use best::Best;
pub use laws::same_steps_agree;
