//! Runs pieces of work at once: each by its number, in order, in groups of so many workers. It knows nothing of
//! the work. Its one contract: the results are what the pieces give, in the order of their numbers, for every
//! number of workers and every gate.
#![tactic(auto)]

mod fan;
mod run;

pub use fan::{fan_out, gather, places};
pub use run::Run;
