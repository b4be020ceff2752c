//! Searches for a lowest layout of a problem: what every search promises, the arena of zones that all of
//! them share, the log that proves what was found, and the plain search. It knows no table and no text. Its
//! one contract: the outcome of `Solver::solve` is a tight placement, with a log that is good for its lower
//! bound and a trace worked for its budget.
#![tactic(auto)]

mod arena;
mod ending;
mod laws;
mod lines;
mod log;
mod looks;
mod outcome;
mod piece;
mod plain;
mod solver;
mod trace_ending;
mod watcher;
mod zones;

pub use arena::{Arena, first_open};
pub use ending::least_standing;
pub use laws::pieces_leave_nothing_lower;
pub use lines::cuts_of_zones;
pub use log::trace_log;
pub use outcome::Outcome;
pub use piece::{MakePiece, Piece, PieceSolver};
pub use plain::Plain;
pub use solver::Solver;
pub use trace_ending::{trace_lower, trace_outcome};
pub use watcher::{Progress, Watch, Watcher};
pub use zones::zones_of_trace;
