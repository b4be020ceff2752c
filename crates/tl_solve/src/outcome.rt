//! What a search found, and what proves its lower bound.

use tl_cert::{Log, Trace};
use tl_problem::Placed;

/// What one search of a problem found and proved.
#[derive(Debug, Drop)]
pub struct Outcome {
    /// The lowest placement that was found, made tight.
    pub best: Placed,
    /// No layout is lower than so many lines.
    pub lower: u32,
    /// The cuts of the search.
    pub trace: Trace,
    /// The lines that prove the lower bound.
    pub log: Log,
}
