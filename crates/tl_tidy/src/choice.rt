//! What a choice comes to.
use tl_problem::Placed;

/// What `choose` comes to.
#[derive(Drop)]
pub enum Choice {
    /// The chosen placement.
    Found(Placed),
    /// The quota of cuts is below what the choice needs.
    Open,
}
