//! The searches that a user can choose by name.

/// The search that finds the layout.
#[derive(Clone, Copy)]
pub enum Search {
    /// Cuts the first span that can be cut.
    Plain,
    /// Cuts where the lower bound is least.
    Best,
    /// Cuts as the plain search does, and keeps what each part of the search has shown.
    Learn,
    /// Deals the zones that are left out to the workers, round by round.
    Rounds,
}
