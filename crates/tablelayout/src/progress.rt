//! What the user sees of a search that takes long.

use tl_base::Gate;
use tl_solve::{Progress, Watcher};

/// From so many cuts on a search is long.
const FIRST_CUTS: u32 = 64;

/// Says on standard error how far searches have come, a line at 64 cuts, at 128, and so on, if it is asked for.
#[derive(Drop)]
pub struct Report<'a, R> {
    pub rt: &'a R,
    pub is_asked: bool,
}

// Pieces of work are let through.
impl<'a, R: Eprint + Sync> Gate for Report<'a, R> {
    fn pass(&self, _piece: u32) {}
}

impl<'a, R: Eprint + Sync> Watcher for Report<'a, R> {
    fn wants(&self, before: u32, cuts: u32) -> bool {
        self.is_asked && FIRST_CUTS <= cuts && is_doubled(before, cuts)
    }

    // Where the line cannot be written, the search goes on.
    fn see(&self, progress: Progress) {
        let Progress {
            table,
            cuts,
            height,
            lower,
        } = progress;
        let _ = eprintln!(self.rt;
            "progress table {table} cuts {cuts} height {height} lower {lower}"
        );
    }
}

/// Whether a power of two is above the first and not above the second.
fn is_doubled(before: u32, cuts: u32) -> bool {
    before.leading_zeros() > cuts.leading_zeros()
}
