//! What sees a search while it is under way.

use tl_base::NoGate;

/// How far a search has come.
#[derive(Clone, Copy, Debug, PartialEq, Eq)]
pub struct Progress {
    /// The number of the table that is searched, as its sections of a certificate have it.
    pub table: u32,
    /// How many cuts were made.
    pub cuts: u32,
    /// The least height that was found, in lines.
    pub height: u32,
    /// No layout has fewer lines.
    pub lower: u32,
}

/// What sees searches while they are under way. Nothing that it does comes back to a search, and no contract
/// names it, so it changes no answer. A run has it beside its gate, in one value.
pub trait Watcher {
    /// Whether it wants to see a search that had made `before` cuts when it was last asked, and has made `cuts` now.
    fn wants(&self, before: u32, cuts: u32) -> bool;

    /// Sees how far a search has come.
    fn see(&self, progress: Progress);
}

/// The watcher that never looks.
impl Watcher for NoGate {
    fn wants(&self, _before: u32, _cuts: u32) -> bool {
        false
    }

    fn see(&self, _progress: Progress) {}
}

/// A watcher, as the searches of one table have it.
#[derive(Debug, Drop)]
pub struct Watch<'w, W> {
    pub watcher: &'w W,
    /// The number of the table.
    pub table: u32,
}

impl<'w, W: Watcher> Watch<'w, W> {
    /// Whether the watcher wants to see a search that had made `before` cuts when it was last asked, and has made
    /// `cuts` now.
    pub fn wants(&self, before: u32, cuts: u32) -> bool {
        self.watcher.wants(before, cuts)
    }

    /// Lets the watcher see a search that has made so many cuts, and found a height and a lower bound, in lines.
    pub fn see(&self, cuts: u32, height: u32, lower: u32) {
        self.watcher.see(Progress {
            table: self.table,
            cuts,
            height,
            lower,
        });
    }
}
