//! The best-first search.

ghost use Rattle.std.specs.Prelude.{◌≡◌};
ghost use Rattle.tl_astar.specs.Best.{IsBestOutcome};

use crate::search::Search;
use std::alloc::{AllocError, Global};
use tl_problem::Problem;
use tl_solve::{Outcome, Solver, Watch, Watcher};

/// Cuts of the zones that may hold a lower layout one of least bound, the newest of equals, until none is
/// left or the budget is spent. Where each cell has the same steps by `low` and by `high`, a zone whose
/// area bound reaches the best height is left uncut.
#[derive(Debug, Drop)]
pub struct Best {
    alloc: Global,
}

impl Best {
    /// A best-first search, which may be called again and again.
    pub fn new(alloc: Global) -> Best
        ensures { result.alloc ≡ alloc }
    {
        Best { alloc }
    }
}

impl Solver for Best {
    ghost can_solve = { λ _. Unit {0} };

    ghost besides = { λ _ problem budget outcome. IsBestOutcome problem budget outcome };

    fn solve<W: Watcher>(
        &mut self,
        problem: &Problem,
        budget: u32,
        watch: &Watch<'_, W>,
    ) -> Result<Outcome, AllocError> {
        let mut search = Search::begin(self.alloc, problem)?;
        while let Some(first) = search.next(problem) {
            if search.arena.cuts() == budget {
                return search.finish(problem, budget);
            }
            if let Some(cut) = search.choose(problem, first)? {
                search.cut(problem, cut)?;
                search.arena.show(problem, watch);
            }
        }
        let found = search.finish(problem, budget)?;
        Ok(found)
    }
}
