//! The search that learns.

ghost use Rattle.std.specs.Prelude.{◌≡◌};
ghost use Rattle.tl_branch.specs.Learn.{IsLearnOutcome};

use crate::learning::Learning;
use std::alloc::{AllocError, Global};
use tl_problem::Problem;
use tl_solve::{Outcome, Solver, Watch, Watcher};

/// Cuts zones in the order of their classes, the lower part of a cut before the upper. Each cut is of the
/// first span of more than one class, after the first of its classes. Each closed zone leaves a line whose
/// bounds are shrunk, and, where `low` is `high` for every cell, a zone that such a line closes is not cut.
#[derive(Debug, Drop)]
pub struct Learn {
    pub(crate) alloc: Global,
}

impl Learn {
    /// A search that learns, which may be called again and again.
    pub fn new(alloc: Global) -> Learn
        ensures { result.alloc ≡ alloc }
    {
        Learn { alloc }
    }
}

impl Solver for Learn {
    ghost can_solve = { λ _. Unit {0} };

    ghost besides = { λ _ problem _ outcome. IsLearnOutcome problem outcome };

    fn solve<W: Watcher>(
        &mut self,
        problem: &Problem,
        budget: u32,
        watch: &Watch<'_, W>,
    ) -> Result<Outcome, AllocError> {
        let mut learning = Learning::begin(self.alloc, problem, budget)?;
        let mut stack: Vec<u32> = Vec::new(self.alloc);
        stack.push(0)?;
        while let Some(zone) = stack.pop() {
            if learning.close(problem, zone)? {
                if learning.done {
                    return learning.finish(problem);
                }
            } else if let Some(cut) = learning.first_cut(problem, zone) {
                let made = learning.cuts();
                if made == budget {
                    return learning.finish(problem);
                }
                learning.cut(problem, cut)?;
                learning.arena.show(problem, watch);
                stack.push(2 * made + 2)?;
                stack.push(2 * made + 1)?;
            }
        }
        let found = learning.finish(problem)?;
        Ok(found)
    }
}
