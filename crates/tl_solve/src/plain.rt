//! The plain search: zones in the order of their classes, by a stack.

ghost use Rattle.std.specs.Prelude.{◌≡◌};
ghost use Rattle.tl_solve.specs.Plain.{IsPlainOutcome};

use crate::{Arena, Outcome, Solver, Watch, Watcher};
use std::alloc::{AllocError, Global};
use tl_problem::Problem;

/// Cuts zones in the order of their classes, the lower part of a cut before the upper. Each cut is of the
/// first span of more than one class, after the first of its classes.
#[derive(Debug, Drop)]
pub struct Plain {
    alloc: Global,
}

impl Plain {
    /// A plain search, which may be called again and again.
    pub fn new(alloc: Global) -> Plain
        ensures { result.alloc ≡ alloc }
    {
        Plain { alloc }
    }
}

impl Solver for Plain {
    ghost can_solve = { λ _. Unit {0} };

    ghost besides = { λ _ problem _ outcome. IsPlainOutcome problem outcome };

    fn solve<W: Watcher>(
        &mut self,
        problem: &Problem,
        budget: u32,
        watch: &Watch<'_, W>,
    ) -> Result<Outcome, AllocError> {
        let mut arena = Arena::open(self.alloc, problem)?;
        let mut stack: Vec<u32> = Vec::new(self.alloc);
        stack.push(0)?;
        while let Some(zone) = stack.pop() {
            if let Some(cut) = arena.first_cut(problem, zone) {
                let made = arena.cuts();
                if made == budget {
                    return arena.finish(problem, budget);
                }
                arena.cut(problem, cut)?;
                arena.show(problem, watch);
                stack.push(2 * made + 2)?;
                stack.push(2 * made + 1)?;
            }
        }
        let found = arena.finish(problem, budget)?;
        Ok(found)
    }
}
