//! What every search promises.

ghost use Rattle.std.specs.Prelude.{ℕ, ◌≤◌, ◌↔◌, IfOk};
ghost use Rattle.tl_problem.specs.Problem.{ProblemModel};
ghost use Rattle.tl_solve.specs.declared.outcome.Outcome.{Outcome};
ghost use Rattle.tl_solve.specs.Solver.{IsSolverOutcome};

use crate::{Outcome, Watch, Watcher};
use std::alloc::AllocError;
use tl_base::MAX_BUDGET;
use tl_problem::Problem;

/// A search for a lowest layout. It returns the best placement that it found with a lower bound, and
/// with what proves both: the cuts that it made, and a log that is good for the bound. A solver has two
/// meanings of its own: `can_solve`, when it may be called, which stays so after each call, and
/// `besides`, what else each of its outcomes has, which no call changes. After out of memory it can be
/// called again as if new.
pub trait Solver: Drop + Send {
    ghost can_solve: { Self → Type 0 };

    ghost besides: { Self → ProblemModel → ℕ → Outcome → Type 0 };

    /// Searches the problem with at most `budget` cuts, and lets a watcher see it after each.
    fn solve<W: Watcher>(
        &mut self,
        problem: &Problem,
        budget: u32,
        watch: &Watch<'_, W>,
    ) -> Result<Outcome, AllocError>
        requires callable { can_solve self.old }
        requires budget { budget ≤ MAX_BUDGET }
        ensures solved { IfOk result (IsSolverOutcome problem.now budget) }
        ensures besides { IfOk result (λ outcome. besides self.old problem.now budget outcome) }
        ensures same { (model : ProblemModel) (b : ℕ) (outcome : Outcome) →
            besides self.old model b outcome ↔ besides self.new model b outcome }
        ensures still { can_solve self.new };
}
