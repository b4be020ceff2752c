//! The end of a search as an outcome.

ghost use Rattle.std.specs.Prelude.{◌≡◌, ℕ, ◌+◌, ◌*◌, ◌<◌, ◌≤◌, length, IfOk};
ghost use Rattle.tl_cert.specs.Lines.{IsGoodLog};
ghost use Rattle.tl_cert.specs.Text.{IsLogWritable};
ghost use Rattle.tl_cert.specs.Traces.{Stands, zone_of};
ghost use Rattle.tl_solve.specs.Arenas.{IsArenaOf};
ghost use Rattle.tl_solve.specs.Ends.{HasBoundUpTo, IsLeastStanding, IsLeastUpto, MayEnd};
ghost use Rattle.tl_solve.specs.Logs.{Proves};
ghost use Rattle.tl_solve.specs.Solver.{IsSolverOutcome};
ghost use Rattle.tl_solve.specs.TraceLogs.{IsTraceLog};
ghost use Rattle.tl_solve.specs.inner.Found.{least_with};

use crate::lines::cuts_of_zones;
use crate::log::log_of_bounds;
use crate::{Arena, Outcome, Watch, Watcher};
use std::alloc::AllocError;
use tl_base::MAX_BUDGET;
use tl_cert::Log;
use tl_problem::Problem;

impl Arena {
    /// The least of the best height and of the bounds of the zones that stand and have widths, in lines.
    pub fn lower(&self, problem: &Problem) -> Result<u32, AllocError>
        requires { IsArenaOf problem.now self.now }
        ensures { IfOk result (IsLeastStanding problem.now self.now.trace self.now.best.height) }
    {
        let cuts = cuts_of_zones(self.alloc, &self.trace)?;
        Ok(least_standing(&cuts, &self.bounds, self.best.height))
    }

    /// Lets a watcher see a search after a cut, if it wants to. Where memory for that runs out it sees nothing.
    pub fn show<W: Watcher>(&self, problem: &Problem, watch: &Watch<'_, W>)
        requires { IsArenaOf problem.now self.now }
    {
        let cuts = self.trace.len() as u32;
        if !watch.wants(cuts.saturating_sub(1), cuts) {
            return;
        }
        if let Ok(lower) = self.lower(problem) {
            watch.see(cuts, self.best.height, lower);
        }
    }

    /// The outcome of a search that made all cuts of its budget, or has each zone closed. Its lower
    /// bound is the least of the best height and of the bounds that stand.
    pub fn finish(self, problem: &Problem, budget: u32) -> Result<Outcome, AllocError>
        requires arena { IsArenaOf problem.now self }
        requires within { length self.trace ≤ budget }
        requires budget { budget ≤ MAX_BUDGET }
        requires ended { MayEnd problem.now self.trace self.best.height budget }
        ensures best { IfOk result (λ outcome. outcome.best ≡ self.best) }
        ensures trace { IfOk result (λ outcome. outcome.trace ≡ self.trace) }
        ensures least { IfOk result (λ outcome. IsLeastStanding problem.now self.trace self.best.height outcome.lower) }
        ensures lines { IfOk result (λ outcome. IsTraceLog problem.now outcome.trace outcome.lower outcome.log) }
        ensures solved { IfOk result (IsSolverOutcome problem.now budget) }
    {
        let lower = self.lower(problem)?;
        self.finish_at(problem, budget, lower)
    }

    /// The outcome of a search with this lower bound, which each zone that stands proves. Where it is below the
    /// best height, some zone that stands has a bound that is no greater, and the search made all cuts of
    /// its budget or has each zone closed.
    pub fn finish_at(
        self,
        problem: &Problem,
        budget: u32,
        lower: u32,
    ) -> Result<Outcome, AllocError>
        requires arena { IsArenaOf problem.now self }
        requires within { length self.trace ≤ budget }
        requires budget { budget ≤ MAX_BUDGET }
        requires ended { lower < self.best.height → MayEnd problem.now self.trace self.best.height budget }
        requires ordered { lower ≤ self.best.height }
        requires standing { (z : ℕ) → Stands self.trace z → Proves problem.now (zone_of problem.now self.trace z) lower }
        requires enough { lower < self.best.height → HasBoundUpTo problem.now self.trace lower }
        ensures best { IfOk result (λ outcome. outcome.best ≡ self.best) }
        ensures trace { IfOk result (λ outcome. outcome.trace ≡ self.trace) }
        ensures lower { IfOk result (λ outcome. outcome.lower ≡ lower) }
        ensures lines { IfOk result (λ outcome. IsTraceLog problem.now outcome.trace outcome.lower outcome.log) }
        ensures solved { IfOk result (IsSolverOutcome problem.now budget) }
    {
        let log = log_of_bounds(self.alloc, problem, &self.trace, &self.bounds, lower)?;
        Ok(self.finish_with(problem, budget, lower, log))
    }

    /// The outcome of a search with this lower bound and a log that proves it. Where the lower bound is
    /// below the best height, some zone that stands has a bound that is no greater, and the search made all
    /// cuts of its budget or has each zone closed.
    pub fn finish_with(self, problem: &Problem, budget: u32, lower: u32, log: Log) -> Outcome
        requires arena { IsArenaOf problem.now self }
        requires within { length self.trace ≤ budget }
        requires budget { budget ≤ MAX_BUDGET }
        requires ended { lower < self.best.height → MayEnd problem.now self.trace self.best.height budget }
        requires ordered { lower ≤ self.best.height }
        requires enough { lower < self.best.height → HasBoundUpTo problem.now self.trace lower }
        requires good { IsGoodLog problem.now self.trace log lower }
        requires writable { IsLogWritable log }
        requires short { length log ≤ 2 * length self.trace + 1 }
        ensures best { result.best ≡ self.best }
        ensures trace { result.trace ≡ self.trace }
        ensures lower { result.lower ≡ lower }
        ensures log { result.log ≡ log }
        ensures solved { IsSolverOutcome problem.now budget result }
    {
        // The cells come with the fact that the problem is sound.
        let _cells = problem.cells();
        let (best, trace) = self.into_parts();
        Outcome {
            best,
            lower,
            trace,
            log,
        }
    }
}

/// The least of a height and of the bounds of the zones that nothing closes: a cut closes a zone, and a search
/// may know of more. All are in lines.
pub fn least_standing(closers: &[Option<u32>], bounds: &[Option<u32>], height: u32) -> u32
    requires { length closers.now ≡ length bounds.now }
    ensures { IsLeastUpto closers.now bounds.now height (length bounds.now) result }
{
    let mut least = height;
    for zone in 0..bounds.len() {
        least = least_of(least, closers[zone], bounds[zone]);
    }
    least
}

/// The number, or the bound of a zone that nothing closes, where that is less.
fn least_of(least: u32, closer: Option<u32>, bound: Option<u32>) -> u32
    ensures { result ≡ least_with least closer bound }
{
    match closer {
        Some(_) => least,
        None => match bound {
            None => least,
            Some(bound) => least.min(bound),
        },
    }
}
