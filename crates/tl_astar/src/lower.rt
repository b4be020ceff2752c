//! The lower bound of a search, and its outcome.

ghost use Rattle.std.specs.Prelude.{◌≡◌, ◌⊎◌, ℕ, ◌+◌, ◌*◌, ◌<◌, ◌≤◌, length, get_or, IfOk};
ghost use Rattle.tl_problem.specs.Placements.{IsOpening};
ghost use Rattle.tl_cert.specs.declared.trace.CutAt.{CutAt};
ghost use Rattle.tl_cert.specs.Traces.{IsZoneOf};
ghost use Rattle.tl_solve.specs.Arenas.{IsArenaOf};
ghost use Rattle.tl_solve.specs.Solver.{IsSolverOutcome};
ghost use Rattle.tl_astar.specs.Best.{AreShut, IsBestOutcome};
ghost use Rattle.tl_astar.specs.inner.Lower.{AreUncut, IsLessened, IsProvedUpto};
ghost use Rattle.tl_astar.specs.inner.Searches.{IsSearchOf};

use crate::search::Search;
use std::alloc::{AllocError, Global};
use tl_base::MAX_BUDGET;
use tl_cert::Trace;
use tl_problem::Problem;
use tl_solve::{Arena, Outcome};

impl Search {
    /// The outcome of a search that made all cuts of its budget, or has no zone that needs one.
    pub(crate) fn finish(mut self, problem: &Problem, budget: u32) -> Result<Outcome, AllocError>
        requires search { IsSearchOf problem.now self }
        requires within { length self.arena.trace ≤ budget }
        requires budget { budget ≤ MAX_BUDGET }
        requires ended { (length self.arena.trace ≡ budget) ⊎ AreShut problem.now self.arena.trace self.arena.best.height }
        requires shown { budget ≡ 0 → IsOpening problem.now self.arena.best }
        ensures besides { IfOk result (IsBestOutcome problem.now budget) }
        ensures solved { IfOk result (IsSolverOutcome problem.now budget) }
    {
        let stands = uncut_zones(self.alloc, self.arena.trace())?;
        let lower = least_proved(problem, &mut self.arena, &stands);
        let arena = self.into_arena();
        let found = arena.finish_at(problem, budget, lower)?;
        Ok(found)
    }
}

/// For each zone of the trace whether no cut is of it.
fn uncut_zones(alloc: Global, trace: &Trace) -> Result<Vec<bool>, AllocError>
    requires few { length trace.now ≤ MAX_BUDGET }
    requires there { (i : ℕ) (d : CutAt) → i < length trace.now → (get_or trace.now i d).zone < 2 * length trace.now + 1 }
    ensures { IfOk result (λ stands. AreUncut trace.now (length trace.now) stands.items) }
{
    let cuts = trace.as_slice();
    let mut stands: Vec<bool> = vec![in alloc; true; 2 * cuts.len() + 1]?;
    for number in 0..cuts.len() {
        stands[cuts[number].zone as usize] = false;
    }
    Ok(stands)
}

/// The least of the best height and of what the zones that stand prove.
fn least_proved(problem: &Problem, arena: &mut Arena, stands: &[bool]) -> u32
    requires arena { IsArenaOf problem.now arena.old }
    requires stands { AreUncut arena.old.trace (length arena.old.trace) stands.now }
    ensures same { arena.new ≡ arena.old }
    ensures proved { IsProvedUpto problem.now arena.old.trace arena.old.best.height (length stands.now) result }
{
    let mut least = arena.best().height;
    for zone in 0..stands.len() {
        if stands[zone] {
            least = lessened(problem, arena, zone as u32, least);
        }
    }
    least
}

/// The number, or the greater of the zone's bound and area bound where that is less.
fn lessened(problem: &Problem, arena: &mut Arena, zone: u32, least: u32) -> u32
    requires arena { IsArenaOf problem.now arena.old }
    requires there { IsZoneOf arena.old.trace zone }
    ensures same { arena.new ≡ arena.old }
    ensures lessened { IsLessened problem.now arena.old.trace zone least result }
{
    let Some(bound) = arena.bounds()[zone as usize] else {
        return least;
    };
    if bound >= least {
        return least;
    }
    match arena.area_of(problem, zone) {
        None => least,
        Some(area) => least.min(bound.max(area)),
    }
}
