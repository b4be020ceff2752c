//! The end of a search that learns: zones without a line get theirs, those that were made last first.

ghost use Rattle.std.specs.Prelude.{◌≡◌, ◌+◌, ◌*◌, ◌<◌, ◌≤◌, length, true, false, IfOk, OnOk};
ghost use Rattle.tl_cert.specs.Traces.{IsZoneOf};
ghost use Rattle.tl_solve.specs.CutsFound.{IsCutFound};
ghost use Rattle.tl_solve.specs.Ends.{HasBoundUpTo, MayEnd};
ghost use Rattle.tl_solve.specs.Solver.{IsSolverOutcome};
ghost use Rattle.tl_solve.specs.inner.Walk.{KeepsClassOrder};
ghost use Rattle.tl_branch.specs.Learn.{IsLearnOutcome, IsLeastLeft};
ghost use Rattle.tl_branch.specs.inner.Learnings.{HasLine, IsGrown, IsLearning};
ghost use Rattle.tl_branch.specs.inner.Opens.{HaveLinesFrom, MayFinish, OpenProve};

use crate::learning::Learning;
use std::alloc::AllocError;
use tl_problem::Problem;
use tl_solve::{Outcome, cuts_of_zones};

impl Learning {
    /// The outcome of the search. Where zones are left open they, and those above them, get lines for the lower
    /// bound.
    pub(crate) fn finish(self, problem: &Problem) -> Result<Outcome, AllocError>
        requires learning { IsLearning problem.now self }
        requires order { KeepsClassOrder problem.now self.arena.trace }
        requires height { self.height ≡ self.arena.best.height }
        requires ended { self.done ≡ false → MayFinish problem.now self }
        ensures solved { IfOk result (IsSolverOutcome problem.now self.budget) }
        ensures learnt { IfOk result (IsLearnOutcome problem.now) }
    {
        if self.done {
            return Ok(self.into_outcome(problem));
        }
        let mut learning = self;
        learning.height = learning.lower(problem)?;
        learning.write_open(problem)?;
        Ok(learning.into_outcome(problem))
    }

    /// The outcome of a search whose log ends with a nogood without bounds, by its height as the lower bound.
    fn into_outcome(self, problem: &Problem) -> Outcome
        requires learning { IsLearning problem.now self }
        requires done { self.done ≡ true }
        requires order { KeepsClassOrder problem.now self.arena.trace }
        requires ended { self.height < self.arena.best.height → MayEnd problem.now self.arena.trace self.arena.best.height self.budget }
        requires enough { self.height < self.arena.best.height → HasBoundUpTo problem.now self.arena.trace self.height }
        requires least { self.height < self.arena.best.height →
            IsLeastLeft problem.now self.arena.trace self.log self.arena.best.height self.height }
        ensures solved { IsSolverOutcome problem.now self.budget result }
        ensures learnt { IsLearnOutcome problem.now result }
    {
        let height = self.height;
        let budget = self.budget;
        let (arena, log) = self.into_parts();
        arena.finish_with(problem, budget, height, log)
    }

    /// Gives each zone without a line its line, until the last nogood has no bounds.
    fn write_open(&mut self, problem: &Problem) -> Result<(), AllocError>
        requires learning { IsLearning problem.now self.old }
        requires going { self.old.done ≡ false }
        requires proves { OpenProve problem.now self.old.arena.trace self.old.lines.items self.old.height }
        ensures learning { OnOk result (IsLearning problem.now self.new) }
        ensures grown { OnOk result (IsGrown self.old self.new) }
        ensures done { OnOk result (self.new.done ≡ true) }
    {
        let cuts = cuts_of_zones(self.alloc, self.arena.trace())?;
        let mut above = cuts.len() as u32;
        'zones: while above > 0 && !self.done {
            above -= 1;
            self.write_one(problem, above, cuts[above as usize])?;
        }
        Ok(())
    }

    /// Gives the zone its line, where it has none: that of its parts where it is cut.
    fn write_one(
        &mut self,
        problem: &Problem,
        zone: u32,
        cut: Option<u32>,
    ) -> Result<(), AllocError>
        requires learning { IsLearning problem.now self.old }
        requires going { self.old.done ≡ false }
        requires proves { OpenProve problem.now self.old.arena.trace self.old.lines.items self.old.height }
        requires there { IsZoneOf self.old.arena.trace zone }
        requires cut { IsCutFound self.old.arena.trace (length self.old.arena.trace) zone cut }
        requires above { HaveLinesFrom self.old.arena.trace self.old.lines.items (zone + 1) }
        ensures learning { OnOk result (IsLearning problem.now self.new) }
        ensures grown { OnOk result (IsGrown self.old self.new) }
        ensures line { OnOk result (HasLine self.new.lines.items zone) }
    {
        if self.lines[zone as usize].is_some() {
            return Ok(());
        }
        match cut {
            Some(number) => self.join(problem, number)?,
            None => self.close_by_bound(problem, zone)?,
        };
        Ok(())
    }
}
