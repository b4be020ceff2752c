//! The lines of zones: of those that are closed, and of those that are cut and whose parts have lines.

ghost use Rattle.std.specs.Prelude.{◌≡◌, ◌+◌, ◌*◌, ◌<◌, ◌≤◌, ◌∷◌, [], get_or, length, false, true, IfNone, IfOk, IfSome, IsTrue, OnOk};
ghost use Rattle.tl_cert.specs.declared.trace.CutAt.{CutAt};
ghost use Rattle.tl_cert.specs.Lines.{IsGoodLine};
ghost use Rattle.tl_cert.specs.Traces.{IsZoneOf, Stands};
ghost use Rattle.tl_solve.specs.Arenas.{HasBoundBelow};
ghost use Rattle.tl_cert.specs.declared.log.End.TheVariants as ends;
ghost use Rattle.tl_branch.specs.inner.Learnings.{ArePartLines, HasLine, HasLineOfCut, AreJoinedBut, IsGrown, IsHandled};
ghost use Rattle.tl_branch.specs.inner.Learnings.{IsLearning, IsRetried, IsShut, NoOtherLine, NoOtherStandingLine};
ghost use Rattle.tl_branch.specs.inner.Learnings.{NoStandingLine, StaysOpen, line_of};
ghost use Rattle.tl_branch.specs.Learn.{FiresAreNeeded};

use crate::learning::Learning;
use std::alloc::AllocError;
use tl_base::List;
use tl_cert::{End, LogLine, Nogood};
use tl_problem::Problem;

impl Learning {
    /// Whether the zone is closed, and has a line then: it has no widths, or a bound of at least the best height, or
    /// it implies a nogood that is known. The zones above it get lines as well, as far as they can.
    pub(crate) fn close(&mut self, problem: &Problem, zone: u32) -> Result<bool, AllocError>
        requires learning { IsLearning problem.now self.old }
        requires going { self.old.done ≡ false }
        requires height { self.old.height ≡ self.old.arena.best.height }
        requires stands { Stands self.old.arena.trace zone }
        requires joined { AreJoinedBut 0 self.old }
        ensures learning { IfOk result (λ closed. IsLearning problem.now self.new) }
        ensures grown { IfOk result (λ closed. IsGrown self.old self.new) }
        ensures closed { IfOk result (λ closed. closed ≡ true → IsHandled problem.now self.new zone) }
        ensures open { IfOk result (λ closed. closed ≡ false → StaysOpen problem.now self.new zone) }
        ensures going { IfOk result (λ closed. closed ≡ false → self.new.done ≡ false) }
        ensures alone { IfOk result (λ closed. NoOtherStandingLine zone self.old self.new) }
        ensures none { IfOk result (λ closed. closed ≡ false → self.new.lines ≡ self.old.lines) }
        ensures joined { IfOk result (λ closed. self.new.done ≡ false → AreJoinedBut 0 self.new) }
    {
        if self.close_by_bound(problem, zone)? {
            self.climb(problem, zone)?;
            return Ok(true);
        }
        if self.close_by_store(problem, zone)? {
            self.climb(problem, zone)?;
            return Ok(true);
        }
        Ok(false)
    }

    /// Whether the zone has no widths or a bound of at least the height, and has a line then.
    pub(crate) fn close_by_bound(
        &mut self,
        problem: &Problem,
        zone: u32,
    ) -> Result<bool, AllocError>
        requires learning { IsLearning problem.now self.old }
        requires going { self.old.done ≡ false }
        requires there { IsZoneOf self.old.arena.trace zone }
        ensures learning { IfOk result (λ closed. IsLearning problem.now self.new) }
        ensures grown { IfOk result (λ closed. IsGrown self.old self.new) }
        ensures closed { IfOk result (λ closed. closed ≡ true → IsShut problem.now self.new zone) }
        ensures open { IfOk result (λ closed. closed ≡ false →
            (self.new ≡ self.old) × HasBoundBelow problem.now self.old.arena.trace zone self.old.height) }
        ensures alone { IfOk result (λ closed. NoOtherLine zone self.old self.new) }
    {
        let Some(bound) = self.arena.bounds()[zone as usize] else {
            self.put(problem, zone, List::new(self.alloc), End::Cycle)?;
            return Ok(true);
        };
        if bound < self.height {
            return Ok(false);
        }
        self.put(problem, zone, List::new(self.alloc), End::Chain)?;
        Ok(true)
    }

    /// Whether a nogood of the store closes the zone, and has a line then. None does unless `low` is `high`.
    fn close_by_store(&mut self, problem: &Problem, zone: u32) -> Result<bool, AllocError>
        requires learning { IsLearning problem.now self.old }
        requires going { self.old.done ≡ false }
        requires there { IsZoneOf self.old.arena.trace zone }
        requires below { HasBoundBelow problem.now self.old.arena.trace zone self.old.height }
        ensures learning { IfOk result (λ closed. IsLearning problem.now self.new) }
        ensures grown { IfOk result (λ closed. IsGrown self.old self.new) }
        ensures closed { IfOk result (λ closed. closed ≡ true → IsTrue self.new.low_is_high × HasLine self.new.lines.items zone) }
        ensures open { IfOk result (λ closed. closed ≡ false → StaysOpen problem.now self.new zone) }
        ensures going { IfOk result (λ closed. closed ≡ false → self.new.done ≡ false) }
        ensures alone { IfOk result (λ closed. NoOtherLine zone self.old self.new) }
        ensures none { IfOk result (λ closed. closed ≡ false → self.new.lines ≡ self.old.lines) }
    {
        if !self.low_is_high {
            return Ok(false);
        }
        let found = self
            .store
            .closes(problem, &self.arena.zones()[zone as usize]);
        let Some(number) = found else {
            return Ok(false);
        };
        let mut fires = List::new(self.alloc);
        fires.push(number)?;
        self.put(problem, zone, fires, End::Fired)?;
        Ok(true)
    }

    /// Gives lines to the zones above this one, one after the other, as long as both parts have lines.
    fn climb(&mut self, problem: &Problem, zone: u32) -> Result<(), AllocError>
        requires learning { IsLearning problem.now self.old }
        requires there { IsZoneOf self.old.arena.trace zone }
        requires joined { AreJoinedBut zone self.old }
        ensures learning { OnOk result (IsLearning problem.now self.new) }
        ensures grown { OnOk result (IsGrown self.old self.new) }
        ensures none { OnOk result (NoStandingLine self.old self.new) }
        ensures joined { OnOk result (self.new.done ≡ false → AreJoinedBut 0 self.new) }
    {
        let mut below = zone;
        'zones: while below > 0 && !self.done {
            let number = (below - 1) / 2;
            if !self.join(problem, number)? {
                return Ok(());
            }
            below = self.arena.trace().as_slice()[number as usize].zone;
        }
        Ok(())
    }

    /// Whether both parts of the cut have lines. Then the zone that was cut has one too.
    pub(crate) fn join(&mut self, problem: &Problem, number: u32) -> Result<bool, AllocError>
        requires learning { IsLearning problem.now self.old }
        requires going { self.old.done ≡ false }
        requires there { number < length self.old.arena.trace }
        ensures learning { IfOk result (λ joined. IsLearning problem.now self.new) }
        ensures grown { IfOk result (λ joined. IsGrown self.old self.new) }
        ensures joined { IfOk result (λ joined. HasLine self.old.lines.items (2 * number + 1) →
            HasLine self.old.lines.items (2 * number + 2) → HasLineOfCut self.new number) }
        ensures line { IfOk result (λ joined. joined ≡ true → HasLineOfCut self.new number) }
        ensures same { IfOk result (λ joined. joined ≡ false → self.new ≡ self.old) }
        ensures alone { IfOk result (λ joined. (d : CutAt) →
            NoOtherLine (get_or self.old.arena.trace number d).zone self.old self.new) }
    {
        let zone = self.arena.trace().as_slice()[number as usize].zone;
        let lower = self.lines[2 * number as usize + 1];
        let upper = self.lines[2 * number as usize + 2];
        match (lower, upper) {
            (Some(lower), Some(upper)) => {
                let fires = self.fires(problem, zone, lower, upper)?;
                self.put(problem, zone, fires, End::Fired)?;
                Ok(true)
            }
            _ => Ok(false),
        }
    }

    /// The lines that the line of a zone that is cut fires: one of its parts alone, where all bounds of that
    /// line's nogood are implied in the zone, and else both.
    fn fires(
        &mut self,
        problem: &Problem,
        zone: u32,
        lower: u32,
        upper: u32,
    ) -> Result<List<u32>, AllocError>
        requires learning { IsLearning problem.now self.old }
        requires cut { ArePartLines problem.now self.old zone lower upper }
        ensures same { IfOk result (λ fires. IsRetried self.old self.new) }
        ensures learning { IfOk result (λ fires. IsLearning problem.now self.new) }
        ensures few { IfOk result (λ fires. length fires ≤ 2) }
        ensures good { IfOk result (λ fires. IsGoodLine problem.now self.old.arena.trace self.old.log self.old.height
            (length self.old.log) (line_of zone fires ends.Fired)) }
        ensures needed { IfOk result (λ fires. FiresAreNeeded problem.now self.old.arena.trace self.old.log
            (length self.old.log) (line_of zone fires ends.Fired)) }
    {
        let one = self.fires_alone(problem, zone, lower)?;
        if let Some(fires) = one {
            return Ok(fires);
        }
        let other = self.fires_alone(problem, zone, upper)?;
        if let Some(fires) = other {
            return Ok(fires);
        }
        let mut both = List::new(self.alloc);
        both.push(lower)?;
        both.push(upper)?;
        Ok(both)
    }

    /// The one line as fires, where the zone's line is good with it alone.
    fn fires_alone(
        &mut self,
        problem: &Problem,
        zone: u32,
        number: u32,
    ) -> Result<Option<List<u32>>, AllocError>
        requires learning { IsLearning problem.now self.old }
        ensures same { IfOk result (λ found. IsRetried self.old self.new) }
        ensures learning { IfOk result (λ found. IsLearning problem.now self.new) }
        ensures one { IfOk result (λ found. IfSome found (λ fires. fires ≡ number ∷ [])) }
        ensures good { IfOk result (λ found. IfSome found (λ fires. IsGoodLine problem.now self.old.arena.trace self.old.log
            self.old.height (length self.old.log) (line_of zone (number ∷ []) ends.Fired))) }
        ensures bad { IfOk result (λ found. IfNone found (IsGoodLine problem.now self.old.arena.trace self.old.log
            self.old.height (length self.old.log) (line_of zone (number ∷ []) ends.Fired) → ⊥)) }
    {
        let mut fires = List::new(self.alloc);
        fires.push(number)?;
        let line = LogLine {
            nogood: Nogood::Zone(zone),
            fires,
            end: End::Fired,
        };
        let trace = self.arena.trace();
        if !self
            .store
            .tries(problem, trace, &self.log, &line, self.height)
        {
            return Ok(None);
        }
        let mut alone = List::new(self.alloc);
        alone.push(number)?;
        Ok(Some(alone))
    }
}
