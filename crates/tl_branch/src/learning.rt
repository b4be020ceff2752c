//! A search that learns on its way: its arena, its log so far, and the store of the log's nogoods.

ghost use Rattle.std.specs.Prelude.{◌≡◌, ◌⊎◌, ◌+◌, ◌<◌, ◌≤◌, ◌++◌, [], ◌∷◌, length, false, IsTrue, IfNone, IfOk, IfSome, OnOk};
ghost use Rattle.tl_base.specs.declared.limits.TheConstants.{MAX_BUDGET};
ghost use Rattle.tl_problem.specs.Zones.{whole_zone};
ghost use Rattle.tl_cert.specs.Lines.{IsGoodLine};
ghost use Rattle.tl_cert.specs.Traces.{IsCut, IsZoneOf, zone_of};
ghost use Rattle.tl_cert.specs.Worked.{IsClosedZone};
ghost use Rattle.tl_solve.specs.Arenas.{HasBoundBelow};
ghost use Rattle.tl_solve.specs.Orders.{IsFirstCut};
ghost use Rattle.tl_cert.specs.declared.log.End.TheVariants as ends;
ghost use Rattle.tl_branch.specs.Learn.{FiresAreNeeded, IsUnclosed};
ghost use Rattle.tl_branch.specs.inner.Learnings.{HasLine, IsCutOff, IsGrown, IsLearning, IsStart, NoOtherLine, line_of, log_nogoods};

use std::alloc::{AllocError, Global};
use tl_base::List;
use tl_cert::{CutAt, End, Log, LogLine, Nogood};
use tl_check::is_empty_nogood;
use tl_problem::Problem;
use tl_solve::Arena;
use tl_store::Store;

/// The zones that a search has made of a problem, and what it has learnt of them. The nogood of each line of
/// the log is in the store, under the number of the line.
pub(crate) struct Learning {
    pub(crate) alloc: Global,
    pub(crate) arena: Arena,
    pub(crate) store: Store,
    pub(crate) log: Log,
    /// For each zone the number of its line, whose bounds are among the zone's; `None` where it has none.
    pub(crate) lines: Vec<Option<u32>>,
    /// Whether `low` is `high` for every cell: only then a nogood of the store closes a zone.
    pub(crate) low_is_high: bool,
    /// How many cuts the search may make.
    pub(crate) budget: u32,
    /// The lines are good for so many lines of height: the best height, and at the end the lower bound.
    pub(crate) height: u32,
    /// Whether the last nogood of the log has no bounds.
    pub(crate) done: bool,
}

impl Drop for Learning {
    fn drop(self) {
        let Learning {
            alloc: _alloc,
            arena: _arena,
            store: _store,
            log: _log,
            lines: _lines,
            low_is_high: _low_is_high,
            budget: _budget,
            height: _height,
            done: _done,
        } = self;
    }
}

impl Learning {
    /// The search before any cut, without a line.
    pub(crate) fn begin(
        alloc: Global,
        problem: &Problem,
        budget: u32,
    ) -> Result<Learning, AllocError>
        requires { budget ≤ MAX_BUDGET }
        ensures learning { IfOk result (IsLearning problem.now) }
        ensures start { IfOk result (IsStart budget) }
    {
        let arena = Arena::open(alloc, problem)?;
        let store = Store::new(alloc, problem, budget)?;
        let mut lines = Vec::new(alloc);
        lines.push(None)?;
        let height = arena.best().height;
        Ok(Learning {
            alloc,
            arena,
            store,
            log: List::new(alloc),
            lines,
            low_is_high: problem.low_is_high(),
            budget,
            height,
            done: false,
        })
    }

    /// How many cuts were made.
    pub(crate) fn cuts(&self) -> u32
        requires { length self.now.arena.trace ≤ MAX_BUDGET }
        ensures { result ≡ length self.now.arena.trace }
    {
        self.arena.cuts()
    }

    /// The cut of the zone's first span of more than one class; `None` where the zone is closed.
    pub(crate) fn first_cut(&self, problem: &Problem, zone: u32) -> Option<CutAt>
        requires learning { IsLearning problem.now self.now }
        requires there { IsZoneOf self.now.arena.trace zone }
        ensures closed { IfNone result (IsClosedZone problem.now (zone_of problem.now self.now.arena.trace zone)
            self.now.arena.best.height) }
        ensures zone { IfSome result (λ cut. cut.zone ≡ zone) }
        ensures first { IfSome result (IsFirstCut (zone_of problem.now self.now.arena.trace zone)) }
        ensures below { IfSome result (λ cut. HasBoundBelow problem.now self.now.arena.trace zone self.now.arena.best.height) }
    {
        self.arena.first_cut(problem, zone)
    }

    /// Cuts a zone that stands. Its parts have no lines.
    pub(crate) fn cut(&mut self, problem: &Problem, cut: CutAt) -> Result<(), AllocError>
        requires learning { IsLearning problem.now self.old }
        requires going { self.old.done ≡ false }
        requires height { self.old.height ≡ self.old.arena.best.height }
        requires cut { IsCut (whole_zone problem.now) self.old.arena.trace cut }
        requires below { HasBoundBelow problem.now self.old.arena.trace cut.zone self.old.arena.best.height }
        requires few { length self.old.arena.trace < self.old.budget }
        requires unclosed { IsTrue self.old.low_is_high →
            IsUnclosed problem.now (log_nogoods problem.now self.old) self.old.arena.trace cut }
        ensures learning { OnOk result (IsLearning problem.now self.new) }
        ensures cut { OnOk result (IsCutOff self.old self.new cut) }
    {
        self.arena.cut(problem, cut)?;
        self.lines.push(None)?;
        self.lines.push(None)?;
        self.height = self.arena.best().height;
        Ok(())
    }

    /// Gives the zone a line, where it has none: the one with these fires and this end, shrunk. Where its nogood is
    /// there already the zone has the line with that nogood.
    pub(crate) fn put(
        &mut self,
        problem: &Problem,
        zone: u32,
        fires: List<u32>,
        end: End,
    ) -> Result<(), AllocError>
        requires learning { IsLearning problem.now self.old }
        requires going { self.old.done ≡ false }
        requires there { IsZoneOf self.old.arena.trace zone }
        requires good { IsGoodLine problem.now self.old.arena.trace self.old.log self.old.height (length self.old.log)
            (line_of zone fires end) }
        requires fires { length fires ≤ 2 }
        requires fired { (fires ≡ []) ⊎ (end ≡ ends.Fired) }
        requires needed { FiresAreNeeded problem.now self.old.arena.trace self.old.log (length self.old.log)
            (line_of zone fires end) }
        ensures learning { OnOk result (IsLearning problem.now self.new) }
        ensures grown { OnOk result (IsGrown self.old self.new) }
        ensures line { OnOk result (HasLine self.new.lines.items zone) }
        ensures alone { OnOk result (NoOtherLine zone self.old self.new) }
    {
        if self.lines[zone as usize].is_some() {
            return Ok(());
        }
        let line = LogLine {
            nogood: Nogood::Zone(zone),
            fires,
            end,
        };
        let trace = self.arena.trace();
        let new = self
            .store
            .shrink(problem, trace, &self.log, &line, self.height)?;
        let number = self.store.add(problem, trace, &new)?;
        if (number as usize) < self.log.len() {
            self.lines[zone as usize] = Some(number);
            return Ok(());
        }
        let done = is_empty_nogood(problem, trace.as_slice(), &new.nogood);
        self.log.push(new)?;
        self.lines[zone as usize] = Some(number);
        self.done = done;
        Ok(())
    }

    /// The arena and the log, without what the search keeps besides.
    pub(crate) fn into_parts(self) -> (Arena, Log)
        ensures arena { result.0 ≡ self.arena }
        ensures log { result.1 ≡ self.log }
    {
        let Learning {
            alloc: _,
            arena,
            store: _store,
            log,
            lines: _lines,
            low_is_high: _,
            budget: _,
            height: _,
            done: _,
        } = self;
        (arena, log)
    }
}
