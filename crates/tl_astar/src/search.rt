//! A best-first search on its way: its arena, and the zones that may still be cut.

ghost use Rattle.std.specs.Prelude.{◌≡◌, ◌⊎◌, ◌+◌, ◌<◌, ◌≤◌, ◌++◌, [], ◌∷◌, ℕ, IsTrue, length, get_or, false, IfNone, IfOk, IfSome, None, OnOk, OnSome};
ghost use Rattle.std.specs.BinaryHeap.{heap_items, heap_len};
ghost use Rattle.tl_base.specs.declared.limits.TheConstants.{MAX_BUDGET};
ghost use Rattle.tl_problem.specs.Bounds.{HasNoWidths};
ghost use Rattle.tl_problem.specs.Placements.{IsOpening};
ghost use Rattle.tl_problem.specs.Zones.{whole_zone, InZone};
ghost use Rattle.tl_cert.specs.Traces.{IsCut, IsZoneOf, zone_of};
ghost use Rattle.tl_cert.specs.Worked.{IsBoundOf};
ghost use Rattle.tl_solve.specs.Arenas.{HasBoundBelow, IsArenaOf};
ghost use Rattle.tl_solve.specs.Logs.{HasAreaFrom};
ghost use Rattle.tl_solve.specs.Orders.{IsFirstCut};
ghost use Rattle.tl_astar.specs.Best.{AreShut, HaveSameSteps, IsShut};
ghost use Rattle.tl_astar.specs.inner.Entries.{IsAdded};
ghost use Rattle.tl_astar.specs.inner.Frontier.{HasAreaBelow, IsNeededCut, IsUnderBounds};
ghost use Rattle.tl_astar.specs.inner.Searches.{AreLeft, IsSearchOf, open_zones};

use crate::agreement::have_same_steps;
use crate::arrangement::Arrangement;
use crate::opens::OpenZones;
use crate::whole::Whole;
use std::alloc::{AllocError, Global};
use tl_base::MAX_BUDGET;
use tl_cert::CutAt;
use tl_problem::Problem;
use tl_solve::Arena;

/// The zones that a search has made of a problem, and those of them that may still be cut.
pub(crate) struct Search {
    pub(crate) alloc: Global,
    pub(crate) arena: Arena,
    pub(crate) opens: OpenZones,
    /// Whether each cell has the same steps by `low` and by `high`: only then an area bound closes a zone.
    pub(crate) same_steps: bool,
    pub(crate) arrangement: Arrangement,
    pub(crate) whole: Whole,
    /// At how many cuts a low placement is looked for again.
    pub(crate) next_greedy: u32,
}

impl Drop for Search {
    fn drop(self) {
        let Search {
            alloc: _alloc,
            arena: _arena,
            opens: _opens,
            same_steps: _same_steps,
            arrangement: _shape,
            whole: _whole,
            next_greedy: _next_greedy,
        } = self;
    }
}

impl Search {
    /// The search before any cut. The whole may be cut.
    pub(crate) fn begin(alloc: Global, problem: &Problem) -> Result<Search, AllocError>
        ensures search { IfOk result (IsSearchOf problem.now) }
        ensures left { IfOk result (λ search. AreLeft problem.now search (open_zones search)) }
        ensures no_cut { IfOk result (λ search. search.arena.trace ≡ []) }
        ensures opening { IfOk result (λ search. IsOpening problem.now search.arena.best) }
    {
        let arena = Arena::open(alloc, problem)?;
        let arrangement = Arrangement::new(alloc, problem)?;
        let whole = Whole::new(alloc, &arrangement, problem.cells())?;
        let opens = OpenZones::new(alloc);
        let mut search = Search {
            alloc,
            arena,
            opens,
            same_steps: have_same_steps(problem),
            arrangement,
            whole,
            next_greedy: 0,
        };
        search.add(0)?;
        Ok(search)
    }

    /// Adds a zone to those that may be cut, where it has widths.
    fn add(&mut self, zone: u32) -> Result<(), AllocError>
        requires { zone < length self.old.arena.bounds.items }
        ensures arena { self.new.arena ≡ self.old.arena }
        ensures same_steps { self.new.same_steps ≡ self.old.same_steps }
        ensures added { OnOk result (IsAdded zone (get_or self.old.arena.bounds.items zone None)
            (heap_items self.old.opens.heap) (heap_items self.new.opens.heap)) }
        ensures len { OnOk result (heap_len self.new.opens.heap ≤ heap_len self.old.opens.heap + 1) }
    {
        if let Some(bound) = self.arena.bounds()[zone as usize] {
            self.opens.push(zone, bound)?;
        }
        Ok(())
    }

    /// Takes out the zone of least bound among those that may be cut and need a cut, and returns its first
    /// cut. `None` where no zone needs one.
    pub(crate) fn next(&mut self, problem: &Problem) -> Option<CutAt>
        requires search { IsSearchOf problem.now self.old }
        requires left { AreLeft problem.now self.old (open_zones self.old) }
        ensures arena { self.new.arena ≡ self.old.arena }
        ensures search { IsSearchOf problem.now self.new }
        ensures shut { IfNone result (AreShut problem.now self.new.arena.trace self.new.arena.best.height) }
        ensures left { IfSome result (λ cut. AreLeft problem.now self.new (cut.zone ∷ open_zones self.new)) }
        ensures least { IfSome result (λ cut. (bound : ℕ) → IsBoundOf problem.now self.new.arena.trace cut.zone bound →
            IsUnderBounds problem.now self.new.arena.trace bound (open_zones self.new)) }
        ensures needed { IfSome result (IsNeededCut problem.now self.new.arena.trace self.new.arena.best.height) }
        ensures len { OnSome result (heap_len self.new.opens.heap < heap_len self.old.opens.heap) }
    {
        while let Some(zone) = self.opens.pop() {
            if let Some(first) = self.first_cut(problem, zone) {
                return Some(first);
            }
        }
        None
    }

    /// The first cut of the zone: of its first span of more than one class, after the first of them. `None`
    /// where the zone needs no cut.
    pub(crate) fn first_cut(&mut self, problem: &Problem, zone: u32) -> Option<CutAt>
        requires search { IsSearchOf problem.now self.old }
        requires there { IsZoneOf self.old.arena.trace zone }
        ensures arena { self.new.arena ≡ self.old.arena }
        ensures opens { self.new.opens ≡ self.old.opens }
        ensures search { IsSearchOf problem.now self.new }
        ensures shut { IfNone result (IsShut problem.now (zone_of problem.now self.old.arena.trace zone) self.old.arena.best.height) }
        ensures zone { IfSome result (λ cut. cut.zone ≡ zone) }
        ensures first { IfSome result (IsFirstCut (zone_of problem.now self.old.arena.trace zone)) }
        ensures below { IfSome result (λ cut. HasBoundBelow problem.now self.old.arena.trace zone self.old.arena.best.height) }
        ensures below_by_area { IfSome result (λ cut. HaveSameSteps problem.now →
            HasAreaBelow problem.now self.old.arena.trace zone self.old.arena.best.height) }
    {
        let cut = self.arena.first_cut(problem, zone)?;
        if self.same_steps && is_area_enough(problem, &mut self.arena, zone) {
            return None;
        }
        Some(cut)
    }

    /// The first cut of a zone, where the zone needs it still: it did when the best height was `height`. `None`
    /// where it no longer does.
    pub(crate) fn needed_still(
        &mut self,
        problem: &Problem,
        first: CutAt,
        height: u32,
    ) -> Option<CutAt>
        requires search { IsSearchOf problem.now self.old }
        requires there { IsZoneOf self.old.arena.trace first.zone }
        requires needed { IsNeededCut problem.now self.old.arena.trace height first }
        requires lowered { self.old.arena.best.height ≤ height }
        ensures arena { self.new.arena ≡ self.old.arena }
        ensures opens { self.new.opens ≡ self.old.opens }
        ensures search { IsSearchOf problem.now self.new }
        ensures shut { IfNone result (IsShut problem.now (zone_of problem.now self.old.arena.trace first.zone)
            self.old.arena.best.height) }
        ensures zone { IfSome result (λ cut. cut.zone ≡ first.zone) }
        ensures needed { IfSome result (IsNeededCut problem.now self.old.arena.trace self.old.arena.best.height) }
    {
        if self.arena.best().height < height {
            return self.first_cut(problem, first.zone);
        }
        Some(first)
    }

    /// Makes the cut of a zone that was taken out, and adds its parts to the zones that may be cut.
    pub(crate) fn cut(&mut self, problem: &Problem, cut: CutAt) -> Result<(), AllocError>
        requires search { IsSearchOf problem.now self.old }
        requires left { AreLeft problem.now self.old (cut.zone ∷ open_zones self.old) }
        requires least { (bound : ℕ) → IsBoundOf problem.now self.old.arena.trace cut.zone bound →
            IsUnderBounds problem.now self.old.arena.trace bound (open_zones self.old) }
        requires cut { IsCut (whole_zone problem.now) self.old.arena.trace cut }
        requires below { HasBoundBelow problem.now self.old.arena.trace cut.zone self.old.arena.best.height }
        requires below_by_area { HaveSameSteps problem.now →
            HasAreaBelow problem.now self.old.arena.trace cut.zone self.old.arena.best.height }
        requires few { length self.old.arena.trace < MAX_BUDGET }
        ensures trace { OnOk result (self.new.arena.trace ≡ self.old.arena.trace ++ cut ∷ []) }
        ensures search { OnOk result (IsSearchOf problem.now self.new) }
        ensures left { OnOk result (AreLeft problem.now self.new (open_zones self.new)) }
        ensures len { OnOk result (heap_len self.new.opens.heap ≤ heap_len self.old.opens.heap + 2) }
    {
        let made = self.arena.cuts();
        self.arena.cut(problem, cut)?;
        self.add(2 * made + 1)?;
        self.add(2 * made + 2)?;
        Ok(())
    }

    /// The arena, without what the search keeps besides.
    pub(crate) fn into_arena(self) -> Arena
        ensures { result ≡ self.arena }
    {
        let Search {
            alloc: _,
            arena,
            opens: _opens,
            same_steps: _,
            arrangement: _shape,
            whole: _whole,
            next_greedy: _,
        } = self;
        arena
    }
}

/// Whether the area bound of the zone is at least the best height.
fn is_area_enough(problem: &Problem, arena: &mut Arena, zone: u32) -> bool
    requires arena { IsArenaOf problem.now arena.old }
    requires there { IsZoneOf arena.old.trace zone }
    ensures same { arena.new ≡ arena.old }
    ensures area { IsTrue result → HasAreaFrom problem.now (zone_of problem.now arena.old.trace zone) arena.old.best.height }
    ensures below { result ≡ false → HasNoWidths (InZone problem.now (zone_of problem.now arena.old.trace zone))
        ⊎ HasAreaBelow problem.now arena.old.trace zone arena.old.best.height }
{
    match arena.area_of(problem, zone) {
        Some(area) => area >= arena.best().height,
        None => false,
    }
}
