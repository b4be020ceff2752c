//! The zones of a search by their numbers, with what every search keeps of them: the cuts, the bound of
//! each zone and the best placement. It knows no order in which zones are cut.

ghost use Rattle.std.specs.Prelude.{◌≡◌, ◌+◌, ◌<◌, ◌≤◌, ◌++◌, [], ◌∷◌, length, IfOk, OnOk, IfNone, IfSome, MatchOption};
ghost use Rattle.tl_base.specs.declared.limits.TheConstants.{MAX_BUDGET};
ghost use Rattle.tl_problem.specs.Agreement.{HasOneClass};
ghost use Rattle.tl_problem.specs.Areas.{IsAreaBound};
ghost use Rattle.tl_problem.specs.Bounds.{HasNoWidths};
ghost use Rattle.tl_problem.specs.Placements.{IsOpening, IsPlacement};
ghost use Rattle.tl_problem.specs.Zones.{whole_zone, InZone, IsFirstOpen};
ghost use Rattle.tl_cert.specs.Traces.{IsCut, IsZoneOf, zone_of};
ghost use Rattle.tl_cert.specs.Worked.{IsClosedZone};
ghost use Rattle.tl_solve.specs.Arenas.{HasBoundBelow, IsArenaOf, IsLowered};
ghost use Rattle.tl_solve.specs.Orders.{IsFirstCut};

use crate::looks::{look, take_lower};
use std::alloc::{AllocError, Global};
use tl_base::MAX_BUDGET;
use tl_cert::{CutAt, MAX_SPAN, Trace};
use tl_problem::{Placed, Problem, Range, Work, Zone};

/// The zones that a search has made of one problem. Zone 0 is the whole; cut `i`, counted from 0, makes
/// the zones `2i + 1` and `2i + 2`. The best placement is tight, and none that stands at the least
/// positions of a zone is lower. The memory that it takes grows with the cuts and the spans.
#[derive(Debug)]
pub struct Arena {
    pub(crate) alloc: Global,
    pub(crate) work: Work,
    pub(crate) zones: Vec<Zone>,
    pub(crate) bounds: Vec<Option<u32>>,
    pub(crate) trace: Trace,
    /// The height of the opening, in lines.
    pub(crate) opening: u32,
    pub(crate) best: Placed,
}

impl Drop for Arena {
    fn drop(self) {
        let Arena {
            alloc: _alloc,
            work: _work,
            zones: _zones,
            bounds: _bounds,
            trace: _trace,
            opening: _opening,
            best: _best,
        } = self;
    }
}

impl Arena {
    /// The arena of the whole, before any cut. Its best placement is the opening.
    pub fn open(alloc: Global, problem: &Problem) -> Result<Arena, AllocError>
        ensures arena { IfOk result (IsArenaOf problem.now) }
        ensures no_cut { IfOk result (λ arena. arena.trace ≡ []) }
        ensures opening { IfOk result (λ arena. IsOpening problem.now arena.best) }
    {
        let best = problem.opening()?;
        let mut work = Work::new(problem)?;
        let whole = problem.whole()?;
        let bound = problem.bound_of(&whole, &mut work);
        let mut zones = Vec::new(alloc);
        zones.push(whole)?;
        let mut bounds = Vec::new(alloc);
        bounds.push(bound)?;
        Ok(Arena {
            alloc,
            work,
            zones,
            bounds,
            trace: Trace::new(alloc),
            opening: best.height,
            best,
        })
    }

    /// How many cuts were made.
    pub fn cuts(&self) -> u32
        requires { length self.now.trace ≤ MAX_BUDGET }
        ensures { result ≡ length self.now.trace }
    {
        self.trace.len() as u32
    }

    /// Lends the best placement so far.
    pub fn best(&self) -> &Placed
        ensures { result.now ≡ self.now.best }
    {
        &self.best
    }

    /// Lends the bounds of the zones, by their numbers: `None` where a zone has no widths.
    pub fn bounds(&self) -> &[Option<u32>]
        ensures { result.now ≡ self.now.bounds.items }
    {
        &self.bounds
    }

    /// Lends the zones, by their numbers.
    pub fn zones(&self) -> &[Zone]
        ensures { result.now ≡ self.now.zones.items }
    {
        &self.zones
    }

    /// Lends the cuts that were made.
    pub fn trace(&self) -> &Trace
        ensures { result.now ≡ self.now.trace }
    {
        &self.trace
    }

    /// The area bound of the zone with this number, which no layout in the zone is lower than. `None` exactly
    /// where no widths lie in the zone. No memory is taken.
    pub fn area_of(&mut self, problem: &Problem, zone: u32) -> Option<u32>
        requires arena { IsArenaOf problem.now self.old }
        requires there { IsZoneOf self.old.trace zone }
        ensures area { MatchOption result (HasNoWidths (InZone problem.now (zone_of problem.now self.old.trace zone)))
            (IsAreaBound problem.now (InZone problem.now (zone_of problem.now self.old.trace zone))) }
        ensures same { self.new ≡ self.old }
    {
        problem.area_of(&self.zones[zone as usize], &mut self.work)
    }

    /// The cut of the zone's first span of more than one class, after the first of them. `None` where
    /// the zone is closed: it has no widths, or a bound of at least the best height, or one class for
    /// each span, and then the best placement is no higher than that of the zone.
    pub fn first_cut(&self, problem: &Problem, zone: u32) -> Option<CutAt>
        requires arena { IsArenaOf problem.now self.now }
        requires there { IsZoneOf self.now.trace zone }
        ensures closed { IfNone result (IsClosedZone problem.now (zone_of problem.now self.now.trace zone) self.now.best.height) }
        ensures zone { IfSome result (λ cut. cut.zone ≡ zone) }
        ensures first { IfSome result (IsFirstCut (zone_of problem.now self.now.trace zone)) }
        ensures below { IfSome result (λ cut. HasBoundBelow problem.now self.now.trace zone self.now.best.height) }
    {
        let bound = self.bounds[zone as usize]?;
        if bound >= self.best.height {
            return None;
        }
        let ranges = self.zones[zone as usize].ranges();
        let span = first_open(ranges)?;
        Some(CutAt {
            zone,
            span,
            class: ranges[span as usize].first,
        })
    }

    /// Takes a placement for the best, made tight, where it is lower.
    pub fn offer(&mut self, problem: &Problem, placed: &Placed) -> Result<(), AllocError>
        requires arena { IsArenaOf problem.now self.old }
        requires placement { IsPlacement problem.now placed.now }
        ensures arena { IsArenaOf problem.now self.new }
        ensures trace { self.new.trace ≡ self.old.trace }
        ensures opening { self.new.opening ≡ self.old.opening }
        ensures lowered { IsLowered self.old.best self.new.best }
        ensures taken { OnOk result (self.new.best.height ≤ placed.now.height) }
    {
        take_lower(problem, placed, &mut self.best)
    }

    /// Cuts a zone that stands, and looks at the placement of each part. The arena is of no use after
    /// out of memory.
    pub fn cut(&mut self, problem: &Problem, cut: CutAt) -> Result<(), AllocError>
        requires arena { IsArenaOf problem.now self.old }
        requires cut { IsCut (whole_zone problem.now) self.old.trace cut }
        requires below { HasBoundBelow problem.now self.old.trace cut.zone self.old.opening }
        requires few { length self.old.trace < MAX_BUDGET }
        ensures arena { OnOk result (IsArenaOf problem.now self.new) }
        ensures trace { OnOk result (self.new.trace ≡ self.old.trace ++ cut ∷ []) }
        ensures opening { OnOk result (self.new.opening ≡ self.old.opening) }
        ensures lowered { OnOk result (IsLowered self.old.best self.new.best) }
    {
        let zone = &self.zones[cut.zone as usize];
        let (lower, upper) = zone.cut(cut.span, cut.class)?;
        let least = problem.least_in(zone, &mut self.work)?.unwrap();
        let lower_bound = look(problem, &lower, &least, &mut self.work, &mut self.best)?;
        let upper_bound = look(problem, &upper, &least, &mut self.work, &mut self.best)?;
        self.zones.push(lower)?;
        self.zones.push(upper)?;
        self.bounds.push(lower_bound)?;
        self.bounds.push(upper_bound)?;
        self.trace.push(cut)?;
        Ok(())
    }

    /// The best placement and the cuts, without what a search keeps besides.
    pub(crate) fn into_parts(self) -> (Placed, Trace)
        ensures best { result.0 ≡ self.best }
        ensures trace { result.1 ≡ self.trace }
    {
        let Arena {
            alloc: _,
            work: _work,
            zones: _zones,
            bounds: _bounds,
            trace,
            opening: _,
            best,
        } = self;
        (best, trace)
    }
}

/// The number of the first range of more than one class, counted from 0; `None` where each has one class.
pub fn first_open(ranges: &[Range]) -> Option<u32>
    requires { length ranges.now ≤ MAX_SPAN + 1 }
    ensures none { IfNone result (HasOneClass ranges.now) }
    ensures first { IfSome result (IsFirstOpen ranges.now) }
{
    for number in 0..ranges.len() {
        if ranges[number].first != ranges[number].last {
            return Some(number as u32);
        }
    }
    None
}
