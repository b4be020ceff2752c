//! Where an open zone is cut.

ghost use Rattle.std.specs.Prelude.{◌≡◌, ◌≤◌, IfOk, IfSome, MatchOption};
ghost use Rattle.tl_problem.specs.Zones.{whole_zone};
ghost use Rattle.tl_cert.specs.Traces.{IsCut, Stands, zone_of};
ghost use Rattle.tl_solve.specs.Arenas.{HasBoundBelow};
ghost use Rattle.tl_astar.specs.Best.{HaveSameSteps, IsShut};
ghost use Rattle.tl_astar.specs.inner.Frontier.{HasAreaBelow, IsNeededCut, PartsRange};
ghost use Rattle.tl_astar.specs.inner.Searches.{IsSearchOf};

use crate::columns::{column_places, widths_between};
use crate::greedy::greedy_places;
use crate::parts::{Place, best_place};
use crate::search::Search;
use crate::sight::Sight;
use std::alloc::AllocError;
use tl_cert::CutAt;
use tl_problem::{Problem, Range};

impl Search {
    /// The cut of an open zone, which has this first cut. `None` where a placement that is found here is so low
    /// that the zone needs no cut.
    pub(crate) fn choose(
        &mut self,
        problem: &Problem,
        first: CutAt,
    ) -> Result<Option<CutAt>, AllocError>
        requires search { IsSearchOf problem.now self.old }
        requires stands { Stands self.old.arena.trace first.zone }
        requires needed { IsNeededCut problem.now self.old.arena.trace self.old.arena.best.height first }
        ensures opens { self.new.opens ≡ self.old.opens }
        ensures trace { self.new.arena.trace ≡ self.old.arena.trace }
        ensures search { IsSearchOf problem.now self.new }
        ensures lowered { self.new.arena.best.height ≤ self.old.arena.best.height }
        ensures shut { IfOk result (λ found. MatchOption found
            (IsShut problem.now (zone_of problem.now self.old.arena.trace first.zone) self.new.arena.best.height)
            (λ cut. cut.zone ≡ first.zone)) }
        ensures cut { IfOk result (λ found. IfSome found (IsCut (whole_zone problem.now) self.old.arena.trace)) }
        ensures below { IfOk result (λ found. IfSome found (λ cut.
            HasBoundBelow problem.now self.old.arena.trace first.zone self.new.arena.best.height)) }
        ensures below_by_area { IfOk result (λ found. IfSome found (λ cut. HaveSameSteps problem.now →
            HasAreaBelow problem.now self.old.arena.trace first.zone self.new.arena.best.height)) }
    {
        let zone = first.zone;
        let before = self.arena.best().height;
        let ranges = self.arena.zones()[zone as usize].ranges();
        let sight = Sight::of_zone(
            self.alloc,
            &self.arrangement,
            &self.whole,
            ranges,
            self.same_steps,
        )?;
        self.offer_fit(problem, &sight)?;
        self.offer_greedy(problem, &sight)?;
        let Some(first) = self.needed_still(problem, first, before) else {
            return Ok(None);
        };
        let height = self.arena.best().height;
        let place = best_place(self.alloc, &self.arrangement, &sight, height)?;
        let ranges = self.arena.zones()[zone as usize].ranges();
        Ok(Some(cut_at(ranges, place, first)))
    }

    /// Offers the placement in which each span has the room that it wants, where the page holds it.
    fn offer_fit(&mut self, problem: &Problem, sight: &Sight) -> Result<(), AllocError>
        requires search { IsSearchOf problem.now self.old }
        ensures opens { self.new.opens ≡ self.old.opens }
        ensures trace { self.new.arena.trace ≡ self.old.arena.trace }
        ensures search { IsSearchOf problem.now self.new }
        ensures lowered { self.new.arena.best.height ≤ self.old.arena.best.height }
    {
        let places = column_places(self.alloc, &self.arrangement, &sight.wanted)?;
        self.offer(problem, &places)
    }

    /// Offers a placement that was found by giving up columns where that costs least: before the first cut,
    /// and each time that the cuts have become four times as many.
    fn offer_greedy(&mut self, problem: &Problem, sight: &Sight) -> Result<(), AllocError>
        requires search { IsSearchOf problem.now self.old }
        ensures opens { self.new.opens ≡ self.old.opens }
        ensures trace { self.new.arena.trace ≡ self.old.arena.trace }
        ensures search { IsSearchOf problem.now self.new }
        ensures lowered { self.new.arena.best.height ≤ self.old.arena.best.height }
    {
        if self.arena.cuts() < self.next_greedy {
            return Ok(());
        }
        self.next_greedy = self.next_greedy.saturating_mul(4).max(1);
        let places = greedy_places(self.alloc, &self.arrangement, sight)?;
        self.offer(problem, &places)
    }

    /// Offers the placement of columns at these places, where they are within the page.
    fn offer(&mut self, problem: &Problem, places: &[u32]) -> Result<(), AllocError>
        requires search { IsSearchOf problem.now self.old }
        ensures opens { self.new.opens ≡ self.old.opens }
        ensures trace { self.new.arena.trace ≡ self.old.arena.trace }
        ensures search { IsSearchOf problem.now self.new }
        ensures lowered { self.new.arena.best.height ≤ self.old.arena.best.height }
    {
        let widths = widths_between(self.alloc, &self.arrangement, places)?;
        let found = problem.place(&widths)?;
        let Some(placed) = found else {
            return Ok(());
        };
        self.arena.offer(problem, &placed)
    }
}

/// The cut of the zone at this place, where it splits the range there; otherwise the first cut.
fn cut_at(ranges: &[Range], place: Option<Place>, first: CutAt) -> CutAt
    requires { PartsRange ranges.now first }
    ensures zone { result.zone ≡ first.zone }
    ensures parts { PartsRange ranges.now result }
{
    if let Some(place) = place {
        let span = u32::try_from(place.span).unwrap_or(0);
        let class = u32::try_from(place.class).unwrap_or(0);
        if (span as usize) < ranges.len() {
            let range = ranges[span as usize];
            if range.first <= class && class < range.last {
                return CutAt {
                    zone: first.zone,
                    span,
                    class,
                };
            }
        }
    }
    first
}
