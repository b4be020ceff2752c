//! A piece that is under way: the zones on its stack, its cuts, and what it found and leaves.

ghost use Rattle.std.specs.Prelude.{◌≡◌, ◌+◌, ◌*◌, ◌<◌, ◌≤◌, ◌⊎◌, ◌++◌, [], ◌∷◌, length, None, IfNone, IfOk, IfSome, OnOk};
ghost use Rattle.tl_base.specs.declared.limits.TheConstants.{MAX_BUDGET};
ghost use Rattle.tl_problem.specs.Agreement.{HasOneClass};
ghost use Rattle.tl_problem.specs.Works.{IsWorkOf};
ghost use Rattle.tl_problem.specs.Zones.{IsZone};
ghost use Rattle.tl_solve.specs.Orders.{IsFirstCut};
ghost use Rattle.tl_branch.specs.inner.UnderWay.{IsBegun, IsCutApart, with_waiting};

use crate::lowest::{Lowest, look};
use std::alloc::{AllocError, Global};
use tl_base::{List, MAX_BUDGET};
use tl_cert::{CutAt, MAX_SPAN, Trace};
use tl_problem::{Problem, Work, Zone};
use tl_solve::{Piece, first_open};

/// A zone with widths that stands and is not yet cut, with its number and its bound.
#[derive(Drop)]
pub(crate) struct Waiting {
    pub(crate) number: u32,
    pub(crate) zone: Zone,
    pub(crate) bound: u32,
}

/// What a piece has done of its zone so far. The last zone of `stack` is the next.
pub(crate) struct UnderWay {
    alloc: Global,
    pub(crate) work: Work,
    pub(crate) trace: Trace,
    pub(crate) lowest: Lowest,
    pub(crate) stack: Vec<Waiting>,
    /// The zones that could be cut after all cuts of the quota were made.
    pub(crate) lefts: List<u32>,
}

impl Drop for UnderWay {
    fn drop(self) {
        let UnderWay {
            alloc: _alloc,
            work: _work,
            trace: _trace,
            lowest: _lowest,
            stack: _stack,
            lefts: _lefts,
        } = self;
    }
}

impl UnderWay {
    /// The piece of the zone before any cut. Its one zone was looked at.
    pub(crate) fn begin(
        alloc: Global,
        problem: &Problem,
        zone: &Zone,
        given: u32,
    ) -> Result<UnderWay, AllocError>
        requires zone { IsZone problem.now zone.now }
        ensures work { IfOk result (λ begun. IsWorkOf problem.now begun.work) }
        ensures begun { IfOk result (IsBegun problem.now zone.now given) }
    {
        let mut work = Work::new(problem)?;
        let mut lowest = Lowest {
            height: given,
            placed: None,
        };
        let bound = look(problem, zone, &mut work, &mut lowest)?;
        let ranges = List::from_slice(alloc, zone.ranges())?;
        let mut stack = Vec::new(alloc);
        put_waiting(&mut stack, 0, Zone::from_ranges(alloc, ranges), bound)?;
        Ok(UnderWay {
            alloc,
            work,
            trace: Trace::new(alloc),
            lowest,
            stack,
            lefts: List::new(alloc),
        })
    }

    /// How many cuts were made.
    pub(crate) fn cuts(&self) -> u32
        requires { length self.now.trace ≤ MAX_BUDGET }
        ensures { result ≡ length self.now.trace }
    {
        self.trace.len() as u32
    }

    /// The cut of the zone's first span of more than one class, after the first of them. `None` where the zone
    /// has a bound of at least the height to be undercut, or one class for each span.
    pub(crate) fn first_cut(&self, next: &Waiting) -> Option<CutAt>
        requires few { length next.now.zone ≤ MAX_SPAN + 1 }
        ensures closed { IfNone result ((self.now.lowest.height ≤ next.now.bound) ⊎ HasOneClass next.now.zone) }
        ensures zone { IfSome result (λ cut. cut.zone ≡ next.now.number) }
        ensures first { IfSome result (IsFirstCut next.now.zone) }
        ensures below { IfSome result (λ cut. next.now.bound < self.now.lowest.height) }
    {
        if next.bound >= self.lowest.height {
            return None;
        }
        let ranges = next.zone.ranges();
        let span = first_open(ranges)?;
        Some(CutAt {
            zone: next.number,
            span,
            class: ranges[span as usize].first,
        })
    }

    /// Cuts the zone, looks at the placement of each part, and puts the parts that have widths on the stack, the
    /// lower one last. The piece is of no use after out of memory.
    pub(crate) fn cut(
        &mut self,
        problem: &Problem,
        zone: &Zone,
        cut: CutAt,
    ) -> Result<(), AllocError>
        requires work { IsWorkOf problem.now self.old.work }
        requires zone { IsZone problem.now zone.now }
        requires first { IsFirstCut zone.now cut }
        requires few { length self.old.trace < MAX_BUDGET }
        ensures work { IsWorkOf problem.now self.new.work }
        ensures apart { OnOk result (IsCutApart problem.now zone.now cut self.old self.new) }
    {
        let (lower, upper) = zone.cut(cut.span, cut.class)?;
        let made = self.cuts();
        self.trace.push(cut)?;
        let lower_bound = look(problem, &lower, &mut self.work, &mut self.lowest)?;
        let upper_bound = look(problem, &upper, &mut self.work, &mut self.lowest)?;
        put_waiting(&mut self.stack, 2 * made + 2, upper, upper_bound)?;
        put_waiting(&mut self.stack, 2 * made + 1, lower, lower_bound)?;
        Ok(())
    }

    /// The piece, without what its search kept besides.
    pub(crate) fn into_piece(self) -> Piece
        ensures best { result.best ≡ self.lowest.placed }
        ensures trace { result.trace ≡ self.trace }
        ensures lefts { result.lefts ≡ self.lefts }
    {
        let UnderWay {
            alloc: _,
            work: _work,
            trace,
            lowest,
            stack: _stack,
            lefts,
        } = self;
        Piece {
            best: lowest.placed,
            trace,
            lefts,
        }
    }
}

/// Puts the zone on the stack, where it has widths.
fn put_waiting(
    stack: &mut Vec<Waiting>,
    number: u32,
    zone: Zone,
    bound: Option<u32>,
) -> Result<(), AllocError>
    ensures { OnOk result (stack.new.items ≡ with_waiting stack.old.items number zone bound) }
{
    if let Some(bound) = bound {
        stack.push(Waiting {
            number,
            zone,
            bound,
        })?;
    }
    Ok(())
}
