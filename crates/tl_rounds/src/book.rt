//! The book of a search in pieces.

ghost use Rattle.std.specs.Prelude.{◌≡◌, [], ◌∷◌, ◌+◌, ◌≤◌, length, take, map, IfOk, OnOk, OnErr, ℕ};
ghost use Rattle.std.specs.List.{All, Contains};
ghost use Rattle.tl_base.specs.declared.limits.TheConstants.{MAX_BUDGET};
ghost use Rattle.tl_problem.specs.Placements.{IsOpening};
ghost use Rattle.tl_problem.specs.Tight.{IsTight};
ghost use Rattle.tl_problem.specs.Zones.{IsZone};
ghost use Rattle.tl_cert.specs.Lines.{IsGoodLog};
ghost use Rattle.tl_cert.specs.Traces.{IsZoneOf, zone_of};
ghost use Rattle.tl_solve.specs.Ends.{IsLeastStanding, MayEnd};
ghost use Rattle.tl_solve.specs.Solver.{IsSolverOutcome};
ghost use Rattle.tl_solve.specs.TraceLogs.{IsTraceLog};
ghost use Rattle.tl_rounds.specs.Book.{IsBook, IsPieceFor, IsTaken, IsUpToOpening, problem_of};

use crate::taking::{appended, left_after, lower};
use std::alloc::{AllocError, Global};
use tl_base::List;
use tl_cert::Trace;
use tl_problem::{Placed, Problem, Zone};
use tl_solve::{Outcome, Piece, Watch, Watcher, trace_lower, trace_outcome, zones_of_trace};

/// What a search of one problem in pieces keeps: the cuts of all pieces that were taken in, the zones that
/// are left, and the best placement. Zone 0 is the whole; cut `i`, counted from 0, makes the zones `2i + 1`
/// and `2i + 2`. Each zone that stands is left or closed, in whatever order pieces are taken in.
pub struct Book<'a> {
    alloc: Global,
    problem: &'a Problem,
    trace: Trace,
    lefts: List<u32>,
    best: Placed,
}

impl<'a> Drop for Book<'a> {
    fn drop(self) {
        let Book {
            alloc: _alloc,
            problem: _problem,
            trace: _trace,
            lefts: _lefts,
            best: _best,
        } = self;
    }
}

impl<'a> Book<'a> {
    /// The book before any cut, with this placement for the best. Zone 0 alone is left.
    pub fn new(alloc: Global, problem: &'a Problem, best: Placed) -> Result<Book<'a>, AllocError>
        requires tight { IsTight problem.now best }
        requires low { IsUpToOpening problem.now best.height }
        ensures book { IfOk result IsBook }
        ensures problem { IfOk result (λ book. problem_of book ≡ problem.now) }
        ensures no_cut { IfOk result (λ book. book.trace ≡ []) }
        ensures left { IfOk result (λ book. book.lefts ≡ 0 ∷ []) }
        ensures best { IfOk result (λ book. book.best ≡ best) }
    {
        // The cells come with the fact that the problem is sound, the opening with that there is one.
        let _cells = problem.cells();
        let _opening = problem.opening()?;
        let lefts = List::from_slice(alloc, &[0])?;
        Ok(Book {
            alloc,
            problem,
            trace: Trace::new(alloc),
            lefts,
            best,
        })
    }

    /// The book before any cut, with the opening for the best placement. Zone 0 alone is left.
    pub fn open(alloc: Global, problem: &'a Problem) -> Result<Book<'a>, AllocError>
        ensures book { IfOk result IsBook }
        ensures problem { IfOk result (λ book. problem_of book ≡ problem.now) }
        ensures no_cut { IfOk result (λ book. book.trace ≡ []) }
        ensures left { IfOk result (λ book. book.lefts ≡ 0 ∷ []) }
        ensures opening { IfOk result (λ book. IsOpening problem.now book.best) }
    {
        let best = problem.opening()?;
        Book::new(alloc, problem, best)
    }

    /// Lends the numbers of the zones that are left.
    pub fn lefts(&self) -> &[u32]
        ensures { result.now ≡ self.now.lefts }
    {
        self.lefts.as_slice()
    }

    /// Lends the problem.
    pub(crate) fn problem(&self) -> &Problem
        ensures { result.now ≡ problem_of self.now }
    {
        self.problem
    }

    /// Lends the best placement so far.
    pub fn best(&self) -> &Placed
        ensures { result.now ≡ self.now.best }
    {
        &self.best
    }

    /// How many cuts were taken in.
    pub fn cuts(&self) -> u32
        requires { IsBook self.now }
        ensures { result ≡ length self.now.trace }
    {
        self.trace.len() as u32
    }

    /// The zone with this number. It takes the time of making all zones.
    pub fn zone(&self, z: u32) -> Result<Zone, AllocError>
        requires book { IsBook self.now }
        requires there { IsZoneOf self.now.trace z }
        ensures zone { IfOk result (λ zone. zone ≡ zone_of (problem_of self.now) self.now.trace z) }
        ensures of { IfOk result (IsZone (problem_of self.now)) }
    {
        let zones = zones_of_trace(self.alloc, self.problem, &self.trace)?;
        copy_of(self.alloc, &zones[z as usize])
    }

    /// The first zones that are left, so many of them.
    pub(crate) fn first_zones(&self, count: u32) -> Result<Vec<Zone>, AllocError>
        requires book { IsBook self.now }
        requires there { count ≤ length self.now.lefts }
        ensures zones { IfOk result (λ zones. zones.items
            ≡ map (zone_of (problem_of self.now) self.now.trace) (take count self.now.lefts)) }
        ensures of { IfOk result (λ zones. All (IsZone (problem_of self.now)) zones.items) }
    {
        let all = zones_of_trace(self.alloc, self.problem, &self.trace)?;
        let lefts = self.lefts.as_slice();
        let mut zones = Vec::new(self.alloc);
        for place in 0..count as usize {
            zones.push(copy_of(self.alloc, &all[lefts[place] as usize])?)?;
        }
        Ok(zones)
    }

    /// Takes in the piece of a zone that is left: its cuts come after those of the book, and what it left
    /// after the zones that are left. Its zone 0 is that zone, and each other zone `j` of it becomes zone
    /// `2n + j`, where the book had `n` cuts before. When out of memory the book stays as it was, and the
    /// piece is gone.
    pub fn take(&mut self, z: u32, piece: Piece) -> Result<(), AllocError>
        requires book { IsBook self.old }
        requires left { Contains self.old.lefts z }
        requires piece { IsPieceFor self.old z piece }
        requires few { length self.old.trace + length piece.trace ≤ MAX_BUDGET }
        ensures book { IsBook self.new }
        ensures taken { OnOk result (IsTaken self.old z piece self.new) }
        ensures err { OnErr result (self.new ≡ self.old) }
    {
        let Piece { best, trace, lefts } = piece;
        let cuts = self.trace.len() as u32;
        let left = left_after(self.alloc, self.lefts.as_slice(), z, cuts, lefts.as_slice())?;
        let all = appended(self.alloc, self.trace.as_slice(), z, trace.as_slice())?;
        self.trace = all;
        self.lefts = left;
        lower(&mut self.best, best);
        Ok(())
    }

    /// The least of the best height and of the bounds of the zones that stand and have widths, in lines. It takes
    /// the time of a bound for each zone.
    pub fn lower(&self) -> Result<u32, AllocError>
        requires { IsBook self.now }
        ensures { IfOk result (IsLeastStanding (problem_of self.now) self.now.trace self.now.best.height) }
    {
        // The cells come with the fact that the problem is sound.
        let _cells = self.problem.cells();
        trace_lower(self.alloc, self.problem, &self.trace, self.best.height)
    }

    /// Lets a watcher see the search after a round, if it wants to; it had `before` cuts then. Where memory for that
    /// runs out it sees nothing.
    pub(crate) fn show<W: Watcher>(&self, before: u32, watch: &Watch<'_, W>)
        requires { IsBook self.now }
    {
        let cuts = self.cuts();
        if !watch.wants(before, cuts) {
            return;
        }
        if let Ok(lower) = self.lower() {
            watch.see(cuts, self.best.height, lower);
        }
    }

    /// The outcome of the search: the best placement and the cuts. Its lower bound is the least of the best
    /// height and of the bounds of the zones that stand and have widths. It takes the time of a bound for
    /// each zone.
    pub fn finish(self) -> Result<Outcome, AllocError>
        requires { IsBook self }
        ensures best { IfOk result (λ outcome. outcome.best ≡ self.entry.best) }
        ensures trace { IfOk result (λ outcome. outcome.trace ≡ self.entry.trace) }
        ensures least { IfOk result (λ outcome. IsLeastStanding (problem_of self.entry) self.entry.trace self.entry.best.height outcome.lower) }
        ensures good { IfOk result (λ outcome. IsGoodLog (problem_of self.entry) self.entry.trace outcome.log outcome.lower) }
        ensures lines { IfOk result (λ outcome. IsTraceLog (problem_of self.entry) self.entry.trace outcome.lower outcome.log) }
        ensures solved { IfOk result (λ outcome. (budget : ℕ) → length self.entry.trace ≤ budget → budget ≤ MAX_BUDGET →
            MayEnd (problem_of self.entry) self.entry.trace self.entry.best.height budget → IsSolverOutcome (problem_of self.entry) budget outcome) }
    {
        let Book {
            alloc,
            problem,
            trace,
            lefts: _lefts,
            best,
        } = self;
        trace_outcome(alloc, problem, trace, best)
    }
}

/// A copy of the zone.
fn copy_of(alloc: Global, zone: &Zone) -> Result<Zone, AllocError>
    ensures { IfOk result (λ copy. copy ≡ zone.now) }
{
    let ranges = List::from_slice(alloc, zone.ranges())?;
    Ok(Zone::from_ranges(alloc, ranges))
}
