//! The nogoods that a search has learnt, by their numbers from 0 in the order in which they were added.

ghost use Rattle.std.specs.Prelude.{◌≡◌, ◌<◌, ◌≤◌, ◌↔◌, [], length, IfOk, IsTrue, OnErr, MatchOption};
ghost use Rattle.tl_problem.specs.Zones.{InZone, IsZone};
ghost use Rattle.tl_cert.specs.Lines.{IsGoodLine};
ghost use Rattle.tl_cert.specs.Nogoods.{NamesAreThere, nogood_bounds};
ghost use Rattle.tl_cert.specs.Traces.{IsTraceOf};
ghost use Rattle.tl_check.specs.Checkers.{IsReserved, StaysReserved};
ghost use Rattle.tl_store.specs.Stores.{IsAddedNogood, IsFirstClosing, IsStoreOf, NoneCloses, nogoods_of};
ghost use Rattle.tl_store.specs.Shrunk.{IsShrunk};

use crate::closing::first_closing;
use crate::groups::{Group, list_new};
use crate::keys::{bounds_of, key_of};
use crate::shrinking::shrink_line;
use indexmap::IndexSet;
use std::alloc::{AllocError, Global};
use tl_base::MAX_BUDGET;
use tl_cert::{Bound, Log, LogLine, Trace};
use tl_check::{Checker, keep_ranges};
use tl_problem::{Problem, Work, Zone};

/// The nogoods that were learnt of one problem. It is made for the problem and so many cuts: each call is over a trace of at
/// most so many. Its memory grows with the nogoods and their bounds.
pub struct Store {
    alloc: Global,
    /// Tries the lines that are shrunk.
    checker: Checker,
    /// The constraints of the page, and of a zone while it is looked at.
    work: Work,
    /// The bounds of each nogood, in order and each once.
    kept: IndexSet<Vec<Bound>>,
    /// Their numbers, in groups by the last bound.
    groups: Vec<Group>,
}

impl Drop for Store {
    fn drop(self) {
        let Store {
            alloc: _alloc,
            checker: _checker,
            work: _work,
            kept: _kept,
            groups: _groups,
        } = self;
    }
}

impl Store {
    /// A store of the problem without a nogood, for traces of so many cuts.
    pub fn new(alloc: Global, problem: &Problem, cuts: u32) -> Result<Store, AllocError>
        requires { cuts ≤ MAX_BUDGET }
        ensures store { IfOk result (IsStoreOf problem.now) }
        ensures reserved { IfOk result (λ store. IsReserved problem.now cuts store.checker) }
        ensures none { IfOk result (λ store. nogoods_of store ≡ []) }
    {
        let checker = Checker::reserve(alloc, problem, cuts)?;
        let work = Work::new(problem)?;
        Ok(Store {
            alloc,
            checker,
            work,
            kept: IndexSet::new(alloc),
            groups: Vec::new(alloc),
        })
    }

    /// Puts the bounds of the line's nogood into the store, and gives their number. Bounds that are there
    /// keep their number. More nogoods than numbers are out of memory.
    pub fn add(
        &mut self,
        problem: &Problem,
        trace: &Trace,
        line: &LogLine,
    ) -> Result<u32, AllocError>
        requires store { IsStoreOf problem.now self.old }
        requires trace { IsTraceOf problem.now trace.now }
        requires names { NamesAreThere problem.now trace.now line.now.nogood }
        ensures added { IfOk result (IsAddedNogood (nogoods_of self.old) (nogoods_of self.new)
            (nogood_bounds problem.now trace.now line.now.nogood)) }
        ensures err { OnErr result (nogoods_of self.new ≡ nogoods_of self.old) }
        ensures store { IsStoreOf problem.now self.new }
        ensures stays { StaysReserved problem.now self.old.checker self.new.checker }
    {
        if self.kept.len() >= u32::MAX as usize {
            return Err(AllocError);
        }
        let bounds = bounds_of(self.alloc, problem, trace, &line.nogood)?;
        let key = key_of(self.alloc, bounds.as_slice())?;
        list_new(self.alloc, &mut self.groups, &self.kept, &key)?;
        let (number, _is_new) = self.kept.insert_full(key)?;
        Ok(number as u32)
    }

    /// The first nogood of which all bounds are implied by the widths in the zone. It looks at no nogood whose last
    /// bound is not implied.
    pub fn closes(&mut self, problem: &Problem, zone: &Zone) -> Option<u32>
        requires store { IsStoreOf problem.now self.old }
        requires zone { IsZone problem.now zone.now }
        ensures closes { MatchOption result (NoneCloses problem.now (InZone problem.now zone.now) (nogoods_of self.old))
            (IsFirstClosing problem.now (InZone problem.now zone.now) (nogoods_of self.old)) }
        ensures kept { nogoods_of self.new ≡ nogoods_of self.old }
        ensures store { IsStoreOf problem.now self.new }
        ensures checker { self.new.checker ≡ self.old.checker }
    {
        self.work.matrix.mark();
        keep_ranges(problem, zone, &mut self.work.matrix);
        let found = first_closing(
            problem,
            self.kept.as_slice(),
            &self.groups,
            &self.work.matrix,
        );
        self.work.matrix.undo();
        found
    }

    /// The line with as few of its bounds as leave it good for `lower` at the end of the log: with its fires and its end,
    /// and no bound can be taken from it. Where more than `MAX_BOUNDS` bounds would be left it is the line
    /// as it was.
    pub fn shrink(
        &mut self,
        problem: &Problem,
        trace: &Trace,
        log: &Log,
        line: &LogLine,
        lower: u32,
    ) -> Result<LogLine, AllocError>
        requires store { IsStoreOf problem.now self.old }
        requires reserved { IsReserved problem.now (length trace.now) self.old.checker }
        requires trace { IsTraceOf problem.now trace.now }
        requires good { IsGoodLine problem.now trace.now log.now lower (length log.now) line.now }
        ensures shrunk { IfOk result (IsShrunk problem.now trace.now log.now lower (length log.now) line.now) }
        ensures kept { nogoods_of self.new ≡ nogoods_of self.old }
        ensures store { IsStoreOf problem.now self.new }
        ensures stays { StaysReserved problem.now self.old.checker self.new.checker }
    {
        shrink_line(
            self.alloc,
            &mut self.checker,
            problem,
            trace,
            log,
            line,
            lower,
        )
    }

    /// Whether the line would be good for `lower` at the end of the log.
    pub fn tries(
        &mut self,
        problem: &Problem,
        trace: &Trace,
        log: &Log,
        line: &LogLine,
        lower: u32,
    ) -> bool
        requires store { IsStoreOf problem.now self.old }
        requires reserved { IsReserved problem.now (length trace.now) self.old.checker }
        requires trace { IsTraceOf problem.now trace.now }
        ensures good { IsTrue result ↔ IsGoodLine problem.now trace.now log.now lower (length log.now) line.now }
        ensures kept { nogoods_of self.new ≡ nogoods_of self.old }
        ensures store { IsStoreOf problem.now self.new }
        ensures stays { StaysReserved problem.now self.old.checker self.new.checker }
    {
        self.checker.tries(problem, trace, log, line, lower)
    }
}
