//! Nogoods and lines that were drawn by hand, over problems that were counted by hand.

ghost use Rattle.std.specs.Prelude.{◌+◌, ◌<◌, ◌≤◌, length, IfOk};
ghost use Rattle.tl_problem.specs.Zones.{IsZone};
ghost use Rattle.tl_cert.specs.Traces.{IsTraceOf};
ghost use Rattle.tl_check.specs.Checkers.{IsReserved};
ghost use Rattle.tl_store.specs.Stores.{IsStoreOf};

use crate::problems::{at_least, at_most, diagonal, has_bounds, share, two_rows, whole_of};
use std::alloc::Global;
use std::test::Fail;
use tl_base::List;
use tl_cert::{Bound, CutAt, End, Log, LogLine, Nogood, Trace};
use tl_check::Checker;
use tl_problem::{Problem, Zone};
use tl_store::Store;

#[test]
fn a_store_may_go_to_other_threads() {
    share::<Option<Store>>(None);
}

/// A line of these bounds that fires none and ends by `chain`.
fn chain_line(alloc: Global, bounds: &[Bound]) -> Result<LogLine, Fail> {
    Ok(LogLine {
        nogood: Nogood::Bounds(List::from_slice(alloc, bounds)?),
        fires: List::new(alloc),
        end: End::Chain,
    })
}

/// Adds the line where it is good for no line of height, which asks that its spans are there.
fn add_line(
    alloc: Global,
    store: &mut Store,
    problem: &Problem,
    trace: &Trace,
    bounds: &[Bound],
) -> Result<u32, Fail>
    requires store { IsStoreOf problem.now store.old }
    requires reserved { IsReserved problem.now (length trace.now) store.old.checker }
    requires trace { IsTraceOf problem.now trace.now }
    ensures store { IsStoreOf problem.now store.new }
    ensures reserved { IsReserved problem.now (length trace.now) store.new.checker }
{
    let line = chain_line(alloc, bounds)?;
    let log: Log = List::new(alloc);
    if !store.tries(problem, trace, &log, &line, 0) {
        return Err("the line is not good".into());
    }
    let number = store.add(problem, trace, &line)?;
    Ok(number)
}

/// No cuts, which are a trace.
fn no_cuts(alloc: Global, problem: &Problem) -> Result<Trace, Fail>
    ensures { IfOk result (λ trace. (length trace ≤ 0) × IsTraceOf problem.now trace) }
{
    let trace: Trace = List::new(alloc);
    let mut checker = Checker::reserve(alloc, problem, 0)?;
    if !checker.trace(problem, &trace) {
        return Err("no cuts are a trace".into());
    }
    Ok(trace)
}

// The order of bounds does not matter, nor how often one is written.
#[test]
fn a_nogood_that_is_there_keeps_its_number(rt: HostRuntime) -> Result<(), Fail> {
    let alloc = rt.alloc();
    let problem = two_rows(alloc)?;
    let trace = no_cuts(alloc, &problem)?;
    let mut store = Store::new(alloc, &problem, 0)?;
    let one = add_line(alloc, &mut store, &problem, &trace, &[at_most(2, 8)])?;
    let two = add_line(
        alloc,
        &mut store,
        &problem,
        &trace,
        &[at_most(2, 8), at_most(0, 2)],
    )?;
    let again = add_line(alloc, &mut store, &problem, &trace, &[at_most(2, 8)])?;
    let turned = add_line(
        alloc,
        &mut store,
        &problem,
        &trace,
        &[at_most(0, 2), at_most(2, 8), at_most(0, 2)],
    )?;
    let other = add_line(alloc, &mut store, &problem, &trace, &[at_least(2, 8)])?;
    assert_eq!(rt; (one, two, again, turned, other), (0, 1, 0, 1, 2));
    Ok(())
}

// The third column is never 21 wide, nor 25: the last two nogoods close the whole, and the first of them is
// named.
#[test]
fn the_first_nogood_that_is_implied_closes_a_zone(rt: HostRuntime) -> Result<(), Fail> {
    let alloc = rt.alloc();
    let problem = two_rows(alloc)?;
    let trace = no_cuts(alloc, &problem)?;
    let mut store = Store::new(alloc, &problem, 0)?;
    let whole = whole_of(&problem)?;
    add_line(alloc, &mut store, &problem, &trace, &[at_least(2, 9)])?;
    let none = store.closes(&problem, &whole);
    add_line(alloc, &mut store, &problem, &trace, &[at_most(2, 20)])?;
    add_line(alloc, &mut store, &problem, &trace, &[at_most(2, 24)])?;
    assert_eq!(rt; (none, store.closes(&problem, &whole)), (None, Some(1)));
    Ok(())
}

// The fourth column may have 9 columns, and never 24: of the nogoods that end with a bound of 24 the first one that was
// added is named, whichever bound it ends with.
#[test]
fn the_first_nogood_is_named_whatever_its_last_bound(rt: HostRuntime) -> Result<(), Fail> {
    let alloc = rt.alloc();
    let problem = two_rows(alloc)?;
    let trace = no_cuts(alloc, &problem)?;
    let mut store = Store::new(alloc, &problem, 0)?;
    let whole = whole_of(&problem)?;
    let open = [at_most(2, 24), at_most(3, 8)];
    add_line(alloc, &mut store, &problem, &trace, &open)?;
    let half = [at_most(2, 8), at_most(3, 24)];
    add_line(alloc, &mut store, &problem, &trace, &half)?;
    let none = store.closes(&problem, &whole);
    let two = [at_most(1, 24), at_most(2, 24)];
    add_line(alloc, &mut store, &problem, &trace, &two)?;
    add_line(alloc, &mut store, &problem, &trace, &[at_most(3, 24)])?;
    add_line(alloc, &mut store, &problem, &trace, &[at_most(0, 24)])?;
    assert_eq!(rt; (none, store.closes(&problem, &whole)), (None, Some(2)));
    Ok(())
}

#[test]
fn the_nogood_without_bounds_closes_each_zone(rt: HostRuntime) -> Result<(), Fail> {
    let alloc = rt.alloc();
    let problem = two_rows(alloc)?;
    let trace = no_cuts(alloc, &problem)?;
    let mut store = Store::new(alloc, &problem, 0)?;
    let whole = whole_of(&problem)?;
    add_line(alloc, &mut store, &problem, &trace, &[at_most(3, 8)])?;
    let none = store.closes(&problem, &whole);
    let number = add_line(alloc, &mut store, &problem, &trace, &[])?;
    add_line(alloc, &mut store, &problem, &trace, &[at_most(3, 24)])?;
    assert_eq!(rt;
        (none, number, store.closes(&problem, &whole)),
        (None, 1, Some(1))
    );
    Ok(())
}

/// The line, shrunk for so many lines of height at the end of the log, where it is good there.
fn shrunk(
    alloc: Global,
    problem: &Problem,
    trace: &Trace,
    log: &Log,
    line: &LogLine,
    lower: u32,
) -> Result<LogLine, Fail> {
    if trace.len() > 3 {
        return Err("the trace is long".into());
    }
    let cuts = trace.len() as u32;
    let mut checker = Checker::reserve(alloc, problem, cuts)?;
    if !checker.trace(problem, trace) {
        return Err("the cuts are no trace".into());
    }
    let mut store = Store::new(alloc, problem, cuts)?;
    if !store.tries(problem, trace, log, line, lower) {
        return Err("the line is not good".into());
    }
    let new = store.shrink(problem, trace, log, line, lower)?;
    Ok(new)
}

/// Cuts of the first three columns, each of the lower part of the one before.
fn three_cuts(alloc: Global) -> Result<Trace, Fail> {
    let mut trace = List::new(alloc);
    for (zone, span) in [(0u32, 0u32), (1, 1), (3, 2)] {
        trace.push(CutAt {
            zone,
            span,
            class: 0,
        })?;
    }
    Ok(trace)
}

/// The line of a zone.
fn zone_line(alloc: Global, zone: u32, fires: &[u32], end: End) -> Result<LogLine, Fail> {
    Ok(LogLine {
        nogood: Nogood::Zone(zone),
        fires: List::from_slice(alloc, fires)?,
        end,
    })
}

// A third column of at most 8 needs two lines below two; one of at least 9 leaves the fourth at most 8. The
// first two columns do not matter, and with both lines nothing does.
#[test]
fn bounds_that_do_not_matter_are_taken(rt: HostRuntime) -> Result<(), Fail> {
    let alloc = rt.alloc();
    let problem = two_rows(alloc)?;
    let trace = three_cuts(alloc)?;
    let mut log: Log = List::new(alloc);
    let line = zone_line(alloc, 5, &[], End::Chain)?;
    let lower = shrunk(alloc, &problem, &trace, &log, &line, 4)?;
    assert!(rt; has_bounds(&lower.nogood, &[at_most(2, 8)]));
    log.push(lower)?;
    let line = zone_line(alloc, 6, &[], End::Chain)?;
    let upper = shrunk(alloc, &problem, &trace, &log, &line, 4)?;
    assert!(rt; has_bounds(&upper.nogood, &[at_least(2, 9)]));
    log.push(upper)?;
    let line = zone_line(alloc, 3, &[0, 1], End::Fired)?;
    let joined = shrunk(alloc, &problem, &trace, &log, &line, 4)?;
    assert!(rt; has_bounds(&joined.nogood, &[]));
    assert_eq!(rt; joined.fires.as_slice(), [0u32, 1].as_slice());
    Ok(())
}

// One of ten columns may be wide: nine narrow ones make 19 lines, and eight do not.
#[test]
fn more_than_eight_bounds_stay_as_they_were(rt: HostRuntime) -> Result<(), Fail> {
    let alloc = rt.alloc();
    let problem = diagonal(alloc, 10, 30)?;
    let trace = no_cuts(alloc, &problem)?;
    let log: Log = List::new(alloc);
    let bounds = [
        at_most(9, 2),
        at_most(1, 2),
        at_most(2, 2),
        at_most(3, 2),
        at_most(4, 2),
        at_most(5, 2),
        at_most(6, 2),
        at_most(7, 2),
        at_most(8, 2),
        at_most(8, 2),
    ];
    let line = chain_line(alloc, &bounds)?;
    let new = shrunk(alloc, &problem, &trace, &log, &line, 19)?;
    assert!(rt; has_bounds(&new.nogood, &bounds));
    let new = shrunk(alloc, &problem, &trace, &log, &line, 12)?;
    assert!(rt; has_bounds(&new.nogood, &[at_most(8, 2), at_most(9, 2)]));
    Ok(())
}
