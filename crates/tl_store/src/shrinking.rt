//! Takes bounds away from a line as long as the checker finds it good without them. With fewer bounds a line
//! may be good again from which a bound could not be taken before: a bound that is implied no longer joins as
//! it is broken. So the bounds are gone over until none can be taken, which ends most often with the
//! second time.

ghost use Rattle.std.specs.Prelude.{◌≡◌, ℕ, ◌<◌, ◌≤◌, length, IfOk, true, false};
ghost use Rattle.std.specs.List.{AllPairs, Contains, remove};
ghost use Rattle.tl_problem.specs.Sound.{IsSound};
ghost use Rattle.tl_cert.specs.Lines.{IsGoodLine};
ghost use Rattle.tl_cert.specs.Learnt.{with_bounds};
ghost use Rattle.tl_cert.specs.Traces.{IsTraceOf};
ghost use Rattle.tl_check.specs.Checkers.{IsReserved, StaysReserved};
ghost use Rattle.tl_store.specs.Shrunk.{IsShrunk};
ghost use Rattle.tl_store.specs.inner.Passes.{AreLessened, IsPass, line_with};

use crate::keys::{bounds_of, key_of};
use std::alloc::{AllocError, Global};
use tl_base::List;
use tl_cert::{Bound, Log, LogLine, MAX_BOUNDS, Nogood, Trace};
use tl_check::Checker;
use tl_problem::Problem;

/// The line with as few of its bounds as leave it good.
pub fn shrink_line(
    alloc: Global,
    checker: &mut Checker,
    problem: &Problem,
    trace: &Trace,
    log: &Log,
    line: &LogLine,
    lower: u32,
) -> Result<LogLine, AllocError>
    requires sound { IsSound problem.now }
    requires reserved { IsReserved problem.now (length trace.now) checker.old }
    requires trace { IsTraceOf problem.now trace.now }
    requires good { IsGoodLine problem.now trace.now log.now lower (length log.now) line.now }
    ensures shrunk { IfOk result (IsShrunk problem.now trace.now log.now lower (length log.now) line.now) }
    ensures stays { StaysReserved problem.now checker.old checker.new }
{
    let given = bounds_of(alloc, problem, trace, &line.nogood)?;
    let mut bounds = key_of(alloc, given.as_slice())?;
    let mut again = true;
    'passes: while again {
        let (fewer, taken) = pass(alloc, checker, problem, trace, log, line, lower, bounds)?;
        bounds = fewer;
        again = taken;
    }
    line_of(alloc, line, bounds)
}

/// Goes over the bounds once, and takes away each without which the line is good; and whether one was taken.
fn pass(
    alloc: Global,
    checker: &mut Checker,
    problem: &Problem,
    trace: &Trace,
    log: &Log,
    line: &LogLine,
    lower: u32,
    bounds: Vec<Bound>,
) -> Result<(Vec<Bound>, bool), AllocError>
    requires reserved { IsReserved problem.now (length trace.now) checker.old }
    requires trace { IsTraceOf problem.now trace.now }
    requires lessened { AreLessened problem.now trace.now log.now lower line.now bounds.items }
    ensures pass { IfOk result (λ done. IsPass problem.now trace.now log.now lower line.now bounds.items done.0.items done.1) }
    ensures stays { StaysReserved problem.now checker.old checker.new }
{
    let mut left = bounds;
    let mut taken = false;
    let mut place = 0;
    'places: while place < left.len() {
        let trial = without(alloc, line, &left, place)?;
        if checker.tries(problem, trace, log, &trial, lower) {
            left.remove(place);
            taken = true;
        } else {
            place += 1;
        }
    }
    Ok((left, taken))
}

/// The line with all these bounds but the one at a place.
fn without(
    alloc: Global,
    line: &LogLine,
    bounds: &[Bound],
    place: usize,
) -> Result<LogLine, AllocError>
    requires { place < length bounds.now }
    ensures { IfOk result (λ trial. trial ≡ with_bounds line.now (remove bounds.now place)) }
{
    let mut others = Vec::from_slice(alloc, bounds)?;
    others.remove(place);
    let fires = List::from_slice(alloc, line.fires.as_slice())?;
    Ok(LogLine {
        nogood: Nogood::Bounds(List::from_vec(others)),
        fires,
        end: line.end,
    })
}

/// The line with these bounds: with zone 0 where there are none, and as it was where there are too many.
fn line_of(alloc: Global, line: &LogLine, bounds: Vec<Bound>) -> Result<LogLine, AllocError>
    ensures { IfOk result (λ new. new ≡ line_with line.now bounds.items) }
{
    if bounds.len() > MAX_BOUNDS {
        return line.copy(alloc);
    }
    let nogood = if bounds.is_empty() {
        Nogood::Zone(0)
    } else {
        Nogood::Bounds(List::from_vec(bounds))
    };
    let fires = List::from_slice(alloc, line.fires.as_slice())?;
    Ok(LogLine {
        nogood,
        fires,
        end: line.end,
    })
}
