//! The outcome of a search of which only the cuts and the best placement are kept.

ghost use Rattle.std.specs.Prelude.{◌≡◌, ℕ, ◌+◌, ◌*◌, ◌≤◌, length, IfOk};
ghost use Rattle.tl_problem.specs.Sound.{IsSound};
ghost use Rattle.tl_problem.specs.Tight.{IsTight};
ghost use Rattle.tl_problem.specs.Zones.{whole_zone};
ghost use Rattle.tl_cert.specs.Lines.{IsGoodLog};
ghost use Rattle.tl_cert.specs.Text.{IsLogWritable};
ghost use Rattle.tl_cert.specs.Traces.{IsKeen, IsTraceOf};
ghost use Rattle.tl_solve.specs.Ends.{IsLeastStanding, MayEnd};
ghost use Rattle.tl_solve.specs.Solver.{IsSolverOutcome};
ghost use Rattle.tl_solve.specs.TraceEnds.{CutsBelowOpening};
ghost use Rattle.tl_solve.specs.TraceLogs.{IsTraceLog};

use crate::Outcome;
use crate::ending::least_standing;
use crate::lines::cuts_of_zones;
use crate::log::log_of_bounds;
use crate::zones::{bounds_of_trace, zones_of_trace};
use std::alloc::{AllocError, Global};
use tl_base::MAX_BUDGET;
use tl_cert::{Log, Trace};
use tl_problem::{Placed, Problem};

/// The outcome of a search that made these cuts and found this placement. Its lower bound is the least of
/// the height of the placement and of the bounds of the zones that stand and have widths. It takes the time
/// of a bound for each zone.
pub fn trace_outcome(
    alloc: Global,
    problem: &Problem,
    trace: Trace,
    best: Placed,
) -> Result<Outcome, AllocError>
    requires trace_of { IsTraceOf problem.now trace }
    requires few { length trace ≤ MAX_BUDGET }
    requires cut_zones { CutsBelowOpening problem.now trace }
    requires tight { IsTight problem.now best }
    requires keen { IsKeen problem.now (whole_zone problem.now) trace best.height }
    ensures best { IfOk result (λ outcome. outcome.best ≡ best) }
    ensures trace { IfOk result (λ outcome. outcome.trace ≡ trace) }
    ensures least { IfOk result (λ outcome. IsLeastStanding problem.now trace best.height outcome.lower) }
    ensures good { IfOk result (λ outcome. IsGoodLog problem.now trace outcome.log outcome.lower) }
    ensures lines { IfOk result (λ outcome. IsTraceLog problem.now trace outcome.lower outcome.log) }
    ensures solved { IfOk result (λ outcome. (budget : ℕ) → length trace ≤ budget → budget ≤ MAX_BUDGET →
        MayEnd problem.now trace best.height budget → IsSolverOutcome problem.now budget outcome) }
{
    // The cells come with the fact that the problem is sound.
    let _cells = problem.cells();
    let (lower, log) = least_with_log(alloc, problem, &trace, best.height)?;
    Ok(Outcome {
        best,
        lower,
        trace,
        log,
    })
}

/// The least of the height and of the bounds of the zones that stand and have widths, in lines. It takes the
/// time of a bound for each zone.
pub fn trace_lower(
    alloc: Global,
    problem: &Problem,
    trace: &Trace,
    height: u32,
) -> Result<u32, AllocError>
    requires sound { IsSound problem.now }
    requires trace_of { IsTraceOf problem.now trace.now }
    requires few { length trace.now ≤ MAX_BUDGET }
    ensures { IfOk result (IsLeastStanding problem.now trace.now height) }
{
    let zones = zones_of_trace(alloc, problem, trace)?;
    let bounds = bounds_of_trace(alloc, problem, trace, &zones)?;
    let cuts = cuts_of_zones(alloc, trace)?;
    Ok(least_standing(&cuts, &bounds, height))
}

/// The least of the height and of the bounds that stand, with the log that proves it.
fn least_with_log(
    alloc: Global,
    problem: &Problem,
    trace: &Trace,
    height: u32,
) -> Result<(u32, Log), AllocError>
    requires sound { IsSound problem.now }
    requires trace_of { IsTraceOf problem.now trace.now }
    requires few { length trace.now ≤ MAX_BUDGET }
    ensures least { IfOk result (λ r. IsLeastStanding problem.now trace.now height r.0) }
    ensures good { IfOk result (λ r. IsGoodLog problem.now trace.now r.1 r.0) }
    ensures lines { IfOk result (λ r. IsTraceLog problem.now trace.now r.0 r.1) }
    ensures writable { IfOk result (λ r. IsLogWritable r.1) }
    ensures short { IfOk result (λ r. length r.1 ≤ 2 * length trace.now + 1) }
{
    let zones = zones_of_trace(alloc, problem, trace)?;
    let bounds = bounds_of_trace(alloc, problem, trace, &zones)?;
    let cuts = cuts_of_zones(alloc, trace)?;
    let lower = least_standing(&cuts, &bounds, height);
    let log = log_of_bounds(alloc, problem, trace, &bounds, lower)?;
    Ok((lower, log))
}
