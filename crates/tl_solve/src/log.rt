//! The log that a trace gives once each zone that stands proves a lower bound.

ghost use Rattle.std.specs.Prelude.{◌≡◌, ℕ, ◌+◌, ◌*◌, ◌<◌, ◌≤◌, length, IfOk};
ghost use Rattle.tl_problem.specs.Sound.{IsSound};
ghost use Rattle.tl_cert.specs.Lines.{IsGoodLog};
ghost use Rattle.tl_cert.specs.Text.{IsLogWritable, IsTraceWritable};
ghost use Rattle.tl_cert.specs.Traces.{IsTraceOf, Stands, zone_of};
ghost use Rattle.tl_solve.specs.Logs.{Proves};
ghost use Rattle.tl_solve.specs.TraceLogs.{IsTraceLog};
ghost use Rattle.tl_solve.specs.Arenas.{AreBoundsOf};
ghost use Rattle.tl_solve.specs.inner.Found.{ArePartsThere};
ghost use Rattle.tl_solve.specs.inner.Shapes.{AreLinesOf};

use crate::lines::{closing_line, cuts_of_zones, firing_line};
use crate::zones::{bounds_of_trace, zones_of_trace};
use std::alloc::{AllocError, Global};
use tl_base::{List, MAX_BUDGET};
use tl_cert::{Log, MAX_ZONE, Trace};
use tl_problem::Problem;

/// The log of the trace for `lower`: a line for each zone, the parts of a cut before the zone that is cut.
/// The line of a zone that stands ends by what the zone proves; that of a zone that is cut fires the lines
/// of both parts, or that of the lower part alone. It takes the time of a bound for each zone.
pub fn trace_log(
    alloc: Global,
    problem: &Problem,
    trace: &Trace,
    lower: u32,
) -> Result<Log, AllocError>
    requires trace_of { IsTraceOf problem.now trace.now }
    requires writable { IsTraceWritable trace.now }
    requires standing { (z : ℕ) → Stands trace.now z → Proves problem.now (zone_of problem.now trace.now z) lower }
    ensures good { IfOk result (λ log. IsGoodLog problem.now trace.now log lower) }
    ensures lines { IfOk result (IsTraceLog problem.now trace.now lower) }
    ensures writable { IfOk result IsLogWritable }
    ensures short { IfOk result (λ log. length log ≤ 2 * length trace.now + 1) }
{
    // The cells come with the fact that the problem is sound.
    let _cells = problem.cells();
    let zones = zones_of_trace(alloc, problem, trace)?;
    let bounds = bounds_of_trace(alloc, problem, trace, &zones)?;
    log_of_bounds(alloc, problem, trace, &bounds, lower)
}

/// The log of the trace, whose zones have these bounds.
pub(crate) fn log_of_bounds(
    alloc: Global,
    problem: &Problem,
    trace: &Trace,
    bounds: &[Option<u32>],
    lower: u32,
) -> Result<Log, AllocError>
    requires sound { IsSound problem.now }
    requires trace_of { IsTraceOf problem.now trace.now }
    requires few { length trace.now ≤ MAX_BUDGET }
    requires standing { (z : ℕ) → Stands trace.now z → Proves problem.now (zone_of problem.now trace.now z) lower }
    requires bounds { AreBoundsOf problem.now trace.now bounds.now }
    ensures good { IfOk result (λ log. IsGoodLog problem.now trace.now log lower) }
    ensures lines { IfOk result (IsTraceLog problem.now trace.now lower) }
    ensures writable { IfOk result IsLogWritable }
    ensures short { IfOk result (λ log. length log ≤ 2 * length trace.now + 1) }
{
    let cuts = cuts_of_zones(alloc, trace)?;
    lines_of_zones(alloc, 2 * trace.len() as u32, &cuts, bounds, lower)
}

/// The lines of all zones, from `last` down to 0.
fn lines_of_zones(
    alloc: Global,
    last: u32,
    cuts: &[Option<u32>],
    bounds: &[Option<u32>],
    lower: u32,
) -> Result<Log, AllocError>
    requires small { last ≤ MAX_ZONE }
    requires cuts { length cuts.now ≡ last + 1 }
    requires bounds { length bounds.now ≡ last + 1 }
    requires parts { ArePartsThere last cuts.now }
    ensures { IfOk result (AreLinesOf last cuts.now bounds.now lower (last + 1)) }
{
    let mut log = List::new(alloc);
    for number in 0..last + 1 {
        let zone = last - number;
        let line = match cuts[zone as usize] {
            None => closing_line(alloc, zone, bounds[zone as usize], lower),
            Some(cut) => firing_line(alloc, last, zone, cut, bounds[2 * cut as usize + 2])?,
        };
        log.push(line)?;
    }
    Ok(log)
}
