//! The zones of a trace, each with its bound.

ghost use Rattle.std.specs.Prelude.{◌≡◌, IfOk};
ghost use Rattle.tl_problem.specs.Sound.{IsSound};
ghost use Rattle.tl_problem.specs.Zones.{whole_zone};
ghost use Rattle.tl_cert.specs.Traces.{IsTraceOf, zones_of};
ghost use Rattle.tl_solve.specs.Arenas.{AreBoundsOf};

use std::alloc::{AllocError, Global};
use tl_cert::Trace;
use tl_problem::{Problem, Work, Zone};

/// The zones of the trace, by their numbers.
pub fn zones_of_trace(
    alloc: Global,
    problem: &Problem,
    trace: &Trace,
) -> Result<Vec<Zone>, AllocError>
    requires sound { IsSound problem.now }
    requires trace_of { IsTraceOf problem.now trace.now }
    ensures { IfOk result (λ zones. zones.items ≡ zones_of (whole_zone problem.now) trace.now) }
{
    let cuts = trace.as_slice();
    let mut zones = Vec::new(alloc);
    zones.push(problem.whole()?)?;
    for number in 0..cuts.len() {
        let cut = cuts[number];
        let (lower, upper) = zones[cut.zone as usize].cut(cut.span, cut.class)?;
        zones.push(lower)?;
        zones.push(upper)?;
    }
    Ok(zones)
}

/// The bound of each zone of the trace, `None` where it has no widths.
pub(crate) fn bounds_of_trace(
    alloc: Global,
    problem: &Problem,
    trace: &Trace,
    zones: &[Zone],
) -> Result<Vec<Option<u32>>, AllocError>
    requires sound { IsSound problem.now }
    requires trace_of { IsTraceOf problem.now trace.now }
    requires zones { zones.now ≡ zones_of (whole_zone problem.now) trace.now }
    ensures { IfOk result (λ bounds. AreBoundsOf problem.now trace.now bounds.items) }
{
    let mut work = Work::new(problem)?;
    let mut bounds = Vec::new(alloc);
    for number in 0..zones.len() {
        let bound = problem.bound_of(&zones[number], &mut work);
        bounds.push(bound)?;
    }
    Ok(bounds)
}
