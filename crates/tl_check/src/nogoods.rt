//! Nogoods: whether what they name is there, and the widths that meet all their bounds.

ghost use Rattle.std.specs.Prelude.{◌≡◌, ◌<◌, [], length, IsTrue, ◌↔◌};
ghost use Rattle.std.specs.List.{All};
ghost use Rattle.tl_problem.specs.Sound.{IsSound};
ghost use Rattle.tl_problem.specs.Spans.{spans_of};
ghost use Rattle.tl_cert.specs.Nogoods.{NamesAreThere, nogood_bounds, zone_bounds};
ghost use Rattle.tl_cert.specs.Traces.{IsTraceOf, IsZoneOf, zone_of};
ghost use Rattle.tl_check.specs.Matrices.{Describes, KeepsMarks};

use crate::bounds::keep_met;
use crate::zones::{last_class, part_bound, span_count, zone_range};
use tl_cert::{Bound, CutAt, Nogood};
use tl_diff::Matrix;
use tl_problem::Problem;

/// Whether the zone, or each span, that the nogood names is there.
pub fn names_are_there(problem: &Problem, trace: &[CutAt], nogood: &Nogood) -> bool
    ensures { IsTrue result ↔ NamesAreThere problem.now trace.now nogood.now }
{
    match nogood {
        Nogood::Zone(zone) => is_zone_of(trace, *zone),
        Nogood::Bounds(bounds) => have_spans(problem.spans().len(), bounds.as_slice()),
    }
}

/// Whether the trace has a zone with this number.
pub fn is_zone_of(trace: &[CutAt], zone: u32) -> bool
    ensures { IsTrue result ↔ IsZoneOf trace.now zone }
{
    zone == 0 || (zone as usize - 1) / 2 < trace.len()
}

/// Whether each bound is on one of so many spans.
fn have_spans(spans: usize, bounds: &[Bound]) -> bool
    ensures { IsTrue result ↔ All (λ bound. bound.span < spans) bounds.now }
{
    bounds.iter().all(|bound| (bound.span as usize) < spans)
}

/// Leaves the widths that meet the bounds.
fn keep_bounds(problem: &Problem, bounds: &[Bound], matrix: &mut Matrix)
    requires spans { All (λ bound. bound.span < length (spans_of problem.now)) bounds.now }
    requires page { Describes problem.now [] [] matrix.old.bounds }
    ensures marks { KeepsMarks matrix.old matrix.new }
    ensures describes { Describes problem.now bounds.now [] matrix.new.bounds }
{
    'bounds: for bound in bounds {
        keep_met(problem, *bound, matrix);
    }
}

/// Leaves the widths of a zone of the trace: those that meet the bound of each cut by which it came to
/// be. The walk begins at the last cut, whose bound is the tightest of its span and side.
pub fn keep_zone(problem: &Problem, trace: &[CutAt], z: u32, matrix: &mut Matrix)
    requires trace { IsTraceOf problem.now trace.now }
    requires zone { IsZoneOf trace.now z }
    requires page { Describes problem.now [] [] matrix.old.bounds }
    ensures marks { KeepsMarks matrix.old matrix.new }
    ensures describes { Describes problem.now (zone_bounds problem.now (zone_of problem.now trace.now z)) [] matrix.new.bounds }
{
    let mut zone = z;
    'cuts: while zone > 0 {
        let cut = trace[(zone as usize - 1) / 2];
        keep_met(problem, part_bound(problem, cut, zone), matrix);
        zone = cut.zone;
    }
}

/// Leaves the widths that meet all bounds of the nogood.
pub fn keep_nogood(problem: &Problem, trace: &[CutAt], nogood: &Nogood, matrix: &mut Matrix)
    requires trace { IsTraceOf problem.now trace.now }
    requires names { NamesAreThere problem.now trace.now nogood.now }
    requires page { Describes problem.now [] [] matrix.old.bounds }
    ensures marks { KeepsMarks matrix.old matrix.new }
    ensures describes { Describes problem.now (nogood_bounds problem.now trace.now nogood.now) [] matrix.new.bounds }
{
    match nogood {
        Nogood::Zone(zone) => keep_zone(problem, trace, *zone, matrix),
        Nogood::Bounds(bounds) => keep_bounds(problem, bounds.as_slice(), matrix),
    }
}

/// Whether the nogood has no bounds.
pub fn is_empty_nogood(problem: &Problem, trace: &[CutAt], nogood: &Nogood) -> bool
    requires sound { IsSound problem.now }
    requires trace { IsTraceOf problem.now trace.now }
    requires names { NamesAreThere problem.now trace.now nogood.now }
    ensures { IsTrue result ↔ (nogood_bounds problem.now trace.now nogood.now ≡ []) }
{
    match nogood {
        Nogood::Zone(zone) => is_whole(problem, trace, *zone),
        Nogood::Bounds(bounds) => bounds.as_slice().is_empty(),
    }
}

/// Whether the zone has no bounds: no cut took away from it.
fn is_whole(problem: &Problem, trace: &[CutAt], z: u32) -> bool
    requires sound { IsSound problem.now }
    requires trace { IsTraceOf problem.now trace.now }
    requires zone { IsZoneOf trace.now z }
    ensures { IsTrue result ↔ (zone_bounds problem.now (zone_of problem.now trace.now z) ≡ []) }
{
    let count = span_count(problem);
    for s in 0..count {
        let range = zone_range(problem, trace, z, s);
        if range.first != 0 {
            return false;
        }
        if range.last != last_class(problem, s) {
            return false;
        }
    }
    true
}
