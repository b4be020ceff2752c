//! The bounds of a zone, span by span: those that cuts made of its ranges.

ghost use Rattle.std.specs.Prelude.{◌≡◌, ◌<◌, List as Items, [], ◌++◌, length, IfOk, OnOk};
ghost use Rattle.std.specs.Option.{ForSome};
ghost use Rattle.tl_problem.specs.Sound.{IsSound};
ghost use Rattle.tl_problem.specs.Spans.{spans_of};
ghost use Rattle.tl_problem.specs.Zones.{IsZone, classes_at, range_at};
ghost use Rattle.tl_cert.specs.Nogoods.{range_bounds, zone_bounds};
ghost use Rattle.tl_cert.specs.Traces.{IsTraceOf, IsZoneOf, zone_of};
ghost use Rattle.tl_cert.specs.declared.log.Bound.{Bound as B};
ghost use Rattle.tl_check.specs.Matrices.{Describes, IsMatrixOf, KeepsMarks};
ghost use Rattle.tl_check.specs.inner.Matrices.{some_list};

use crate::bounds::keep_met;
use crate::zones::{lower_bound, span_count, upper_bound, zone_range};
use std::alloc::{AllocError, Global};
use tl_base::List;
use tl_cert::{Bound, CutAt};
use tl_diff::Matrix;
use tl_problem::{Problem, Range, Zone};

/// Leaves the widths in the zone, of a matrix that leaves those of the page.
pub fn keep_ranges(problem: &Problem, zone: &Zone, matrix: &mut Matrix)
    requires zone { IsZone problem.now zone.now }
    requires page { Describes problem.now [] [] matrix.old.bounds }
    ensures marks { KeepsMarks matrix.old matrix.new }
    ensures describes { Describes problem.now (zone_bounds problem.now zone.now) [] matrix.new.bounds }
{
    let ranges = zone.ranges();
    let count = span_count(problem);
    for s in 0..count {
        keep_range(problem, s, ranges[s as usize], matrix);
    }
}

/// Leaves the widths that meet the bounds that the range makes of the span.
fn keep_range(problem: &Problem, s: u32, range: Range, matrix: &mut Matrix)
    requires span { s < length (spans_of problem.now) }
    requires first { range.first < length (classes_at problem.now s) }
    requires last { range.last < length (classes_at problem.now s) }
    requires keeps { IsMatrixOf problem.now matrix.old.bounds }
    ensures keeps { IsMatrixOf problem.now matrix.new.bounds }
    ensures marks { KeepsMarks matrix.old matrix.new }
    ensures describes { (given : Items B) → Describes problem.now given [] matrix.old.bounds →
        Describes problem.now (given ++ range_bounds problem.now s range) [] matrix.new.bounds }
{
    keep_some(problem, upper_bound(problem, s, range), matrix);
    keep_some(problem, lower_bound(problem, s, range), matrix);
}

/// Leaves the widths that meet the bound, where there is one.
fn keep_some(problem: &Problem, bound: Option<Bound>, matrix: &mut Matrix)
    requires span { ForSome bound (λ bound. bound.span < length (spans_of problem.now)) }
    requires keeps { IsMatrixOf problem.now matrix.old.bounds }
    ensures keeps { IsMatrixOf problem.now matrix.new.bounds }
    ensures marks { KeepsMarks matrix.old matrix.new }
    ensures describes { (given : Items B) → Describes problem.now given [] matrix.old.bounds →
        Describes problem.now (given ++ some_list bound) [] matrix.new.bounds }
{
    if let Some(bound) = bound {
        keep_met(problem, bound, matrix);
    }
}

/// The bounds of a zone of the trace, span by span.
pub fn bounds_of_zone(
    alloc: Global,
    problem: &Problem,
    trace: &[CutAt],
    z: u32,
) -> Result<List<Bound>, AllocError>
    requires sound { IsSound problem.now }
    requires trace { IsTraceOf problem.now trace.now }
    requires zone { IsZoneOf trace.now z }
    ensures { IfOk result (λ bounds. bounds ≡ zone_bounds problem.now (zone_of problem.now trace.now z)) }
{
    let mut bounds = List::new(alloc);
    let count = span_count(problem);
    for s in 0..count {
        let range = zone_range(problem, trace, z, s);
        push_some(&mut bounds, upper_bound(problem, s, range))?;
        push_some(&mut bounds, lower_bound(problem, s, range))?;
    }
    Ok(bounds)
}

/// Puts the bound at the end, where there is one.
fn push_some(bounds: &mut List<Bound>, bound: Option<Bound>) -> Result<(), AllocError>
    ensures { OnOk result (bounds.new ≡ bounds.old ++ some_list bound) }
{
    if let Some(bound) = bound {
        bounds.push(bound)?;
    }
    Ok(())
}
