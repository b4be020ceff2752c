//! Zones of a trace, by their numbers: which classes a zone gives a span, and the bounds that cuts made.

ghost use Rattle.std.specs.Prelude.{◌≡◌, ◌+◌, ◌*◌, ◌<◌, nat_lt, if◌then◌else◌, [], ◌∷◌, length, IfSome};
ghost use Rattle.tl_problem.specs.Sound.{IsSound};
ghost use Rattle.tl_problem.specs.Spans.{spans_of};
ghost use Rattle.tl_problem.specs.Zones.{classes_at, first_in_class, last_in_class, range_at};
ghost use Rattle.tl_cert.specs.Nogoods.{at_least, at_most};
ghost use Rattle.tl_cert.specs.Traces.{IsTraceOf, IsZoneOf, zone_of};
ghost use Rattle.tl_check.specs.inner.Matrices.{some_list};
ghost use Rattle.tl_check.specs.inner.Zones.{IsPartBound};

use tl_cert::{Bound, CutAt, Side};
use tl_problem::{Problem, Range};

/// The classes that the zone of the trace gives the span: those of the whole, less what the cuts took
/// away by which the zone came to be.
pub fn zone_range(problem: &Problem, trace: &[CutAt], z: u32, s: u32) -> Range
    requires sound { IsSound problem.now }
    requires trace { IsTraceOf problem.now trace.now }
    requires zone { IsZoneOf trace.now z }
    requires span { s < length (spans_of problem.now) }
    ensures { result ≡ range_at (zone_of problem.now trace.now z) s }
{
    let mut first = 0;
    let mut last = last_class(problem, s);
    let mut zone = z;
    'zones: while zone > 0 {
        let cut = trace[(zone as usize - 1) / 2];
        if cut.span == s {
            if zone % 2 == 1 {
                last = cut.class.min(last);
            } else {
                first = next_class(cut.class).max(first);
            }
        }
        zone = cut.zone;
    }
    Range { first, last }
}

/// The last class of the span.
pub fn last_class(problem: &Problem, s: u32) -> u32
    requires sound { IsSound problem.now }
    requires span { s < length (spans_of problem.now) }
    ensures { result + 1 ≡ length (classes_at problem.now s) }
{
    (problem.classes(s).len() - 1) as u32
}

/// The number of spans.
pub fn span_count(problem: &Problem) -> u32
    ensures { result ≡ length (spans_of problem.now) }
{
    problem.spans().len() as u32
}

/// The class after this one.
fn next_class(class: u32) -> u32
    ensures { class + 1 < 4294967296 → result ≡ class + 1 }
{
    class.saturating_add(1)
}

/// The bound that the range makes from above: its last width, where further classes follow.
pub fn upper_bound(problem: &Problem, s: u32, range: Range) -> Option<Bound>
    requires span { s < length (spans_of problem.now) }
    requires last { range.last < length (classes_at problem.now s) }
    ensures bound { some_list result ≡ (if nat_lt (range.last + 1) (length (classes_at problem.now s))
        then at_most s (last_in_class problem.now s range.last) ∷ [] else []) }
    ensures span { IfSome result (λ bound. bound.span ≡ s) }
{
    let classes = problem.classes(s);
    let next = *classes.get(range.last as usize + 1)?;
    Some(Bound {
        span: s,
        side: Side::Most,
        width: next.saturating_sub(1),
    })
}

/// The bound that the range makes from below: its first width, where classes are before it.
pub fn lower_bound(problem: &Problem, s: u32, range: Range) -> Option<Bound>
    requires span { s < length (spans_of problem.now) }
    requires first { range.first < length (classes_at problem.now s) }
    ensures bound { some_list result ≡ (if nat_lt 0 range.first
        then at_least s (first_in_class problem.now s range.first) ∷ [] else []) }
    ensures span { IfSome result (λ bound. bound.span ≡ s) }
{
    if range.first == 0 {
        return None;
    }
    Some(Bound {
        span: s,
        side: Side::Least,
        width: problem.classes(s)[range.first as usize],
    })
}

/// The bound that the cut made of the part of its zone with this number: an odd part has the classes up
/// to the cut's, an even one those after it.
pub fn part_bound(problem: &Problem, cut: CutAt, part: u32) -> Bound
    requires span { cut.span < length (spans_of problem.now) }
    requires class { cut.class + 1 < length (classes_at problem.now cut.span) }
    ensures bound { IsPartBound problem.now cut part result }
    ensures span { result.span ≡ cut.span }
{
    let next = problem.classes(cut.span)[cut.class as usize + 1];
    if part % 2 == 1 {
        Bound {
            span: cut.span,
            side: Side::Most,
            width: next.saturating_sub(1),
        }
    } else {
        Bound {
            span: cut.span,
            side: Side::Least,
            width: next,
        }
    }
}
