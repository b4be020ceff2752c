//! What is left of a nogood once the bounds that are implied are taken away.

ghost use Rattle.std.specs.Prelude.{◌≡◌, ◌<◌, List, [], ◌∷◌, ◌++◌, length, IsTrue, ◌↔◌};
ghost use Rattle.std.specs.List.{All};
ghost use Rattle.std.specs.Option.{ForSome};
ghost use Rattle.tl_problem.specs.Spans.{spans_of};
ghost use Rattle.tl_problem.specs.Works.{AreAllowed};
ghost use Rattle.tl_problem.specs.Zones.{range_at};
ghost use Rattle.tl_cert.specs.Nogoods.{NamesAreThere, nogood_bounds, range_bounds, zone_bounds};
ghost use Rattle.tl_cert.specs.Traces.{IsTraceOf, IsZoneOf, zone_of};
ghost use Rattle.tl_cert.specs.declared.log.Bound.{Bound as B};
ghost use Rattle.tl_check.specs.inner.Firing.{HasLeft};
ghost use Rattle.tl_check.specs.Matrices.{IsMatrixOf};
ghost use Rattle.tl_check.specs.inner.Matrices.{some_list};

use crate::bounds::is_implied;
use crate::zones::{lower_bound, part_bound, upper_bound, zone_range};
use tl_cert::{Bound, CutAt, Nogood};
use tl_diff::Matrix;
use tl_problem::Problem;

/// What is left of a nogood.
#[derive(Clone, Copy)]
pub enum Left {
    /// All its bounds are implied.
    Nothing,
    /// All but this one are.
    One(Bound),
    /// Two bounds or more are not.
    More,
}

/// What is left with one bound more.
fn left_with(problem: &Problem, matrix: &Matrix, left: Left, bound: Bound) -> Left
    requires span { bound.span < length (spans_of problem.now) }
    requires keeps { IsMatrixOf problem.now matrix.now.bounds }
    ensures { (nogood : List B) → HasLeft problem.now (AreAllowed problem.now matrix.now.bounds) nogood left →
        HasLeft problem.now (AreAllowed problem.now matrix.now.bounds) (nogood ++ bound ∷ []) result }
{
    if is_implied(problem, matrix, bound) {
        return left;
    }
    match left {
        Left::Nothing => Left::One(bound),
        Left::One(other) if is_same(other, bound) => left,
        Left::One(_) => Left::More,
        Left::More => Left::More,
    }
}

/// Whether nothing is left.
pub fn is_nothing(left: Left) -> bool
    ensures { IsTrue result ↔ (left ≡ Left.Nothing) }
{
    matches!(left, Left::Nothing)
}

/// Whether two bounds or more are left.
fn is_more(left: Left) -> bool
    ensures { IsTrue result ↔ (left ≡ Left.More) }
{
    matches!(left, Left::More)
}

/// Whether the bounds are one.
fn is_same(one: Bound, other: Bound) -> bool
    ensures { IsTrue result ↔ (one ≡ other) }
{
    one == other
}

/// What is left with one bound more, where there is one.
fn left_with_some(problem: &Problem, matrix: &Matrix, left: Left, bound: Option<Bound>) -> Left
    requires span { ForSome bound (λ bound. bound.span < length (spans_of problem.now)) }
    requires keeps { IsMatrixOf problem.now matrix.now.bounds }
    ensures { (nogood : List B) → HasLeft problem.now (AreAllowed problem.now matrix.now.bounds) nogood left →
        HasLeft problem.now (AreAllowed problem.now matrix.now.bounds) (nogood ++ some_list bound) result }
{
    match bound {
        Some(bound) => left_with(problem, matrix, left, bound),
        None => left,
    }
}

/// What is left of the bounds.
fn left_of_bounds(problem: &Problem, matrix: &Matrix, bounds: &[Bound]) -> Left
    requires spans { All (λ bound. bound.span < length (spans_of problem.now)) bounds.now }
    requires keeps { IsMatrixOf problem.now matrix.now.bounds }
    ensures { HasLeft problem.now (AreAllowed problem.now matrix.now.bounds) bounds.now result }
{
    let mut left = Left::Nothing;
    'bounds: for bound in bounds {
        left = left_with(problem, matrix, left, *bound);
    }
    left
}

/// What is left with the bounds of a span in a zone.
fn left_with_span(
    problem: &Problem,
    trace: &[CutAt],
    z: u32,
    s: u32,
    matrix: &Matrix,
    left: Left,
) -> Left
    requires trace { IsTraceOf problem.now trace.now }
    requires zone { IsZoneOf trace.now z }
    requires span { s < length (spans_of problem.now) }
    requires keeps { IsMatrixOf problem.now matrix.now.bounds }
    ensures { (nogood : List B) → HasLeft problem.now (AreAllowed problem.now matrix.now.bounds) nogood left →
        HasLeft problem.now (AreAllowed problem.now matrix.now.bounds)
        (nogood ++ range_bounds problem.now s (range_at (zone_of problem.now trace.now z) s)) result }
{
    let range = zone_range(problem, trace, z, s);
    let with_upper = left_with_some(problem, matrix, left, upper_bound(problem, s, range));
    left_with_some(problem, matrix, with_upper, lower_bound(problem, s, range))
}

/// What is left of the bounds of a zone. Each of them is that of a cut by which the zone came to be, so
/// the classes of a span are asked for only at a cut whose bound is not implied.
fn left_of_zone(problem: &Problem, trace: &[CutAt], z: u32, matrix: &Matrix) -> Left
    requires trace { IsTraceOf problem.now trace.now }
    requires zone { IsZoneOf trace.now z }
    requires keeps { IsMatrixOf problem.now matrix.now.bounds }
    ensures { HasLeft problem.now (AreAllowed problem.now matrix.now.bounds)
        (zone_bounds problem.now (zone_of problem.now trace.now z)) result }
{
    let mut left = Left::Nothing;
    let mut zone = z;
    'cuts: while zone > 0 {
        let cut = trace[(zone as usize - 1) / 2];
        if !is_implied(problem, matrix, part_bound(problem, cut, zone)) {
            left = left_with_span(problem, trace, z, cut.span, matrix, left);
            if is_more(left) {
                return left;
            }
        }
        zone = cut.zone;
    }
    left
}

/// What is left of the nogood in all that the matrix leaves.
pub fn left_of(problem: &Problem, trace: &[CutAt], nogood: &Nogood, matrix: &Matrix) -> Left
    requires trace { IsTraceOf problem.now trace.now }
    requires names { NamesAreThere problem.now trace.now nogood.now }
    requires keeps { IsMatrixOf problem.now matrix.now.bounds }
    ensures { HasLeft problem.now (AreAllowed problem.now matrix.now.bounds)
        (nogood_bounds problem.now trace.now nogood.now) result }
{
    match nogood {
        Nogood::Zone(zone) => left_of_zone(problem, trace, *zone, matrix),
        Nogood::Bounds(bounds) => left_of_bounds(problem, matrix, bounds.as_slice()),
    }
}
