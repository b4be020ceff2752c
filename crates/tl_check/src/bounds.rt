//! Bounds on the rooms of spans, against a matrix of constraints: whether one is implied, and what it
//! leaves where it is met or broken.

ghost use Rattle.std.specs.Prelude.{◌≡◌, ◌+◌, ◌<◌, ◌≤◌, length, pos, neg_ℤ, ◌≤ℤ◌, IsTrue, IsSomeAnd, ◌↔◌};
ghost use Rattle.tl_diff.specs.Bounds as follows;
ghost use Rattle.tl_diff.specs.Bounds.{IsSatisfiable};
ghost use Rattle.tl_problem.specs.Spans.{spans_of};
ghost use Rattle.tl_problem.specs.Works.{AreAllowed};
ghost use Rattle.tl_problem.specs.Zones.{span_at, span_width};
ghost use Rattle.tl_cert.specs.Implied.{Implied};
ghost use Rattle.tl_cert.specs.Nogoods.{Breaks, Meets};
ghost use Rattle.tl_check.specs.Matrices.{IsMatrixOf};
ghost use Rattle.tl_check.specs.inner.Matrices.{Restricts};

use tl_base::MAX_PAGE_WIDTH;
use tl_cert::{Bound, Side};
use tl_diff::{MAX_BOUND, Matrix};
use tl_problem::{Problem, Span};

/// The width of the bound, cut off just past the page: no room is greater than the page.
fn width_of(bound: Bound) -> u32
    ensures small { result ≤ MAX_PAGE_WIDTH + 1 }
    ensures same { bound.width ≤ MAX_PAGE_WIDTH → result ≡ bound.width }
    ensures past { MAX_PAGE_WIDTH < bound.width → result ≡ MAX_PAGE_WIDTH + 1 }
{
    bound.width.min(MAX_PAGE_WIDTH + 1)
}

/// The span of the bound.
fn span_of(problem: &Problem, bound: Bound) -> Span
    requires { bound.span < length (spans_of problem.now) }
    ensures { result ≡ span_at problem.now bound.span }
{
    problem.spans()[bound.span as usize]
}

/// Whether all widths that the matrix leaves meet the bound.
pub fn is_implied(problem: &Problem, matrix: &Matrix, bound: Bound) -> bool
    requires span { bound.span < length (spans_of problem.now) }
    requires keeps { IsMatrixOf problem.now matrix.now.bounds }
    ensures { IsTrue result ↔ Implied problem.now (AreAllowed problem.now matrix.now.bounds) bound }
{
    if !matrix.holds() {
        return true;
    }
    let span = span_of(problem, bound);
    let apart = (width_of(bound) + problem.spacing().gap) as i32;
    match bound.side {
        Side::Most => is_near(matrix, span.left, span.right, apart),
        Side::Least => is_near(matrix, span.right, span.left, -apart),
    }
}

/// Whether the place `b` is at most `most` past the place `a` in all that the matrix leaves.
fn is_near(matrix: &Matrix, a: u32, b: u32, most: i32) -> bool
    requires begins { a < matrix.now.bounds.n }
    requires ends { b < matrix.now.bounds.n }
    requires low { neg_ℤ (pos MAX_BOUND) ≤ℤ most }
    requires high { most ≤ℤ pos MAX_BOUND }
    requires holds { IsSatisfiable matrix.now.bounds }
    ensures { IsTrue result ↔ follows.Implies matrix.now.bounds a b most }
{
    is_up_to(matrix.upper(a, b), most)
}

/// Whether there is a tightest bound and it is at most `most`.
fn is_up_to(upper: Option<i32>, most: i32) -> bool
    ensures { IsTrue result ↔ IsSomeAnd upper (λ upper. upper ≤ℤ most) }
{
    match upper {
        Some(upper) => upper <= most,
        None => false,
    }
}

/// Leaves the widths that meet the bound.
pub fn keep_met(problem: &Problem, bound: Bound, matrix: &mut Matrix)
    requires span { bound.span < length (spans_of problem.now) }
    requires keeps { IsMatrixOf problem.now matrix.old.bounds }
    ensures { Restricts problem.now matrix.old matrix.new (λ widths. Meets problem.now widths bound) }
{
    let apart = (width_of(bound) + problem.spacing().gap) as i32;
    match bound.side {
        Side::Most => keep_at_most(problem, bound.span, apart, matrix),
        Side::Least => keep_at_least(problem, bound.span, apart, matrix),
    }
}

/// Leaves the widths that break the bound.
pub fn keep_broken(problem: &Problem, bound: Bound, matrix: &mut Matrix)
    requires span { bound.span < length (spans_of problem.now) }
    requires keeps { IsMatrixOf problem.now matrix.old.bounds }
    ensures { Restricts problem.now matrix.old matrix.new (λ widths. Breaks problem.now widths bound) }
{
    let apart = (width_of(bound) + problem.spacing().gap) as i32;
    match bound.side {
        Side::Most => keep_at_least(problem, bound.span, apart + 1, matrix),
        Side::Least => keep_at_most(problem, bound.span, apart - 1, matrix),
    }
}

/// Leaves the widths at which the room of the span and a gap are at most so much.
fn keep_at_most(problem: &Problem, s: u32, apart: i32, matrix: &mut Matrix)
    requires span { s < length (spans_of problem.now) }
    requires keeps { IsMatrixOf problem.now matrix.old.bounds }
    requires low { neg_ℤ (pos MAX_BOUND) ≤ℤ apart }
    requires high { apart ≤ℤ pos MAX_BOUND }
    ensures { Restricts problem.now matrix.old matrix.new (λ widths. pos (span_width problem.now widths s + problem.now.spacing.gap) ≤ℤ apart) }
{
    if matrix.holds() {
        let span = problem.spans()[s as usize];
        matrix.bound(span.left, span.right, apart);
    }
}

/// Leaves the widths at which the room of the span and a gap are at least so much.
fn keep_at_least(problem: &Problem, s: u32, apart: i32, matrix: &mut Matrix)
    requires span { s < length (spans_of problem.now) }
    requires keeps { IsMatrixOf problem.now matrix.old.bounds }
    requires low { neg_ℤ (pos MAX_BOUND) ≤ℤ apart }
    requires high { apart ≤ℤ pos MAX_BOUND }
    ensures { Restricts problem.now matrix.old matrix.new (λ widths. apart ≤ℤ pos (span_width problem.now widths s + problem.now.spacing.gap)) }
{
    if matrix.holds() {
        let span = problem.spans()[s as usize];
        matrix.bound(span.right, span.left, -apart);
    }
}
