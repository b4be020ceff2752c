//! Constraints on the places where the columns of a problem begin.

ghost use Rattle.std.specs.Prelude.{◌≡◌, ℕ, ◌+◌, ◌<◌, ◌≤◌, List, [], length, IfOk, IsTrue, ◌↔◌};
ghost use Rattle.tl_diff.specs.Bounds.{IsSatisfiable};
ghost use Rattle.tl_problem.specs.Layouts.{WithinPage};
ghost use Rattle.tl_problem.specs.Sound.{IsSound};
ghost use Rattle.tl_problem.specs.Spans.{spans_of};
ghost use Rattle.tl_problem.specs.Works.{AreAllowed, KeepsPage};
ghost use Rattle.tl_problem.specs.Zones.{IsZone};
ghost use Rattle.tl_problem.specs.inner.Constraints.{AddsFact, AddsRanges, StandApart, AreNear, HasFirst, HasLast, PageUpto};

use crate::{Problem, Span, Zone};
use std::alloc::AllocError;
use tl_base::MAX_PAGE_WIDTH;
use tl_diff::Matrix;

/// The marks that a work holds at most: one for a zone, and others for its callers.
const MARKS: u32 = 4;

/// A matrix with the constraints of the problem's page: a gap between columns, the least widths of
/// the spans, and an end within the page.
pub fn page_matrix(problem: &Problem) -> Result<Matrix, AllocError>
    ensures keeps { IfOk result (λ matrix. KeepsPage problem.now matrix.bounds) }
    ensures whole { IfOk result (λ matrix. (widths : List ℕ) → WithinPage problem.now widths
        → AreAllowed problem.now matrix.bounds widths) }
    ensures none_held { IfOk result (λ matrix. matrix.held ≡ []) }
    ensures marks { IfOk result (λ matrix. matrix.marks ≡ 4) }
{
    let cols = problem.cols();
    let spans = problem.spans();
    let spacing = problem.spacing();
    let most = (problem.width() + spacing.gap).saturating_sub(spacing.edges);
    let mut matrix = Matrix::new(problem.alloc(), cols + 1, MARKS)?;
    // A room keeps the gap past its columns too, so that most gaps change nothing then.
    add_rooms(problem, spans, &mut matrix);
    add_gaps(problem, &mut matrix);
    keep_near(&mut matrix, 0, cols, most);
    Ok(matrix)
}

/// Keeps a gap between the columns.
fn add_gaps(problem: &Problem, matrix: &mut Matrix)
    requires { PageUpto problem.now 0 (length (spans_of problem.now)) matrix.old }
    ensures { PageUpto problem.now problem.now.cols (length (spans_of problem.now)) matrix.new }
{
    let gap = problem.spacing().gap;
    for column in 0..problem.cols() {
        keep_apart(matrix, column, column + 1, gap);
    }
}

/// Gives each span at least the first width of its first class, which is the least width that its cells
/// leave.
fn add_rooms(problem: &Problem, spans: &[Span], matrix: &mut Matrix)
    requires spans { spans.now ≡ spans_of problem.now }
    requires page { PageUpto problem.now 0 0 matrix.old }
    ensures { PageUpto problem.now 0 (length (spans_of problem.now)) matrix.new }
{
    let gap = problem.spacing().gap;
    for s in 0..spans.len() {
        let span = spans[s];
        let least = problem.class_list(s)[0];
        keep_apart(matrix, span.left, span.right, least + gap);
    }
}

/// Keeps the places of the columns `a` and `b` at least `least` apart. Returns whether some widths
/// are left.
fn keep_apart(matrix: &mut Matrix, a: u32, b: u32, least: u32) -> bool
    requires begins { a < matrix.old.bounds.n }
    requires ends { b < matrix.old.bounds.n }
    requires small { least ≤ MAX_PAGE_WIDTH + 2 }
    requires holds { IsSatisfiable matrix.old.bounds }
    ensures adds { AddsFact matrix.old matrix.new (λ x. StandApart x a b least) }
    ensures holds { IsTrue result ↔ IsSatisfiable matrix.new.bounds }
{
    matrix.bound(b, a, -(least as i32))
}

/// Keeps the places of the columns `a` and `b` at most `most` apart. Returns whether some widths are
/// left.
fn keep_near(matrix: &mut Matrix, a: u32, b: u32, most: u32) -> bool
    requires begins { a < matrix.old.bounds.n }
    requires ends { b < matrix.old.bounds.n }
    requires small { most ≤ MAX_PAGE_WIDTH + 2 }
    requires holds { IsSatisfiable matrix.old.bounds }
    ensures adds { AddsFact matrix.old matrix.new (λ x. AreNear x a b most) }
    ensures holds { IsTrue result ↔ IsSatisfiable matrix.new.bounds }
{
    matrix.bound(a, b, most as i32)
}

/// Adds the constraints that the cuts of the zone made: those of a span that has not all its classes.
/// Returns whether some widths are left; once none are, the rest is left out.
pub fn add_ranges(problem: &Problem, zone: &Zone, matrix: &mut Matrix) -> bool
    requires sound { IsSound problem.now }
    requires zone { IsZone problem.now zone.now }
    requires keeps { KeepsPage problem.now matrix.old.bounds }
    requires holds { IsSatisfiable matrix.old.bounds }
    ensures adds { AddsRanges problem.now zone.now (length zone.now) matrix.old matrix.new (IsTrue result) }
    ensures holds { IsTrue result ↔ IsSatisfiable matrix.new.bounds }
{
    for s in 0..zone.ranges().len() {
        if !keep_first(problem, zone, s, matrix) {
            return false;
        }
        if !keep_last(problem, zone, s, matrix) {
            return false;
        }
    }
    true
}

/// Keeps the room of a span at least the first width of its first class. Returns whether some widths
/// are left.
fn keep_first(problem: &Problem, zone: &Zone, s: usize, matrix: &mut Matrix) -> bool
    requires zone { IsZone problem.now zone.now }
    requires span { s < length zone.now }
    requires keeps { KeepsPage problem.now matrix.old.bounds }
    requires holds { IsSatisfiable matrix.old.bounds }
    ensures adds { AddsFact matrix.old matrix.new (HasFirst problem.now zone.now s) }
    ensures holds { IsTrue result ↔ IsSatisfiable matrix.new.bounds }
{
    let span = problem.spans()[s];
    let classes = problem.class_list(s);
    let first = zone.ranges()[s].first as usize;
    if first == 0 {
        return true;
    }
    keep_apart(
        matrix,
        span.left,
        span.right,
        classes[first] + problem.spacing().gap,
    )
}

/// Keeps the room of a span at most the last width of its last class. Returns whether some widths are
/// left.
fn keep_last(problem: &Problem, zone: &Zone, s: usize, matrix: &mut Matrix) -> bool
    requires zone { IsZone problem.now zone.now }
    requires span { s < length zone.now }
    requires keeps { KeepsPage problem.now matrix.old.bounds }
    requires holds { IsSatisfiable matrix.old.bounds }
    ensures adds { AddsFact matrix.old matrix.new (HasLast problem.now zone.now s) }
    ensures holds { IsTrue result ↔ IsSatisfiable matrix.new.bounds }
{
    let span = problem.spans()[s];
    let classes = problem.class_list(s);
    let next = zone.ranges()[s].last as usize + 1;
    if next == classes.len() {
        return true;
    }
    keep_near(
        matrix,
        span.left,
        span.right,
        classes[next] - 1 + problem.spacing().gap,
    )
}
