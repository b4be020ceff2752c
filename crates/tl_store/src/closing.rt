//! Which nogood the widths that a matrix leaves imply whole.

ghost use Rattle.std.specs.Prelude.{◌<◌, ◌≤◌, ◌^◌, length, map, IfSome, IsTrue, ◌↔◌, MatchOption};
ghost use Rattle.std.specs.List.{All, Contains};
ghost use Rattle.tl_problem.specs.Spans.{spans_of};
ghost use Rattle.tl_problem.specs.Works.{AreAllowed};
ghost use Rattle.tl_cert.specs.Implied.{Implied};
ghost use Rattle.tl_check.specs.Matrices.{IsMatrixOf};
ghost use Rattle.tl_store.specs.Stores.{AreListed, AreOnSpans, IsFirstClosing, NoneCloses};
ghost use Rattle.tl_store.specs.inner.Closings.{IsFirstIn, IsImpliedWhole, MayHold};

use crate::groups::Group;
use tl_cert::Bound;
use tl_check::is_implied;
use tl_diff::Matrix;
use tl_problem::Problem;

/// The number of the first nogood that is implied whole. Only those are looked at whose group has a bound that is
/// implied.
pub fn first_closing(
    problem: &Problem,
    keys: &[Vec<Bound>],
    groups: &[Group],
    matrix: &Matrix,
) -> Option<u32>
    requires spans { All (λ key. All (λ bound. bound.span < length (spans_of problem.now)) key.items) keys.now }
    requires heads { AreOnSpans (length (spans_of problem.now)) groups.now }
    requires listed { AreListed groups.now (map (λ key. key.items) keys.now) }
    requires few { length keys.now < 2 ^ 32 }
    requires keeps { IsMatrixOf problem.now matrix.now.bounds }
    ensures { MatchOption result
        (NoneCloses problem.now (AreAllowed problem.now matrix.now.bounds) (map (λ key. key.items) keys.now))
        (IsFirstClosing problem.now (AreAllowed problem.now matrix.now.bounds) (map (λ key. key.items) keys.now)) }
{
    let mut first = keys.len();
    'groups: for group in groups {
        if may_hold(problem, group.head, matrix) {
            first = first_in(problem, keys, &group.numbers, matrix, first);
        }
    }
    if first == keys.len() {
        return None;
    }
    Some(first as u32)
}

/// The least of these numbers that is below a number and whose nogood is implied whole; else that number.
fn first_in(
    problem: &Problem,
    keys: &[Vec<Bound>],
    numbers: &[u32],
    matrix: &Matrix,
    below: usize,
) -> usize
    requires spans { All (λ key. All (λ bound. bound.span < length (spans_of problem.now)) key.items) keys.now }
    requires keeps { IsMatrixOf problem.now matrix.now.bounds }
    requires below { below ≤ length keys.now }
    ensures { IsFirstIn (IsImpliedWhole problem.now (AreAllowed problem.now matrix.now.bounds) (map (λ key. key.items) keys.now))
        (Contains numbers.now) below result }
{
    let mut first = below;
    'numbers: for number in numbers {
        let number = *number as usize;
        if number < first && are_implied(problem, &keys[number], matrix) {
            first = number;
        }
    }
    first
}

/// Whether a group with this bound may have a nogood that is implied whole.
fn may_hold(problem: &Problem, head: Option<Bound>, matrix: &Matrix) -> bool
    requires span { IfSome head (λ bound. bound.span < length (spans_of problem.now)) }
    requires keeps { IsMatrixOf problem.now matrix.now.bounds }
    ensures { IsTrue result ↔ MayHold problem.now (AreAllowed problem.now matrix.now.bounds) head }
{
    match head {
        Some(bound) => is_implied(problem, matrix, bound),
        None => true,
    }
}

/// Whether all bounds are implied.
fn are_implied(problem: &Problem, bounds: &[Bound], matrix: &Matrix) -> bool
    requires spans { All (λ bound. bound.span < length (spans_of problem.now)) bounds.now }
    requires keeps { IsMatrixOf problem.now matrix.now.bounds }
    ensures { IsTrue result ↔ All (Implied problem.now (AreAllowed problem.now matrix.now.bounds)) bounds.now }
{
    'bounds: for bound in bounds {
        if !is_implied(problem, matrix, *bound) {
            return false;
        }
    }
    true
}
