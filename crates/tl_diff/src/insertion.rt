//! Adds one constraint to a closed difference bound matrix. Each pair gets the bound that the new
//! constraint implies where that is tighter, so the matrix need never be closed anew.

ghost use Rattle.std.specs.Prelude.{◌≡◌, ℕ, ◌*◌, ◌<◌, ◌≤◌, ℤ, pos, neg_ℤ, ◌+◌, ◌+ℤ◌, ◌≤ℤ◌, Some, length, true, IsTrue, ◌↔◌, FitsSigned};
ghost use Rattle.std.specs.Int.{w32};
ghost use Rattle.std.specs.Option.{ForSome};
ghost use Rattle.tl_diff.specs.Bounds.{bounds_of, bound_at, AddsBound};
ghost use Rattle.tl_diff.specs.inner.Closed.{AtMost, lesser, IsImproved, IsSoundMatrix, IsRowImproved, IsRowSmall};

use crate::matrix::{MAX_BOUND, MAX_VARIABLES};

/// Adds the constraint `x_b <= x_a + most`, and returns whether some assignment satisfies all
/// constraints. One that is implied changes nothing; one that no assignment can satisfy is written
/// down as it is.
pub fn add(rows: &mut [Option<i32>], variables: usize, a: usize, b: usize, most: i32) -> bool
    requires sound { IsSoundMatrix (bounds_of variables rows.old) true }
    requires begins { a < variables }
    requires ends { b < variables }
    requires low { neg_ℤ (pos MAX_BOUND) ≤ℤ most }
    requires high { most ≤ℤ pos MAX_BOUND }
    ensures adds { AddsBound (bounds_of variables rows.old) (bounds_of variables rows.new) a b most }
    ensures sound { IsSoundMatrix (bounds_of variables rows.new) result }
{
    if is_at_most(rows[a * variables + b], most) {
        return true;
    }
    if is_at_most(rows[b * variables + a], -1 - most) {
        rows[a * variables + b] = Some(most);
        return false;
    }
    improve(rows, variables, a, b, most);
    true
}

/// Whether there is a bound and it is at most `most`.
fn is_at_most(bound: Option<i32>, most: i32) -> bool
    ensures { IsTrue result ↔ AtMost bound most }
{
    match bound {
        Some(bound) => bound <= most,
        None => false,
    }
}

/// Tightens each bound by way of the constraint `x_b <= x_a + most`.
fn improve(rows: &mut [Option<i32>], variables: usize, a: usize, b: usize, most: i32)
    requires few { variables ≤ MAX_VARIABLES }
    requires pairs { length rows.old ≡ variables * variables }
    requires begins { a < variables }
    requires ends { b < variables }
    requires low { neg_ℤ (pos MAX_BOUND) ≤ℤ most }
    requires high { most ≤ℤ pos MAX_BOUND }
    requires no_cycle { (t : ℤ) → AtMost (bound_at (bounds_of variables rows.old) b a) t
        → pos 0 ≤ℤ (t +ℤ most) }
    requires small { (p : ℕ) → p < variables → IsRowSmall (bounds_of variables rows.old) p }
    ensures { IsImproved (bounds_of variables rows.old) (bounds_of variables rows.new) a b most variables }
{
    for variable in 0..variables {
        if let Some(way) = rows[variable * variables + a] {
            improve_row(rows, variables, variable, b, way + most);
        }
    }
}

/// Tightens each bound in the row of `variable` by way of `x_b <= x_variable + way`.
fn improve_row(rows: &mut [Option<i32>], variables: usize, variable: usize, b: usize, way: i32)
    requires few { variables ≤ MAX_VARIABLES }
    requires pairs { length rows.old ≡ variables * variables }
    requires begins { variable < variables }
    requires ends { b < variables }
    requires way_low { neg_ℤ (pos (MAX_BOUND * (MAX_VARIABLES + 1))) ≤ℤ way }
    requires way_high { way ≤ℤ pos (MAX_BOUND * (MAX_VARIABLES + 1)) }
    requires variable_small { IsRowSmall (bounds_of variables rows.old) variable }
    requires to_small { IsRowSmall (bounds_of variables rows.old) b }
    ensures { IsRowImproved (bounds_of variables rows.old) (bounds_of variables rows.new) variable b way variables }
{
    for end in 0..variables {
        if let Some(rest) = rows[b * variables + end] {
            rows[variable * variables + end] = lesser_of(
                rows[variable * variables + end],
                way + rest,
            );
        }
    }
}

/// The bound, or `through` where that is less or there is none.
fn lesser_of(bound: Option<i32>, through: i32) -> Option<i32>
    requires { ForSome bound (FitsSigned w32) }
    ensures { result ≡ lesser bound (Some through) }
{
    match bound {
        Some(bound) => Some(bound.min(through)),
        None => Some(through),
    }
}
