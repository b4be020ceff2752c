//! A closed difference bound matrix: for each two variables the tightest bound. It knows no marks.

ghost use Rattle.std.specs.Prelude.{◌≡◌, ℕ, ◌<◌, ◌≤◌, ℤ, pos, neg_ℤ, ◌≤ℤ◌, length, IsTrue, ◌↔◌, IfOk, IfSome, MatchOption};
ghost use Rattle.tl_diff.specs.Bounds.{AddsBound, IsSatisfiable, IsGreatest, HasNoGreatest, IsLeast, IsSmall, assignment_of, Satisfies};

use crate::insertion::add;
use crate::matrix::{MAX_BOUND, MAX_VARIABLES};
use std::alloc::{AllocError, Global};
use std::marker::Model;

/// The constraints between variables, as the tightest bound for each pair while some assignment
/// satisfies them.
#[derive(Debug, Drop)]
pub struct ClosedBounds {
    variables: usize,
    rows: Vec<Option<i32>>,
    holds: bool,
}

impl Model for ClosedBounds {
    ghost use Rattle.tl_diff.specs.Bounds.{bounds_of, Bounds};
    ghost use Rattle.tl_diff.specs.inner.Closed.{IsSoundMatrix};

    ghost Value = { Bounds };

    ghost view = { λ d. bounds_of d.variables d.rows.items };

    ghost invariant = { λ d. IsSoundMatrix (bounds_of d.variables d.rows.items) d.holds };
}

impl ClosedBounds {
    /// No constraints between so many variables.
    pub fn new(alloc: Global, variables: usize) -> Result<ClosedBounds, AllocError>
        requires some { 1 ≤ variables }
        requires few { variables ≤ MAX_VARIABLES }
        ensures variables { IfOk result (λ d. d.n ≡ variables) }
        ensures free { IfOk result (λ d. (x : ℕ → ℤ) → Satisfies d x) }
    {
        let mut rows = vec![in alloc; None; variables * variables]?;
        for variable in 0..variables {
            rows[variable * variables + variable] = Some(0);
        }
        Ok(ClosedBounds {
            variables,
            rows,
            holds: true,
        })
    }

    /// Whether some assignment satisfies the constraints.
    pub fn holds(&self) -> bool
        ensures { IsTrue result ↔ IsSatisfiable self.now }
    {
        self.holds
    }

    /// The greatest `x_b - x_a`, if there is one.
    pub fn upper(&self, a: usize, b: usize) -> Option<i32>
        requires begins { a < self.now.n }
        requires ends { b < self.now.n }
        requires holds { IsSatisfiable self.now }
        ensures exact { MatchOption result (HasNoGreatest self.now a b) (IsGreatest self.now a b) }
        ensures small { IfSome result IsSmall }
    {
        self.rows[a * self.variables + b]
    }

    /// Takes over the constraints of `other`, which has as many variables.
    pub fn copy_from(&mut self, other: &ClosedBounds)
        requires { self.old.n ≡ other.now.n }
        ensures { self.new ≡ other.now }
    {
        self.rows.copy_from_slice(&other.rows);
        self.holds = other.holds;
    }

    /// Adds the constraint `x_b <= x_a + most`, and returns whether some assignment satisfies all
    /// constraints.
    pub fn bound(&mut self, a: usize, b: usize, most: i32) -> bool
        requires begins { a < self.old.n }
        requires ends { b < self.old.n }
        requires low { neg_ℤ (pos MAX_BOUND) ≤ℤ most }
        requires high { most ≤ℤ pos MAX_BOUND }
        requires holds { IsSatisfiable self.old }
        ensures adds { AddsBound self.old self.new a b most }
        ensures holds { IsTrue result ↔ IsSatisfiable self.new }
    {
        self.holds = add(&mut self.rows, self.variables, a, b, most);
        self.holds
    }

    /// Fills `out` with the least assignment that has `x_0 = 0`.
    pub fn solve_least(&self, out: &mut [i32])
        requires room { length out.old ≡ self.now.n }
        requires holds { IsSatisfiable self.now }
        requires bounded { (k : ℕ) → k < self.now.n → HasNoGreatest self.now k 0 → ⊥ }
        ensures { IsLeast self.now (assignment_of out.new) }
    {
        for variable in 0..self.variables {
            out[variable] = -self.upper(variable, 0).unwrap();
        }
    }
}
