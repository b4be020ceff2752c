//! Difference constraints that can be taken back to a mark.

ghost use Rattle.std.specs.Prelude.{◌≡◌, ℕ, ◌<◌, ◌≤◌, ℤ, pos, neg_ℤ, ◌≤ℤ◌, length, [], ◌∷◌, IsTrue, ◌↔◌, IfOk, IfSome, MatchOption};
ghost use Rattle.tl_diff.specs.Bounds.{AddsBound, HasNoGreatest, IsSatisfiable, IsGreatest, IsLeast, IsSmall, Satisfies, assignment_of};

use crate::closed_bounds::ClosedBounds;
use std::alloc::{AllocError, Global};
use std::marker::Model;

/// The most variables that a matrix has.
pub const MAX_VARIABLES: u32 = 64;

/// The most marks that a matrix holds at one time.
pub const MAX_MARKS: u32 = 8;

/// The greatest number of a constraint that is added; the least is as much below 0.
pub const MAX_BOUND: u32 = 1_000_000;

/// Constraints `x_b <= x_a + most` between whole-number variables, kept as a closed difference bound
/// matrix, so that each tightest bound is one look-up. `new` makes all the room; every other call
/// takes no memory.
#[derive(Debug)]
pub struct Matrix {
    bounds: ClosedBounds,
    copies: Vec<ClosedBounds>,
    held: u32,
}

impl Drop for Matrix {
    fn drop(self) {
        let Matrix {
            bounds: _bounds,
            copies: _copies,
            held: _held,
        } = self;
    }
}

impl Model for Matrix {
    ghost use Rattle.std.specs.Prelude.{length, reverse, take};
    ghost use Rattle.tl_diff.specs.Marks.{MarkedBounds};
    ghost use Rattle.tl_diff.specs.inner.Marking.{HasMarkRoom};

    ghost Value = { MarkedBounds };

    ghost view = { λ m. record {
      marks = length m.copies.items;
      bounds = m.bounds;
      held = reverse (take m.held m.copies.items);
    } };

    ghost invariant = { λ m. HasMarkRoom m.held m.bounds m.copies.items };
}

impl Matrix {
    /// No constraints between `n` variables, and room for so many marks.
    pub fn new(alloc: Global, n: u32, marks: u32) -> Result<Matrix, AllocError>
        requires some { 1 ≤ n }
        requires few { n ≤ MAX_VARIABLES }
        requires few_marks { marks ≤ MAX_MARKS }
        ensures variables { IfOk result (λ m. m.bounds.n ≡ n) }
        ensures marks { IfOk result (λ m. m.marks ≡ marks) }
        ensures free { IfOk result (λ m. (x : ℕ → ℤ) → Satisfies m.bounds x) }
        ensures none_held { IfOk result (λ m. m.held ≡ []) }
    {
        let variables = n as usize;
        let bounds = ClosedBounds::new(alloc, variables)?;
        let mut copies = Vec::new(alloc);
        for _ in 0..marks {
            copies.push(ClosedBounds::new(alloc, variables)?)?;
        }
        Ok(Matrix {
            bounds,
            copies,
            held: 0,
        })
    }

    /// Adds the constraint `x_b <= x_a + most`, and returns whether some assignment satisfies all
    /// constraints. The marks stay as they are.
    pub fn bound(&mut self, a: u32, b: u32, most: i32) -> bool
        requires begins { a < self.old.bounds.n }
        requires ends { b < self.old.bounds.n }
        requires low { neg_ℤ (pos MAX_BOUND) ≤ℤ most }
        requires high { most ≤ℤ pos MAX_BOUND }
        requires holds { IsSatisfiable self.old.bounds }
        ensures adds { AddsBound self.old.bounds self.new.bounds a b most }
        ensures holds { IsTrue result ↔ IsSatisfiable self.new.bounds }
        ensures rest { self.new ≡ record self.old { bounds = self.new.bounds } }
    {
        self.bounds.bound(a as usize, b as usize, most)
    }

    /// Whether some assignment satisfies all constraints.
    pub fn holds(&self) -> bool
        ensures { IsTrue result ↔ IsSatisfiable self.now.bounds }
    {
        self.bounds.holds()
    }

    /// The tightest bound: the greatest `x_b - x_a` over all assignments that satisfy the
    /// constraints. `None` where there is no greatest.
    pub fn upper(&self, a: u32, b: u32) -> Option<i32>
        requires begins { a < self.now.bounds.n }
        requires ends { b < self.now.bounds.n }
        requires holds { IsSatisfiable self.now.bounds }
        ensures exact { MatchOption result
            (HasNoGreatest self.now.bounds a b) (IsGreatest self.now.bounds a b) }
        ensures small { IfSome result IsSmall }
    {
        self.bounds.upper(a as usize, b as usize)
    }

    /// The number of marks that are held.
    pub fn held(&self) -> u32
        ensures { result ≡ length self.now.held }
    {
        self.held
    }

    /// Marks the constraints as they are now.
    pub fn mark(&mut self)
        requires { length self.old.held < self.old.marks }
        ensures { self.new ≡ record self.old { held = self.old.bounds ∷ self.old.held } }
    {
        self.copies[self.held as usize].copy_from(&self.bounds);
        self.held += 1;
    }

    /// Brings back the constraints of the last mark, and gives that mark up.
    pub fn undo(&mut self)
        requires { 0 < length self.old.held }
        ensures last { self.old.held ≡ self.new.bounds ∷ self.new.held }
        ensures variables { self.new.bounds.n ≡ self.old.bounds.n }
        ensures marks { self.new.marks ≡ self.old.marks }
    {
        self.held -= 1;
        self.bounds.copy_from(&self.copies[self.held as usize]);
    }

    /// Fills `out` with the least assignment that has `x_0 = 0`: each variable is as small as it is in
    /// any such assignment that satisfies the constraints.
    pub fn solve_least(&self, out: &mut [i32])
        requires room { length out.old ≡ self.now.bounds.n }
        requires holds { IsSatisfiable self.now.bounds }
        requires bounded { (k : ℕ) → k < self.now.bounds.n → HasNoGreatest self.now.bounds k 0 → ⊥ }
        ensures { IsLeast self.now.bounds (assignment_of out.new) }
    {
        self.bounds.solve_least(out);
    }
}
