//! A list of least widths.

ghost use Rattle.std.specs.Prelude.{◌≡◌, ◌<◌, ◌≤◌, ◌++◌, ◌∷◌, [], length};
ghost use Rattle.std.specs.List.{All};
ghost use Rattle.tl_base.specs.declared.limits.TheConstants.{MAX_COLUMNS, MAX_PAGE_WIDTH};

use std::marker::Model;
use tl_base::{MAX_COLUMNS, MAX_PAGE_WIDTH};

/// The least widths of the first columns of a table, in columns of the page: at most [`MAX_COLUMNS`]
/// numbers, each at most [`MAX_PAGE_WIDTH`]. Contracts see it as the list of these numbers.
#[derive(Clone, Copy)]
pub struct Floors {
    /// The numbers, and zeros behind them.
    numbers: [u32; MAX_COLUMNS],
    count: usize,
}

impl Model for Floors {
    ghost use Rattle.std.specs.Prelude.{◌≡◌, ◌≤◌, ℕ, List, length, take};
    ghost use Rattle.std.specs.List.{All};
    ghost use Rattle.std.proofs.Common.{length-take-le, subst, sym};
    ghost use Rattle.tl_base.specs.declared.limits.TheConstants.{MAX_COLUMNS, MAX_PAGE_WIDTH};
    ghost use Rattle.tl_floors.specs.inner.Padded.{padded};

    ghost Value = { List ℕ };

    ghost view = { λ it. take it.count it.numbers };

    ghost invariant = { λ it. (it.count ≤ MAX_COLUMNS) × (length it.numbers ≡ MAX_COLUMNS)
        × (it.numbers ≡ padded (take it.count it.numbers)) × All (λ floor. floor ≤ MAX_PAGE_WIDTH) (take it.count it.numbers) };

    ghost inverse = { λ floors. record { numbers = padded floors; count = length floors } };

    ghost inverse_ok = { λ it kept i. record {
      numbers = sym kept.2 i;
      count = length-take-le it.count it.numbers (subst (λ n. it.count ≤ n) (sym kept.1) kept.0) i;
    } };
}

impl Floors {
    /// No least width.
    pub fn none() -> Floors
        ensures { result ≡ [] }
    {
        Floors {
            numbers: [0; MAX_COLUMNS],
            count: 0,
        }
    }

    /// How many columns have one.
    pub fn len(&self) -> usize
        ensures { result ≡ length self.now }
    {
        self.count
    }

    /// These, and this one for the next column.
    pub fn with(&self, floor: u32) -> Floors
        requires room { length self.now < MAX_COLUMNS }
        requires narrow { floor ≤ MAX_PAGE_WIDTH }
        ensures { result ≡ self.now ++ floor ∷ [] }
    {
        let mut numbers = self.numbers;
        numbers[self.count] = floor;
        Floors {
            numbers,
            count: self.count + 1,
        }
    }

    /// Lends the numbers, the first column's first.
    pub fn as_slice(&self) -> &[u32]
        ensures numbers { result.now ≡ self.now }
        ensures few { length result.now ≤ MAX_COLUMNS }
        ensures narrow { All (λ floor. floor ≤ MAX_PAGE_WIDTH) result.now }
    {
        &self.numbers[..self.count]
    }
}
