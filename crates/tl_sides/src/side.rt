//! Sides, and a list of them.

ghost use Rattle.std.specs.Prelude.{◌≡◌, ◌<◌, ◌≤◌, ◌++◌, ◌∷◌, [], length};
ghost use Rattle.tl_base.specs.declared.limits.TheConstants.{MAX_COLUMNS};

use std::marker::Model;
use tl_base::MAX_COLUMNS;

/// On which side of its cell a line stands.
#[derive(Clone, Copy, Debug, PartialEq, Eq)]
pub enum Side {
    /// At the left edge, with the columns that are left over after it.
    Left,
    /// At the right edge, with the columns that are left over before it.
    Right,
    /// In the middle, with half of the columns that are left over on each side.
    Center,
}

/// The sides of the first columns of a table: at most [`MAX_COLUMNS`] of them. Contracts see it as the
/// list of these sides.
#[derive(Clone, Copy)]
pub struct Sides {
    /// The sides, and lefts behind them.
    sides: [Side; MAX_COLUMNS],
    count: usize,
}

impl Model for Sides {
    ghost use Rattle.std.specs.Prelude.{◌≡◌, ◌≤◌, List, length, take};
    ghost use Rattle.std.proofs.Common.{length-take-le, subst, sym};
    ghost use Rattle.tl_base.specs.declared.limits.TheConstants.{MAX_COLUMNS};
    ghost use Rattle.tl_sides.specs.declared.side.Side.{Side};
    ghost use Rattle.tl_sides.specs.inner.Padded.{padded};

    ghost Value = { List Side };

    ghost view = { λ it. take it.count it.sides };

    ghost invariant = { λ it. (it.count ≤ MAX_COLUMNS) × (length it.sides ≡ MAX_COLUMNS)
        × (it.sides ≡ padded (take it.count it.sides)) };

    ghost inverse = { λ sides. record { sides = padded sides; count = length sides } };

    ghost inverse_ok = { λ it kept i. record {
      sides = sym kept.2 i;
      count = length-take-le it.count it.sides (subst (λ n. it.count ≤ n) (sym kept.1) kept.0) i;
    } };
}

impl Sides {
    /// No side.
    pub fn none() -> Sides
        ensures { result ≡ [] }
    {
        Sides {
            sides: [Side::Left; MAX_COLUMNS],
            count: 0,
        }
    }

    /// How many columns have one.
    pub fn len(&self) -> usize
        ensures { result ≡ length self.now }
    {
        self.count
    }

    /// These, and this one for the next column.
    pub fn with(&self, side: Side) -> Sides
        requires { length self.now < MAX_COLUMNS }
        ensures { result ≡ self.now ++ side ∷ [] }
    {
        let mut sides = self.sides;
        sides[self.count] = side;
        Sides {
            sides,
            count: self.count + 1,
        }
    }

    /// Lends the sides, the first column's first.
    pub fn as_slice(&self) -> &[Side]
        ensures sides { result.now ≡ self.now }
        ensures few { length result.now ≤ MAX_COLUMNS }
    {
        &self.sides[..self.count]
    }
}
