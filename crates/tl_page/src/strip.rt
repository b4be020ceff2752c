//! The strips that a page is cut into along one axis, and the gaps between its slots.

ghost use Rattle.std.specs.Prelude.{◌≡◌, ◌+◌, ◌≤◌};
ghost use Rattle.tl_page.specs.Strips.{even, gap_after, is_lined};

/// After which slots of an axis, counted from 1, a line of its own stands.
#[derive(Clone, Copy)]
pub enum Lined {
    /// After none.
    No,
    /// After this one alone.
    After(u32),
    /// After this one and each past it.
    From(u32),
}

impl Lined {
    /// Whether a line of its own stands after the slot.
    fn is_after(self, slot: u32) -> bool
        ensures { result ≡ is_lined self slot }
    {
        match self {
            Lined::No => false,
            Lined::After(one) => one == slot,
            Lined::From(first) => first <= slot,
        }
    }
}

/// How far the slots of an axis stand apart.
#[derive(Clone, Copy)]
pub struct Gaps {
    /// So many columns or lines between any two.
    pub between: u32,
    /// Where there is one more, for a line.
    pub lined: Lined,
}

impl Gaps {
    /// Gaps that are all the same.
    pub fn even(between: u32) -> Gaps
        ensures { result ≡ even between }
    {
        Gaps {
            between,
            lined: Lined::No,
        }
    }

    /// The gap between the slot and the next one.
    pub fn after(&self, slot: u32) -> u32
        requires { self.now.between ≤ 2 }
        ensures gap { result ≡ gap_after self.now slot }
        ensures small { result ≤ self.now.between + 1 }
    {
        if self.lined.is_after(slot) {
            self.between + 1
        } else {
            self.between
        }
    }
}

/// A strip of a page: the columns of the page (or its lines) that lie in one column of the grid (or
/// one row), or between two neighbouring ones, where a gap or an edge is.
#[derive(Clone, Copy, PartialEq, Eq)]
pub struct Strip {
    /// The slot on its near side, counted from 1, with 0 for the outside.
    pub before: u32,
    /// The slot on its far side, which is the same one where the strip lies in a slot.
    pub after: u32,
    /// The first column or line of the page, counted from 0.
    pub from: u32,
    /// How many columns or lines it has.
    pub size: u32,
}
