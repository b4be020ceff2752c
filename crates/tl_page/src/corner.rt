//! The corners of a page: what is drawn where four slots meet.

ghost use Rattle.std.specs.Prelude.{◌≡◌};
ghost use Rattle.tl_page.specs.Corners.{is_same, is_one, corner_sign};

use crate::owner::Owner;
use crate::sign::sign_of;
use tl_base::Style;

/// The owners of the four slots around a place of the page. Inside a row or a column two of the slots
/// are the same, and inside a cell all four belong to it.
#[derive(Clone, Copy)]
pub struct Corner {
    pub up_left: Owner,
    pub up_right: Owner,
    pub down_left: Owner,
    pub down_right: Owner,
}

impl Corner {
    /// Whether all four slots have one owner, so that nothing is drawn between them.
    pub fn is_one(&self) -> bool
        ensures { result ≡ is_one self.now }
    {
        is_same(self.up_left, self.up_right)
            && is_same(self.up_left, self.down_left)
            && is_same(self.up_left, self.down_right)
    }

    /// The character that is drawn, which may be on the line under the head: a side of the corner is
    /// drawn where the slots on both its sides have different owners.
    pub fn sign(&self, style: Style, under: bool) -> char
        ensures { result ≡ corner_sign style under self.now }
    {
        let up = !is_same(self.up_left, self.up_right);
        let down = !is_same(self.down_left, self.down_right);
        let left = !is_same(self.up_left, self.down_left);
        let right = !is_same(self.up_right, self.down_right);
        sign_of(style, under, up, down, left, right)
    }
}

/// Whether both slots have one owner.
fn is_same(first: Owner, second: Owner) -> bool
    ensures { result ≡ is_same first second }
{
    match (first, second) {
        (Owner::Outside, Owner::Outside) => true,
        (Owner::Bare(column, row), Owner::Bare(other_column, other_row)) => {
            column == other_column && row == other_row
        }
        (Owner::Cell(number), Owner::Cell(other)) => number == other,
        _ => false,
    }
}
