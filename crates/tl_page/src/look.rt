//! How a page looks.

use tl_base::Style;
use tl_sides::Align;

/// How a page looks: all that drawing sees beside the table and its layout.
#[derive(Clone, Copy)]
pub struct Look {
    /// The signs and the gaps between the cells.
    pub style: Style,
    /// On which side of its cell each line of a paragraph stands.
    pub align: Align,
}
