//! How a user asks for the side of each cell.

use crate::side::Sides;

/// On which side the lines of the cells stand. A cell of one column stands as its column does, a header
/// cell too; a cell over several columns and a caption stay left.
#[derive(Clone, Copy)]
pub enum Align {
    /// A side for each of the first columns, and the left for all further ones. The same list holds for
    /// nested tables. Without a side all cells stay left.
    Columns(Sides),
    /// The right for each column of numbers, and the left for all others. A column is one of numbers if
    /// it has a cell of one column below the head with text, and all of these cells are numbers: at most
    /// one of `-`, `+`, `$`, `¢`, `£`, `¥` and `€`, then digits with single separators `.`, `,`, `'` or
    /// `_` between two of them, then at most a `%` or an exponent.
    Auto,
    /// As [`Align::Auto`], but a cell that asks for a side by its attribute `align` stands there, also where
    /// it is over several columns.
    Cells,
}
