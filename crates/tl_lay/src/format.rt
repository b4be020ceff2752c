//! How a page is written.

use tl_sides::Align;

/// How a page is written.
#[derive(Clone, Copy)]
pub enum Format {
    /// As text, as it is laid out, with the lines of its cells on these sides: every line is as wide as
    /// the layout.
    Text(Align),
    /// As text without the spaces at the ends of lines.
    Trimmed(Align),
    /// As HTML, with the widths of its columns.
    Html,
}
