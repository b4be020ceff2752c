//! The ways in which a table is drawn.

use crate::spacing::Spacing;

/// How a table is drawn.
#[derive(Clone, Copy, Debug, PartialEq, Eq)]
pub enum Style {
    /// Two spaces between columns, and nothing else.
    Plain,
    /// One space between columns, and nothing else.
    Compact,
    /// A line of `|`, `-` and `+` between columns and rows and round the table.
    Frame,
    /// As [`Style::Frame`], with `=` under the head of the table.
    Grid,
    /// As [`Style::Frame`], with the box drawing characters of Unicode, double under the head.
    Box,
    /// As [`Style::Compact`], with a line of `-` under the head of the table.
    Rule,
    /// As [`Style::Rule`], with an empty line between any two rows below the head.
    Apart,
}

impl Style {
    ghost use Rattle.std.specs.Prelude.{◌≡◌};
    ghost use Rattle.tl_base.specs.Style.{gap_of, row_gap_of, edge_of, edges_of, spacing_of};

    /// The columns of text between two columns of the table.
    pub fn gap(self) -> u32
        ensures { result ≡ gap_of self }
    {
        match self {
            Style::Plain => 2,
            Style::Compact | Style::Frame | Style::Grid | Style::Box | Style::Rule | Style::Apart =>
                1,
        }
    }

    /// The lines between any two rows of the table.
    pub fn row_gap(self) -> u32
        ensures { result ≡ row_gap_of self }
    {
        match self {
            Style::Plain | Style::Compact | Style::Rule | Style::Apart => 0,
            Style::Frame | Style::Grid | Style::Box => 1,
        }
    }

    /// The columns, and the lines, that each outer edge of the table takes.
    pub fn edge(self) -> u32
        ensures { result ≡ edge_of self }
    {
        match self {
            Style::Plain | Style::Compact | Style::Rule | Style::Apart => 0,
            Style::Frame | Style::Grid | Style::Box => 1,
        }
    }

    /// The columns, and the lines, that both outer edges of the table take together.
    pub fn edges(self) -> u32
        ensures { result ≡ edges_of self }
    {
        2 * self.edge()
    }

    /// How far the columns and rows of a table stand apart, with so many lines beside its rows and the
    /// gaps between them: all that layouts see of a style.
    pub fn spacing(self, lines: u32) -> Spacing
        ensures { result ≡ spacing_of self lines }
    {
        Spacing {
            gap: self.gap(),
            row_gap: self.row_gap(),
            edges: self.edges(),
            lines,
        }
    }
}
