//! What kind of file a table is read from.

ghost use Rattle.std.specs.Prelude.{◌≡◌};
ghost use Rattle.tl_read.specs.Reading.{breaking_in, with_breaking};

use tl_base::Breaking;
use tl_floors::Floors;

/// What kind of file a table is read from, and how its text is broken into lines.
#[derive(Clone, Copy)]
pub enum Source {
    /// An HTML document with one table (docs/READING.md), its paragraphs broken so.
    Html(Breaking),
    /// A CSV file, each record a row and each field a cell (docs/READING.md), its paragraphs broken so.
    Csv {
        /// Whether the cells of the first record are header cells.
        head: bool,
        /// The least widths of the columns, from the first on; any other is 0.
        floors: Floors,
        breaking: Breaking,
    },
}

impl Source {
    /// How its paragraphs are broken into lines.
    pub fn breaking(self) -> Breaking
        ensures { result ≡ breaking_in self }
    {
        match self {
            Source::Html(breaking) => breaking,
            Source::Csv { breaking, .. } => breaking,
        }
    }

    /// The same file with its paragraphs broken so.
    pub fn with_breaking(self, breaking: Breaking) -> Source
        ensures { result ≡ with_breaking breaking self }
    {
        match self {
            Source::Html(_) => Source::Html(breaking),
            Source::Csv { head, floors, .. } => Source::Csv {
                head,
                floors,
                breaking,
            },
        }
    }
}
