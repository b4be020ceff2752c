//! Atoms as breaking sees them: columns and gaps.

ghost use Rattle.std.specs.Prelude.{◌≡◌, ◌*◌, ◌≤◌};
ghost use Rattle.tl_text.specs.inner.Measure.{measure_of, unit_columns};
ghost use Rattle.tl_text.specs.Paragraph.{atom_size};

use crate::{Atom, word_width};
use tl_base::MAX_FILE_BYTES;

/// An atom as breaking sees it.
#[derive(Clone, Copy)]
pub enum Measure {
    /// A unit: its width in columns, and the columns between it and a unit before it on its
    /// line.
    Columns { width: u32, gap: u32 },
    /// A forced end of a line.
    Break,
}

impl Measure {
    /// The columns of a unit; a break takes none.
    pub fn width(self) -> u32
        ensures { result ≡ unit_columns self }
    {
        match self {
            Measure::Columns { width, .. } => width,
            Measure::Break => 0,
        }
    }
}

/// Measures one atom.
pub fn measured(atom: &Atom) -> Measure
    requires { atom_size atom.now ≤ MAX_FILE_BYTES }
    ensures measure { result ≡ measure_of atom.now }
    ensures bytes { unit_columns result ≤ 2 * atom_size atom.now }
{
    match atom {
        Atom::Word(text) => Measure::Columns {
            width: word_width(text),
            gap: 1,
        },
        Atom::Glue(text) => Measure::Columns {
            width: word_width(text),
            gap: 0,
        },
        Atom::Break => Measure::Break,
    }
}
