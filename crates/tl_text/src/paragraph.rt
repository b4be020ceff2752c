//! Paragraphs: which lists of units and breaks are one.

ghost use Rattle.std.specs.Prelude.{◌≡◌, ◌↔◌, ◌≤◌, IsTrue, SomeIff, length, sum_by};
ghost use Rattle.std.specs.Char.{is_ascii_whitespace};
ghost use Rattle.std.specs.List.{All, list_any};
ghost use Rattle.std.specs.Str.{chars};
ghost use Rattle.tl_text.specs.Paragraph.{IsParagraph, IsSolid, IsSpeltAtom, atom_size, has_leading_glue};

use std::marker::Model;
use tl_base::{List, MAX_FILE_BYTES, Text};

/// What a paragraph is made of.
#[derive(Debug, Drop)]
pub enum Atom {
    /// A unit that begins a word.
    Word(Text),
    /// A unit that goes on with the word before it. It is *not* separated from the unit before it:
    /// no gap stands between the two. (TeX uses the word glue for the stretchable gap itself.)
    Glue(Text),
    /// A forced end of a line, as `<br>` makes it.
    Break,
}

/// A paragraph: units and breaks, at least one. Contracts see it as the list of its atoms.
#[derive(Debug, Drop)]
pub struct Para {
    atoms: List<Atom>,
}

impl Model for Para {
    ghost use Rattle.std.specs.Prelude.{List};
    ghost use Rattle.tl_text.specs.declared.paragraph.Atom.{Atom};

    ghost Value = { List Atom };

    ghost use Rattle.tl_text.specs.Paragraph.{IsParagraph};

    ghost view = { λ para. para.atoms };

    ghost invariant = { λ para. IsParagraph para.atoms };
}

impl Para {
    /// A paragraph of these atoms. `None` exactly where there is no atom, a piece (the units
    /// before, between or after breaks) begins with a Glue, a Word or a Glue is empty or has ASCII
    /// white space, or the bytes of all units and the number of breaks sum to more than `MAX_FILE_BYTES`.
    pub fn new(atoms: List<Atom>) -> Option<Para>
        ensures { SomeIff result (IsParagraph atoms) atoms }
    {
        if is_paragraph(atoms.as_slice()) {
            Some(Para { atoms })
        } else {
            None
        }
    }

    /// The paragraph of these atoms, which are known to be one.
    pub(crate) fn of_units(atoms: List<Atom>) -> Para
        requires { IsParagraph atoms }
        ensures { result ≡ atoms }
    {
        Para { atoms }
    }

    /// Lends the atoms, in order.
    pub fn atoms(&self) -> &[Atom]
        ensures atoms { result.now ≡ self.now }
        ensures sound { IsParagraph self.now }
        ensures few { length result.now ≤ MAX_FILE_BYTES }
        ensures small { All (λ atom. atom_size atom ≤ MAX_FILE_BYTES) result.now }
    {
        self.atoms.as_slice()
    }
}

/// Whether the atoms are a paragraph.
fn is_paragraph(atoms: &[Atom]) -> bool
    ensures { IsTrue result ↔ IsParagraph atoms.now }
{
    !atoms.is_empty()
        && !has_leading_glue(atoms)
        && atoms.iter().all(is_spelt)
        && is_in_limit(atoms)
}

/// Whether a piece begins with a Glue.
fn has_leading_glue(atoms: &[Atom]) -> bool
    ensures { result ≡ has_leading_glue atoms.now }
{
    let mut piece_begins = true;
    for atom in atoms {
        if piece_begins && matches!(atom, Atom::Glue(_)) {
            return true;
        }
        piece_begins = matches!(atom, Atom::Break);
    }
    false
}

/// Whether a unit has a text without white space.
fn is_spelt(atom: &Atom) -> bool
    ensures { IsTrue result ↔ IsSpeltAtom atom.now }
{
    match atom {
        Atom::Word(text) | Atom::Glue(text) => is_solid(text.as_str()),
        Atom::Break => true,
    }
}

/// Whether the text has a character, and none that is ASCII white space.
fn is_solid(text: &str) -> bool
    ensures { IsTrue result ↔ IsSolid (chars text.now) }
{
    !text.is_empty() && !has_white_space(text)
}

/// Whether the text has ASCII white space.
fn has_white_space(text: &str) -> bool
    ensures { result ≡ list_any is_ascii_whitespace (chars text.now) }
{
    text.chars().any(|c| c.is_ascii_whitespace())
}

/// Whether the bytes of the units and the number of the breaks are at most `MAX_FILE_BYTES` together.
fn is_in_limit(atoms: &[Atom]) -> bool
    ensures { IsTrue result ↔ (sum_by atom_size atoms.now ≤ MAX_FILE_BYTES) }
{
    let mut left = MAX_FILE_BYTES;
    for atom in atoms {
        let size = size_of(atom);
        if size > left {
            return false;
        }
        left -= size;
    }
    true
}

/// What the atom counts towards a paragraph's size: a unit its bytes, a break 1.
fn size_of(atom: &Atom) -> usize
    ensures { result ≡ atom_size atom.now }
{
    match atom {
        Atom::Word(text) | Atom::Glue(text) => text.len(),
        Atom::Break => 1,
    }
}
