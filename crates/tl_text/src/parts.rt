//! Paragraphs in which only the words wider than a number of columns may be broken.

ghost use Rattle.std.specs.Prelude.{◌≡◌, ◌++◌, ◌≤◌, true, Option, IfOk, OnOk};
ghost use Rattle.std.specs.List.{All, flat_map};
ghost use Rattle.tl_base.specs.Text.{byte_count};
ghost use Rattle.tl_text.specs.Clusters.{word_of, clusters_of};
ghost use Rattle.tl_text.specs.Paragraph.{atom_size};
ghost use Rattle.tl_text.specs.Parts as spec;

use crate::word::push_word;
use crate::{Atom, Para, word_width};
use std::alloc::{AllocError, Global};
use tl_base::{List, MAX_FILE_BYTES, Text};
use unicode_segmentation::UnicodeSegmentation;

/// The paragraph with each word of more than `most` columns in its pieces, so that a line may end
/// after any of them: the first piece is a Word, the others are Glues. Such a word is parted after
/// each of the marks `-/_.,:;=?&+#@%` that an ASCII letter or digit follows, but not after a `.`, `,`
/// or `:` between two digits. A part of more than `most` columns is separated into its extended
/// grapheme clusters (Unicode Standard Annex #29). With 0 each word is, whatever its width.
/// Glues and breaks stay as they are, and no mark is added.
///
/// The time grows with the number of bytes alone.
pub fn part(alloc: Global, p: &Para, most: u32) -> Result<Para, AllocError>
    ensures { IfOk result (λ units. units ≡ spec.broken_above most p.now) }
{
    let atoms = p.atoms();
    let mut units = List::new(alloc);
    for atom in atoms {
        push_units(alloc, &mut units, atom, most)?;
    }
    Ok(Para::of_units(units))
}

/// Puts the units of the atom at the end.
fn push_units(
    alloc: Global,
    units: &mut List<Atom>,
    atom: &Atom,
    most: u32,
) -> Result<(), AllocError>
    requires { atom_size atom.now ≤ MAX_FILE_BYTES }
    ensures { OnOk result (units.new ≡ units.old ++ spec.units_within most atom.now) }
{
    match atom {
        Atom::Word(word) => push_as_word(units, word_pieces(alloc, word, most)?)?,
        Atom::Glue(text) => units.push(Atom::Glue(Text::from_str(alloc, text.as_str())?))?,
        Atom::Break => units.push(Atom::Break)?,
    }
    Ok(())
}

/// Puts a word of these pieces at the end.
fn push_as_word(units: &mut List<Atom>, pieces: List<Text>) -> Result<(), AllocError>
    ensures { OnOk result (units.new ≡ units.old ++ word_of pieces) }
{
    let mut begins = true;
    for piece in pieces.into_vec() {
        let unit = if begins {
            Atom::Word(piece)
        } else {
            Atom::Glue(piece)
        };
        units.push(unit)?;
        begins = false;
    }
    Ok(())
}

/// The pieces of a word, in order.
fn word_pieces(alloc: Global, word: &Text, most: u32) -> Result<List<Text>, AllocError>
    requires { byte_count word.now ≤ MAX_FILE_BYTES }
    ensures { IfOk result (λ pieces. pieces ≡ spec.word_pieces most word.now) }
{
    let mut pieces = List::new(alloc);
    if stays_whole(word, most) {
        pieces.push(Text::from_str(alloc, word.as_str())?)?;
        return Ok(pieces);
    }
    for part in parts(alloc, word)?.into_vec() {
        push_pieces(alloc, &mut pieces, part, most)?;
    }
    Ok(pieces)
}

/// Puts the pieces of a part at the end.
fn push_pieces(
    alloc: Global,
    pieces: &mut List<Text>,
    part: Text,
    most: u32,
) -> Result<(), AllocError>
    requires { byte_count part ≤ MAX_FILE_BYTES }
    ensures { OnOk result (pieces.new ≡ pieces.old ++ spec.part_pieces most part) }
{
    if stays_whole(&part, most) {
        pieces.push(part)?;
        return Ok(());
    }
    push_clusters(alloc, pieces, &part)
}

/// Puts the clusters of a text at the end.
fn push_clusters(alloc: Global, pieces: &mut List<Text>, text: &Text) -> Result<(), AllocError>
    ensures { OnOk result (pieces.new ≡ pieces.old ++ clusters_of text.now) }
{
    for cluster in text.as_str().graphemes(true) {
        pieces.push(Text::from_str(alloc, cluster)?)?;
    }
    Ok(())
}

/// Whether a text of this width stays whole.
fn stays_whole(text: &Text, most: u32) -> bool
    requires { byte_count text.now ≤ MAX_FILE_BYTES }
    ensures { result ≡ spec.stays_whole most text.now }
{
    most > 0 && word_width(text) <= most
}

/// The parts of a word, in order.
fn parts(alloc: Global, word: &Text) -> Result<List<Text>, AllocError>
    requires { byte_count word.now ≤ MAX_FILE_BYTES }
    ensures parts { IfOk result (λ list. list ≡ spec.parts_of word.now) }
    ensures small { IfOk result (λ list. All (λ part. byte_count part ≤ MAX_FILE_BYTES) list) }
{
    let mut parts = List::new(alloc);
    let mut part = String::new(alloc);
    let mut previous = None;
    let mut last = None;
    for c in word.as_str().chars() {
        if parts_between(previous, last, c) {
            parts.push(Text::from_string(part))?;
            part = String::new(alloc);
        }
        part.push(c)?;
        previous = last;
        last = Some(c);
    }
    push_word(&mut parts, part)?;
    Ok(parts)
}

/// Whether a part ends between the last character and the next, where `previous` stands before both.
fn parts_between(previous: Option<char>, last: Option<char>, next: char) -> bool
    ensures { result ≡ spec.parts_between previous last next }
{
    let Some(mark) = last else {
        return false;
    };
    is_mark(mark)
        && next.is_ascii_alphanumeric()
        && !(is_point(mark) && is_digit(previous) && next.is_ascii_digit())
}

/// Whether a word may be parted after the character.
fn is_mark(c: char) -> bool
    ensures { result ≡ spec.is_mark c }
{
    matches!(
        c,
        '-' | '/' | '_' | '.' | ',' | ':' | ';' | '=' | '?' | '&' | '+' | '#' | '@' | '%'
    )
}

/// Whether the mark stands between the digits of a number or a time.
fn is_point(c: char) -> bool
    ensures { result ≡ spec.is_point c }
{
    matches!(c, '.' | ',' | ':')
}

/// Whether the character is there, and a digit.
fn is_digit(c: Option<char>) -> bool
    ensures { result ≡ spec.is_digit c }
{
    c.is_some_and(|c| c.is_ascii_digit())
}
