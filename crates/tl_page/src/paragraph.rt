//! The lines of a paragraph in a cell.

ghost use Rattle.std.specs.Prelude.{◌≡◌, ◌+◌, ◌-◌, ◌*◌, ◌≤◌, ◌++◌, List, length, map, encode_utf8_all, OnOk, IfOk};
ghost use Rattle.std.specs.List.{All};
ghost use Rattle.tl_base.specs.Text.{byte_count};
ghost use Rattle.tl_page.specs.declared.line.TextLine.{TextLine as Shown};
ghost use Rattle.tl_text.specs.Cuttings.{line_width, HasCutting};
ghost use Rattle.tl_text.specs.Paragraph.{unit_width, atom_size};
ghost use Rattle.tl_text.specs.Words.{width_of};
ghost use Rattle.tl_page.specs.Pages.{AreParagraphLines, aligned, indent, line_from, line_text, text_of};
ghost use Rattle.tl_page.specs.Pictures.{spaces};
ghost use Rattle.tl_page.specs.inner.Lines.{gap_in_line, ranged};

use crate::line::{Room, TextLine};
use crate::picture::write_spaces;
use std::alloc::{AllocError, Global};
use tl_base::{List, MAX_FILE_BYTES, Text};
use tl_sides::Side;
use tl_text::{Atom, Para, TextError, word_width};

/// Puts the lines of a paragraph's greedy cutting, which are the fewest, after others, each at its side
/// of the room.
pub fn put_paragraph(
    alloc: Global,
    lines: &mut List<TextLine>,
    paragraph: &Para,
    room: Room,
) -> Result<(), AllocError>
    requires fit { HasCutting room.columns paragraph.now }
    ensures { OnOk result ((more : List Shown) × AreParagraphLines room.columns paragraph.now more
        × (lines.new ≡ lines.old ++ map (aligned room.side room.columns) more)) }
{
    let ranges = match tl_text::lines(alloc, paragraph, room.columns) {
        Ok(ranges) => ranges,
        Err(TextError::Memory(error)) => return Err(error),
        // The paragraph has a cutting in the room, so that no unit is wider.
        Err(TextError::TooWide(_)) => unreachable!(),
    };
    let atoms = paragraph.atoms();
    for range in ranges.as_slice() {
        let line = line_of(alloc, units_of(atoms, *range))?;
        lines.push(aligned(alloc, line, room)?)?;
    }
    Ok(())
}

/// The line with the spaces before it that bring it to its side of the room. One that needs none stays
/// as it is.
fn aligned(alloc: Global, line: TextLine, room: Room) -> Result<TextLine, AllocError>
    ensures { IfOk result (λ moved. moved ≡ aligned room.side room.columns line) }
{
    let before = indent(room, line.width);
    if before == 0 {
        return Ok(line);
    }
    let mut text = List::new(alloc);
    write_spaces(&mut text, before)?;
    text.extend_from_slice(line.text.as_slice())?;
    Ok(TextLine {
        text,
        width: before + line.width,
    })
}

/// How many spaces bring a line of `width` columns to its side of the room. In the middle the odd column
/// is left after the line.
fn indent(room: Room, width: u64) -> u64
    ensures spaces { result ≡ indent room.side room.columns width }
    ensures few { result ≤ room.columns - width }
{
    let free = u64::from(room.columns).saturating_sub(width);
    match room.side {
        Side::Left => 0,
        Side::Right => free,
        Side::Center => free / 2,
    }
}

/// Lends the atoms of a line.
fn units_of(atoms: &[Atom], line: tl_text::Line) -> &[Atom]
    requires begins { line.first ≤ line.past }
    requires ends { line.past ≤ length atoms.now }
    ensures { result.now ≡ ranged atoms.now line }
{
    &atoms[line.first as usize..line.past as usize]
}

/// The line of these units.
fn line_of(alloc: Global, units: &[Atom]) -> Result<TextLine, AllocError>
    requires few { length units.now ≤ MAX_FILE_BYTES }
    requires small { All (λ atom. atom_size atom ≤ MAX_FILE_BYTES) units.now }
    ensures { IfOk result (λ line. line ≡ line_from units.now) }
{
    let mut text = List::new(alloc);
    let width = write_units(&mut text, units)?;
    Ok(TextLine { text, width })
}

/// Writes the units of a line, and returns how many columns they take.
fn write_units(line: &mut List<u8>, units: &[Atom]) -> Result<u64, AllocError>
    requires few { length units.now ≤ MAX_FILE_BYTES }
    requires small { All (λ atom. atom_size atom ≤ MAX_FILE_BYTES) units.now }
    ensures text { OnOk result (line.new ≡ line.old ++ line_text units.now) }
    ensures width { IfOk result (λ columns. columns ≡ line_width units.now) }
{
    let mut columns: u64 = 0;
    for (at, unit) in units.iter().enumerate() {
        columns += u64::from(write_unit(line, unit, at)?);
    }
    Ok(columns)
}

/// Writes the unit at a place of a line, with the gap before it, and returns how many columns the
/// two take. A break takes none.
fn write_unit(line: &mut List<u8>, unit: &Atom, at: usize) -> Result<u32, AllocError>
    requires small { atom_size unit.now ≤ MAX_FILE_BYTES }
    ensures text { OnOk result (line.new ≡ line.old ++ (spaces (gap_in_line at unit.now) ++ text_of unit.now)) }
    ensures width { IfOk result (λ columns. columns ≡ gap_in_line at unit.now + unit_width unit.now) }
    ensures few { IfOk result (λ columns. columns ≤ 2 * MAX_FILE_BYTES + 1) }
{
    match unit {
        Atom::Word(text) => {
            if at == 0 {
                return write_text(line, text);
            }
            line.push(b' ')?;
            Ok(1 + write_text(line, text)?)
        }
        Atom::Glue(text) => write_text(line, text),
        Atom::Break => Ok(0),
    }
}

/// Writes the text of a unit, and returns its width.
fn write_text(line: &mut List<u8>, text: &Text) -> Result<u32, AllocError>
    requires small { byte_count text.now ≤ MAX_FILE_BYTES }
    ensures text { OnOk result (line.new ≡ line.old ++ encode_utf8_all text.now) }
    ensures width { IfOk result (λ columns. columns ≡ width_of text.now) }
    ensures few { IfOk result (λ columns. columns ≤ 2 * MAX_FILE_BYTES) }
{
    line.extend_from_slice(text.as_str().as_bytes())?;
    Ok(word_width(text))
}
