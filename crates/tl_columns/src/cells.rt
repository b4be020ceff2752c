//! The cells of records: one for each field.

ghost use Rattle.std.specs.Prelude.{◌≡◌, ◌<◌, ◌≤◌, ◌+◌, ◌++◌, List, map, length, sum_by, IfOk, IsUtf8};
ghost use Rattle.std.specs.List.{All, AllZip};
ghost use Rattle.std.specs.Str.{chars};
ghost use Rattle.tl_base.specs.declared.limits.TheConstants.{MAX_COLUMNS, MAX_FILE_BYTES, MAX_ROWS};
ghost use Rattle.tl_text.specs.declared.paragraph.Atom.TheVariants.{Word};
ghost use Rattle.tl_text.specs.Paragraph.{IsParagraph};
ghost use Rattle.tl_text.specs.Words.{words_of};
ghost use Rattle.tl_table.specs.declared.cell.Content.{out-Content};
ghost use Rattle.tl_table.specs.declared.cell.TableCell.{TableCell, out-TableCell};
ghost use Rattle.tl_table.specs.Formed.{broken};
ghost use Rattle.tl_columns.specs.Columns.{blocks_of_words, floor_in, kind_in, placed_fields, placed_in, slot_in, IsFieldCell};
ghost use Rattle.tl_columns.specs.inner.Sizes.{record_size, AreOfFile};
ghost use Rattle.tl_columns.specs.Refused.{AreWithinLimits, IsWellFormed};
ghost use Rattle.tl_columns.specs.Records.{column_count};

use crate::checks::text_of;
use crate::records::Record;
use std::alloc::{AllocError, Global};
use tl_base::{Breaking, List, Text};
use tl_grid::Place;
use tl_table::{Content, Kind, TableCell, broken};
use tl_text::{Atom, Para, words};

/// How the fields of a file become cells.
#[derive(Drop)]
pub(crate) struct CellForm<'a> {
    /// Whether the cells of the first row are header cells.
    pub(crate) head: bool,
    /// The floors of the columns, in columns of text.
    pub(crate) least: &'a [u32],
    /// Which words may break.
    pub(crate) breaking: Breaking,
}

/// The words as atoms, each a unit that begins a word.
fn atoms_of(alloc: Global, words: List<Text>) -> Result<List<Atom>, AllocError>
    ensures { IfOk result (λ atoms. atoms ≡ map Word words) }
{
    let mut atoms = List::new(alloc);
    for word in words.into_vec() {
        atoms.push(Atom::Word(word))?;
    }
    Ok(atoms)
}

/// The paragraph of the words, broken so.
fn paragraph(alloc: Global, words: List<Text>, breaking: Breaking) -> Result<Para, AllocError>
    requires { IsParagraph (map Word words) }
    ensures { IfOk result (λ units. units ≡ broken breaking (map Word words)) }
{
    let atoms = atoms_of(alloc, words)?;
    let Some(whole) = Para::new(atoms) else {
        unreachable!()
    };
    broken(alloc, whole, breaking)
}

/// The blocks of a text: one paragraph of its words, or none where it has no word.
fn blocks(alloc: Global, text: &str, breaking: Breaking) -> Result<List<Content>, AllocError>
    requires { length text.now ≤ MAX_FILE_BYTES }
    ensures { IfOk result (λ blocks. map out-Content blocks ≡ blocks_of_words breaking (words_of (chars text.now))) }
{
    let mut blocks = List::new(alloc);
    let words = words(alloc, text)?;
    if words.is_empty() {
        return Ok(blocks);
    }
    let units = paragraph(alloc, words, breaking)?;
    blocks.push(Content::Para(units))?;
    Ok(blocks)
}

/// What the cells of the row are: header cells in the first row, where it is to be one.
fn kind_in(head: bool, row: u32) -> Kind
    ensures { result ≡ kind_in head row }
{
    if head && row == 0 {
        Kind::Head
    } else {
        Kind::Plain
    }
}

/// The floor of the cell in that row and column: only the first row has floors other than 0.
fn floor_in(least: &[u32], row: u32, column: u32) -> u32
    ensures { result ≡ floor_in least.now row column }
{
    if row != 0 {
        return 0;
    }
    match least.get(column as usize) {
        Some(floor) => *floor,
        None => 0,
    }
}

/// The slot in that row and column.
fn slot_in(row: u32, column: u32) -> Place
    requires rows { row < MAX_ROWS }
    requires columns { column < MAX_COLUMNS }
    ensures { result ≡ slot_in row column }
{
    Place {
        left: column,
        right: column + 1,
        top: row,
        bottom: row + 1,
    }
}

/// The cell of a field with this text in that row and column.
fn cell(
    alloc: Global,
    text: &str,
    row: u32,
    column: u32,
    form: &CellForm<'_>,
) -> Result<TableCell, AllocError>
    requires small { length text.now ≤ MAX_FILE_BYTES }
    requires rows { row < MAX_ROWS }
    requires columns { column < MAX_COLUMNS }
    ensures { IfOk result (λ cell. IsFieldCell form.now.head form.now.least.now form.now.breaking
        (record { row = row; column = column; field = text.now }) (out-TableCell cell)) }
{
    let blocks = blocks(alloc, text, form.breaking)?;
    Ok(TableCell {
        kind: kind_in(form.head, row),
        in_head: false,
        place: slot_in(row, column),
        least: floor_in(form.least, row, column),
        align: None,
        blocks,
    })
}

/// The cells of the record in that row, from left to right, after those before it.
fn row_cells(
    alloc: Global,
    fields: &Record,
    row: u32,
    form: &CellForm<'_>,
    mut cells: List<TableCell>,
) -> Result<List<TableCell>, AllocError>
    requires utf8 { All IsUtf8 fields.now }
    requires small { record_size fields.now ≤ MAX_FILE_BYTES + 1 }
    requires rows { row < MAX_ROWS }
    requires columns { length fields.now ≤ MAX_COLUMNS }
    ensures { IfOk result (λ after. (more : List TableCell) × (after ≡ cells ++ more)
        × AllZip (λ at cell. IsFieldCell form.now.head form.now.least.now form.now.breaking at (out-TableCell cell)) (placed_in row fields.now) more) }
{
    for column in 0..fields.len() {
        let text = text_of(fields.field(column));
        let made = cell(alloc, text, row, column as u32, form)?;
        cells.push(made)?;
    }
    Ok(cells)
}

/// The cells of the records, row by row.
pub(crate) fn cells_of(
    alloc: Global,
    records: &[Record],
    form: &CellForm<'_>,
) -> Result<List<TableCell>, AllocError>
    requires well_formed { All (IsWellFormed (column_count records.now)) records.now }
    requires limits { AreWithinLimits records.now }
    requires small { AreOfFile records.now }
    ensures { IfOk result (AllZip (λ at cell. IsFieldCell form.now.head form.now.least.now form.now.breaking at (out-TableCell cell))
        (placed_fields records.now)) }
{
    let mut cells = List::new(alloc);
    for (row, fields) in records.iter().enumerate() {
        cells = row_cells(alloc, fields, row as u32, form, cells)?;
    }
    Ok(cells)
}
