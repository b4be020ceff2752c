//! What may be wrong with records, and in which order it counts.

ghost use Rattle.std.specs.Prelude.{◌≡◌, ◌<◌, ◌≤◌, ◌^◌, ℕ, false, true, length, IfErr, OnOk, IsUtf8};
ghost use Rattle.std.specs.List.{All, Any, list_any};
ghost use Rattle.std.specs.Str.{chars};
ghost use Rattle.tl_token.specs.Characters.{is_control};
ghost use Rattle.tl_columns.specs.Records.{column_count, field_count};
ghost use Rattle.tl_columns.specs.Refused.{has_control, AreWithinLimits, IsFault, IsFirstFault, IsWellFormed, PassesLimit};

use crate::error::CsvError;
use crate::records::Record;
use std::str::from_utf8;
use tl_base::{MAX_CELLS, MAX_COLUMNS, MAX_ROWS};
use tl_token::is_control;

/// How many columns a table of the records has: as many as the first has fields.
pub(crate) fn column_count(records: &[Record]) -> usize
    ensures { result ≡ column_count records.now }
{
    match records.first() {
        Some(first) => first.len(),
        None => 0,
    }
}

/// How many fields the records have together.
fn field_count(records: &[Record]) -> usize
    requires { field_count records.now < 2 ^ 32 }
    ensures { result ≡ field_count records.now }
{
    records.iter().map(|fields| fields.len()).sum()
}

/// Whether each field is UTF-8.
fn is_text(fields: &Record) -> bool
    ensures yes { result ≡ true → All IsUtf8 fields.now }
    ensures no { result ≡ false → Any (λ field. ¬ (IsUtf8 field)) fields.now }
{
    for column in 0..fields.len() {
        if from_utf8(fields.field(column)).is_err() {
            return false;
        }
    }
    true
}

/// The text of a field.
pub(crate) fn text_of(field: &[u8]) -> &str
    requires { IsUtf8 field.now }
    ensures { result.now ≡ field.now }
{
    match from_utf8(field) {
        Ok(text) => text,
        Err(_) => unreachable!(),
    }
}

/// Whether the text has such a character.
fn has_control(text: &str) -> bool
    ensures { result ≡ list_any is_control (chars text.now) }
{
    text.chars().any(|c| is_control(c))
}

/// Whether no field has such a character.
fn is_clean(fields: &Record) -> bool
    requires { All IsUtf8 fields.now }
    ensures yes { result ≡ true → All (λ field. has_control field ≡ false) fields.now }
    ensures no { result ≡ false → Any (λ field. has_control field ≡ true) fields.now }
{
    for column in 0..fields.len() {
        if has_control(text_of(fields.field(column))) {
            return false;
        }
    }
    true
}

/// What is wrong with the record of this number in a table of so many columns, if anything is.
fn check_record(fields: &Record, number: u32, columns: usize) -> Result<(), CsvError>
    ensures ok { OnOk result (IsWellFormed columns fields.now) }
    ensures err { IfErr result (IsFault columns number fields.now) }
{
    if fields.len() != columns {
        return Err(CsvError::Uneven(number));
    }
    if !is_text(fields) {
        return Err(CsvError::NotUtf8(number));
    }
    if !is_clean(fields) {
        return Err(CsvError::BadCharacter(number));
    }
    Ok(())
}

/// What is wrong with the first record with which anything is.
pub(crate) fn check_records(records: &[Record]) -> Result<(), CsvError>
    requires { length records.now < 2 ^ 32 }
    ensures ok { OnOk result (All (IsWellFormed (column_count records.now)) records.now) }
    ensures err { IfErr result (IsFirstFault records.now) }
{
    let columns = column_count(records);
    for (number, fields) in records.iter().enumerate() {
        check_record(fields, number as u32, columns)?;
    }
    Ok(())
}

/// Which limit the records pass first, if they pass one.
pub(crate) fn check_limits(records: &[Record]) -> Result<(), CsvError>
    requires fields { field_count records.now < 2 ^ 32 }
    requires rows { length records.now < 2 ^ 32 }
    ensures ok { OnOk result (AreWithinLimits records.now) }
    ensures err { IfErr result (PassesLimit records.now) }
{
    let cells = field_count(records);
    if cells > MAX_CELLS {
        return Err(CsvError::TooManyCells(cells as u32));
    }
    let columns = column_count(records);
    if columns > MAX_COLUMNS {
        return Err(CsvError::TooManyColumns(columns as u32));
    }
    let rows = records.len();
    if rows > MAX_ROWS {
        return Err(CsvError::TooManyRows(rows as u32));
    }
    Ok(())
}
