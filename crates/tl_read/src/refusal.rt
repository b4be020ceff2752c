//! Why a file is refused.

ghost use Rattle.std.specs.Prelude.{◌≡◌};
ghost use Rattle.tl_read.specs.Refusals.{token_refusal, tree_refusal, grid_refusal, form_refusal, csv_refusal, token_place};

use tl_base::{MAX_DEPTH, MAX_TABLES};
use tl_columns::CsvError;
use tl_grid::GridError;
use tl_table::FormError;
use tl_token::{Token, TokenError};
use tl_tree::TreeError;

/// What is wrong with a file that is no document.
#[derive(Clone, Copy, PartialEq, Eq)]
pub enum Fault {
    NotUtf8,
    UnendedTag,
    UnendedComment,
    BadTag,
    UnknownElement,
    BadReference,
    BadCharacter,
    NoTable,
    StrayText,
    MisplacedTag,
    UnclosedTable,
}

/// What is wrong with a record of a CSV file.
#[derive(Clone, Copy, PartialEq, Eq)]
pub enum RecordFault {
    /// It has not as many fields as the first record.
    Uneven,
    /// One of its fields is not UTF-8.
    NotUtf8,
    /// One of its fields has a control character that no text of a table has.
    BadCharacter,
}

/// What is limited.
#[derive(Clone, Copy, PartialEq, Eq)]
pub enum Limit {
    /// The bytes of the file.
    File,
    /// The tables inside one another.
    Depth,
    /// The tables of the document.
    Tables,
    /// The cells of a table.
    Cells,
    /// The columns of a table.
    Columns,
    /// The rows of a table.
    Rows,
    /// The cuts that all searches may make together.
    Reach,
}

/// Why a file is refused.
#[derive(Clone, Copy, PartialEq, Eq)]
pub enum Refusal {
    /// It is no document, for what stands at this byte of it, counted from 0.
    BadInput(Fault, u32),
    /// Two cells cover one slot. The row and the column are counted from 0, before those in which no
    /// cell begins are left out.
    Overlap { table: u32, row: u32, column: u32 },
    /// So many are counted, more than the limit.
    Limit(Limit, u64),
    /// Its records are no table, for this one, counted from 0.
    BadRecord(RecordFault, u32),
}

/// Why tokens are not had, or `None` where memory ran out.
pub fn token_refusal(error: TokenError) -> Option<Refusal>
    ensures { result ≡ token_refusal error }
{
    match error {
        TokenError::Memory(_) => None,
        TokenError::NotUtf8(place) => Some(Refusal::BadInput(Fault::NotUtf8, place)),
        TokenError::UnendedTag(place) => Some(Refusal::BadInput(Fault::UnendedTag, place)),
        TokenError::UnendedComment(place) => Some(Refusal::BadInput(Fault::UnendedComment, place)),
        TokenError::BadTag(place) => Some(Refusal::BadInput(Fault::BadTag, place)),
        TokenError::UnknownElement(place) => Some(Refusal::BadInput(Fault::UnknownElement, place)),
        TokenError::BadReference(place) => Some(Refusal::BadInput(Fault::BadReference, place)),
        TokenError::BadCharacter(place) => Some(Refusal::BadInput(Fault::BadCharacter, place)),
    }
}

/// The first byte of the token with this number, 0 where there is none.
fn place_in(tokens: &[Token], index: u32) -> u32
    ensures { result ≡ token_place tokens.now index }
{
    match tokens.get(index as usize) {
        Some(token) => token.first,
        None => 0,
    }
}

/// Why the tokens of a file of `size` bytes are no tree, or `None` where memory ran out.
pub fn tree_refusal(size: u32, tokens: &[Token], error: TreeError) -> Option<Refusal>
    ensures { result ≡ tree_refusal size tokens.now error }
{
    match error {
        TreeError::Memory(_) => None,
        TreeError::NoTable => Some(Refusal::BadInput(Fault::NoTable, size)),
        TreeError::StrayText(index) => {
            Some(Refusal::BadInput(Fault::StrayText, place_in(tokens, index)))
        }
        TreeError::Misplaced(index) => {
            Some(Refusal::BadInput(Fault::MisplacedTag, place_in(tokens, index)))
        }
        TreeError::Unclosed => Some(Refusal::BadInput(Fault::UnclosedTable, size)),
        TreeError::TooDeep(_) => Some(Refusal::Limit(Limit::Depth, MAX_DEPTH as u64 + 1)),
        TreeError::TooManyTables(_) => Some(Refusal::Limit(Limit::Tables, MAX_TABLES as u64 + 1)),
    }
}

/// Why the table with this number has no grid, or `None` where memory ran out.
fn grid_refusal(table: u32, error: GridError) -> Option<Refusal>
    ensures { result ≡ grid_refusal table error }
{
    match error {
        GridError::Memory(_) => None,
        GridError::TooManyCells(count) => Some(Refusal::Limit(Limit::Cells, u64::from(count))),
        GridError::Overlap {
            first: _,
            second: _,
            x,
            y,
        } => Some(Refusal::Overlap {
            table,
            row: y,
            column: x,
        }),
        GridError::TooManyColumns(count) => Some(Refusal::Limit(Limit::Columns, u64::from(count))),
        GridError::TooManyRows(count) => Some(Refusal::Limit(Limit::Rows, u64::from(count))),
    }
}

/// Why a tree becomes no table, or `None` where memory ran out.
pub fn form_refusal(error: FormError) -> Option<Refusal>
    ensures { result ≡ form_refusal error }
{
    match error {
        FormError::Memory(_) => None,
        FormError::Grid(number, cause) => grid_refusal(number, cause),
    }
}

/// Why the records of a CSV file are no table, or `None` where memory ran out.
pub fn csv_refusal(error: CsvError) -> Option<Refusal>
    ensures { result ≡ csv_refusal error }
{
    match error {
        CsvError::Memory(_) => None,
        CsvError::Uneven(record) => Some(Refusal::BadRecord(RecordFault::Uneven, record)),
        CsvError::NotUtf8(record) => Some(Refusal::BadRecord(RecordFault::NotUtf8, record)),
        CsvError::BadCharacter(record) => {
            Some(Refusal::BadRecord(RecordFault::BadCharacter, record))
        }
        CsvError::TooManyCells(count) => Some(Refusal::Limit(Limit::Cells, u64::from(count))),
        CsvError::TooManyColumns(count) => Some(Refusal::Limit(Limit::Columns, u64::from(count))),
        CsvError::TooManyRows(count) => Some(Refusal::Limit(Limit::Rows, u64::from(count))),
    }
}
