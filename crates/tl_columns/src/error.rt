//! Why a CSV file is no table.

ghost use Rattle.std.specs.Prelude.{◌≡◌, alloc_error};

use std::alloc::{AllocError, AllocFailed};
use thiserror::Error;

/// Why the records of a CSV file are no table. Records are numbered from 0. The first record with one
/// of the causes 1 to 3 counts, and of these the one with the least number; where there is none, the
/// first of the causes 4 to 6. Out of memory, 0, may be returned in place of each.
#[derive(Debug, Drop, Error)]
pub enum CsvError {
    /// 0: memory ran out.
    #[error("out of memory")]
    Memory(AllocError),
    /// 1: the record of this number has not as many fields as the first.
    #[error("uneven record at {0}")]
    Uneven(u32),
    /// 2: a field of the record of this number is not UTF-8.
    #[error("record not utf-8 at {0}")]
    NotUtf8(u32),
    /// 3: a field of the record of this number has a control character that no text of a table has:
    /// one below U+0020 that is no white space, or one from U+007F to U+009F.
    #[error("bad character in record at {0}")]
    BadCharacter(u32),
    /// 4: the records have this many fields, more than [`tl_base::MAX_CELLS`].
    #[error("{0} cells in a table")]
    TooManyCells(u32),
    /// 5: each record has this many fields, more than [`tl_base::MAX_COLUMNS`].
    #[error("{0} columns in a table")]
    TooManyColumns(u32),
    /// 6: there are this many records, more than [`tl_base::MAX_ROWS`].
    #[error("{0} rows in a table")]
    TooManyRows(u32),
}

impl From<AllocError> for CsvError {
    ghost use Rattle.tl_columns.specs.declared.error.CsvError.TheVariants.{Memory};

    ghost from_gives = { λ _ e. e ≡ Memory alloc_error };

    fn from(_error: AllocError) -> CsvError {
        CsvError::Memory(AllocError)
    }
}

impl<T: Drop> From<AllocFailed<T>> for CsvError {
    ghost use Rattle.tl_columns.specs.declared.error.CsvError.TheVariants.{Memory};

    ghost from_gives = { λ _ e. e ≡ Memory alloc_error };

    fn from(_error: AllocFailed<T>) -> CsvError {
        CsvError::Memory(AllocError)
    }
}
