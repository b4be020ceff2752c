//! Why a table has no grid.

ghost use Rattle.std.specs.Prelude.{◌≡◌, alloc_error};

use std::alloc::{AllocError, AllocFailed};
use thiserror::Error;

/// Why a table has no grid. The causes are numbered: of those that hold, that with the least number
/// is returned, or 0, out of memory, in place of it.
#[derive(Debug, Drop, Error)]
pub enum GridError {
    /// 0: memory ran out.
    #[error("out of memory")]
    Memory(AllocError),
    /// 1: the table has this many cells, more than [`tl_base::MAX_CELLS`].
    #[error("{0} cells in a table")]
    TooManyCells(u32),
    /// 2: two cells cover the slot in column `x` and row `y`, both counted from 0 before columns
    /// and rows are dropped. It is the first such slot, row by row and in a row from the left. The
    /// cells are the first two that were formed of those over it, in that order, each given by its
    /// number in the order of the cells as written, counted from 0 over the whole table. Cells that
    /// overlap are of one row group, where they are formed in the order in which they are written.
    #[error("cells {first} and {second} overlap at row {y} column {x}")]
    Overlap {
        first: u32,
        second: u32,
        x: u32,
        y: u32,
    },
    /// 3: in this many columns a cell is anchored, more than [`tl_base::MAX_COLUMNS`].
    #[error("{0} columns in a table")]
    TooManyColumns(u32),
    /// 4: in this many rows a cell is anchored, more than [`tl_base::MAX_ROWS`].
    #[error("{0} rows in a table")]
    TooManyRows(u32),
}

impl From<AllocError> for GridError {
    ghost use Rattle.tl_grid.specs.declared.error.GridError.TheVariants.{Memory};

    ghost from_gives = { λ _ e. e ≡ Memory alloc_error };

    fn from(_error: AllocError) -> GridError {
        GridError::Memory(AllocError)
    }
}

impl<T: Drop> From<AllocFailed<T>> for GridError {
    ghost use Rattle.tl_grid.specs.declared.error.GridError.TheVariants.{Memory};

    ghost from_gives = { λ _ e. e ≡ Memory alloc_error };

    fn from(_error: AllocFailed<T>) -> GridError {
        GridError::Memory(AllocError)
    }
}
