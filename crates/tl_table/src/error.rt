//! Why a tree has no table.

ghost use Rattle.std.specs.Prelude.{◌≡◌, alloc_error};

use std::alloc::{AllocError, AllocFailed};
use thiserror::Error;
use tl_grid::GridError;

/// Why a tree has no table.
#[derive(Debug, Drop, Error)]
pub enum FormError {
    /// 0: memory ran out.
    #[error("out of memory")]
    Memory(AllocError),
    /// 1: the table of this number has no grid, for this cause, and each table of a lesser number
    /// has one.
    #[error("table {0}: {1}")]
    Grid(u32, GridError),
}

impl From<AllocError> for FormError {
    ghost use Rattle.tl_table.specs.declared.error.FormError.TheVariants.{Memory};

    ghost from_gives = { λ _ e. e ≡ Memory alloc_error };

    fn from(_error: AllocError) -> FormError {
        FormError::Memory(AllocError)
    }
}

impl<T: Drop> From<AllocFailed<T>> for FormError {
    ghost use Rattle.tl_table.specs.declared.error.FormError.TheVariants.{Memory};

    ghost from_gives = { λ _ e. e ≡ Memory alloc_error };

    fn from(_error: AllocFailed<T>) -> FormError {
        FormError::Memory(AllocError)
    }
}
