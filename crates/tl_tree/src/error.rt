//! Why tokens are no document.

use std::alloc::{AllocError, AllocFailed};
use thiserror::Error;

/// Why tokens are no document. Each number is that of a token, counted from 0; the tokens before it
/// begin a document.
#[derive(Debug, Drop, Error)]
pub enum TreeError {
    /// Number 0: out of memory.
    #[error("out of memory")]
    Memory(AllocError),
    /// Number 1. The tokens have no table.
    #[error("no table")]
    NoTable,
    /// Number 2. A text where no document has one.
    #[error("stray text at token {0}")]
    StrayText(u32),
    /// Number 3. A tag where no document has it.
    #[error("misplaced tag at token {0}")]
    Misplaced(u32),
    /// Number 4. The tokens end inside a table.
    #[error("unclosed table")]
    Unclosed,
    /// Number 5. A `table` start tag inside `MAX_DEPTH` tables.
    #[error("tables too deep at token {0}")]
    TooDeep(u32),
    /// Number 6. A `table` start tag after `MAX_TABLES` others.
    #[error("too many tables at token {0}")]
    TooManyTables(u32),
}

impl From<AllocError> for TreeError {
    ghost use Rattle.std.specs.Prelude.{◌≡◌};
    ghost use Rattle.tl_tree.specs.declared.error.TreeError.TheVariants.{Memory};

    ghost from_gives = { λ error given. given ≡ Memory error };

    fn from(error: AllocError) -> TreeError {
        TreeError::Memory(error)
    }
}

impl<T: Drop> From<AllocFailed<T>> for TreeError {
    ghost use Rattle.std.specs.Prelude.{◌≡◌, alloc_error};
    ghost use Rattle.tl_tree.specs.declared.error.TreeError.TheVariants.{Memory};

    ghost from_gives = { λ _ given. given ≡ Memory alloc_error };

    fn from(_: AllocFailed<T>) -> TreeError {
        TreeError::Memory(AllocError)
    }
}
