//! Why a document is not read on.

use std::alloc::{AllocError, AllocFailed};

/// Why a document is not read on at a token.
#[derive(Drop)]
pub(crate) enum Stop {
    Memory(AllocError),
    /// No document goes on with the token.
    Misfit,
    TooDeep,
    TooManyTables,
}

impl From<AllocError> for Stop {
    ghost use Rattle.std.specs.Prelude.{◌≡◌};
    ghost use Rattle.tl_tree.specs.declared.stop.Stop.TheVariants.{Memory};

    ghost from_gives = { λ error given. given ≡ Memory error };

    fn from(error: AllocError) -> Stop {
        Stop::Memory(error)
    }
}

impl<T: Drop> From<AllocFailed<T>> for Stop {
    ghost use Rattle.std.specs.Prelude.{◌≡◌, alloc_error};
    ghost use Rattle.tl_tree.specs.declared.stop.Stop.TheVariants.{Memory};

    ghost from_gives = { λ _ given. given ≡ Memory alloc_error };

    fn from(_: AllocFailed<T>) -> Stop {
        Stop::Memory(AllocError)
    }
}
