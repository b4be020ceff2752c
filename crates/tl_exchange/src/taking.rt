//! Why what was to be taken was not.

ghost use Rattle.std.specs.Prelude.{◌≡◌};
ghost use Rattle.tl_exchange.specs.declared.taking.TakeError.TheVariants.{Failed, Memory};

use crate::exchange::ExchangeFault;
use std::alloc::{AllocError, AllocFailed};
use thiserror::Error;

/// Why a line or a file was not taken from an exchange.
#[derive(Clone, Copy, Debug, PartialEq, Eq, Error)]
pub enum TakeError {
    /// What came ended before it, or is none.
    #[error("cut off")]
    CutOff,
    /// The exchange failed.
    #[error("reading failed")]
    Failed,
    /// Out of memory.
    #[error("out of memory")]
    Memory,
}

impl From<AllocError> for TakeError {
    ghost from_gives = { λ _ error. error ≡ Memory };

    fn from(_: AllocError) -> TakeError {
        TakeError::Memory
    }
}

impl<T: Drop> From<AllocFailed<T>> for TakeError {
    ghost from_gives = { λ _ error. error ≡ Memory };

    fn from(_: AllocFailed<T>) -> TakeError {
        TakeError::Memory
    }
}

impl From<ExchangeFault> for TakeError {
    ghost from_gives = { λ _ error. error ≡ Failed };

    fn from(_: ExchangeFault) -> TakeError {
        TakeError::Failed
    }
}
