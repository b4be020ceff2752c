//! Why bytes are no certificate.

use std::alloc::{AllocError, AllocFailed};
use thiserror::Error;

/// Why bytes are no certificate. Places count bytes from 0. Too many bytes are refused first; of the
/// other two faults the earlier one is given.
#[derive(Debug, Drop, Error)]
pub enum CertError {
    /// Number 0: out of memory.
    #[error("out of memory")]
    Memory(AllocError),
    /// Number 1. The bytes before this place begin a certificate, and no certificate goes on with the
    /// byte at it, or with nothing where the bytes end there.
    #[error("syntax at {0}")]
    Syntax(u32),
    /// Number 2. The number that begins at this place is outside its range.
    #[error("range at {0}")]
    Range(u32),
    /// Number 3. There are more than [`tl_base::MAX_CERTIFICATE_BYTES`] bytes.
    #[error("too long")]
    TooLong,
}

impl From<AllocError> for CertError {
    ghost use Rattle.std.specs.Prelude.{◌≡◌};
    ghost use Rattle.tl_cert.specs.declared.error.CertError.TheVariants.{Memory};

    ghost from_gives = { λ error given. given ≡ Memory error };

    fn from(error: AllocError) -> CertError {
        CertError::Memory(error)
    }
}

impl<T: Drop> From<AllocFailed<T>> for CertError {
    ghost use Rattle.std.specs.Prelude.{◌≡◌, alloc_error};
    ghost use Rattle.tl_cert.specs.declared.error.CertError.TheVariants.{Memory};

    ghost from_gives = { λ _ given. given ≡ Memory alloc_error };

    fn from(_: AllocFailed<T>) -> CertError {
        CertError::Memory(AllocError)
    }
}
