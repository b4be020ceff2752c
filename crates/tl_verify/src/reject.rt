//! Why a certificate is refused.

ghost use Rattle.std.specs.Prelude.{◌≡◌, alloc_error};

use std::alloc::{AllocError, AllocFailed};
use thiserror::Error;

/// The first step of judging a certificate that fails. Sections go by their place in the certificate,
/// from 0, and lines by their place in the log.
#[derive(Debug, Drop, Error)]
pub enum Reject {
    /// 0: memory ran out.
    #[error("out of memory")]
    Memory(AllocError),
    /// 1: the certificate is for another page, style or budget, or claims what its proof does not show.
    #[error("claim")]
    Claim,
    /// 2: the chains are not those of the table, or weigh other than is claimed.
    #[error("chain")]
    Chain,
    /// 3: the next section is not the one of this table that is due.
    #[error("missing section of table {0}")]
    Missing(u32),
    /// 4: this section stands after all that are due.
    #[error("extra section {0}")]
    Extra(u32),
    /// 5: this section has no tight placement of its height.
    #[error("layout of section {0}")]
    Layout(u32),
    /// 6: the trace of this section was not worked for the budget.
    #[error("trace of section {0}")]
    Trace(u32),
    /// 7: the log of this section is not good; the line is the second number.
    #[error("line {1} of section {0}")]
    Line(u32, u32),
}

impl From<AllocError> for Reject {
    ghost use Rattle.tl_verify.specs.declared.reject.Reject.TheVariants.{Memory};

    ghost from_gives = { λ _ e. e ≡ Memory alloc_error };

    fn from(_error: AllocError) -> Reject {
        Reject::Memory(AllocError)
    }
}

impl<T: Drop> From<AllocFailed<T>> for Reject {
    ghost use Rattle.tl_verify.specs.declared.reject.Reject.TheVariants.{Memory};

    ghost from_gives = { λ _ e. e ≡ Memory alloc_error };

    fn from(_error: AllocFailed<T>) -> Reject {
        Reject::Memory(AllocError)
    }
}
