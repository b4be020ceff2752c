//! How a run ends that answers requests.

ghost use Rattle.std.specs.Prelude.{◌≡◌};

use tl_exchange::TakeError;

/// How a run ends that answers requests. The numbers are its exit statuses; a number that is missing is not used.
#[derive(Clone, Copy, Debug, PartialEq, Eq)]
pub enum Ending {
    /// The bytes ended where a request would begin.
    Done = 0,
    /// What came next is no request. That was answered.
    Usage = 2,
    /// As many requests as can be counted were answered.
    Limit = 6,
    /// The next request could not be read.
    ReadFault = 7,
    /// An answer could not be sent.
    WriteFault = 8,
    /// Out of memory for the line of a request.
    Memory = 9,
}

impl Ending {
    ghost use Rattle.tl_batch.specs.Endings.{ending_number};

    /// The exit status.
    pub fn number(self) -> u8
        ensures { result ≡ ending_number self }
    {
        self as u8
    }
}

impl From<TakeError> for Ending {
    ghost use Rattle.tl_batch.specs.Endings.{ending_of};

    ghost from_gives = { λ error ending. ending ≡ ending_of error };

    fn from(error: TakeError) -> Ending {
        match error {
            TakeError::CutOff => Ending::Usage,
            TakeError::Failed => Ending::ReadFault,
            TakeError::Memory => Ending::Memory,
        }
    }
}
