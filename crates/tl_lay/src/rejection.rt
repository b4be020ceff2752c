//! Why a certificate is rejected.

ghost use Rattle.std.specs.Prelude.{◌≡◌};
ghost use Rattle.tl_lay.specs.Rejections.{text_rejection, step_rejection};

use tl_cert::CertError;
use tl_verify::Reject;

/// Why a certificate is rejected: its bytes are none, or it is not valid. Sections and lines are
/// counted from 0, sections over the whole certificate.
#[derive(Clone, Copy)]
pub enum Rejection {
    /// The bytes before this place, counted from 0, begin a certificate, and with the one at it none.
    Syntax(u32),
    /// The number that begins at this byte is outside its range.
    Range(u32),
    /// There are more bytes than a certificate may have.
    TooLong,
    /// The claim is for another page, style or budget, or has other numbers than the last section.
    Claim,
    /// The chains do not show what is claimed.
    Chain,
    /// The next section is not the one of this table that is due.
    Missing(u32),
    /// This section stands after all that are due.
    Extra(u32),
    /// This section has no tight placement of its height.
    Layout(u32),
    /// The trace of this section was not worked for the budget.
    Trace(u32),
    /// Of this section, the first number, the line of the log with the second is not good.
    Line(u32, u32),
}

/// Why bytes are no certificate, or `None` where memory ran out.
pub fn text_rejection(error: &CertError) -> Option<Rejection>
    ensures { result ≡ text_rejection error.now }
{
    match error {
        CertError::Memory(_) => None,
        CertError::Syntax(place) => Some(Rejection::Syntax(*place)),
        CertError::Range(place) => Some(Rejection::Range(*place)),
        CertError::TooLong => Some(Rejection::TooLong),
    }
}

/// Why a certificate is not valid, or `None` where memory ran out.
pub fn step_rejection(reject: Reject) -> Option<Rejection>
    ensures { result ≡ step_rejection reject }
{
    match reject {
        Reject::Memory(_) => None,
        Reject::Claim => Some(Rejection::Claim),
        Reject::Chain => Some(Rejection::Chain),
        Reject::Missing(table) => Some(Rejection::Missing(table)),
        Reject::Extra(section) => Some(Rejection::Extra(section)),
        Reject::Layout(section) => Some(Rejection::Layout(section)),
        Reject::Trace(section) => Some(Rejection::Trace(section)),
        Reject::Line(section, line) => Some(Rejection::Line(section, line)),
    }
}
