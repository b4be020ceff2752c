//! The claim of a certificate: what it is for, and whether it has the numbers of the last section.

ghost use Rattle.std.specs.Prelude.{◌<◌, IsTrue, ◌↔◌, length};
ghost use Rattle.tl_cert.specs.Text.{IsNarrow};
ghost use Rattle.tl_form.specs.Valid.{EndsWith, HasNumbers, IsClaimFor};
ghost use Rattle.tl_form.specs.Subjects.{meant};

use tl_cert::{Certificate, Claim, Section};
use tl_form::Subject;

/// Whether the claim says that the page is too narrow.
fn is_narrow(claim: Claim) -> bool
    ensures { IsTrue result ↔ IsNarrow claim }
{
    match claim {
        Claim::Lowest(_) | Claim::Bounded(_, _) => false,
        Claim::Narrow(_) => true,
    }
}

/// Whether the certificate is for this table's page, style and budget, and says that the page is too
/// narrow exactly where it is.
pub fn is_claim_for(subject: &Subject, budget: u32, certificate: &Certificate) -> bool
    requires { 0 < length subject.now.least.items }
    ensures { IsTrue result ↔ IsClaimFor (meant subject.now) budget certificate.now }
{
    certificate.width == subject.page
        && certificate.style == subject.style
        && certificate.budget == budget
        && is_narrow(certificate.claim) == (subject.page < subject.least[0])
}

/// Whether the claim has the numbers of the section.
fn has_numbers(claim: Claim, section: &Section) -> bool
    ensures { IsTrue result ↔ HasNumbers claim section.now }
{
    match claim {
        Claim::Lowest(height) => section.height == height && section.lower == height,
        Claim::Bounded(height, lower) => {
            section.height == height && section.lower == lower && lower < height
        }
        Claim::Narrow(_) => false,
    }
}

/// Whether the claim has the numbers of the last section.
pub fn ends_with(claim: Claim, sections: &[Section]) -> bool
    ensures { IsTrue result ↔ EndsWith claim sections.now }
{
    match sections.last() {
        Some(last) => has_numbers(claim, last),
        None => false,
    }
}
