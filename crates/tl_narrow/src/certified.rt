//! The certificates that trials leave.

ghost use Rattle.std.specs.Prelude.{◌≡◌, ◌<◌, ◌≤◌, IfOk, length};
ghost use Rattle.tl_base.specs.declared.limits.TheConstants.{MAX_BUDGET, MAX_HEIGHT, MAX_PAGE_WIDTH};
ghost use Rattle.tl_cert.specs.declared.certificate.Claim.TheVariants as claims;
ghost use Rattle.tl_cert.specs.Text.{IsWritable};
ghost use Rattle.tl_table.specs.FewCells.{HasFewCells};
ghost use Rattle.tl_table.specs.Least.{IsLeastWidth};
ghost use Rattle.tl_table.specs.Sound.{IsSound};
ghost use Rattle.tl_form.specs.Expected.{IsDocumentOf};
ghost use Rattle.tl_form.specs.Subjects.{meant};
ghost use Rattle.tl_form.specs.Valid.{IsValid};
ghost use Rattle.tl_narrow.specs.Certified.{certificate_of, claim_of};

use std::alloc::{AllocError, Global};
use tl_base::{List, Style};
use tl_cert::{Certificate, Claim, Section};
use tl_form::{Subject, chains_are_writable};
use tl_table::narrow_chain;

/// What the last section claims of the page.
fn claim_of(sections: &[Section]) -> Claim
    requires { 0 < length sections.now }
    ensures { result ≡ claim_of sections.now }
{
    let last = &sections[sections.len() - 1];
    if last.lower == last.height {
        Claim::Lowest(last.height)
    } else {
        Claim::Bounded(last.height, last.lower)
    }
}

/// The certificate of these sections on a page of `width` columns, which claims what the last of them does.
pub fn certificate_of(
    alloc: Global,
    style: Style,
    width: u32,
    budget: u32,
    sections: List<Section>,
) -> Certificate
    requires { 0 < length sections }
    ensures { result ≡ certificate_of width style budget sections }
{
    Certificate {
        width,
        style,
        budget,
        claim: claim_of(sections.as_slice()),
        chains: List::new(alloc),
        sections,
    }
}

/// The certificate that a page of `width` columns is too narrow for the subject's table, whose least width
/// is `least`: a chain of its cells. The error is out of memory.
pub fn narrow_certificate(
    alloc: Global,
    subject: &Subject<'_>,
    width: u32,
    budget: u32,
    least: u32,
) -> Result<Certificate, AllocError>
    requires subject { IsDocumentOf subject.now.table.now subject.now.style subject.now.page (meant subject.now) }
    requires sound { IsSound subject.now.table.now }
    requires cells { HasFewCells subject.now.table.now }
    requires some { 1 ≤ width }
    requires page { width ≤ MAX_PAGE_WIDTH }
    requires cuts { budget ≤ MAX_BUDGET }
    requires least { IsLeastWidth subject.now.table.now subject.now.style least }
    requires narrow { width < least }
    requires small { least ≤ MAX_HEIGHT }
    ensures claim { IfOk result (λ certificate. certificate.claim ≡ claims.Narrow least) }
    ensures valid { IfOk result (IsValid subject.now.table.now subject.now.style width budget) }
    ensures writable { IfOk result IsWritable }
{
    chains_are_writable();
    Ok(Certificate {
        width,
        style: subject.style,
        budget,
        claim: Claim::Narrow(least),
        chains: narrow_chain(alloc, subject.table, subject.style)?,
        sections: List::new(alloc),
    })
}
