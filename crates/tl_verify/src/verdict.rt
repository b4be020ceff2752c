//! Judges a whole certificate, step by step.

ghost use Rattle.std.specs.Prelude.{◌≡◌, ◌<◌, ◌≤◌, IfOk, IfErr, alloc_error};
ghost use Rattle.tl_base.specs.Returned.{IsMemoryOr, ReturnsError, ReturnsOk};
ghost use Rattle.tl_base.specs.declared.limits.TheConstants.{MAX_BUDGET, MAX_PAGE_WIDTH};
ghost use Rattle.tl_cert.specs.declared.certificate.Claim.{Claim};
ghost use Rattle.tl_cert.specs.Text.{IsWritable};
ghost use Rattle.tl_table.specs.Sound.{IsSound};
ghost use Rattle.tl_form.specs.Valid.{IsClaimFor, IsValid, IsValidFor};
ghost use Rattle.tl_verify.specs.declared.reject.Reject.{Reject};
ghost use Rattle.tl_verify.specs.declared.reject.Reject.TheVariants.{Memory};
ghost use Rattle.tl_verify.specs.Verdicts.{IsReason, IsRefusedAs, verdict_on};
ghost use Rattle.tl_form.specs.Subjects.{IsSubject, meant};

use crate::chains::are_too_wide;
use crate::claim::{ends_with, is_claim_for};
use crate::reject::Reject;
use crate::sections::judge_all;
use std::thread::Threads;
use tl_base::{Gate, Style};
use tl_cert::{Certificate, Claim};
use tl_fan::Run;
use tl_form::Subject;
use tl_table::Table;

/// What a valid certificate shows.
#[derive(Clone, Copy, Debug, PartialEq, Eq)]
pub enum Verdict {
    /// The height of its layout is the least.
    Lowest,
    /// Its layout is between its height and its lower bound.
    Bounded,
    /// No layout fits the page.
    Narrow,
}

/// The verdict on a claim that is shown.
fn verdict_on(claim: Claim) -> Verdict
    ensures { result ≡ verdict_on claim }
{
    match claim {
        Claim::Lowest(_) => Verdict::Lowest,
        Claim::Bounded(_, _) => Verdict::Bounded,
        Claim::Narrow(_) => Verdict::Narrow,
    }
}

/// Judges what shows the claim: chains, or sections, as many at once as the run has workers.
fn judge_proof<R: Threads + Sync, G: Gate>(
    run: &Run<'_, R, G>,
    subject: &Subject,
    budget: u32,
    certificate: &Certificate,
) -> Result<(), Reject>
    requires subject { IsSubject subject.now }
    requires written { IsWritable certificate.now }
    requires claim { IsClaimFor (meant subject.now) budget certificate.now }
    requires cuts { budget ≤ MAX_BUDGET }
    ensures valid { IfOk result (λ _. IsValidFor (meant subject.now) budget certificate.now) }
    ensures wrong { IfErr result (IsMemoryOr (Memory alloc_error) (IsReason (meant subject.now) budget certificate.now)) }
{
    if let Claim::Narrow(least) = certificate.claim {
        if are_too_wide(subject, certificate.chains.as_slice(), least) {
            return Ok(());
        }
        return Err(Reject::Chain);
    }
    judge_all(run, subject, budget, certificate)?;
    if ends_with(certificate.claim, certificate.sections.as_slice()) {
        return Ok(());
    }
    Err(Reject::Claim)
}

/// Judges a certificate of the table on a page of `width` columns, in a style and for a budget: it is
/// valid, or the first step that fails is named. The steps come in this order: the claim is for this
/// page, style and budget, and says that the page is too narrow exactly where it is; chains show that;
/// each section that is due, from the greatest number of a table down, has a tight placement, a trace
/// that was worked for the budget, and a log that is good; none is left; the claim has the numbers of
/// the last. As many workers as the run has judge sections at one time, each behind the gate by its number; the
/// answer is the same for every number of workers and every gate.
pub fn verify<R: Threads + Sync, G: Gate>(
    run: &Run<'_, R, G>,
    table: &Table,
    style: Style,
    width: u32,
    budget: u32,
    certificate: &Certificate,
) -> Result<Verdict, Reject>
    requires sound { IsSound table.now }
    requires some { 1 ≤ width }
    requires narrow { width ≤ MAX_PAGE_WIDTH }
    requires cuts { budget ≤ MAX_BUDGET }
    requires written { IsWritable certificate.now }
    // It accepts exactly the valid certificates, with the verdict on their claim.
    ensures valid { IfOk result (λ _. IsValid table.now style width budget certificate.now) }
    ensures verdict { IfOk result (λ verdict. verdict ≡ verdict_on certificate.now.claim) }
    ensures accepts { IsValid table.now style width budget certificate.now →
        ReturnsOk (Memory alloc_error) (verdict_on certificate.now.claim) result }
    // It refuses all others, each for the first step that fails.
    ensures refused { IfErr result (IsMemoryOr (Memory alloc_error) (IsRefusedAs table.now style width budget certificate.now)) }
    ensures refuses { (reject : Reject) → IsRefusedAs table.now style width budget certificate.now reject →
        ReturnsError (Memory alloc_error) reject result }
{
    let subject = Subject::of(run.alloc, table, style, width)?;
    if !is_claim_for(&subject, budget, certificate) {
        return Err(Reject::Claim);
    }
    judge_proof(run, &subject, budget, certificate)?;
    Ok(verdict_on(certificate.claim))
}
