//! The trials of a search for the narrowest page: where it begins, which width is tried next, and what a
//! trial tells.

ghost use Rattle.std.specs.Prelude.{◌≡◌, ◌≢◌, ◌⊎◌, ◌+◌, ◌-◌, ◌<◌, ◌≤◌, ℕ, IfNone, IfOk, IfSome, MatchOption, None};
ghost use Rattle.tl_base.specs.declared.limits.TheConstants.{MAX_BUDGET, MAX_HEIGHT, MAX_PAGE_WIDTH};
ghost use Rattle.tl_cert.specs.Text.{IsNarrow};
ghost use Rattle.tl_table.specs.FewCells.{HasFewCells};
ghost use Rattle.tl_table.specs.Least.{IsLeastWidth};
ghost use Rattle.tl_table.specs.Sound.{IsSound};
ghost use Rattle.tl_form.specs.Expected.{IsDocumentOf};
ghost use Rattle.tl_form.specs.Subjects.{meant};
ghost use Rattle.tl_nested.specs.Searched.{AreSectionsOf};
ghost use Rattle.tl_narrow.specs.Slims.{IsLowCertificate};
ghost use Rattle.tl_narrow.specs.Trials.{first_least, first_width};
ghost use Rattle.tl_narrow.specs.inner.Trials.{IsChainBelow, IsNext, IsSlimSoFar, IsTaken, IsTrial, Tells};

use crate::certified::{certificate_of, narrow_certificate};
use crate::slim::Slim;
use std::alloc::{AllocError, Global};
use std::thread::Threads;
use tl_base::{Gate, Style};
use tl_cert::{Certificate, Claim};
use tl_fan::Run;
use tl_form::{
    Subject, all_counts_rise, bounded_is_between, budget_closes, counts_exist, open_spends,
};
use tl_nested::{Make, sections};
use tl_solve::Watcher;
use tl_table::Table;

/// What a trial tells of the width that was tried.
#[derive(Clone, Copy)]
pub enum TrialResult {
    /// The page is low enough.
    Low,
    /// No page is low enough that is as narrow.
    High,
    /// Neither: the budget was spent.
    Neither,
}

/// What a claim tells of the height that is asked for.
pub fn told_by(claim: Claim, height: u32) -> TrialResult
    ensures { Tells height claim result }
{
    let (found, lower) = match claim {
        Claim::Lowest(lowest) => (lowest, lowest),
        Claim::Bounded(found, lower) => (found, lower),
        Claim::Narrow(_) => return TrialResult::High,
    };
    if found <= height {
        TrialResult::Low
    } else if lower > height {
        TrialResult::High
    } else {
        TrialResult::Neither
    }
}

/// The certificate that a page one column narrower than `least` is too narrow, where there is such a page;
/// `own` is the table's least width.
fn chain_below(
    alloc: Global,
    subject: &Subject<'_>,
    least: u32,
    own: u32,
    budget: u32,
) -> Result<Option<Certificate>, AllocError>
    requires subject { IsDocumentOf subject.now.table.now subject.now.style subject.now.page (meant subject.now) }
    requires sound { IsSound subject.now.table.now }
    requires cells { HasFewCells subject.now.table.now }
    requires page { least ≤ MAX_PAGE_WIDTH + 1 }
    requires cuts { budget ≤ MAX_BUDGET }
    requires own { IsLeastWidth subject.now.table.now subject.now.style own }
    requires narrow { 1 < least → least ≤ own }
    requires small { own ≤ MAX_HEIGHT }
    ensures none { IfOk result (λ less. less ≡ None → least ≤ 1) }
    ensures some { IfOk result (λ less. IfSome less (IsChainBelow subject.now.table.now subject.now.style budget least)) }
{
    if least <= 1 {
        return Ok(None);
    }
    let certificate = narrow_certificate(alloc, subject, least - 1, budget, own)?;
    Ok(Some(certificate))
}

/// The widest page, where it has a certificate, and otherwise 0.
fn width_of(kept: &Option<Certificate>, most: u32) -> u32
    ensures { result ≡ first_width most kept.now }
{
    match kept {
        Some(_) => most,
        None => 0,
    }
}

/// The least width that may be low enough: the table's own, raised to 1 and lowered to one more than the
/// widest page.
fn least_of(own: u32, most: u32) -> u32
    requires some { 1 ≤ most }
    requires page { most ≤ MAX_PAGE_WIDTH }
    ensures is { result ≡ first_least most own }
    ensures some { 1 ≤ result }
    ensures within { result ≤ most + 1 }
    ensures wide { (result ≡ most + 1) ⊎ (own ≤ result) }
    ensures few { own ≤ most → result ≤ most }
    ensures chain { 1 < result → result ≤ own }
{
    own.max(1).min(most + 1)
}

/// Where the search begins: no page below the table's least width is low enough, and the widest one is if
/// it has a certificate.
pub fn begin(
    alloc: Global,
    table: &Table,
    style: Style,
    most: u32,
    kept: Option<Certificate>,
    budget: u32,
) -> Result<Slim, AllocError>
    requires sound { IsSound table.now }
    requires cells { HasFewCells table.now }
    requires some { 1 ≤ most }
    requires narrow { most ≤ MAX_PAGE_WIDTH }
    requires cuts { budget ≤ MAX_BUDGET }
    ensures known { IfOk result (λ slim. (height : ℕ) → IfSome kept (IsLowCertificate table.now style height most budget) →
        IsSlimSoFar table.now style height most budget slim) }
    ensures kept { IfOk result (λ slim. slim.kept ≡ kept) }
    ensures less { IfOk result (λ slim. IfSome slim.less (λ certificate. IsNarrow certificate.claim)) }
    ensures spent { IfOk result (λ slim. slim.spent ≡ None) }
    ensures width { IfOk result (λ slim. slim.width ≡ first_width most kept) }
    ensures least { IfOk result (λ slim. (own : ℕ) → IsLeastWidth table.now style own → slim.least ≡ first_least most own) }
{
    let subject = Subject::of(alloc, table, style, most)?;
    let own = subject.least[0];
    let least = least_of(own, most);
    let less = chain_below(alloc, &subject, least, own, budget)?;
    Ok(Slim {
        width: width_of(&kept, most),
        least,
        kept,
        less,
        spent: None,
    })
}

/// The certificate of a search on a page of `width` columns.
pub fn tried<R: Threads + Sync, M: Make, G: Gate + Watcher>(
    run: &Run<'_, R, G>,
    table: &Table,
    style: Style,
    width: u32,
    budget: u32,
    maker: &M,
) -> Result<Certificate, AllocError>
    requires ready { M.can_make maker.now }
    requires sound { IsSound table.now }
    requires some { 1 ≤ width }
    requires narrow { width ≤ MAX_PAGE_WIDTH }
    requires wide { (least : ℕ) → IsLeastWidth table.now style least → least ≤ width }
    requires cuts { budget ≤ MAX_BUDGET }
    ensures trial { IfOk result (IsTrial table.now style width budget) }
    ensures searched { IfOk result (λ certificate.
        AreSectionsOf (λ problem outcome. M.besides maker.now problem budget outcome) table.now style width budget certificate.sections) }
{
    let found = sections(run, table, style, width, budget, maker)?;
    bounded_is_between();
    budget_closes();
    open_spends();
    counts_exist();
    all_counts_rise();
    Ok(certificate_of(run.alloc, style, width, budget, found))
}

impl Slim {
    /// The width that is tried next: the widest page, where none is known to be low enough, and otherwise
    /// the one in the middle of those that may be. None where there is none left, or the last trial told
    /// neither.
    pub fn next_trial(&self, most: u32) -> Option<u32>
        requires some { 1 ≤ most }
        requires narrow { most ≤ MAX_PAGE_WIDTH }
        requires least { 1 ≤ self.now.least }
        requires within { self.now.least ≤ most + 1 }
        requires width { self.now.width ≤ most }
        requires ordered { self.now.width ≢ 0 → self.now.least ≤ self.now.width }
        ensures next { IfSome result (IsNext most self.now) }
        ensures last { IfNone result (self.now.spent ≡ None → (self.now.width ≡ self.now.least) ⊎ (self.now.least ≡ most + 1)) }
    {
        if self.spent.is_some() || self.least > most {
            return None;
        }
        if self.width == 0 {
            return Some(most);
        }
        if self.least < self.width {
            return Some((self.least + self.width - 1) / 2);
        }
        None
    }

    /// Takes the certificate of a trial of `width` columns in.
    pub fn take(&mut self, height: u32, width: u32, trial: Certificate)
        requires { width ≤ MAX_PAGE_WIDTH }
        ensures { IsTaken height width trial self.old self.new }
    {
        match told_by(trial.claim, height) {
            TrialResult::Low => {
                self.width = width;
                self.kept = Some(trial);
            }
            TrialResult::High => {
                self.least = width + 1;
                self.less = Some(trial);
            }
            TrialResult::Neither => self.spent = Some(trial),
        }
    }
}
