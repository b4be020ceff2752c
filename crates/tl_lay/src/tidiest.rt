//! The lowest page of a table, on the narrowest page that is so low, in the layout that is chosen among those of
//! that page, with the certificates that show it.

ghost use Rattle.std.specs.Prelude.{◌≡◌, ◌≤◌, ℕ, IfOk};
ghost use Rattle.tl_base.specs.declared.limits.TheConstants.{MAX_PAGE_WIDTH};
ghost use Rattle.tl_table.specs.Least.{IsLeastHeight, IsLeastWidth};
ghost use Rattle.tl_cert.specs.declared.certificate.Claim.TheVariants as claims;
ghost use Rattle.tl_narrow.specs.Slims.{IsLowCertificate, IsSlim};
ghost use Rattle.tl_lay.specs.Inputs.{IsTaskInRange, IsUsableTable};
ghost use Rattle.tl_lay.specs.Tidied.{IsTidied, IsTidiedAs, IsTidyEnd, IsTrimmed, laid_with, tidy_answer};
ghost use Rattle.tl_lay.specs.Tidiest.{Tidies};
ghost use Rattle.tl_lay.specs.inner.Certified.{IsFound};
ghost use Rattle.tl_lay.specs.inner.Tidying.{AreChosenAmong, AreChosenIn, laid_kept};

use crate::answer::{Answer, Evidence};
use crate::input::{Given, Input, read_input};
use crate::laws::tidied_is_tidiest;
use crate::lowest::{FoundPage, answer_to, found, laid};
use crate::makers::slimmest_by;
use crate::narrowest::evidence_of;
use crate::task::Task;
use std::alloc::{AllocError, Global};
use std::mem;
use std::thread::Threads;
use tl_base::{Gate, List};
use tl_cert::{Certificate, Claim};
use tl_fan::Run;
use tl_form::{Subject, lay};
use tl_narrow::Slim;
use tl_solve::Watcher;
use tl_table::least_width;
use tl_tidy::{Choice, choose};

/// How a search for the narrowest of the lowest pages ends. Heights are in lines, widths in columns.
#[derive(Clone, Copy)]
pub enum Ending {
    /// The narrowest page was found, and a layout on it was chosen.
    Tidy { height: u32, width: u32 },
    /// A page below the width that was found, but not below the least width, may be as low.
    Wider { width: u32, least: u32 },
    /// The narrowest page was found, and the choice among its layouts stays open.
    Unchosen,
}

/// How a search for the narrowest page ends, and what it tells.
struct TidyEnd {
    ending: Ending,
    slim: Slim,
}

impl Drop for TidyEnd {
    fn drop(self) {
        let TidyEnd {
            ending: _ending,
            slim: _slim,
        } = self;
    }
}

/// Lays out the table that the bytes are as low as any layout on a page of the task's width, and then on the
/// narrowest page that is so low, in the layout that is chosen. It answers with that page, with what the budget
/// left open, with the least width where no page so narrow holds the table, or with why the bytes are refused.
/// What workers search at one time passes the gate, piece by piece, once before it begins. The error says that
/// memory ran out.
pub fn tidy<R: Threads + Sync, G: Gate + Watcher>(
    rt: &R,
    alloc: Global,
    task: &Task,
    bytes: &[u8],
    gate: &G,
) -> Result<Answer, AllocError>
    requires range { IsTaskInRange task.now }
    ensures tidies { IfOk result (Tidies task.now bytes.now) }
    ensures tidied { IfOk result (IsTidied task.now bytes.now) }
{
    tidied_is_tidiest();
    match read_input(alloc, task, bytes)? {
        Input::Table(given) => tidied(&task.run(rt, alloc, gate), task, &given),
        Input::Refused(refusal) => Ok(Answer::Refused(refusal)),
    }
}

/// Searches at the width of the page, if it is not too narrow, and trims the lowest page where that is found.
fn tidied<R: Threads + Sync, G: Gate + Watcher>(
    run: &Run<'_, R, G>,
    task: &Task,
    given: &Given,
) -> Result<Answer, AllocError>
    requires usable { IsUsableTable task.now given.now.table given.now.budget }
    ensures { IfOk result (IsTidiedAs task.now given.now.table) }
{
    let least = least_width(run.alloc, &given.table, task.style)?;
    if least > task.width {
        return answer_to(run, task, given);
    }
    tidied_on(run, task, given)
}

/// Searches at the width of the page, and trims the lowest page where that is found.
fn tidied_on<R: Threads + Sync, G: Gate + Watcher>(
    run: &Run<'_, R, G>,
    task: &Task,
    given: &Given,
) -> Result<Answer, AllocError>
    requires usable { IsUsableTable task.now given.now.table given.now.budget }
    requires wide { (least : ℕ) → IsLeastWidth given.now.table task.now.style least → least ≤ task.now.width }
    ensures { IfOk result (IsTidiedAs task.now given.now.table) }
{
    let table = &given.table;
    let budget = given.budget;
    let subject = Subject::of(run.alloc, table, task.style, task.width)?;
    let FoundPage {
        certificate,
        placed,
    } = found(run, task, &subject, budget)?;
    match certificate.claim {
        Claim::Lowest(height) => trimmed(run, task, given, height, certificate),
        Claim::Bounded(_, _) => laid(run, task, table, budget, &certificate, placed),
        Claim::Narrow(_) => laid(run, task, table, budget, &certificate, placed),
    }
}

/// Looks for the narrowest page that is as low as the certificate shows, and chooses among its layouts.
fn trimmed<R: Threads + Sync, G: Gate + Watcher>(
    run: &Run<'_, R, G>,
    task: &Task,
    given: &Given,
    height: u32,
    certificate: Certificate,
) -> Result<Answer, AllocError>
    requires usable { IsUsableTable task.now given.now.table given.now.budget }
    requires wide { (least : ℕ) → IsLeastWidth given.now.table task.now.style least → least ≤ task.now.width }
    requires found { IsFound task.now given.now.table given.now.budget certificate }
    requires lowest { certificate.claim ≡ claims.Lowest height }
    ensures { IfOk result (IsTrimmed task.now given.now.table) }
{
    let slim = slimmest_by(run, task, given, height, Some(certificate))?;
    let end = tidy_end(run.alloc, task, given, height, slim)?;
    let evidence = evidence_of(run.alloc, task, given, height, &end.slim)?;
    Ok(tidy_answer(end.ending, evidence))
}

/// What an ending is answered with.
fn tidy_answer(ending: Ending, evidence: Evidence) -> Answer
    ensures { result ≡ tidy_answer ending evidence }
{
    match ending {
        Ending::Tidy { height, width } => Answer::Tidy {
            height,
            width,
            evidence,
        },
        Ending::Wider { width, least } => Answer::Wider {
            width,
            least,
            evidence,
        },
        Ending::Unchosen => Answer::Unchosen { evidence },
    }
}

/// How the search ends: a narrower page may be as low; or the narrowest was found, and then the table is laid
/// out by the choice among its layouts, unless that stays open.
fn tidy_end(
    alloc: Global,
    task: &Task,
    given: &Given,
    height: u32,
    slim: Slim,
) -> Result<TidyEnd, AllocError>
    requires usable { IsUsableTable task.now given.now.table given.now.budget }
    requires lowest { IsLeastHeight given.now.table task.now.style task.now.width height }
    requires slim { IsSlim given.now.table task.now.style height task.now.width given.now.budget slim }
    ensures ends { IfOk result (λ end. IsTidyEnd task.now given.now.table height slim end.slim end.ending) }
    ensures slim { IfOk result (λ end. IsSlim given.now.table task.now.style height task.now.width given.now.budget end.slim) }
{
    let width = slim.width;
    let least = slim.least;
    if width != least {
        return Ok(TidyEnd {
            ending: Ending::Wider { width, least },
            slim,
        });
    }
    match kept_widths(alloc, task, given, height, &slim)? {
        Some(widths) => Ok(TidyEnd {
            ending: Ending::Tidy { height, width },
            slim: lay_kept(alloc, slim, widths)?,
        }),
        None => Ok(TidyEnd {
            ending: Ending::Unchosen,
            slim,
        }),
    }
}

/// The widths that are chosen on the page of the certificate that was kept; none where the choice stays open.
fn kept_widths(
    alloc: Global,
    task: &Task,
    given: &Given,
    height: u32,
    slim: &Slim,
) -> Result<Option<List<u32>>, AllocError>
    requires usable { IsUsableTable task.now given.now.table given.now.budget }
    requires slim { IsSlim given.now.table task.now.style height task.now.width given.now.budget slim.now }
    requires met { slim.now.width ≡ slim.now.least }
    ensures { IfOk result (AreChosenAmong task.now given.now.table height slim.now) }
{
    match &slim.kept {
        Some(kept) => chosen_widths(alloc, task, given, height, slim.width, kept),
        None => Ok(None),
    }
}

/// The widths that are chosen for the table itself on the page of the certificate; none where a nested table
/// is not known well enough, or the budget is below what the choice needs.
fn chosen_widths(
    alloc: Global,
    task: &Task,
    given: &Given,
    height: u32,
    width: u32,
    certificate: &Certificate,
) -> Result<Option<List<u32>>, AllocError>
    requires usable { IsUsableTable task.now given.now.table given.now.budget }
    requires narrow { width ≤ MAX_PAGE_WIDTH }
    requires low { IsLowCertificate given.now.table task.now.style height width given.now.budget certificate.now }
    ensures { IfOk result (AreChosenIn task.now given.now.table height certificate.now) }
{
    let table = &given.table;
    let sections = certificate.sections.as_slice();
    let own = sections.len() - 1;
    let laid = lay(alloc, table, task.style, &sections[..own], &sections[own])?.unwrap();
    if !laid.problem.agrees_on_page() {
        return Ok(None);
    }
    match choose(alloc, &laid.problem, height, given.budget)? {
        Choice::Found(placed) => Ok(Some(placed.widths)),
        Choice::Open => Ok(None),
    }
}

/// What was found, with these widths of the table itself in the certificate that is kept.
fn lay_kept(alloc: Global, mut slim: Slim, widths: List<u32>) -> Result<Slim, AllocError>
    ensures { IfOk result (λ told. told ≡ laid_kept slim slim.kept widths) }
{
    if let Some(kept) = slim.kept.take() {
        slim.kept = Some(laid_with(alloc, kept, widths)?);
    }
    Ok(slim)
}

/// The certificate with these widths in its last section.
fn laid_with(
    alloc: Global,
    mut certificate: Certificate,
    widths: List<u32>,
) -> Result<Certificate, AllocError>
    ensures { IfOk result (λ made. made ≡ laid_with certificate widths) }
{
    let mut sections = mem::replace(&mut certificate.sections, List::new(alloc)).into_vec();
    let Some(mut last) = sections.pop() else {
        return Ok(certificate);
    };
    last.widths = widths;
    sections.push(last)?;
    certificate.sections = List::from_vec(sections);
    Ok(certificate)
}
