//! The narrowest page that holds a table in so many lines, with the certificates that show it.

ghost use Rattle.std.specs.Prelude.{◌≡◌, ◌≤◌, None, IfOk, IfSome};
ghost use Rattle.tl_base.specs.declared.limits.TheConstants.{MAX_HEIGHT, MAX_PAGE_WIDTH};
ghost use Rattle.tl_narrow.specs.Slims.{IsLowCertificate, IsSlim};
ghost use Rattle.tl_lay.specs.Answers.{IsReadable, IsTextWanted};
ghost use Rattle.tl_lay.specs.Inputs.{IsTaskInRange, IsUsableTable};
ghost use Rattle.tl_lay.specs.Narrowest.{Narrows};
ghost use Rattle.tl_lay.specs.Slimmed.{IsEvidence, IsNarrowed, IsPageOfKept, IsSlimmed, IsSlimPage};
ghost use Rattle.tl_lay.specs.Slimmed.{found_width, slim_answer};

use crate::answer::{Answer, Evidence};
use crate::input::{Given, Input, read_input};
use crate::laws::narrowed_is_narrowest;
use crate::lowest::{certificate_file, page_file};
use crate::makers::slimmest_by;
use crate::task::Task;
use std::alloc::{AllocError, Global};
use std::thread::Threads;
use tl_base::{Gate, List};
use tl_cert::Certificate;
use tl_fan::Run;
use tl_form::layout;
use tl_narrow::Slim;
use tl_solve::Watcher;

/// Looks for the narrowest page, of those of up to as many columns as the task has, that holds the table that
/// the bytes are in at most `height` lines, up to `MAX_HEIGHT`. It answers with that page, with the least width
/// that is known where the search ended early, that there is none, or with why the bytes are refused. What
/// workers search at one time passes the gate, piece by piece, once before it begins. The error says that memory
/// ran out.
pub fn narrow<R: Threads + Sync, G: Gate + Watcher>(
    rt: &R,
    alloc: Global,
    task: &Task,
    height: u32,
    bytes: &[u8],
    gate: &G,
) -> Result<Answer, AllocError>
    requires range { IsTaskInRange task.now }
    requires lines { height ≤ MAX_HEIGHT }
    ensures narrows { IfOk result (Narrows task.now height bytes.now) }
    ensures narrowed { IfOk result (IsNarrowed task.now height bytes.now) }
{
    narrowed_is_narrowest();
    match read_input(alloc, task, bytes)? {
        Input::Table(given) => slimmed(&task.run(rt, alloc, gate), task, &given, height),
        Input::Refused(refusal) => Ok(Answer::Refused(refusal)),
    }
}

/// Searches, and makes the page and the texts of what was found.
fn slimmed<R: Threads + Sync, G: Gate + Watcher>(
    run: &Run<'_, R, G>,
    task: &Task,
    given: &Given,
    height: u32,
) -> Result<Answer, AllocError>
    requires lines { height ≤ MAX_HEIGHT }
    requires usable { IsUsableTable task.now given.now.table given.now.budget }
    ensures { IfOk result (IsSlimmed task.now height given.now.table) }
{
    let slim = slimmest_by(run, task, given, height, None)?;
    let evidence = evidence_of(run.alloc, task, given, height, &slim)?;
    Ok(slim_answer(task, height, &slim, evidence))
}

/// What a search for the narrowest page of at most `height` lines is answered with.
fn slim_answer(task: &Task, height: u32, slim: &Slim, evidence: Evidence) -> Answer
    ensures { result ≡ slim_answer task.now height slim.now evidence }
{
    if slim.width == slim.least {
        return Answer::Slimmest {
            width: slim.width,
            height,
            evidence,
        };
    }
    if slim.least <= task.width {
        return Answer::Between {
            width: found_width(slim.width),
            least: slim.least,
            evidence,
        };
    }
    Answer::TooTall { height, evidence }
}

/// A width that is not 0.
fn found_width(width: u32) -> Option<u32>
    ensures { result ≡ found_width width }
{
    if width == 0 { None } else { Some(width) }
}

/// The page of the certificate that was kept, and the texts of the certificates that there are.
pub fn evidence_of(
    alloc: Global,
    task: &Task,
    given: &Given,
    height: u32,
    slim: &Slim,
) -> Result<Evidence, AllocError>
    requires usable { IsUsableTable task.now given.now.table given.now.budget }
    requires lines { height ≤ MAX_HEIGHT }
    requires slim { IsSlim given.now.table task.now.style height task.now.width given.now.budget slim.now }
    ensures { IfOk result (IsEvidence task.now given.now.table height slim.now) }
{
    Ok(Evidence {
        page: kept_page(alloc, task, given, height, slim)?,
        kept: text_of(alloc, task.certified, &slim.kept)?,
        less: text_of(alloc, task.certified, &slim.less)?,
        spent: text_of(alloc, task.certified, &slim.spent)?,
    })
}

/// The page of the certificate that was kept, where there is one.
fn kept_page(
    alloc: Global,
    task: &Task,
    given: &Given,
    height: u32,
    slim: &Slim,
) -> Result<Option<List<u8>>, AllocError>
    requires usable { IsUsableTable task.now given.now.table given.now.budget }
    requires lines { height ≤ MAX_HEIGHT }
    requires slim { IsSlim given.now.table task.now.style height task.now.width given.now.budget slim.now }
    ensures { IfOk result (IsPageOfKept task.now given.now.table height slim.now.width slim.now.kept) }
{
    match &slim.kept {
        Some(kept) => Ok(Some(low_page(alloc, task, given, height, slim.width, kept)?)),
        None => Ok(None),
    }
}

/// The page of a certificate that claims so few lines.
fn low_page(
    alloc: Global,
    task: &Task,
    given: &Given,
    height: u32,
    width: u32,
    certificate: &Certificate,
) -> Result<List<u8>, AllocError>
    requires usable { IsUsableTable task.now given.now.table given.now.budget }
    requires lines { height ≤ MAX_HEIGHT }
    requires narrow { width ≤ MAX_PAGE_WIDTH }
    requires low { IsLowCertificate given.now.table task.now.style height width given.now.budget certificate.now }
    ensures { IfOk result (IsSlimPage task.now given.now.table height width certificate.now) }
{
    let layout = layout(alloc, &given.table, task.style, certificate)?;
    page_file(alloc, task, &given.table, &layout)
}

/// The text of the certificate, where there is one and its text is wanted.
fn text_of(
    alloc: Global,
    certified: bool,
    certificate: &Option<Certificate>,
) -> Result<Option<List<u8>>, AllocError>
    requires { IfSome certificate.now IsReadable }
    ensures { IfOk result (IsTextWanted certified certificate.now) }
{
    match certificate {
        Some(certificate) => certificate_file(alloc, certified, certificate),
        None => Ok(None),
    }
}
