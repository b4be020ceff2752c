//! The lowest page of a table, with its certificate, or why there is none.

ghost use Rattle.std.specs.Prelude.{◌≡◌, ◌<◌, ◌≤◌, ◌-◌, ℕ, IfOk, List, Option, length};
ghost use Rattle.tl_base.specs.declared.limits.TheConstants.{MAX_PAGE_WIDTH, MAX_HEIGHT};
ghost use Rattle.tl_table.specs.Layouts.{Fits};
ghost use Rattle.tl_table.specs.Least.{IsLeastWidth};
ghost use Rattle.tl_table.specs.Numbered.{AreByNumber};
ghost use Rattle.tl_form.specs.Expected.{IsDocumentOf};
ghost use Rattle.tl_form.specs.Named.{IsLastPlacement};
ghost use Rattle.tl_table.specs.Sound.{IsSound};
ghost use Rattle.tl_form.specs.Subjects.{meant};
ghost use Rattle.tl_lay.specs.Answers.{IsLaid, IsLaidAs, IsPageFile, IsReadable, certificate_file, look_of};
ghost use Rattle.tl_lay.specs.Inputs.{IsTaskInRange, IsUsableTable};
ghost use Rattle.tl_lay.specs.Lowest.{Lays};
ghost use Rattle.tl_lay.specs.inner.Claims.{answer_of};
ghost use Rattle.tl_lay.specs.inner.Certified.{IsFound};
ghost use Rattle.tl_lay.specs.inner.Files.{IsFileBy};

use crate::answer::Answer;
use crate::format::Format;
use crate::input::{Given, Input, read_input};
use crate::laws::laid_is_lowest;
use crate::makers::searched;
use crate::task::Task;
use std::alloc::{AllocError, Global};
use std::thread;
use std::thread::Threads;
use tl_base::{Gate, List};
use tl_cert::{Certificate, Claim, write};
use tl_fan::Run;
use tl_form::{
    Subject, bounded_is_between, budget_closes, layout_with, lowest_is_least, open_spends,
    total_width,
};
use tl_html::html;
use tl_narrow::{certificate_of, narrow_certificate};
use tl_nested::LaidSections;
use tl_page::{Look, page, trimmed_page};
use tl_problem::Placed;
use tl_sides::Align;
use tl_solve::Watcher;
use tl_table::{Layout, Table};

/// Lays out the table that the bytes are, and answers with the lowest page that the search finds, with a bound
/// where it may not be the lowest, with the least width where no page so narrow holds the table, or with why the
/// bytes are refused. What workers search at one time passes the gate, piece by piece, once before it begins.
/// The error says that memory ran out.
pub fn lay<R: Threads + Sync, G: Gate + Watcher>(
    rt: &R,
    alloc: Global,
    task: &Task,
    bytes: &[u8],
    gate: &G,
) -> Result<Answer, AllocError>
    requires range { IsTaskInRange task.now }
    ensures lays { IfOk result (Lays task.now bytes.now) }
    ensures laid { IfOk result (IsLaid task.now bytes.now) }
{
    laid_is_lowest();
    match read_input(alloc, task, bytes)? {
        Input::Table(given) => answer_to(&task.run(rt, alloc, gate), task, &given),
        Input::Refused(refusal) => Ok(Answer::Refused(refusal)),
    }
}

/// What the table that is given is answered with, by the task.
pub fn answer_to<R: Threads + Sync, G: Gate + Watcher>(
    run: &Run<'_, R, G>,
    task: &Task,
    given: &Given,
) -> Result<Answer, AllocError>
    requires usable { IsUsableTable task.now given.now.table given.now.budget }
    ensures { IfOk result (IsLaidAs task.now given.now.table) }
{
    let subject = Subject::of(run.alloc, &given.table, task.style, task.width)?;
    let least = subject.least[0];
    if least > task.width {
        return too_narrow(run.alloc, task, &subject, given.budget, least);
    }
    lowest(run, task, &subject, given.budget)
}

/// The chains that show that the page is too narrow.
fn too_narrow(
    alloc: Global,
    task: &Task,
    subject: &Subject<'_>,
    budget: u32,
    least: u32,
) -> Result<Answer, AllocError>
    requires subject { IsDocumentOf subject.now.table.now task.now.style task.now.width (meant subject.now) }
    requires usable { IsUsableTable task.now subject.now.table.now budget }
    requires least { IsLeastWidth subject.now.table.now task.now.style least }
    requires narrow { task.now.width < least }
    requires small { least ≤ MAX_HEIGHT }
    ensures { IfOk result (IsLaidAs task.now subject.now.table.now) }
{
    let certificate = narrow_certificate(alloc, subject, task.width, budget, least)?;
    Ok(Answer::Narrow {
        least,
        width: task.width,
        certificate: certificate_file(alloc, task.certified, &certificate)?,
    })
}

/// The lowest page that the search finds, with its certificate.
fn lowest<R: Threads + Sync, G: Gate + Watcher>(
    run: &Run<'_, R, G>,
    task: &Task,
    subject: &Subject<'_>,
    budget: u32,
) -> Result<Answer, AllocError>
    requires usable { IsUsableTable task.now subject.now.table.now budget }
    requires subject { IsDocumentOf subject.now.table.now task.now.style task.now.width (meant subject.now) }
    requires tables { AreByNumber subject.now.table.now subject.now.tables.items }
    requires wide { (least : ℕ) → IsLeastWidth subject.now.table.now task.now.style least → least ≤ task.now.width }
    ensures { IfOk result (IsLaidAs task.now subject.now.table.now) }
{
    let FoundPage {
        certificate,
        placed,
    } = found(run, task, subject, budget)?;
    laid(run, task, subject.table, budget, &certificate, placed)
}

/// The certificate of a search, with the placement that was found for its last section.
#[derive(Drop)]
pub struct FoundPage {
    pub certificate: Certificate,
    /// The widths of the columns, in columns of text, and the heights of the rows, in lines.
    pub placed: Placed,
}

/// The certificate of the sections that the search finds on the page, with the placement of the last. The
/// subject is that of the task's style and width.
pub fn found<R: Threads + Sync, G: Gate + Watcher>(
    run: &Run<'_, R, G>,
    task: &Task,
    subject: &Subject<'_>,
    budget: u32,
) -> Result<FoundPage, AllocError>
    requires usable { IsUsableTable task.now subject.now.table.now budget }
    requires subject { IsDocumentOf subject.now.table.now task.now.style task.now.width (meant subject.now) }
    requires tables { AreByNumber subject.now.table.now subject.now.tables.items }
    requires wide { (least : ℕ) → IsLeastWidth subject.now.table.now task.now.style least → least ≤ task.now.width }
    ensures found { IfOk result (λ page. IsFound task.now subject.now.table.now budget page.certificate) }
    ensures placed { IfOk result (λ page. IsLastPlacement subject.now.table.now task.now.style task.now.width
        page.certificate.sections page.placed) }
{
    let LaidSections { sections, placed } = searched(run, task, subject, budget)?;
    let certificate = certificate_of(run.alloc, task.style, task.width, budget, sections);
    Ok(FoundPage {
        certificate,
        placed,
    })
}

/// The page of the layout that the certificate of a search names, with the certificate. The placement of
/// its last section is the one that the search found.
pub fn laid<R: Threads + Sync, G: Gate + Watcher>(
    run: &Run<'_, R, G>,
    task: &Task,
    table: &Table,
    budget: u32,
    certificate: &Certificate,
    placed: Placed,
) -> Result<Answer, AllocError>
    requires usable { IsUsableTable task.now table.now budget }
    requires wide { (least : ℕ) → IsLeastWidth table.now task.now.style least → least ≤ task.now.width }
    requires found { IsFound task.now table.now budget certificate.now }
    requires placed { IsLastPlacement table.now task.now.style task.now.width certificate.now.sections placed }
    ensures laid { IfOk result (IsLaidAs task.now table.now) }
    ensures told { IfOk result (λ answer. (taken : ℕ) × (page : List ℕ) × (text : Option (List ℕ))
        × (answer ≡ answer_of task.now.width certificate.now.claim taken page text)) }
{
    let layout = layout_with(run.alloc, table, task.style, certificate, placed)?;
    let width = total_width(task.style, layout.widths.as_slice());
    lowest_is_least();
    bounded_is_between();
    budget_closes();
    open_spends();
    let (page, text) = files(run, task, table, &layout, certificate)?;
    Ok(answer_of(task.width, certificate.claim, width, page, text))
}

/// What is answered for a claim, with this page and the text of a certificate, for a page of `most` columns, of
/// which the layout takes `width`.
fn answer_of(
    most: u32,
    claim: Claim,
    width: u64,
    page: List<u8>,
    certificate: Option<List<u8>>,
) -> Answer
    ensures { result ≡ answer_of most claim width page certificate }
{
    match claim {
        Claim::Lowest(height) => Answer::Lowest {
            height,
            width,
            page,
            certificate,
        },
        Claim::Bounded(height, lower) => Answer::Bounded {
            height,
            lower,
            width,
            page,
            certificate,
        },
        Claim::Narrow(least) => Answer::Narrow {
            least,
            width: most,
            certificate,
        },
    }
}

/// The page of the table in the layout, and the text of the certificate, where it is asked for. Two workers
/// write them at one time.
fn files<R: Threads + Sync, G: Gate + Watcher>(
    run: &Run<'_, R, G>,
    task: &Task,
    table: &Table,
    layout: &Layout,
    certificate: &Certificate,
) -> Result<(List<u8>, Option<List<u8>>), AllocError>
    requires sound { IsSound table.now }
    requires fits { (width height : ℕ) × (width ≤ MAX_PAGE_WIDTH) × (height ≤ MAX_HEIGHT)
        × Fits table.now task.now.style width height layout.now }
    requires readable { IsReadable certificate.now }
    ensures page { IfOk result (λ files. IsPageFile task.now.format task.now.style table.now layout.now files.0) }
    ensures certificate { IfOk result (λ files. files.1 ≡ certificate_file task.now.certified certificate.now) }
{
    let alloc = run.alloc;
    if task.workers == 1 || !task.certified {
        let page = page_file(alloc, task, table, layout)?;
        let text = certificate_file(alloc, task.certified, certificate)?;
        return Ok((page, text));
    }
    let certified = || -> Result<Option<List<u8>>, AllocError>
        requires { IsReadable certificate.now }
        ensures { IfOk result (λ file. file ≡ certificate_file task.entry.now.certified certificate.entry.now) }
    { certificate_file(alloc, task.certified, certificate) };
    let drawn = || -> Result<List<u8>, AllocError>
        requires { IsSound table.now × ((width height : ℕ) × (width ≤ MAX_PAGE_WIDTH) × (height ≤ MAX_HEIGHT)
            × Fits table.now task.now.style width height layout.now) }
        ensures { IfOk result (IsPageFile task.entry.now.format task.entry.now.style table.entry.now layout.entry.now) }
    { page_file(alloc, task, table, layout) };
    let (text, page) = thread::join(run.rt, certified, drawn);
    Ok((page?, text?))
}

/// The page of the table in the layout, by the format of the task.
pub fn page_file(
    alloc: Global,
    task: &Task,
    table: &Table,
    layout: &Layout,
) -> Result<List<u8>, AllocError>
    requires sound { IsSound table.now }
    requires fits { (width height : ℕ) × (width ≤ MAX_PAGE_WIDTH) × (height ≤ MAX_HEIGHT)
        × Fits table.now task.now.style width height layout.now }
    ensures { IfOk result (IsPageFile task.now.format task.now.style table.now layout.now) }
{
    match task.format {
        Format::Text(align) => page(alloc, table, look_of(task, align), layout),
        Format::Trimmed(align) => trimmed_page(alloc, table, look_of(task, align), layout),
        Format::Html => html(alloc, table, layout),
    }
}

/// How the page of the task looks, with the lines of its cells on these sides.
fn look_of(task: &Task, align: Align) -> Look
    ensures { result ≡ look_of task.now.style align }
{
    Look {
        style: task.style,
        align,
    }
}

/// The text of the certificate, where it is asked for.
pub fn certificate_file(
    alloc: Global,
    asked_for: bool,
    certificate: &Certificate,
) -> Result<Option<List<u8>>, AllocError>
    requires { IsReadable certificate.now }
    ensures { IfOk result (λ file. file ≡ certificate_file asked_for certificate.now) }
{
    file_by(asked_for, certificate, |one| write(alloc, one))
}

/// What `write` gives for the certificate, where it is asked for. The error is its own alone.
pub fn file_by<F: FnOnce(&Certificate) -> Result<List<u8>, AllocError>>(
    asked_for: bool,
    certificate: &Certificate,
    write: F,
) -> Result<Option<List<u8>>, AllocError>
    requires { F.pre write certificate }
    ensures { IsFileBy (F.post write certificate.entry) asked_for result }
{
    if !asked_for {
        return Ok(None);
    }
    Ok(Some(write(certificate)?))
}
