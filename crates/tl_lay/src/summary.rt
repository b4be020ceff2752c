//! A demonstration: a large table from a number, laid out, its certificate checked.

ghost use Rattle.std.specs.Prelude.{◌≡◌, ◌≤◌, ℕ, IfOk};
ghost use Rattle.tl_base.specs.declared.breaking.Breaking.TheVariants as breaks;
ghost use Rattle.tl_base.specs.declared.style.Style.TheVariants as styles;
ghost use Rattle.tl_read.specs.declared.source.Source.TheVariants as sources;
ghost use Rattle.tl_demo.specs.Demo.{demo_text_of};
ghost use Rattle.tl_table.specs.declared.cell.Table.{Table as T};
ghost use Rattle.tl_table.specs.FewCells.{HasFewCells};
ghost use Rattle.tl_table.specs.Least.{IsLeastWidth};
ghost use Rattle.tl_table.specs.Sound.{IsSound};
ghost use Rattle.tl_read.specs.declared.reading.Reading.TheVariants as readings;
ghost use Rattle.tl_lay.specs.Demonstration.{IsDemonstrated, IsSummaryOf};
ghost use Rattle.tl_read.specs.Reading.{IsReading};
ghost use Rattle.tl_lay.specs.inner.Summaries.{demo_task, HasOwnNext, IsCountAfter};

use crate::format::Format;
use crate::limits::DEMO_BUDGET;
use crate::makers::searched;
use crate::task::Task;
use std::alloc::{AllocError, Global};
use std::thread::Threads;
use tl_base::{Breaking, Gate, Search, Style};
use tl_cert::Section;
use tl_demo::{DEMO_WIDTH, demo_fits, demo_text};
use tl_fan::Run;
use tl_form::{Due, Subject};
use tl_narrow::certificate_of;
use tl_nested::{LaidSections, problem_at};
use tl_read::{Source, read};
use tl_sides::{Align, Sides};
use tl_solve::Watcher;
use tl_table::Table;
use tl_verify::verify;

/// The numbers of a demonstration.
#[derive(Clone, Copy)]
pub struct Summary {
    /// The cells of the table.
    pub cells: u32,
    /// The ways in which each span of columns can have one of its classes of widths.
    pub count: u64,
    /// The lines of the layout that was found.
    pub height: u32,
    /// No layout has fewer lines.
    pub lower: u32,
    /// The cuts that the search made.
    pub cuts: u32,
}

/// What is asked of the table of a demonstration.
fn task() -> Task
    ensures { result ≡ demo_task }
{
    Task {
        width: DEMO_WIDTH,
        style: Style::Plain,
        source: Source::Html(Breaking::Words),
        budget: Some(DEMO_BUDGET),
        search: Search::Best,
        workers: 1,
        format: Format::Text(Align::Columns(Sides::none())),
        certified: true,
    }
}

/// The ways in which each span of the table's problem can have a class, on the sections before its own.
fn count_after(alloc: Global, table: &Table, before: &[Section]) -> Result<u64, AllocError>
    requires sound { IsSound table.now }
    requires wide { (least : ℕ) → IsLeastWidth table.now styles.Plain least → least ≤ DEMO_WIDTH }
    requires good { HasOwnNext table.now before.now }
    ensures { IfOk result (IsCountAfter table.now before.now) }
{
    let subject = Subject::of(alloc, table, Style::Plain, DEMO_WIDTH)?;
    let due = Due {
        table: table.number,
        width: DEMO_WIDTH,
    };
    Ok(problem_at(alloc, &subject, due, before)?.count())
}

/// The numbers of a table that is laid out on the page of a demonstration.
fn summary_of<R: Threads + Sync, G: Gate + Watcher>(
    run: &Run<'_, R, G>,
    table: &Table,
) -> Result<Summary, AllocError>
    requires sound { IsSound table.now }
    requires cells { HasFewCells table.now }
    requires wide { (least : ℕ) → IsLeastWidth table.now styles.Plain least → least ≤ DEMO_WIDTH }
    ensures { IfOk result (IsSummaryOf table.now) }
{
    let task = task();
    let subject = Subject::of(run.alloc, table, task.style, task.width)?;
    let LaidSections {
        sections,
        placed: _placed,
    } = searched(run, &task, &subject, DEMO_BUDGET)?;
    let certificate = certificate_of(run.alloc, task.style, task.width, DEMO_BUDGET, sections);
    // The certificate is valid, so it is refused only where memory runs out.
    if verify(
        run,
        table,
        Style::Plain,
        DEMO_WIDTH,
        DEMO_BUDGET,
        &certificate,
    )
    .is_err()
    {
        return Err(AllocError);
    }
    let sections = certificate.sections.as_slice();
    let own = sections.len() - 1;
    let last = &sections[own];
    Ok(Summary {
        cells: table.cells.len() as u32,
        count: count_after(run.alloc, table, &sections[..own])?,
        height: last.height,
        lower: last.lower,
        cuts: last.trace.len() as u32,
    })
}

/// Lays out the table of this number, checks its certificate, and gives its numbers.
pub fn demonstrate<R: Threads + Sync, G: Gate + Watcher>(
    rt: &R,
    alloc: Global,
    number: u32,
    gate: &G,
) -> Result<Summary, AllocError>
    ensures { IfOk result (IsDemonstrated number) }
{
    let text = demo_text(alloc, number)?;
    demo_fits();
    let reading = read(alloc, text.as_slice(), Source::Html(Breaking::Words))?;
    let table = reading.table().unwrap();
    summary_of(&task().run(rt, alloc, gate), &table)
}
