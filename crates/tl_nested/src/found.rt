//! The section of an outcome, and the search of one problem on the sections that are told.

ghost use Rattle.std.specs.Prelude.{◌≡◌, ◌+◌, ◌≤◌, IfOk, IfSome, Some, length};
ghost use Rattle.std.specs.List.{All};
ghost use Rattle.tl_base.specs.declared.limits.TheConstants.{MAX_BUDGET};
ghost use Rattle.tl_cert.specs.Text.{IsSectionWritable};
ghost use Rattle.tl_form.specs.Expected.{due_after, least_of, own_number, placed_width};
ghost use Rattle.tl_form.specs.Named.{IsPlacementAt};
ghost use Rattle.tl_form.specs.Subjects.{IsSubject, due_of, meant};
ghost use Rattle.tl_form.specs.Valid.{AreGoodBelow};
ghost use Rattle.tl_nested.specs.Searched.{IsSearched, IsWideEnough};
ghost use Rattle.tl_nested.specs.Solved.{GivesOutcome, SearchesEach, SolvesEach};
ghost use Rattle.tl_nested.specs.inner.Found.{IsFoundFor, found_of};

use crate::searching::problem_at;
use std::alloc::{AllocError, Global};
use tl_base::List;
use tl_cert::Section;
use tl_form::{Due, Subject, problem_for, sections_give_sound_problems};
use tl_problem::{Placed, Problem};
use tl_solve::Outcome;

/// What one search gave.
#[derive(Drop)]
pub struct Found {
    pub section: Section,
    /// The placement of the section.
    pub placed: Placed,
}

/// The section of an outcome of the search that is due, with its placement.
fn found_of(alloc: Global, due: Due, outcome: Outcome) -> Result<Found, AllocError>
    ensures { IfOk result (λ found. found ≡ found_of (due_of due) outcome) }
{
    let Outcome {
        best: placed,
        lower,
        trace,
        log,
    } = outcome;
    let section = Section {
        table: due.table,
        width: due.width,
        height: placed.height,
        lower,
        widths: List::from_slice(alloc, placed.widths.as_slice())?,
        trace,
        log,
    };
    Ok(Found { section, placed })
}

/// Searches the section that is due, on the sections before it.
pub fn search<F: Fn(&Problem, u32, u32) -> Result<Outcome, AllocError>>(
    alloc: Global,
    subject: &Subject,
    due: Due,
    budget: u32,
    solve: &F,
    before: &[Section],
) -> Result<Found, AllocError>
    requires subject { IsSubject subject.now }
    requires wide { IsWideEnough subject.now }
    requires cuts { budget ≤ MAX_BUDGET }
    requires good { AreGoodBelow (meant subject.now) budget before.now (length before.now) }
    requires next { due_after (meant subject.now) before.now ≡ Some (due_of due) }
    requires callable { SearchesEach F.Fn solve.now budget }
    requires solves { SolvesEach F.Fn solve.now budget }
    ensures searched { IfOk result (λ found. IsSearched (GivesOutcome F.Fn solve.now budget) (meant subject.now) budget before.now
        found.section) }
    ensures placed { IfOk result (λ found. IsPlacementAt (meant subject.now) before.now found.section found.placed) }
    ensures width { IfOk result (λ found. found.placed.width ≡ placed_width subject.now.style found.section) }
    ensures writable { IfOk result (λ found. IsSectionWritable found.section) }
{
    sections_give_sound_problems();
    let problem = problem_at(alloc, subject, due, before)?;
    let outcome = solve(&problem, due.table, budget)?;
    found_of(alloc, due, outcome)
}

/// Searches a table at a width, on the sections that are told. `None` where they make no sound problem of it.
fn search_on<F: Fn(&Problem, u32, u32) -> Result<Outcome, AllocError>>(
    alloc: Global,
    subject: &Subject,
    due: Due,
    budget: u32,
    solve: &F,
    told: &[Section],
) -> Result<Option<Found>, AllocError>
    requires subject { IsSubject subject.now }
    requires from { own_number (meant subject.now) ≤ due.table }
    requires upto { due.table ≤ subject.now.last }
    requires wide { least_of (meant subject.now) due.table ≤ due.width }
    requires narrow { due.width ≤ subject.now.page }
    requires cuts { budget ≤ MAX_BUDGET }
    requires callable { SearchesEach F.Fn solve.now budget }
    requires solves { SolvesEach F.Fn solve.now budget }
    ensures found { IfOk result (λ some. IfSome some (λ found. IsFoundFor (GivesOutcome F.Fn solve.now budget)
        (meant subject.now) budget told.now due.table found.section)) }
    ensures narrow { IfOk result (λ some. IfSome some (λ found. found.placed.width ≤ due.width)) }
{
    let table = subject.table_of(due.table);
    let Some(problem) = problem_for(alloc, table, subject.style, due.width, told)? else {
        return Ok(None);
    };
    let outcome = solve(&problem, due.table, budget)?;
    Ok(Some(found_of(alloc, due, outcome)?))
}

/// The next width of a table after a placement of so many columns: one less, where it has a layout there.
fn narrower(placed: u32, least: u32) -> Option<u32>
    ensures { IfSome result (λ width. (width + 1 ≡ placed) × (least ≤ width)) }
{
    if placed > least {
        Some(placed - 1)
    } else {
        None
    }
}

/// The sections of a nested table, on the sections that are told: one on the whole page, and then one a
/// column narrower than the placement before, as long as the table has a layout there. They end early
/// where what is told makes no sound problem.
pub fn table_sections<F: Fn(&Problem, u32, u32) -> Result<Outcome, AllocError>>(
    alloc: Global,
    subject: &Subject,
    number: u32,
    budget: u32,
    solve: &F,
    told: &[Section],
) -> Result<List<Section>, AllocError>
    requires subject { IsSubject subject.now }
    requires wide { IsWideEnough subject.now }
    requires from { own_number (meant subject.now) ≤ number }
    requires upto { number ≤ subject.now.last }
    requires cuts { budget ≤ MAX_BUDGET }
    requires callable { SearchesEach F.Fn solve.now budget }
    requires solves { SolvesEach F.Fn solve.now budget }
    ensures { IfOk result (All (IsFoundFor (GivesOutcome F.Fn solve.now budget) (meant subject.now) budget told.now number)) }
{
    let least = subject.least[(number - subject.table.number) as usize];
    let mut sections = List::new(alloc);
    let mut width = Some(subject.page);
    while let Some(now) = width {
        let due = Due {
            table: number,
            width: now,
        };
        let Some(found) = search_on(alloc, subject, due, budget, solve, told)? else {
            return Ok(sections);
        };
        let Found { section, placed } = found;
        sections.push(section)?;
        width = narrower(placed.width, least);
    }
    Ok(sections)
}
