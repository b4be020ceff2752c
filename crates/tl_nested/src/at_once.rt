//! The sections of nested tables: those of one depth at once, the greatest depth first.

ghost use Rattle.std.specs.Prelude.{◌≡◌, ℕ, ◌+◌, ◌≤◌, ◌<◌, ◌++◌, IfOk, IfSome, Some, length};
ghost use Rattle.std.specs.List.{All, AllZip, flat_map};
ghost use Rattle.std.specs.List.Sorted.{IsPermutation};
ghost use Rattle.tl_base.specs.declared.limits.TheConstants.{MAX_BUDGET};
ghost use Rattle.tl_form.specs.Expected.{due_after, own_number, AreDueInOrder};
ghost use Rattle.tl_form.specs.Subjects.{IsSubject, due_of, meant};
ghost use Rattle.tl_nested.specs.Searched.{IsWideEnough};
ghost use Rattle.tl_nested.specs.Solved.{GivesOutcome, SearchesEach, SolvesEach};
ghost use Rattle.tl_nested.specs.inner.Depths.{IsAtDepth};
ghost use Rattle.tl_nested.specs.inner.Found.{IsBegun, IsFoundFor, IsFoundOn, HasNarrowWidths};

use crate::depths::{at_depth, depths_of, greatest, sizes_of};
use crate::effort::effort_of;
use crate::found::table_sections;
use std::alloc::{AllocError, Global};
use std::cmp::Reverse;
use std::thread::Threads;
use tl_base::{Gate, List};
use tl_cert::Section;
use tl_fan::{Run, gather};
use tl_form::{Due, Subject};
use tl_problem::Problem;
use tl_solve::Outcome;

/// The lists one after the other.
fn joined(alloc: Global, lists: Vec<List<Section>>) -> Result<List<Section>, AllocError>
    ensures { IfOk result (λ all. all ≡ flat_map (λ list. list) lists.items) }
{
    let mut all = Vec::new(alloc);
    for list in lists {
        let mut more = list.into_vec();
        all.append(&mut more)?;
    }
    Ok(List::from_vec(all))
}

/// The first list, and after it the second.
fn with_more(first: List<Section>, second: List<Section>) -> Result<List<Section>, AllocError>
    ensures { IfOk result (λ all. all ≡ first ++ second) }
{
    let mut all = first.into_vec();
    let mut more = second.into_vec();
    all.append(&mut more)?;
    Ok(List::from_vec(all))
}

/// The sections of the tables with these numbers, on the sections that are told, each table a piece of work.
fn group_sections<
    R: Threads + Sync,
    G: Gate,
    F: Fn(&Problem, u32, u32) -> Result<Outcome, AllocError> + Sync,
>(
    run: &Run<'_, R, G>,
    subject: &Subject,
    budget: u32,
    solve: &F,
    numbers: &[u32],
    told: &[Section],
) -> Result<Vec<List<Section>>, AllocError>
    requires subject { IsSubject subject.now }
    requires wide { IsWideEnough subject.now }
    requires cuts { budget ≤ MAX_BUDGET }
    requires callable { SearchesEach F.Fn solve.now budget }
    requires solves { SolvesEach F.Fn solve.now budget }
    requires there { All (λ number. (own_number (meant subject.now) ≤ number) × (number ≤ subject.now.last)) numbers.now }
    ensures { IfOk result (λ lists. AllZip (λ number list. All (IsFoundFor (GivesOutcome F.Fn solve.now budget) (meant subject.now)
        budget told.now number) list) numbers.now lists.items) }
{
    let piece = |number: u32| -> Result<List<Section>, AllocError>
        requires { IsSubject subject.now × IsWideEnough subject.now × (budget ≤ MAX_BUDGET)
            × SearchesEach F.Fn solve.now budget × SolvesEach F.Fn solve.now budget
            × (own_number (meant subject.now) ≤ number) × (number ≤ subject.now.last) }
        ensures { IfOk result (All (IsFoundFor (GivesOutcome F.Fn solve.entry.now budget) (meant subject.entry.now) budget
            told.entry.now number)) }
    { table_sections(run.alloc, subject, number, budget, solve, told) };
    let effort = effort_of(subject, numbers);
    gather(run, numbers, effort, &piece)
}

/// The sections in the order of a certificate: from the greatest number of a table down, those of one table
/// as they stood.
fn sorted(found: List<Section>) -> Result<List<Section>, AllocError>
    ensures { IfOk result (IsPermutation found) }
{
    let mut sections = found.into_vec();
    sections.sort_by_key(|section| Reverse(section.table))?;
    Ok(List::from_vec(sections))
}

/// The sections of all nested tables: those of one depth at once, as many tables at one time as the run has
/// workers, the greatest depth first.
pub fn nested_sections<
    R: Threads + Sync,
    G: Gate,
    F: Fn(&Problem, u32, u32) -> Result<Outcome, AllocError> + Sync,
>(
    run: &Run<'_, R, G>,
    subject: &Subject,
    budget: u32,
    solve: &F,
) -> Result<List<Section>, AllocError>
    requires subject { IsSubject subject.now }
    requires wide { IsWideEnough subject.now }
    requires cuts { budget ≤ MAX_BUDGET }
    requires callable { SearchesEach F.Fn solve.now budget }
    requires solves { SolvesEach F.Fn solve.now budget }
    ensures { IfOk result (λ found. All (IsFoundOn (GivesOutcome F.Fn solve.now budget) (meant subject.now) budget found) found) }
{
    let alloc = run.alloc;
    let sizes = sizes_of(alloc, subject)?;
    let depths = depths_of(alloc, sizes.as_slice())?;
    let most = greatest(depths.as_slice());
    let mut told = List::new(alloc);
    for up in 0..most {
        let numbers = at_depth(alloc, subject.table.number, depths.as_slice(), most - up)?;
        let lists = group_sections(
            run,
            subject,
            budget,
            solve,
            numbers.as_slice(),
            told.as_slice(),
        )?;
        let more = joined(alloc, lists)?;
        told = with_more(told, more)?;
    }
    sorted(told)
}

/// What is due after the sections, where each of them is the one that is due after those before it.
fn due_after(subject: &Subject, sections: &[Section]) -> Option<Due>
    requires subject { IsSubject subject.now }
    requires narrow { All (HasNarrowWidths subject.now.style) sections.now }
    ensures { IfSome result (λ now. AreDueInOrder (meant subject.now) sections.now (length sections.now)
        × (due_after (meant subject.now) sections.now ≡ Some (due_of now))) }
{
    let mut due = subject.first_due();
    for section in sections {
        if section.table != due.table || section.width != due.width {
            return None;
        }
        due = subject.due_after(section)?;
    }
    Some(due)
}

/// The sections with which a certificate begins, and what is due after them.
pub struct Begun {
    pub sections: List<Section>,
    pub due: Due,
}

/// The sections of nested tables that were found, where they are those that are due, each after the ones
/// before it; and none where they are not.
pub fn begin(alloc: Global, subject: &Subject, found: List<Section>) -> Begun
    requires subject { IsSubject subject.now }
    requires narrow { All (HasNarrowWidths subject.now.style) found }
    ensures { IsBegun (meant subject.now) found result.sections (due_of result.due) }
{
    match due_after(subject, found.as_slice()) {
        Some(due) => Begun {
            sections: found,
            due,
        },
        None => Begun {
            sections: List::new(alloc),
            due: subject.first_due(),
        },
    }
}
