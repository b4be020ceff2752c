//! The sections of a document by a search that is given as a closure: those of nested tables at once, and
//! then what is still due, one after the other.

ghost use Rattle.std.specs.Prelude.{◌≡◌, ℕ, ◌≤◌, IfOk, Some, length};
ghost use Rattle.tl_base.specs.declared.limits.TheConstants.{MAX_BUDGET};
ghost use Rattle.tl_cert.specs.declared.section.Section.{Section};
ghost use Rattle.tl_form.specs.Expected.{due_after};
ghost use Rattle.tl_form.specs.Named.{IsLastPlacement};
ghost use Rattle.tl_form.specs.Subjects.{IsSubject, due_of, meant};
ghost use Rattle.tl_form.specs.Valid.{AreGoodBelow, IsProblemAt};
ghost use Rattle.tl_nested.specs.Searched.{AreSectionsOf, AreWritable, IsWideEnough};
ghost use Rattle.tl_nested.specs.Solved.{GivesOutcome, SearchesEach, SolvesEach};

use crate::at_once::{Begun, begin, nested_sections};
use crate::found::{Found, search};
use std::alloc::{AllocError, Global};
use std::thread::Threads;
use tl_base::{Gate, List};
use tl_cert::Section;
use tl_fan::Run;
use tl_form::{Due, Subject, problem_for, sections_give_sound_problems};
use tl_problem::{Placed, Problem};
use tl_solve::Outcome;

/// The problem of the section that is due, on the sections before it: that of its table at its width, in
/// columns, with the steps that they give the tables nested directly in it.
pub fn problem_at(
    alloc: Global,
    subject: &Subject,
    due: Due,
    before: &[Section],
) -> Result<Problem, AllocError>
    requires subject { IsSubject subject.now }
    requires wide { IsWideEnough subject.now }
    requires good { (budget : ℕ) × AreGoodBelow (meant subject.now) budget before.now (length before.now) }
    requires next { due_after (meant subject.now) before.now ≡ Some (due_of due) }
    ensures { IfOk result (λ problem. (section : Section) → section.table ≡ due.table → section.width ≡ due.width →
        IsProblemAt (meant subject.now) before.now section problem) }
{
    sections_give_sound_problems();
    let table = subject.table_of(due.table);
    let problem = problem_for(alloc, table, subject.style, due.width, before)?.unwrap();
    Ok(problem)
}

/// The sections of a certificate, with the placement that was found for the last of them.
#[derive(Drop)]
pub struct LaidSections {
    /// The sections, in the order in which they are due.
    pub sections: List<Section>,
    /// The widths of the columns, in columns of text, and the heights of the rows, in lines, of the last
    /// section's table.
    pub placed: Placed,
}

/// All sections of a certificate of the subject's table on its page, each by a call of `solve` with
/// its own problem and the budget: of each nested table, from the greatest number down, one on the whole
/// page, and then one a column narrower than the placement before, as long as the table has a layout there;
/// last one of the table itself. The steps of nested tables come from the sections before. The placement
/// of the last section is the one that its search found, made tight.
///
/// Nested tables of one depth do not need one another: from the greatest depth on, those of one depth are
/// searched by as many workers at one time as the run has, each table a piece of work behind the gate by its
/// number. What is still due after them is searched one after the other; that is the table itself.
pub fn sections_by<
    R: Threads + Sync,
    G: Gate,
    F: Fn(&Problem, u32, u32) -> Result<Outcome, AllocError> + Sync,
>(
    run: &Run<'_, R, G>,
    subject: &Subject,
    budget: u32,
    solve: &F,
) -> Result<LaidSections, AllocError>
    requires subject { IsSubject subject.now }
    requires wide { IsWideEnough subject.now }
    requires cuts { budget ≤ MAX_BUDGET }
    requires callable { SearchesEach F.Fn solve.now budget }
    requires solves { SolvesEach F.Fn solve.now budget }
    ensures expected { IfOk result (λ laid. AreSectionsOf (GivesOutcome F.Fn solve.now budget) subject.now.table.now
        subject.now.style subject.now.page budget laid.sections) }
    ensures writable { IfOk result (λ laid. AreWritable laid.sections) }
    ensures placed { IfOk result (λ laid. IsLastPlacement subject.now.table.now subject.now.style subject.now.page
        laid.sections laid.placed) }
{
    sections_give_sound_problems();
    let found = nested_sections(run, subject, budget, solve)?;
    let Begun {
        mut sections,
        mut due,
    } = begin(run.alloc, subject, found);
    loop {
        let Found { section, placed } = search(
            run.alloc,
            subject,
            due,
            budget,
            solve,
            sections.as_slice(),
        )?;
        sections.push(section)?;
        match subject.next_due(due.table, placed.width) {
            Some(next) => due = next,
            None => return Ok(LaidSections { sections, placed }),
        }
    }
}
