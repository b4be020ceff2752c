//! The sections of a document by solvers that are made.

ghost use Rattle.std.specs.Prelude.{ℕ, ◌≤◌, IfOk};
ghost use Rattle.tl_base.specs.declared.limits.TheConstants.{MAX_BUDGET, MAX_PAGE_WIDTH};
ghost use Rattle.tl_form.specs.Named.{IsLastPlacement};
ghost use Rattle.tl_table.specs.Least.{IsLeastWidth};
ghost use Rattle.tl_table.specs.Sound.{IsSound};
ghost use Rattle.tl_form.specs.Subjects.{IsSubject};
ghost use Rattle.tl_nested.specs.Searched.{AreSectionsOf, AreWritable, IsWideEnough};
ghost use Rattle.tl_problem.specs.Problem.{ProblemModel};
ghost use Rattle.tl_solve.specs.declared.outcome.Outcome.{Outcome};
ghost use Rattle.tl_solve.specs.Solver.{IsSolverOutcome};

use crate::searching::{LaidSections, sections_by};
use std::alloc::{AllocError, Global};
use std::thread::Threads;
use tl_base::{Gate, List, Style};
use tl_cert::Section;
use tl_fan::Run;
use tl_form::Subject;
use tl_problem::Problem;
use tl_solve::{Outcome, Solver, Watch, Watcher};
use tl_table::Table;

/// Makes solvers. A maker has two meanings of its own: `can_make`, when it may be called, and `besides`,
/// what each outcome of a solver that it makes has besides.
pub trait Make: Sync {
    /// The solvers that are made.
    type Made: Solver;

    ghost can_make: { Self → Type 0 } = { λ _. Unit {0} };

    ghost besides: { Self → ProblemModel → ℕ → Outcome → Type 0 };

    /// Makes a solver that can be called.
    fn make(&self, alloc: Global) -> Result<Self::Made, AllocError>
        requires ready { can_make self.now }
        ensures callable { IfOk result (λ made. Self.Made.can_solve made) }
        ensures besides { IfOk result (λ made. (problem : ProblemModel) (budget : ℕ) (outcome : Outcome) →
            Self.Made.besides made problem budget outcome → besides self.now problem budget outcome) };
}

/// All sections of a certificate of the table on a page of `width` columns, each by a solver of its own. As
/// many workers as the run has search nested tables of one depth at one time, each table behind the gate by its
/// number; the sections are those of a certificate for every number of workers. The error is out of memory.
pub fn sections<R: Threads + Sync, M: Make, G: Gate + Watcher>(
    run: &Run<'_, R, G>,
    table: &Table,
    style: Style,
    width: u32,
    budget: u32,
    maker: &M,
) -> Result<List<Section>, AllocError>
    requires ready { M.can_make maker.now }
    requires sound { IsSound table.now }
    requires narrow { width ≤ MAX_PAGE_WIDTH }
    requires wide { (least : ℕ) → IsLeastWidth table.now style least → least ≤ width }
    requires cuts { budget ≤ MAX_BUDGET }
    ensures expected { IfOk result (AreSectionsOf (λ problem outcome. M.besides maker.now problem budget outcome) table.now
        style width budget) }
    ensures writable { IfOk result AreWritable }
{
    let subject = Subject::of(run.alloc, table, style, width)?;
    let LaidSections {
        sections,
        placed: _placed,
    } = laid_sections(run, &subject, budget, maker)?;
    Ok(sections)
}

/// The sections of a subject, which `sections` makes of its table, with the placement that was found for the
/// last of them. The error is out of memory.
pub fn laid_sections<R: Threads + Sync, M: Make, G: Gate + Watcher>(
    run: &Run<'_, R, G>,
    subject: &Subject,
    budget: u32,
    maker: &M,
) -> Result<LaidSections, AllocError>
    requires ready { M.can_make maker.now }
    requires subject { IsSubject subject.now }
    requires wide { IsWideEnough subject.now }
    requires cuts { budget ≤ MAX_BUDGET }
    ensures expected { IfOk result (λ laid. AreSectionsOf (λ problem outcome. M.besides maker.now problem budget outcome)
        subject.now.table.now subject.now.style subject.now.page budget laid.sections) }
    ensures writable { IfOk result (λ laid. AreWritable laid.sections) }
    ensures placed { IfOk result (λ laid. IsLastPlacement subject.now.table.now subject.now.style subject.now.page
        laid.sections laid.placed) }
{
    let solve = |problem: &Problem, table: u32, budget: u32| -> Result<Outcome, AllocError>
        requires { M.can_make maker.now × (budget ≤ MAX_BUDGET) }
        ensures solved { IfOk result (IsSolverOutcome problem.now budget) }
        ensures besides { IfOk result (λ outcome. M.besides maker.entry.now problem.now budget outcome) }
    {
        let watch = Watch {
            watcher: run.gate,
            table,
        };
        maker.make(run.alloc)?.solve(problem, budget, &watch)
    };
    sections_by(run, subject, budget, &solve)
}
