//! The placement of one section, on the problem that the sections before it make of its table.

ghost use Rattle.std.specs.Prelude.{◌≡◌, ◌≤◌, ℕ, IfOk, IsTrue, ◌↔◌, MatchOption};
ghost use Rattle.tl_base.specs.declared.limits.TheConstants.{MAX_PAGE_WIDTH};
ghost use Rattle.tl_problem.specs.declared.placed.Placed.{Placed};
ghost use Rattle.tl_problem.specs.Problem.{ProblemModel};
ghost use Rattle.tl_table.specs.Least.{IsLeastWidth};
ghost use Rattle.tl_table.specs.Sound.{IsSound};
ghost use Rattle.tl_form.specs.Valid.{HasPlacement};
ghost use Rattle.tl_form.specs.Nested.{IsProblemFor};

use crate::nested_steps::collected_steps;
use crate::problems::sound_problem;
use std::alloc::{AllocError, Global};
use tl_base::Style;
use tl_cert::Section;
use tl_problem::{Placed, Problem};
use tl_table::Table;

/// A section's problem and its placement on it.
pub struct Laid {
    pub problem: Problem,
    pub placed: Placed,
}

impl Drop for Laid {
    fn drop(self) {
        let Laid {
            problem: _problem,
            placed: _placed,
        } = self;
    }
}

impl Laid {
    /// The placement, without its problem.
    pub fn into_placed(self) -> Placed
        ensures { result ≡ self.placed }
    {
        let Laid {
            problem: _problem,
            placed,
        } = self;
        placed
    }
}

/// The problem of a section of the table, on what the sections before it tell of nested tables. `None`
/// exactly where they tell too little, or what makes no sound problem.
pub fn problem_for(
    alloc: Global,
    table: &Table,
    style: Style,
    width: u32,
    before: &[Section],
) -> Result<Option<Problem>, AllocError>
    requires sound { IsSound table.now }
    requires narrow { width ≤ MAX_PAGE_WIDTH }
    requires wide { (least : ℕ) → IsLeastWidth table.now style least → least ≤ width }
    ensures { IfOk result (λ found. MatchOption found
        ((problem : ProblemModel) → IsProblemFor table.now style width before.now problem → ⊥)
        (IsProblemFor table.now style width before.now)) }
{
    let Some(inner) = collected_steps(alloc, table, style, width, before)? else {
        return Ok(None);
    };
    sound_problem(alloc, table, style, width, inner.as_slice())
}

/// Whether the placement has the widths and the height of the section.
fn is_of(placed: &Placed, section: &Section) -> bool
    ensures { IsTrue result ↔ ((placed.now.widths ≡ section.now.widths) × (placed.now.height ≡ section.now.height)) }
{
    placed.widths == section.widths && placed.height == section.height
}

/// The placement of the section. `None` exactly where its widths are not those of a tight placement of
/// its height.
fn placement_of(problem: &Problem, section: &Section) -> Result<Option<Placed>, AllocError>
    ensures { IfOk result (λ found. MatchOption found
        ((placed : Placed) → HasPlacement section.now problem.now placed → ⊥)
        (HasPlacement section.now problem.now)) }
{
    let Some(placed) = problem.place(section.widths.as_slice())? else {
        return Ok(None);
    };
    let tight = problem.tight(&placed)?;
    if is_of(&tight, section) {
        Ok(Some(tight))
    } else {
        Ok(None)
    }
}

/// The placement of a section of the table, with its problem. `None` exactly where it has none.
pub fn lay(
    alloc: Global,
    table: &Table,
    style: Style,
    before: &[Section],
    section: &Section,
) -> Result<Option<Laid>, AllocError>
    requires sound { IsSound table.now }
    requires narrow { section.now.width ≤ MAX_PAGE_WIDTH }
    requires wide { (least : ℕ) → IsLeastWidth table.now style least → least ≤ section.now.width }
    ensures { IfOk result (λ found. MatchOption found
        ((problem : ProblemModel) (placed : Placed) → IsProblemFor table.now style section.now.width before.now problem →
        HasPlacement section.now problem placed → ⊥)
        (λ laid. IsProblemFor table.now style section.now.width before.now laid.problem
        × HasPlacement section.now laid.problem laid.placed)) }
{
    let Some(problem) = problem_for(alloc, table, style, section.width, before)? else {
        return Ok(None);
    };
    match placement_of(&problem, section)? {
        Some(placed) => Ok(Some(Laid { problem, placed })),
        None => Ok(None),
    }
}
