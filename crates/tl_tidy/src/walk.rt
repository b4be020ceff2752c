//! The walk over the zones of a problem, in the order of their class vectors.

ghost use Rattle.std.specs.Prelude.{◌≡◌, ◌<◌, ◌≤◌, [], ◌∷◌, IfOk};
ghost use Rattle.tl_problem.specs.Agreement.{LowIsHigh};
ghost use Rattle.tl_problem.specs.Layouts.{WithinPage};
ghost use Rattle.tl_problem.specs.Spans.{count_of};
ghost use Rattle.tl_problem.specs.Works.{IsWorkOf};
ghost use Rattle.tl_problem.specs.Zones.{whole_zone};
ghost use Rattle.tl_tidy.specs.Choices.{IfFound, IfOpen};
ghost use Rattle.tl_tidy.specs.Classes.{HoldsLow, IsChosen};
ghost use Rattle.tl_tidy.specs.Needs.{IsNeedAbove, IsNeedWithin};

use crate::Choice;
use crate::look::{Look, cut_first, look_at, place_tight};
use std::alloc::{AllocError, Global};
use tl_problem::{Problem, Work, Zone};

/// Chooses among the layouts that are no higher than `height`, in lines: of their class vectors the
/// first one, as in a dictionary, and of its widths those of the least positions, made tight. At
/// most `quota` zones are cut; where more would have to be, the choice stays open. The memory that
/// it takes grows with the cuts and the spans.
pub fn choose(
    alloc: Global,
    problem: &Problem,
    height: u32,
    quota: u32,
) -> Result<Choice, AllocError>
    requires agree { LowIsHigh problem.now }
    requires some { HoldsLow problem.now height (WithinPage problem.now) }
    ensures found { IfOk result (IfFound (IsChosen problem.now height)) }
    ensures low { IfOk result (IfFound (λ placed. placed.height ≤ height)) }
    ensures enough { IfOk result (IfFound (λ _. IsNeedWithin problem.now height quota)) }
    ensures above { IfOk result (IfOpen (IsNeedAbove problem.now height quota)) }
    ensures count { IfOk result (IfOpen (quota < count_of problem.now)) }
{
    let work = Work::new(problem)?;
    let mut stack: Vec<Zone> = Vec::new(alloc);
    stack.push(problem.whole()?)?;
    walk_zones(problem, height, quota, stack, work)
}

/// Goes through the zones on the stack, the last one first, to the first layout that is low enough.
/// At most `quota` zones are cut.
fn walk_zones(
    problem: &Problem,
    height: u32,
    quota: u32,
    mut stack: Vec<Zone>,
    mut work: Work,
) -> Result<Choice, AllocError>
    requires agree { LowIsHigh problem.now }
    requires some { HoldsLow problem.now height (WithinPage problem.now) }
    requires whole { stack.items ≡ whole_zone problem.now ∷ [] }
    requires work { IsWorkOf problem.now work }
    ensures found { IfOk result (IfFound (IsChosen problem.now height)) }
    ensures low { IfOk result (IfFound (λ placed. placed.height ≤ height)) }
    ensures enough { IfOk result (IfFound (λ _. IsNeedWithin problem.now height quota)) }
    ensures above { IfOk result (IfOpen (IsNeedAbove problem.now height quota)) }
    ensures count { IfOk result (IfOpen (quota < count_of problem.now)) }
{
    let mut cuts: u32 = 0;
    while let Some(zone) = stack.pop() {
        match look_at(problem, &zone, height, &mut work) {
            Look::TooHigh => {}
            Look::OneClass => {
                let placed = place_tight(problem, &zone, height, &mut work)?;
                return Ok(Choice::Found(placed));
            }
            Look::Cut(span) => {
                if cuts == quota {
                    return Ok(Choice::Open);
                }
                cuts += 1;
                let (lower, upper) = cut_first(&zone, span)?;
                stack.push(upper)?;
                stack.push(lower)?;
            }
        }
    }
    // No zone is left only if none held a layout that is low enough, and the whole does.
    Ok(Choice::Open)
}
