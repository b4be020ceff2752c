//! Looks at the placement of a zone, which may be lower than the best so far.

ghost use Rattle.std.specs.Prelude.{◌<◌, ◌≤◌, IfOk, OnOk};
ghost use Rattle.tl_problem.specs.Layouts.{WithinPage};
ghost use Rattle.tl_problem.specs.Placements.{HasNoLower, IsPlacement};
ghost use Rattle.tl_problem.specs.Tight.{IsTight};
ghost use Rattle.tl_problem.specs.Works.{IsWorkOf};
ghost use Rattle.tl_problem.specs.Zones.{IsZone};
ghost use Rattle.tl_solve.specs.Arenas.{IsBoundFound, IsKnownFor, IsLowered, IsLookedAt};

use std::alloc::AllocError;
use tl_base::List;
use tl_problem::{Placed, Problem, Work, Zone};

/// The bound of the zone, `None` where it has no widths. It is a part of one that is cut, which has the widths
/// `known` at its least positions. The best placement becomes that of the zone, made tight, where that is lower.
/// It is not looked at where the bound shows that it is not, nor where it has the known widths: the placement
/// under these was looked at before.
pub(crate) fn look(
    problem: &Problem,
    zone: &Zone,
    known: &List<u32>,
    work: &mut Work,
    best: &mut Placed,
) -> Result<Option<u32>, AllocError>
    requires zone { IsZone problem.now zone.now }
    requires work { IsWorkOf problem.now work.old }
    requires tight { IsTight problem.now best.old }
    requires known { IsKnownFor problem.now zone.now known.now best.old.height }
    ensures bound { IfOk result (IsBoundFound problem.now zone.now) }
    ensures work { IsWorkOf problem.now work.new }
    ensures tight { IsTight problem.now best.new }
    ensures lowered { IsLowered best.old best.new }
    ensures looked { OnOk result (IsLookedAt problem.now zone.now best.new.height) }
{
    let found = problem.outline_of(zone, work)?;
    let Some(outline) = found else {
        return Ok(None);
    };
    let is_known = outline.widths == *known;
    if outline.bound < best.height && !is_known {
        place(problem, &outline.widths, work, best)?;
    }
    Ok(Some(outline.bound))
}

/// Takes the placement under these widths for the best, made tight, where it is lower.
fn place(
    problem: &Problem,
    widths: &List<u32>,
    work: &mut Work,
    best: &mut Placed,
) -> Result<(), AllocError>
    requires page { WithinPage problem.now widths.now }
    requires work { IsWorkOf problem.now work.old }
    requires tight { IsTight problem.now best.old }
    ensures work { IsWorkOf problem.now work.new }
    ensures tight { IsTight problem.now best.new }
    ensures lowered { IsLowered best.old best.new }
    ensures looked { OnOk result (HasNoLower problem.now widths.now best.new.height) }
{
    let found = problem.place_lower(widths.as_slice(), best.height, work)?;
    if let Some(placed) = found {
        take_lower(problem, &placed, best)?;
    }
    Ok(())
}

/// Makes the placement tight and takes it for the best, where it is lower.
pub(crate) fn take_lower(
    problem: &Problem,
    placed: &Placed,
    best: &mut Placed,
) -> Result<(), AllocError>
    requires placement { IsPlacement problem.now placed.now }
    requires tight { IsTight problem.now best.old }
    ensures tight { IsTight problem.now best.new }
    ensures lowered { IsLowered best.old best.new }
    ensures taken { OnOk result (best.new.height ≤ placed.now.height) }
{
    if placed.height < best.height {
        *best = problem.tight(placed)?;
    }
    Ok(())
}
