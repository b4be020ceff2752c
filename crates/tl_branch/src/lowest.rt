//! The lowest placement that a piece has found below the height that is to be undercut.

ghost use Rattle.std.specs.Prelude.{◌<◌, ◌≤◌, IfOk, OnOk};
ghost use Rattle.tl_problem.specs.Placements.{IsPlacement};
ghost use Rattle.tl_problem.specs.Works.{IsWorkOf};
ghost use Rattle.tl_problem.specs.Zones.{IsZone};
ghost use Rattle.tl_solve.specs.Arenas.{IsBoundFound, IsLookedAt};
ghost use Rattle.tl_branch.specs.inner.UnderWay.{IsFoundLower};

use std::alloc::AllocError;
use tl_problem::{Placed, Problem, Work, Zone};

/// The lowest placement that was found, made tight, and the height that the next one has to undercut: that of
/// the placement, or the given one where none was found.
#[derive(Drop)]
pub(crate) struct Lowest {
    pub(crate) height: u32,
    pub(crate) placed: Option<Placed>,
}

/// The bound of the zone, `None` where it has no widths. The lowest placement becomes that of the zone, made
/// tight, where that is lower; it is not looked at where the bound shows that it is not.
pub(crate) fn look(
    problem: &Problem,
    zone: &Zone,
    work: &mut Work,
    lowest: &mut Lowest,
) -> Result<Option<u32>, AllocError>
    requires zone { IsZone problem.now zone.now }
    requires work { IsWorkOf problem.now work.old }
    ensures bound { IfOk result (IsBoundFound problem.now zone.now) }
    ensures work { IsWorkOf problem.now work.new }
    ensures lowered { IsFoundLower problem.now lowest.old lowest.new }
    ensures looked { OnOk result (IsLookedAt problem.now zone.now lowest.new.height) }
{
    let bound = problem.bound_of(zone, work);
    let Some(least) = bound else {
        return Ok(None);
    };
    if least < lowest.height {
        place_zone(problem, zone, work, lowest)?;
    }
    Ok(bound)
}

/// Places the zone, and takes the placement where it is lower.
fn place_zone(
    problem: &Problem,
    zone: &Zone,
    work: &mut Work,
    lowest: &mut Lowest,
) -> Result<(), AllocError>
    requires zone { IsZone problem.now zone.now }
    requires work { IsWorkOf problem.now work.old }
    ensures work { IsWorkOf problem.now work.new }
    ensures lowered { IsFoundLower problem.now lowest.old lowest.new }
    ensures looked { OnOk result (IsLookedAt problem.now zone.now lowest.new.height) }
{
    let found = problem.place_in(zone, work)?;
    if let Some(placed) = found {
        take_lower(problem, &placed, lowest)?;
    }
    Ok(())
}

/// Makes the placement tight and takes it, where it is lower.
fn take_lower(problem: &Problem, placed: &Placed, lowest: &mut Lowest) -> Result<(), AllocError>
    requires placement { IsPlacement problem.now placed.now }
    ensures lowered { IsFoundLower problem.now lowest.old lowest.new }
    ensures taken { OnOk result (lowest.new.height ≤ placed.now.height) }
{
    if placed.height < lowest.height {
        let tight = problem.tight(placed)?;
        lowest.height = tight.height;
        lowest.placed = Some(tight);
    }
    Ok(())
}
