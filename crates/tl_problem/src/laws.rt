//! Laws of the definitions in this crate's specs. Each is the contract of a function that does nothing.
ghost use Rattle.tl_problem.specs.Laws.{AreaBoundIsBelowLayouts, BoundIsBelowLayouts, BoundIsBelowPlacements};
ghost use Rattle.tl_problem.specs.Laws.{CutsArePartitions, OneClassIsExact, ShareBoundIsBelowLayouts, ShareBoundRises};
ghost use Rattle.tl_problem.specs.Laws.{TightOnce, TightRaisesNothing, WholeHasAll};

/// No layout by `low` with widths in a zone is lower than the zone's bound.
pub fn bound_is_below_layouts()
    ensures { BoundIsBelowLayouts }
{}

/// No layout by `low` with widths in a zone is lower than the zone's area bound.
pub fn area_bound_is_below_layouts()
    ensures { AreaBoundIsBelowLayouts }
{}

/// No layout by `low` with widths in a zone is lower than the zone's shared bound by a weighting.
pub fn share_bound_is_below_layouts()
    ensures { ShareBoundIsBelowLayouts }
{}

/// A zone whose widths lie in another has no lower shared bound by the same weighting.
pub fn share_bound_rises()
    ensures { ShareBoundRises }
{}

/// No placement with widths in a zone is lower than the zone's bound.
pub fn bound_is_below_placements()
    ensures { BoundIsBelowPlacements }
{}

/// In a zone of one class for each span, in which `low` is `high`, each placement is as high as the
/// zone's bound.
pub fn one_class_is_exact()
    ensures { OneClassIsExact }
{}

/// The whole zone has all widths within the page.
pub fn whole_has_all()
    ensures { WholeHasAll }
{}

/// The two parts of a cut have between them the widths of the cut zone, and none in common.
pub fn cuts_are_partitions()
    ensures { CutsArePartitions }
{}

/// Making a placement tight makes it neither wider nor higher.
pub fn tight_raises_nothing()
    ensures { TightRaisesNothing }
{}

/// Making a tight placement tight again changes nothing.
pub fn tight_once()
    ensures { TightOnce }
{}
