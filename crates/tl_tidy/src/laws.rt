//! Laws of the definitions in this crate's specs. Each is the contract of a function that does
//! nothing.
ghost use Rattle.tl_tidy.specs.Laws.{ChosenIsUnique, EachZoneHasNeed, NeedIsBelowCount, NeedIsUnique};

/// Each zone of a sound problem has a need, at each height.
pub fn each_zone_has_need()
    ensures { EachZoneHasNeed }
{}

/// No zone has two needs at a height.
pub fn need_is_unique()
    ensures { NeedIsUnique }
{}

/// The need of the whole zone is below the problem's count of class vectors.
pub fn need_is_below_count()
    ensures { NeedIsBelowCount }
{}

/// A problem has one chosen placement at most, at each height.
pub fn chosen_is_unique()
    ensures { ChosenIsUnique }
{}
