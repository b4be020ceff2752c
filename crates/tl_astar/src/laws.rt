//! A law of the definitions in this crate's specs. It is the contract of a function that does nothing.

ghost use Rattle.tl_astar.specs.Laws.{SameStepsAgree};

/// If each cell has the same steps by `low` and by `high`, it needs the same by both at each width of the
/// page. So what is promised where `low` is `high` on the page holds wherever an area bound closes a zone.
pub fn same_steps_agree()
    ensures { SameStepsAgree }
{}
