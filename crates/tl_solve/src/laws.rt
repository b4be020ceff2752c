//! A law of the definitions in this crate's specs. It is the contract of a function that does nothing.
ghost use Rattle.tl_solve.specs.Laws.{PiecesLeaveNothingLower};

/// Where a piece leaves no zone, and `low` is `high` for every cell, no layout in its zone is lower than
/// what it found, or than the given height where it found nothing.
pub fn pieces_leave_nothing_lower()
    ensures { PiecesLeaveNothingLower }
{}
