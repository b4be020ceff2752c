//! A law of books. It is the contract of a function that does nothing.
ghost use Rattle.tl_rounds.specs.Laws.{PiecesStay};

/// A piece that could be taken in before another one can be taken in after it: so pieces of several zones
/// that are left may be taken in in any order.
pub fn pieces_stay()
    ensures { PiecesStay }
{}
