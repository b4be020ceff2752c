//! What every search of a piece of work promises, so that the zones of one problem can be searched at once.

ghost use Rattle.std.specs.Prelude.{◌≤◌, IfOk};
ghost use Rattle.tl_problem.specs.Zones.{IsZone};
ghost use Rattle.tl_solve.specs.Piece.{IsPieceOf};

use std::alloc::{AllocError, Global};
use tl_base::{List, MAX_BUDGET};
use tl_cert::Trace;
use tl_problem::{Placed, Problem, Zone};

/// What a search of one zone found, and what it left.
#[derive(Debug, Drop)]
pub struct Piece {
    /// The lowest placement that was found, made tight; `None` where none is lower than the given height.
    pub best: Option<Placed>,
    /// The cuts, with the given zone as zone 0.
    pub trace: Trace,
    /// The numbers of the zones that stand and are not yet closed, each once.
    pub lefts: List<u32>,
}

/// A search of one zone for layouts lower than a given height, as a piece of a greater search. What it
/// leaves can be searched by further pieces. After out of memory it can be called again as if new.
pub trait PieceSolver: Drop + Send {
    /// Searches the zone for layouts of less than `best` lines with at most `quota` cuts.
    fn piece(
        &mut self,
        problem: &Problem,
        zone: &Zone,
        best: u32,
        quota: u32,
    ) -> Result<Piece, AllocError>
        requires some { 1 ≤ quota }
        requires quota { quota ≤ MAX_BUDGET }
        requires zone { IsZone problem.now zone.now }
        ensures { IfOk result (λ piece. IsPieceOf problem.now zone.now best quota piece.best piece.trace piece.lefts) };
}

/// Makes searches of pieces, one for each worker.
pub trait MakePiece: Sync {
    type Made: PieceSolver;

    /// A search of pieces, which may be called again and again.
    fn make(&self, alloc: Global) -> Result<Self::Made, AllocError>;
}
