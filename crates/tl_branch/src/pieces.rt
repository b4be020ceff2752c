//! The search that learns as a search of pieces: it cuts as ever, but learns nothing, since a piece has no log.

ghost use Rattle.std.specs.Prelude.{◌≡◌};

use crate::Learn;
use crate::under_way::UnderWay;
use std::alloc::{AllocError, Global};
use tl_problem::{Problem, Zone};
use tl_solve::{MakePiece, Piece, PieceSolver};

/// Cuts the zones of a piece in the order of their classes, the lower part of a cut before the upper. Each cut
/// is of the first span of more than one class, after the first of its classes. No store closes a zone here:
/// what closes one has to be seen in the zone alone, as a piece has no log.
impl PieceSolver for Learn {
    fn piece(
        &mut self,
        problem: &Problem,
        zone: &Zone,
        best: u32,
        quota: u32,
    ) -> Result<Piece, AllocError> {
        let mut way = UnderWay::begin(self.alloc, problem, zone, best)?;
        while let Some(next) = way.stack.pop() {
            if let Some(cut) = way.first_cut(&next) {
                if way.cuts() == quota {
                    way.lefts.push(next.number)?;
                } else {
                    way.cut(problem, &next.zone, cut)?;
                }
            }
        }
        Ok(way.into_piece())
    }
}

/// Makes searches that learn, for pieces.
#[derive(Clone, Copy, Debug)]
pub struct MakeLearnPiece {}

impl MakeLearnPiece {
    /// The one maker of such searches.
    pub fn new() -> MakeLearnPiece {
        MakeLearnPiece {}
    }
}

impl MakePiece for MakeLearnPiece {
    type Made = Learn;

    fn make(&self, alloc: Global) -> Result<Learn, AllocError> {
        Ok(Learn::new(alloc))
    }
}
