//! The pieces of a round, all searched at once.

ghost use Rattle.std.specs.Prelude.{◌≤◌, ◌<◌, ◌^◌, length, slice_index_or, [], IfOk};
ghost use Rattle.std.specs.List.{All};
ghost use Rattle.tl_base.specs.declared.limits.TheConstants.{MAX_BUDGET};
ghost use Rattle.tl_problem.specs.Zones.{IsZone};
ghost use Rattle.tl_solve.specs.Piece.{IsPieceOf};
ghost use Rattle.tl_rounds.specs.Fans.{ArePiecesOf};

use std::alloc::AllocError;
use std::thread::Threads;
use tl_base::{Gate, MAX_BUDGET};
use tl_fan::{Run, gather, places};
use tl_problem::{Problem, Zone};
use tl_solve::{MakePiece, Piece, PieceSolver};

/// About how many microseconds a search takes for each cut that it may make.
const CUT_TIME: u64 = 20;

/// A piece of each of the zones, in their order, each by a search of its own for layouts of less than `best`
/// lines with at most `quota` cuts. As many search at one time as the run has workers, each behind the gate by
/// the place of its zone.
pub fn pieces_at_once<R: Threads + Sync, G: Gate, P: MakePiece>(
    run: &Run<'_, R, G>,
    maker: &P,
    problem: &Problem,
    zones: &[Zone],
    best: u32,
    quota: u32,
) -> Result<Vec<Piece>, AllocError>
    requires zones { All (IsZone problem.now) zones.now }
    requires few { length zones.now < 2 ^ 32 }
    requires some { 1 ≤ quota }
    requires quota { quota ≤ MAX_BUDGET }
    ensures { IfOk result (λ pieces. ArePiecesOf problem.now zones.now best quota pieces.items) }
{
    let numbers = places(run.alloc, zones.len() as u32)?;
    let piece = |number: u32| -> Result<Piece, AllocError>
        requires { (number < length zones.now) × All (IsZone problem.now) zones.now × (1 ≤ quota) × (quota ≤ MAX_BUDGET) }
        ensures { IfOk result (λ piece. IsPieceOf problem.entry.now (slice_index_or zones.entry.now number []) best quota
            piece.best piece.trace piece.lefts) }
    {
        let mut search = maker.make(run.alloc)?;
        search.piece(problem, &zones[number as usize], best, quota)
    };
    let cuts = u64::from(quota).saturating_mul(zones.len() as u64);
    let effort = cuts.saturating_mul(CUT_TIME);
    gather(run, numbers.as_slice(), effort, &piece)
}
