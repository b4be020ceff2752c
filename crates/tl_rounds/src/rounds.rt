//! A search in rounds.

ghost use Rattle.std.specs.Prelude.{◌≡◌, ◌≢◌, ◌+◌, ◌*◌, ◌<◌, ◌≤◌, ◌⊎◌, ◌^◌, [], length, map, take, IfOk, IsTrue, OnOk};
ghost use Rattle.std.specs.List.{All};
ghost use Rattle.tl_base.specs.declared.limits.TheConstants.{MAX_BUDGET};
ghost use Rattle.tl_problem.specs.Sound.{IsSound};
ghost use Rattle.tl_problem.specs.Zones.{IsZone};
ghost use Rattle.tl_cert.specs.Traces.{zone_of};
ghost use Rattle.tl_rounds.specs.Book.{IsBook, problem_of};
ghost use Rattle.tl_rounds.specs.Fans.{ArePiecesOf, IsFan};
ghost use Rattle.tl_rounds.specs.MadeOfRounds.{AreRounds, blocks_at, quota_of};
ghost use Rattle.tl_rounds.specs.Outcomes.{IsRoundsOutcome};
ghost use Rattle.tl_rounds.specs.inner.Takings.{IsRoundTaken, IsTakenSoFar};

use crate::Book;
use std::alloc::{AllocError, Global};
use tl_problem::{Problem, Zone};
use tl_solve::{Outcome, Piece, Solver, Watch, Watcher};

/// A search in rounds. In each round the first zones that are left are searched at once, one for each worker,
/// and what is found is taken into a book after all have ended. It ends where no zone is left, or no cut.
/// How zones are searched at once is a closure's work, as `pieces_at_once`.
#[derive(Drop)]
pub struct Rounds<'f, F> {
    alloc: Global,
    workers: u32,
    fan: &'f F,
}

// No bound stands here, so that a maker can call it in a method of its trait.
impl<'f, F> Rounds<'f, F> {
    /// A search in rounds of so many pieces at most, which may be called again and again.
    pub fn new(alloc: Global, workers: u32, fan: &'f F) -> Rounds<'f, F>
        ensures workers { result.workers ≡ workers }
        ensures fan { result.fan.now ≡ fan.now }
    {
        Rounds {
            alloc,
            workers,
            fan,
        }
    }
}

impl<'f, F: Fn(&Problem, &[Zone], u32, u32) -> Result<Vec<Piece>, AllocError> + Sync> Solver
    for Rounds<'f, F> {
    ghost can_solve = { λ rounds. (1 ≤ rounds.workers) × IsFan F.Fn rounds.fan.now };

    ghost besides = { λ rounds problem budget outcome. IsRoundsOutcome rounds.workers problem budget outcome };

    fn solve<W: Watcher>(
        &mut self,
        problem: &Problem,
        budget: u32,
        watch: &Watch<'_, W>,
    ) -> Result<Outcome, AllocError> {
        let mut book = Book::open(self.alloc, problem)?;
        while goes_on(&book, budget) {
            let before = book.cuts();
            take_round(self.fan, self.workers, budget, &mut book)?;
            book.show(before, watch);
        }
        let found = book.finish()?;
        Ok(found)
    }
}

/// Whether a zone is left, and a cut.
fn goes_on(book: &Book, budget: u32) -> bool
    requires { IsBook book.now }
    ensures on { IsTrue result → (book.now.lefts ≢ []) × (length book.now.trace < budget) }
    ensures over { IsTrue result ⊎ ((book.now.lefts ≡ []) ⊎ (budget ≤ length book.now.trace)) }
{
    !book.lefts().is_empty() && book.cuts() < budget
}

/// How many pieces the next round has.
fn blocks_at(book: &Book, workers: u32, budget: u32) -> u32
    requires book { IsBook book.now }
    requires within { length book.now.trace ≤ budget }
    ensures { result ≡ blocks_at workers budget book.now.trace book.now.lefts }
{
    let cuts = budget - book.cuts();
    (book.lefts().len().min(workers as usize) as u32).min(cuts)
}

/// The quota of each of them, where so many cuts are left.
fn quota_of(cuts: u32, blocks: u32) -> u32
    requires { 1 ≤ blocks }
    ensures { result ≡ quota_of cuts blocks }
{
    (cuts / 2 / blocks).max(1)
}

/// Takes in the pieces of one round.
fn take_round<F: Fn(&Problem, &[Zone], u32, u32) -> Result<Vec<Piece>, AllocError>>(
    fan: &F,
    workers: u32,
    budget: u32,
    book: &mut Book,
) -> Result<(), AllocError>
    requires workers { 1 ≤ workers }
    requires fan { IsFan F.Fn fan.now }
    requires budget { budget ≤ MAX_BUDGET }
    requires book { IsBook book.old }
    requires left { book.old.lefts ≢ [] }
    requires cuts { length book.old.trace < budget }
    requires rounds { AreRounds (problem_of book.old) workers budget book.old.best.height book.old.trace book.old.lefts }
    ensures { OnOk result (IsRoundTaken workers budget book.old book.new) }
{
    let blocks = blocks_at(book, workers, budget);
    let quota = quota_of(budget - book.cuts(), blocks);
    let zones = book.first_zones(blocks)?;
    let pieces = pieces_of(fan, book.problem(), &zones, book.best().height, quota)?;
    take_pieces(book, pieces, quota)
}

/// What the closure gives for these zones.
fn pieces_of<F: Fn(&Problem, &[Zone], u32, u32) -> Result<Vec<Piece>, AllocError>>(
    fan: &F,
    problem: &Problem,
    zones: &[Zone],
    best: u32,
    quota: u32,
) -> Result<Vec<Piece>, AllocError>
    requires fan { IsFan F.Fn fan.now }
    requires sound { IsSound problem.now }
    requires few { length zones.now < 2 ^ 32 }
    requires zones { All (IsZone problem.now) zones.now }
    requires some { 1 ≤ quota }
    requires quota { quota ≤ MAX_BUDGET }
    ensures { IfOk result (λ pieces. ArePiecesOf problem.now zones.now best quota pieces.items) }
{
    let pieces = fan(problem, zones, best, quota)?;
    Ok(pieces)
}

/// Takes in pieces of the first zones that are left, one of each, in their order.
fn take_pieces(book: &mut Book, pieces: Vec<Piece>, quota: u32) -> Result<(), AllocError>
    requires book { IsBook book.old }
    requires some { 1 ≤ quota }
    requires enough { length pieces.items ≤ length book.old.lefts }
    requires few { length book.old.trace + length pieces.items * quota ≤ MAX_BUDGET }
    requires pieces { ArePiecesOf (problem_of book.old) (map (zone_of (problem_of book.old) book.old.trace)
        (take (length pieces.items) book.old.lefts)) book.old.best.height quota pieces.items }
    ensures { OnOk result (IsTakenSoFar book.old quota (length pieces.items) book.new) }
{
    for piece in pieces {
        let first = book.lefts()[0];
        book.take(first, piece)?;
    }
    Ok(())
}
