//! Searches in pieces of a problem that was counted by hand, in several orders and by several workers.

ghost use Rattle.std.specs.Prelude.{◌≡◌, ◌≢◌, ◌+◌, ◌<◌, ◌≤◌, ◌^◌, length, IfOk, IsTrue};
ghost use Rattle.std.specs.List.{All, Contains};
ghost use Rattle.tl_base.specs.declared.limits.TheConstants.{MAX_BUDGET};
ghost use Rattle.tl_problem.specs.Zones.{IsZone};
ghost use Rattle.tl_rounds.specs.Book.{IsBook, IsPieceFor, problem_of};
ghost use Rattle.tl_rounds.specs.Fans.{ArePiecesOf, IsFan};

use crate::problems::{is_accepted, numbers, two_rows};
use crate::watched::Witness;
use std::alloc::{AllocError, Global};
use std::process::Abort;
use std::sync::Mutex;
use std::test::Fail;
use std::thread::Threads;
use tl_base::{Gate, NoGate};
use tl_branch::{Learn, MakeLearnPiece};
use tl_fan::Run;
use tl_problem::{Problem, Zone};
use tl_rounds::{Book, Rounds, pieces_at_once, pieces_stay};
use tl_solve::{Outcome, Piece, PieceSolver, Progress, Solver, Watch, Watcher};

/// How often a thread tries to get hold of a count.
const TURNS: u32 = 100_000_000;

/// A number that the threads of a test share. It begins with 0.
#[derive(Drop)]
struct Count {
    number: Mutex<u32>,
}

impl Count {
    fn new() -> Count {
        Count {
            number: Mutex::new(0),
        }
    }

    /// Adds so many, and returns the number before, or `None` if other threads hold it at all turns.
    fn add(&self, more: u32) -> Option<u32> {
        for _ in 0..TURNS {
            if let Some(mut number) = self.number.try_lock() {
                let before = *number;
                *number = before.wrapping_add(more);
                return Some(before);
            }
        }
        None
    }

    /// The number, or `None` if other threads hold it at all turns.
    fn number(&self) -> Option<u32> {
        self.add(0)
    }

    /// Whether the number is `least` or more at one of the turns.
    fn reaches(&self, least: u32) -> bool {
        for _ in 0..TURNS {
            if let Some(number) = self.number.try_lock() {
                if *number >= least {
                    return true;
                }
            }
        }
        false
    }
}

/// A gate that lets the first pass through, and at which the second and the third meet: each comes, and
/// looks for the other.
#[derive(Drop)]
struct MeetingLater {
    passes: Count,
    come: [Count; 2],
    met: [Count; 2],
}

impl Gate for MeetingLater {
    fn pass(&self, _piece: u32) {
        let Some(pass) = self.passes.add(1) else {
            return;
        };
        if pass == 0 || pass > 2 {
            return;
        }
        let own = (pass % 2) as usize;
        self.come[own].add(1);
        if self.come[1 - own].reaches(1) {
            self.met[own].add(1);
        }
    }
}

impl Watcher for MeetingLater {
    fn wants(&self, _before: u32, _cuts: u32) -> bool {
        false
    }

    fn see(&self, _progress: Progress) {}
}

/// The outcome of a search in rounds by this fan.
fn search<F: Fn(&Problem, &[Zone], u32, u32) -> Result<Vec<Piece>, AllocError> + Sync, W: Watcher>(
    alloc: Global,
    problem: &Problem,
    workers: u32,
    budget: u32,
    fan: &F,
    watch: &Watch<'_, W>,
) -> Result<Outcome, Fail>
    requires workers { 1 ≤ workers }
    requires budget { budget ≤ MAX_BUDGET }
    requires fan { IsFan F.Fn fan.now }
{
    Ok(Rounds::new(alloc, workers, fan).solve(problem, budget, watch)?)
}

/// The height, the lower bound and the cuts of a search in rounds, whose log the checker accepts.
fn searched<R: Threads + Sync, G: Gate + Watcher>(
    rt: &R,
    alloc: Global,
    problem: &Problem,
    workers: u32,
    budget: u32,
    gate: &G,
) -> Result<(u32, u32, usize), Fail>
    requires workers { 1 ≤ workers }
    requires budget { budget ≤ MAX_BUDGET }
{
    let run = Run {
        rt,
        alloc,
        workers,
        gate,
    };
    let maker = MakeLearnPiece::new();
    let fan = |of: &Problem, zones: &[Zone], best: u32, quota: u32| -> Result<
        Vec<Piece>,
        AllocError,
    >
        requires { All (IsZone of.now) zones.now × (length zones.now < 2 ^ 32) × (1 ≤ quota) × (quota ≤ MAX_BUDGET) }
        ensures { IfOk result (λ pieces. ArePiecesOf of.entry.now zones.entry.now best quota pieces.items) }
    { pieces_at_once(&run, &maker, of, zones, best, quota) };
    let watch = Watch {
        watcher: gate,
        table: 7,
    };
    let outcome = search(alloc, problem, workers, budget, &fan, &watch)?;
    if !is_accepted(alloc, problem, &outcome)? {
        return Err("the checker does not accept the log".into());
    }
    Ok(numbers(&outcome))
}

// The whole has a bound of three lines, and seven cuts show that no layout has fewer than four. After fewer cuts some zone keeps
// a bound of three, whoever searches it.
#[test]
fn each_budget_gives_its_bound_by_each_number_of_workers(rt: HostRuntime) -> Result<(), Fail> {
    let alloc = rt.alloc();
    let problem = two_rows(alloc)?;
    for workers in [1, 2, 3, 16] {
        assert_eq!(rt;
            searched(&rt, alloc, &problem, workers, 0, &NoGate)?,
            (4, 3, 0)
        );
        assert_eq!(rt;
            searched(&rt, alloc, &problem, workers, 1, &NoGate)?,
            (4, 3, 1)
        );
        assert_eq!(rt;
            searched(&rt, alloc, &problem, workers, 2, &NoGate)?,
            (4, 3, 2)
        );
        assert_eq!(rt;
            searched(&rt, alloc, &problem, workers, 16, &NoGate)?,
            (4, 4, 7)
        );
    }
    Ok(())
}

// The seven cuts of the search come in rounds, and no round has them all.
#[test]
fn the_rounds_of_a_search_are_seen(rt: HostRuntime) -> Result<(), Fail> {
    let alloc = rt.alloc();
    let problem = two_rows(alloc)?;
    let witness = Witness::new(alloc, 7);
    searched(&rt, alloc, &problem, 1, 16, &witness)?;
    assert_eq!(rt; witness.seen(alloc)?.as_str(), "7 7 4 4;");
    Ok(())
}

// With seven cuts the first round has one piece, of three cuts, which leaves two zones, so the second has two pieces. Both are
// at work at once: each sees the other.
#[test]
fn the_pieces_of_a_round_are_searched_at_once(rt: HostRuntime) -> Result<(), Fail> {
    let alloc = rt.alloc();
    let problem = two_rows(alloc)?;
    let gate = MeetingLater {
        passes: Count::new(),
        come: [Count::new(), Count::new()],
        met: [Count::new(), Count::new()],
    };
    assert_eq!(rt; searched(&rt, alloc, &problem, 2, 7, &gate)?, (4, 4, 7));
    assert_eq!(rt; gate.met[0].number(), Some(1));
    assert_eq!(rt; gate.met[1].number(), Some(1));
    assert_eq!(rt; gate.passes.number(), Some(5));
    Ok(())
}

/// A piece of a zone that is left.
fn piece_of(
    alloc: Global,
    problem: &Problem,
    book: &Book,
    z: u32,
    quota: u32,
) -> Result<Piece, AllocError>
    requires book { IsBook book.now }
    requires problem { problem_of book.now ≡ problem.now }
    requires left { Contains book.now.lefts z }
    requires some { 1 ≤ quota }
    requires quota { quota ≤ MAX_BUDGET }
    ensures { IfOk result (IsPieceFor book.now z) }
{
    let zone = book.zone(z)?;
    Learn::new(alloc).piece(problem, &zone, book.best().height, quota)
}

/// Whether a book of so many cuts has room for the cuts of the piece.
fn has_room(cuts: u32, piece: &Piece) -> bool
    ensures { IsTrue result → cuts + length piece.now.trace ≤ MAX_BUDGET }
{
    cuts < 100 && piece.trace.len() < 100
}

/// The outcome of a book that takes in pieces of two zones that are left, one after the other.
fn both_taken(
    mut book: Book<'_>,
    z: u32,
    piece: Piece,
    y: u32,
    other: Piece,
) -> Result<Outcome, Fail>
    requires book { IsBook book }
    requires left { Contains book.lefts z }
    requires piece { IsPieceFor book z piece }
    requires other_left { Contains book.lefts y }
    requires other { IsPieceFor book y other }
    requires apart { y ≢ z }
{
    pieces_stay();
    if !has_room(book.cuts(), &piece) {
        return Err("the book has no room for the piece".into());
    }
    book.take(z, piece)?;
    if !has_room(book.cuts(), &other) {
        return Err("the book has no room for the other piece".into());
    }
    book.take(y, other)?;
    Ok(book.finish()?)
}

/// The outcome of a book with two zones left, once pieces of one cut of both are taken in: that of the zone
/// left first is taken in first, or last.
fn round_taken(
    alloc: Global,
    problem: &Problem,
    book: Book<'_>,
    in_order: bool,
) -> Result<Outcome, Fail>
    requires book { IsBook book }
    requires problem { problem_of book ≡ problem.now }
{
    if book.lefts().len() != 2 {
        return Err("not two zones are left".into());
    }
    let z = book.lefts()[0];
    let y = book.lefts()[1];
    if z == y {
        return Err("a zone is left twice".into());
    }
    let piece = piece_of(alloc, problem, &book, z, 1)?;
    let other = piece_of(alloc, problem, &book, y, 1)?;
    if in_order {
        both_taken(book, z, piece, y, other)
    } else {
        both_taken(book, y, other, z, piece)
    }
}

/// The outcome of two rounds with seven cuts and two workers, of one piece and of two.
fn two_rounds(alloc: Global, problem: &Problem, in_order: bool) -> Result<Outcome, Fail> {
    let mut book = Book::open(alloc, problem)?;
    let piece = piece_of(alloc, problem, &book, 0, 3)?;
    if !has_room(book.cuts(), &piece) {
        return Err("the book has no room for the first piece".into());
    }
    book.take(0, piece)?;
    round_taken(alloc, problem, book, in_order)
}

/// The zone of the fourth cut, where there is one.
fn fourth_zone(outcome: &Outcome) -> Option<u32> {
    let cut = outcome.trace.as_slice().get(3)?;
    Some(cut.zone)
}

// The first round has one piece, which cuts the zones 0, 1 and 3 and leaves 4 and 2, in this order. The second has a piece of each,
// of one cut.
#[test]
fn the_pieces_of_a_round_are_taken_in_in_either_order(rt: HostRuntime) -> Result<(), Fail> {
    let alloc = rt.alloc();
    let problem = two_rows(alloc)?;
    for (in_order, zone) in [(true, 4), (false, 2)] {
        let outcome = two_rounds(alloc, &problem, in_order)?;
        assert_eq!(rt; numbers(&outcome), (4, 3, 5));
        assert_eq!(rt; fourth_zone(&outcome), Some(zone));
        assert!(rt; is_accepted(alloc, &problem, &outcome)?);
    }
    Ok(())
}
