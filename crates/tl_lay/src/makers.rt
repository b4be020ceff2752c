//! The search that is named, as a maker of solvers. The zones of a round are searched as pieces of searches that
//! learn.

ghost use Rattle.std.specs.Prelude.{◌≢◌, ◌<◌, ◌≤◌, ◌^◌, IfOk, IfSome, length};
ghost use Rattle.std.specs.List.{All};
ghost use Rattle.tl_base.specs.declared.limits.TheConstants.{MAX_BUDGET};
ghost use Rattle.tl_problem.specs.Zones.{IsZone};
ghost use Rattle.tl_rounds.specs.Fans.{ArePiecesOf, IsFan};
ghost use Rattle.tl_form.specs.Named.{IsLastPlacement};
ghost use Rattle.tl_form.specs.Subjects.{IsSubject};
ghost use Rattle.tl_nested.specs.Searched.{AreSectionsOf, AreWritable, IsWideEnough};
ghost use Rattle.tl_narrow.specs.Slims.{IsLowCertificate};
ghost use Rattle.tl_lay.specs.Answers.{IsOutcomeOf};
ghost use Rattle.tl_lay.specs.Slimmed.{IsSlimIn};
ghost use Rattle.tl_lay.specs.Inputs.{IsUsableTable};

use crate::input::Given;
use crate::task::Task;
use std::alloc::{AllocError, Global};
use std::thread::Threads;
use tl_astar::Best;
use tl_base::{Gate, MAX_BUDGET, Search};
use tl_branch::{Learn, MakeLearnPiece};
use tl_cert::Certificate;
use tl_fan::Run;
use tl_form::Subject;
use tl_narrow::{Aim, Slim, slimmest};
use tl_nested::{LaidSections, Make, laid_sections};
use tl_problem::{Problem, Zone};
use tl_rounds::{Rounds, pieces_at_once};
use tl_solve::{Outcome, Piece, Plain, Solver, Watch, Watcher};

/// A search of the kind that is named: a new one for each problem. All zones of a round are searched by one call
/// of `fan`.
#[derive(Drop)]
struct Named<'f, F> {
    alloc: Global,
    search: Search,
    workers: u32,
    fan: &'f F,
}

impl<'f, F: Fn(&Problem, &[Zone], u32, u32) -> Result<Vec<Piece>, AllocError> + Sync> Solver
    for Named<'f, F> {
    ghost can_solve = { λ named. (1 ≤ named.workers) × IsFan F.Fn named.fan.now };

    ghost besides = { λ named problem budget outcome. IsOutcomeOf named.search named.workers budget problem outcome };

    fn solve<W: Watcher>(
        &mut self,
        problem: &Problem,
        budget: u32,
        watch: &Watch<'_, W>,
    ) -> Result<Outcome, AllocError> {
        match self.search {
            Search::Plain => Plain::new(self.alloc).solve(problem, budget, watch),
            Search::Best => Best::new(self.alloc).solve(problem, budget, watch),
            Search::Learn => Learn::new(self.alloc).solve(problem, budget, watch),
            Search::Rounds => {
                Rounds::new(self.alloc, self.workers, self.fan).solve(problem, budget, watch)
            }
        }
    }
}

/// Makes searches of the kind that is named. All zones of a round are searched by one call of `fan`.
#[derive(Drop)]
struct MakeNamed<'f, F> {
    search: Search,
    workers: u32,
    fan: &'f F,
}

impl<'f, F: Fn(&Problem, &[Zone], u32, u32) -> Result<Vec<Piece>, AllocError> + Sync> Make
    for MakeNamed<'f, F> {
    type Made = Named<'f, F>;

    ghost can_make = { λ maker. (1 ≤ maker.workers) × IsFan F.Fn maker.fan.now };

    ghost besides = { λ maker problem budget outcome. IsOutcomeOf maker.search maker.workers budget problem outcome };

    fn make(&self, alloc: Global) -> Result<Named<'f, F>, AllocError> {
        Ok(Named {
            alloc,
            search: self.search,
            workers: self.workers,
            fan: self.fan,
        })
    }
}

/// All sections of a certificate of the subject's table, by the search that is named, with the placement that
/// was found for the last of them.
pub fn searched<R: Threads + Sync, G: Gate + Watcher>(
    run: &Run<'_, R, G>,
    task: &Task,
    subject: &Subject<'_>,
    budget: u32,
) -> Result<LaidSections, AllocError>
    requires subject { IsSubject subject.now }
    requires wide { IsWideEnough subject.now }
    requires cuts { budget ≤ MAX_BUDGET }
    requires workers { 1 ≤ task.now.workers }
    ensures expected { IfOk result (λ laid. AreSectionsOf (IsOutcomeOf task.now.search task.now.workers budget)
        subject.now.table.now subject.now.style subject.now.page budget laid.sections) }
    ensures writable { IfOk result (λ laid. AreWritable laid.sections) }
    ensures placed { IfOk result (λ laid. IsLastPlacement subject.now.table.now subject.now.style subject.now.page
        laid.sections laid.placed) }
{
    let fan = |problem: &Problem, zones: &[Zone], best: u32, quota: u32| -> Result<
        Vec<Piece>,
        AllocError,
    >
        requires { All (IsZone problem.now) zones.now × (length zones.now < 2 ^ 32) × (1 ≤ quota) × (quota ≤ MAX_BUDGET) }
        ensures { IfOk result (λ pieces. ArePiecesOf problem.now zones.now best quota pieces.items) }
    { pieces_at_once(run, &MakeLearnPiece::new(), problem, zones, best, quota) };
    searched_with(run, task, subject, budget, &fan)
}

/// The same, where each round is searched by a call of `fan`.
fn searched_with<
    R: Threads + Sync,
    G: Gate + Watcher,
    F: Fn(&Problem, &[Zone], u32, u32) -> Result<Vec<Piece>, AllocError> + Sync,
>(
    run: &Run<'_, R, G>,
    task: &Task,
    subject: &Subject<'_>,
    budget: u32,
    fan: &F,
) -> Result<LaidSections, AllocError>
    requires fan { IsFan F.Fn fan.now }
    requires subject { IsSubject subject.now }
    requires wide { IsWideEnough subject.now }
    requires cuts { budget ≤ MAX_BUDGET }
    requires workers { 1 ≤ task.now.workers }
    ensures expected { IfOk result (λ laid. AreSectionsOf (IsOutcomeOf task.now.search task.now.workers budget)
        subject.now.table.now subject.now.style subject.now.page budget laid.sections) }
    ensures writable { IfOk result (λ laid. AreWritable laid.sections) }
    ensures placed { IfOk result (λ laid. IsLastPlacement subject.now.table.now subject.now.style subject.now.page
        laid.sections laid.placed) }
{
    let maker = MakeNamed {
        search: task.search,
        workers: task.workers,
        fan,
    };
    laid_sections(run, subject, budget, &maker)
}

/// Between which widths the narrowest page of at most `height` lines is, among those of up to as many columns
/// as the task allows, by the search that is named. Of the widest one a certificate may be handed in.
pub fn slimmest_by<R: Threads + Sync, G: Gate + Watcher>(
    run: &Run<'_, R, G>,
    task: &Task,
    given: &Given,
    height: u32,
    kept: Option<Certificate>,
) -> Result<Slim, AllocError>
    requires usable { IsUsableTable task.now given.now.table given.now.budget }
    requires kept { IfSome kept (IsLowCertificate given.now.table task.now.style height task.now.width given.now.budget) }
    ensures slim { IfOk result (IsSlimIn task.now given.now.table height kept) }
    ensures handed { IfOk result (λ slim. IfSome kept (λ _. slim.width ≢ 0)) }
{
    let fan = |problem: &Problem, zones: &[Zone], best: u32, quota: u32| -> Result<
        Vec<Piece>,
        AllocError,
    >
        requires { All (IsZone problem.now) zones.now × (length zones.now < 2 ^ 32) × (1 ≤ quota) × (quota ≤ MAX_BUDGET) }
        ensures { IfOk result (λ pieces. ArePiecesOf problem.now zones.now best quota pieces.items) }
    { pieces_at_once(run, &MakeLearnPiece::new(), problem, zones, best, quota) };
    slimmest_with(run, task, given, height, kept, &fan)
}

/// The same, where each round is searched by a call of `fan`.
fn slimmest_with<
    R: Threads + Sync,
    G: Gate + Watcher,
    F: Fn(&Problem, &[Zone], u32, u32) -> Result<Vec<Piece>, AllocError> + Sync,
>(
    run: &Run<'_, R, G>,
    task: &Task,
    given: &Given,
    height: u32,
    kept: Option<Certificate>,
    fan: &F,
) -> Result<Slim, AllocError>
    requires fan { IsFan F.Fn fan.now }
    requires usable { IsUsableTable task.now given.now.table given.now.budget }
    requires kept { IfSome kept (IsLowCertificate given.now.table task.now.style height task.now.width given.now.budget) }
    ensures slim { IfOk result (IsSlimIn task.now given.now.table height kept) }
    ensures handed { IfOk result (λ slim. IfSome kept (λ _. slim.width ≢ 0)) }
{
    let maker = MakeNamed {
        search: task.search,
        workers: task.workers,
        fan,
    };
    let aim = Aim {
        style: task.style,
        height,
        most: task.width,
        budget: given.budget,
    };
    slimmest(run, &given.table, aim, kept, &maker)
}
