//! The search that learns, on problems counted by hand and on tables that were drawn at random.

ghost use Rattle.std.specs.Prelude.{◌+◌, ◌<◌, ◌≤◌, ◌^◌};
ghost use Rattle.tl_base.specs.declared.limits.TheConstants.{MAX_BUDGET};

use crate::problems::{
    UNWATCHED, at_least, at_most, cell, config, cut_at, diagonal, drawn_table, has_bounds,
    is_accepted, numbers, problem, share, thirty_rows, two_cells, two_rows,
};
use std::alloc::Global;
use std::test::Fail;
use tl_base::{List, MAX_BUDGET};
use tl_branch::Learn;
use tl_cert::{Bound, End, Log, Nogood};
use tl_problem::Problem;
use tl_solve::{Plain, Solver};

#[test]
fn a_search_that_learns_may_go_to_other_threads() {
    share::<Option<Learn>>(None);
}

/// A log line: the bounds that are written out, the lines that it fires, and its end.
type Line<'a> = (&'a [Bound], &'a [u32], End);

/// Whether the log has these lines and no others.
fn has_lines(log: &Log, wanted: &[Line<'_>]) -> bool {
    log.len() == wanted.len()
        && log.as_slice().iter().zip(wanted).all(|(line, &(bounds, fires, end))| {
            has_bounds(&line.nogood, bounds) && line.fires.as_slice() == fires && line.end == end
        })
}

/// What a search comes to: the height of its best placement, the lower bound, the number of cuts, and whether
/// the checker accepts its log.
#[derive(Clone, Copy, Debug, PartialEq, Eq)]
struct Found {
    height: u32,
    lower: u32,
    cuts: usize,
    is_accepted: bool,
}

/// Searches the problem with this budget.
fn search(alloc: Global, learn: &mut Learn, problem: &Problem, budget: u32) -> Result<Found, Fail>
    requires { budget ≤ MAX_BUDGET }
{
    let outcome = learn.solve(problem, budget, &UNWATCHED)?;
    let (height, lower, cuts) = numbers(&outcome);
    let is_accepted = is_accepted(alloc, problem, &outcome)?;
    Ok(Found {
        height,
        lower,
        cuts,
        is_accepted,
    })
}

// The opening has four lines. Three would need both long cells in one line, which does not fit: the third
// cut parts the third column, and both lines together leave no bound.
#[test]
fn two_rows_close_after_three_cuts(rt: HostRuntime) -> Result<(), Fail> {
    let problem = two_rows(rt.alloc())?;
    let outcome = Learn::new(rt.alloc()).solve(&problem, 3, &UNWATCHED)?;
    assert_eq!(rt; (numbers(&outcome), outcome.best.width), ((4, 4, 3), 16));
    assert_eq!(rt;
        outcome.trace.as_slice(),
        [cut_at(0, 0, 0), cut_at(1, 1, 0), cut_at(3, 2, 0)].as_slice()
    );
    let lines: &[Line<'_>] = &[
        (&[at_most(2, 8)], &[], End::Chain),
        (&[at_least(2, 9)], &[], End::Chain),
        (&[], &[0, 1], End::Fired),
    ];
    assert!(rt; has_lines(&outcome.log, lines));
    Ok(())
}

#[test]
fn two_rows_are_searched_with_each_budget(rt: HostRuntime) -> Result<(), Fail> {
    let problem = two_rows(rt.alloc())?;
    let mut learn = Learn::new(rt.alloc());
    for budget in 0..17u32 {
        let wanted = Found {
            height: 4,
            lower: if budget < 3 { 3 } else { 4 },
            cuts: budget.min(3) as usize,
            is_accepted: true,
        };
        let found = search(rt.alloc(), &mut learn, &problem, budget)?;
        assert_eq!(rt; found, wanted, "budget {budget}");
    }
    Ok(())
}

// Without a cut the opening stands, three lines of widths 3 and 2, and the bound of the whole, two.
#[test]
fn two_cells_are_open_without_cuts(rt: HostRuntime) -> Result<(), Fail> {
    let problem = two_cells(rt.alloc(), 12)?;
    let outcome = Learn::new(rt.alloc()).solve(&problem, 0, &UNWATCHED)?;
    assert_eq!(rt;
        (numbers(&outcome), outcome.best.widths.as_slice()),
        ((3, 2, 0), [3u32, 2].as_slice())
    );
    assert!(rt; has_lines(&outcome.log, &[(&[], &[], End::Chain)]));
    Ok(())
}

#[test]
fn two_cells_are_closed_with_six_cuts(rt: HostRuntime) -> Result<(), Fail> {
    let problem = two_cells(rt.alloc(), 12)?;
    let outcome = Learn::new(rt.alloc()).solve(&problem, 6, &UNWATCHED)?;
    assert_eq!(rt;
        (
            outcome.best.height,
            outcome.lower,
            outcome.best.widths.as_slice()
        ),
        (2, 2, [3u32, 5].as_slice())
    );
    assert!(rt; is_accepted(rt.alloc(), &problem, &outcome)?);
    Ok(())
}

#[test]
fn two_cells_need_three_lines_on_nine_columns(rt: HostRuntime) -> Result<(), Fail> {
    let problem = two_cells(rt.alloc(), 9)?;
    let outcome = Learn::new(rt.alloc()).solve(&problem, 100, &UNWATCHED)?;
    assert_eq!(rt;
        (outcome.best.height, outcome.lower, outcome.best.width),
        (3, 3, 7)
    );
    assert!(rt; is_accepted(rt.alloc(), &problem, &outcome)?);
    Ok(())
}

// One cell that needs one line by `low` and two by `high`: there is nothing to cut, and the gap stays.
#[test]
fn a_gap_between_low_and_high_stays_open(rt: HostRuntime) -> Result<(), Fail> {
    let alloc = rt.alloc();
    let mut cells = List::new(alloc);
    cells.push(cell(alloc, (0, 1), 0, &[config(3, 1)], &[config(3, 2)])?)?;
    let problem = problem(alloc, 1, 1, 10, cells)?;
    let found = search(alloc, &mut Learn::new(alloc), &problem, MAX_BUDGET)?;
    let wanted = Found {
        height: 2,
        lower: 1,
        cuts: 0,
        is_accepted: true,
    };
    assert_eq!(rt; found, wanted);
    Ok(())
}

/// Whether some line has the bounds of a zone other than the whole.
fn has_zone(log: &Log) -> bool {
    log.as_slice().iter().any(|line| match line.nogood {
        Nogood::Zone(zone) => zone > 0,
        Nogood::Bounds(_) => false,
    })
}

// One of ten columns may be wide, so that 19 lines are the least. A zone in which nine are narrow proves it, and
// no bound can be taken from the nine: they stay those of the zone.
#[test]
fn nine_bounds_stay_those_of_their_zone(rt: HostRuntime) -> Result<(), Fail> {
    let problem = diagonal(rt.alloc(), 10, 30)?;
    let outcome = Learn::new(rt.alloc()).solve(&problem, 2_000, &UNWATCHED)?;
    assert_eq!(rt;
        (outcome.best.height, outcome.lower, has_zone(&outcome.log)),
        (19, 19, true)
    );
    assert!(rt; is_accepted(rt.alloc(), &problem, &outcome)?);
    Ok(())
}

// Two of six columns may be wide. Each line has four bounds or fewer.
#[test]
fn four_bounds_are_written_out(rt: HostRuntime) -> Result<(), Fail> {
    let problem = diagonal(rt.alloc(), 6, 20)?;
    let outcome = Learn::new(rt.alloc()).solve(&problem, 64, &UNWATCHED)?;
    assert_eq!(rt;
        (outcome.best.height, outcome.lower, has_zone(&outcome.log)),
        (10, 10, false)
    );
    assert!(rt; is_accepted(rt.alloc(), &problem, &outcome)?);
    Ok(())
}

// The first cell needs one line by `low` from 3 columns on, and by `high` from 4: nothing is closed by a nogood
// then, and the zone of one class in which they differ stays open.
#[test]
fn no_nogood_closes_a_zone_where_low_is_not_high(rt: HostRuntime) -> Result<(), Fail> {
    let alloc = rt.alloc();
    let pair = [config(1, 2), config(3, 1)];
    let mut cells = List::new(alloc);
    cells.push(cell(alloc, (0, 1), 0, &pair, &[config(1, 2), config(4, 1)])?)?;
    cells.push(cell(alloc, (1, 2), 0, &pair, &pair)?)?;
    let problem = problem(alloc, 2, 1, 8, cells)?;
    let mut learn = Learn::new(alloc);
    for budget in [0u32, 1, 3, 100] {
        let found = search(alloc, &mut learn, &problem, budget)?;
        assert_eq!(rt;
            (found.height, found.lower, found.is_accepted),
            (2, 1, true),
            "budget {budget}"
        );
    }
    Ok(())
}

#[test]
fn a_problem_without_columns_has_height_0(rt: HostRuntime) -> Result<(), Fail> {
    let problem = problem(rt.alloc(), 0, 0, 10, List::new(rt.alloc()))?;
    let outcome = Learn::new(rt.alloc()).solve(&problem, 5, &UNWATCHED)?;
    assert_eq!(rt; (numbers(&outcome), outcome.log.len()), ((0, 0, 0), 1));
    Ok(())
}

// On a page of 60 columns both searches come to their end, and the one that learns has fewer cuts.
#[test]
fn a_drawn_table_has_one_height_by_both_searches(rt: HostRuntime) -> Result<(), Fail> {
    let problem = drawn_table(rt.alloc(), 0, thirty_rows(6), 60)?;
    let plain = Plain::new(rt.alloc()).solve(&problem, 2_000, &UNWATCHED)?;
    let (height, lower, cuts) = numbers(&plain);
    let found = search(rt.alloc(), &mut Learn::new(rt.alloc()), &problem, 2_000)?;
    assert_eq!(rt;
        (
            found.height,
            found.lower,
            found.cuts <= cuts,
            found.is_accepted
        ),
        (height, lower, true, true)
    );
    Ok(())
}

// On a page of 95 columns a table of 30 rows over eight columns is far from closed.
#[test]
fn a_search_of_5000_cuts_spends_its_budget(rt: HostRuntime) -> Result<(), Fail> {
    let alloc = rt.alloc();
    let problem = drawn_table(alloc, 0, thirty_rows(8), 95)?;
    let outcome = Learn::new(alloc).solve(&problem, 5_000, &UNWATCHED)?;
    assert_eq!(rt; outcome.trace.len(), 5_000);
    Ok(())
}
