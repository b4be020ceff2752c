//! The plain search, what each search opens and ends with, and the log of a trace, on problems counted by hand.

use crate::problems::{
    UNWATCHED, cell, config, drawn_table, found, is_line, numbers, problem, share, thirty_rows,
    two_cells, two_rows,
};
use std::test::Fail;
use tl_base::{List, MAX_BUDGET};
use tl_cert::End;
use tl_solve::{Arena, Outcome, Plain, Solver};

// Each of the types may be shared by threads and sent between them.
#[test]
fn a_search_its_arena_and_its_outcome_may_go_to_other_threads() {
    share::<Option<Outcome>>(None);
    share::<Option<Arena>>(None);
    share::<Option<Plain>>(None);
}

// Each span of the two rows has two classes, and the page has room for 19 columns. The opening has four
// lines. Three would need the long cells in one line, which does not fit; seven cuts show it.
#[test]
fn two_rows_close_after_seven_cuts(rt: HostRuntime) -> Result<(), Fail> {
    let problem = two_rows(rt.alloc())?;
    let mut plain = Plain::new(rt.alloc());
    for budget in 0..17u32 {
        let outcome = plain.solve(&problem, budget, &UNWATCHED)?;
        let lower = if budget < 7 { 3 } else { 4 };
        assert_eq!(rt;
            (problem.count(), numbers(&outcome), outcome.best.width),
            (16, (4, lower, budget.min(7) as usize), 16)
        );
    }
    Ok(())
}

// With no cut the opening stands, three lines of widths 3 and 2, and the bound of the whole, two.
#[test]
fn two_cells_are_open_without_cuts(rt: HostRuntime) -> Result<(), Fail> {
    let problem = two_cells(rt.alloc(), 12)?;
    let outcome = Plain::new(rt.alloc()).solve(&problem, 0, &UNWATCHED)?;
    assert_eq!(rt;
        (
            found(&outcome),
            is_line(&outcome.log, 0, 0, &[], End::Chain)
        ),
        (((3, 2, 0), [3u32, 2].as_slice(), 1), true)
    );
    Ok(())
}

// Six cuts are enough, since there are six class vectors: `cc dd` beside `aaa`, in two lines.
#[test]
fn two_cells_are_closed_with_six_cuts(rt: HostRuntime) -> Result<(), Fail> {
    let problem = two_cells(rt.alloc(), 12)?;
    let outcome = Plain::new(rt.alloc()).solve(&problem, 6, &UNWATCHED)?;
    let (height, lower, _) = numbers(&outcome);
    assert_eq!(rt;
        (
            problem.count(),
            height,
            lower,
            outcome.best.widths.as_slice()
        ),
        (6, 2, 2, [3u32, 5].as_slice())
    );
    Ok(())
}

// One cell that needs one line by `low` and two by `high`: there is nothing to cut, and the gap stays.
#[test]
fn a_gap_between_low_and_high_stays_open(rt: HostRuntime) -> Result<(), Fail> {
    let alloc = rt.alloc();
    let mut cells = List::new(alloc);
    cells.push(cell(alloc, (0, 1), 0, &[config(3, 1)], &[config(3, 2)])?)?;
    let problem = problem(alloc, 1, 1, 10, cells)?;
    let outcome = Plain::new(alloc).solve(&problem, MAX_BUDGET, &UNWATCHED)?;
    assert_eq!(rt; numbers(&outcome), (2, 1, 0));
    Ok(())
}

#[test]
fn no_cuts_have_a_log_of_one_line(rt: HostRuntime) -> Result<(), Fail> {
    let problem = two_rows(rt.alloc())?;
    let outcome = Plain::new(rt.alloc()).solve(&problem, 0, &UNWATCHED)?;
    let is_shown = is_line(&outcome.log, 0, 0, &[], End::Chain);
    assert_eq!(rt;
        (numbers(&outcome), outcome.log.len(), is_shown),
        ((4, 3, 0), 1, true)
    );
    Ok(())
}

// The left cell has less than 7 columns in the lower part, where both cells need two lines, and at least 7
// in the upper one, which leaves the right cell three columns and so three lines.
#[test]
fn one_cut_has_a_log_of_three_lines(rt: HostRuntime) -> Result<(), Fail> {
    let problem = two_cells(rt.alloc(), 12)?;
    let outcome = Plain::new(rt.alloc()).solve(&problem, 1, &UNWATCHED)?;
    let lines = [
        is_line(&outcome.log, 0, 2, &[], End::Chain),
        is_line(&outcome.log, 1, 1, &[], End::Chain),
        is_line(&outcome.log, 2, 0, &[1, 0], End::Fired),
    ];
    assert_eq!(rt;
        (outcome.lower, outcome.trace.len(), outcome.log.len(), lines),
        (2, 1, 3, [true, true, true])
    );
    Ok(())
}

// What is offered and no lower leaves the opening.
#[test]
fn an_arena_keeps_the_opening(rt: HostRuntime) -> Result<(), Fail> {
    let problem = two_cells(rt.alloc(), 12)?;
    let mut arena = Arena::open(rt.alloc(), &problem)?;
    let opening = problem.opening()?;
    arena.offer(&problem, &opening)?;
    assert_eq!(rt;
        (arena.best().height, arena.zones().len(), arena.bounds()),
        (3, 1, [Some(2u32)].as_slice())
    );
    Ok(())
}

#[test]
fn a_problem_without_columns_has_height_0(rt: HostRuntime) -> Result<(), Fail> {
    let problem = problem(rt.alloc(), 0, 0, 10, List::new(rt.alloc()))?;
    let outcome = Plain::new(rt.alloc()).solve(&problem, 5, &UNWATCHED)?;
    assert_eq!(rt; (numbers(&outcome), outcome.log.len()), ((0, 0, 0), 1));
    Ok(())
}

// The least widths leave two columns of the page, and the search comes to its end. Each zone has its line.
#[test]
fn a_drawn_table_is_searched_to_the_end(rt: HostRuntime) -> Result<(), Fail> {
    let problem = drawn_table(rt.alloc(), 0, thirty_rows(6), 60)?;
    let outcome = Plain::new(rt.alloc()).solve(&problem, 2_000, &UNWATCHED)?;
    let cuts = outcome.trace.len();
    assert_eq!(rt;
        (
            outcome.lower,
            outcome.log.len(),
            cuts < 2_000 && outcome.best.width <= 60
        ),
        (outcome.best.height, 2 * cuts + 1, true)
    );
    Ok(())
}

// On a page of 80 columns the table drawn from 0 is far from closed. The script of bench/ times this.
#[test]
fn a_search_of_5000_cuts_spends_its_budget(rt: HostRuntime) -> Result<(), Fail> {
    let alloc = rt.alloc();
    let problem = drawn_table(alloc, 0, thirty_rows(6), 80)?;
    let outcome = Plain::new(alloc).solve(&problem, 5_000, &UNWATCHED)?;
    assert_eq!(rt; outcome.trace.len(), 5_000);
    Ok(())
}
