//! The best-first search, on problems counted by hand and on tables that were drawn at random.

use crate::problems::{
    Size, UNWATCHED, add, cell, config, cut_at, drawn_table, found, is_line, numbers, problem,
    share, thirty_rows, two_cells, two_rows,
};
use std::alloc::Global;
use std::test::Fail;
use tl_astar::Best;
use tl_base::{Config, List, MAX_BUDGET};
use tl_cert::End;
use tl_problem::Problem;
use tl_solve::{Arena, Solver};

#[test]
fn a_best_first_search_may_go_to_other_threads() {
    share::<Option<Best>>(None);
}

// The opening has four lines. Three would need both long cells in one line, which does not fit: the third
// column is cut after its first class, and both parts show it.
#[test]
fn two_rows_close_with_one_cut(rt: HostRuntime) -> Result<(), Fail> {
    let problem = two_rows(rt.alloc())?;
    let mut best = Best::new(rt.alloc());
    for budget in [1u32, 16] {
        let outcome = best.solve(&problem, budget, &UNWATCHED)?;
        let trace = outcome.trace.as_slice();
        assert_eq!(rt;
            (numbers(&outcome), outcome.best.width, trace),
            ((4, 4, 1), 16, [cut_at(0, 2, 0)].as_slice())
        );
    }
    Ok(())
}

#[test]
fn two_cells_show_the_opening_without_cuts(rt: HostRuntime) -> Result<(), Fail> {
    let problem = two_cells(rt.alloc(), 12)?;
    let outcome = Best::new(rt.alloc()).solve(&problem, 0, &UNWATCHED)?;
    assert_eq!(rt; found(&outcome), ((3, 2, 0), [3u32, 2].as_slice(), 1));
    Ok(())
}

// `aaa` and `cc dd` fill two lines, and the bound of the whole is two.
#[test]
fn two_cells_that_fit_the_bound_close_without_a_cut(rt: HostRuntime) -> Result<(), Fail> {
    let problem = two_cells(rt.alloc(), 12)?;
    let mut best = Best::new(rt.alloc());
    for budget in [1u32, 6] {
        let outcome = best.solve(&problem, budget, &UNWATCHED)?;
        assert_eq!(rt; found(&outcome), ((2, 2, 0), [3u32, 5].as_slice(), 1));
    }
    Ok(())
}

#[test]
fn two_cells_need_three_lines_on_nine_columns(rt: HostRuntime) -> Result<(), Fail> {
    let problem = two_cells(rt.alloc(), 9)?;
    let outcome = Best::new(rt.alloc()).solve(&problem, 100, &UNWATCHED)?;
    let (height, lower, _) = numbers(&outcome);
    assert_eq!(rt; (height, lower, outcome.best.width), (3, 3, 7));
    Ok(())
}

/// `a a` beside `b b` on a page of 7. The first cell has these steps by `low` and by `high`.
fn two_pairs(alloc: Global, low: &[Config], high: &[Config]) -> Result<Problem, Fail> {
    let pair = [config(1, 2), config(3, 1)];
    let mut cells = List::new(alloc);
    cells.push(cell(alloc, (0, 1), 0, low, high)?)?;
    cells.push(cell(alloc, (1, 2), 0, &pair, &pair)?)?;
    problem(alloc, 2, 1, 7, cells)
}

// Both areas are 5, and the columns end at 9: two lines. The bound is one.
#[test]
fn an_area_bound_closes_two_pairs_without_cuts(rt: HostRuntime) -> Result<(), Fail> {
    let pair = [config(1, 2), config(3, 1)];
    let problem = two_pairs(rt.alloc(), &pair, &pair)?;
    let outcome = Best::new(rt.alloc()).solve(&problem, 0, &UNWATCHED)?;
    assert_eq!(rt;
        (
            found(&outcome),
            outcome.best.width,
            is_line(&outcome.log, 0, 0, &[], End::Area)
        ),
        (((2, 2, 0), [1u32, 1].as_slice(), 1), 4, true)
    );
    Ok(())
}

// The area bound closes the whole, so that nothing is cut though 100 cuts are allowed.
#[test]
fn a_zone_that_its_area_bound_closes_is_not_cut(rt: HostRuntime) -> Result<(), Fail> {
    let pair = [config(1, 2), config(3, 1)];
    let problem = two_pairs(rt.alloc(), &pair, &pair)?;
    let outcome = Best::new(rt.alloc()).solve(&problem, 100, &UNWATCHED)?;
    assert_eq!(rt; numbers(&outcome), (2, 2, 0));
    Ok(())
}

// In 3 columns the first cell needs one line by `low` and two by `high`. The area bound is two, the height
// of the opening, but it closes no zone where `low` is not `high`.
#[test]
fn a_zone_is_cut_for_all_its_area_bound_where_low_is_not_high(rt: HostRuntime) -> Result<(), Fail> {
    let low = [config(1, 2), config(3, 1)];
    let high = [config(1, 2), config(4, 1)];
    let problem = two_pairs(rt.alloc(), &low, &high)?;
    let mut best = Best::new(rt.alloc());
    for budget in [0u32, MAX_BUDGET] {
        let outcome = best.solve(&problem, budget, &UNWATCHED)?;
        let (height, lower, cuts) = numbers(&outcome);
        assert_eq!(rt; (height, lower, cuts > 0), (2, 2, budget > 0));
    }
    Ok(())
}

// From 9 columns on, which the page does not have, the first cell needs no line by `low`. The steps are not
// the same, and so the area bound closes no zone.
#[test]
fn a_zone_is_cut_for_all_its_area_bound_where_steps_differ_past_the_page(
    rt: HostRuntime,
) -> Result<(), Fail> {
    let low = [config(1, 2), config(3, 1), config(9, 0)];
    let high = [config(1, 2), config(3, 1)];
    let problem = two_pairs(rt.alloc(), &low, &high)?;
    let outcome = Best::new(rt.alloc()).solve(&problem, MAX_BUDGET, &UNWATCHED)?;
    let (height, lower, cuts) = numbers(&outcome);
    assert_eq!(rt; (height, lower, cuts > 0), (2, 2, true));
    Ok(())
}

// One cell that needs one line by `low` and two by `high`: there is nothing to cut, and the gap stays.
#[test]
fn a_gap_between_low_and_high_stays_open(rt: HostRuntime) -> Result<(), Fail> {
    let alloc = rt.alloc();
    let mut cells = List::new(alloc);
    cells.push(cell(alloc, (0, 1), 0, &[config(3, 1)], &[config(3, 2)])?)?;
    let problem = problem(alloc, 1, 1, 10, cells)?;
    let outcome = Best::new(alloc).solve(&problem, MAX_BUDGET, &UNWATCHED)?;
    assert_eq!(rt; numbers(&outcome), (2, 1, 0));
    Ok(())
}

#[test]
fn a_problem_without_columns_has_height_0(rt: HostRuntime) -> Result<(), Fail> {
    let problem = problem(rt.alloc(), 0, 0, 10, List::new(rt.alloc()))?;
    let outcome = Best::new(rt.alloc()).solve(&problem, 5, &UNWATCHED)?;
    assert_eq!(rt; (numbers(&outcome), outcome.log.len()), ((0, 0, 0), 1));
    Ok(())
}

// With their gaps both cells take 5 columns of a line at least, and the page has 9 with one: two lines, where each
// cell alone has room for its one.
#[test]
fn an_arena_tells_the_area_bound_of_the_whole(rt: HostRuntime) -> Result<(), Fail> {
    let pair = [config(1, 2), config(3, 1)];
    let mut cells = List::new(rt.alloc());
    add(rt.alloc(), &mut cells, (0, 1), 0, &pair)?;
    add(rt.alloc(), &mut cells, (1, 2), 0, &pair)?;
    let problem = problem(rt.alloc(), 2, 1, 7, cells)?;
    let mut arena = Arena::open(rt.alloc(), &problem)?;
    let area = arena.area_of(&problem, 0);
    assert_eq!(rt; (area, arena.bounds()), (Some(2), [Some(1)].as_slice()));
    Ok(())
}

// Each closes within 2,000 cuts.
#[test]
fn twenty_drawn_tables_close(rt: HostRuntime) -> Result<(), Fail> {
    let mut best = Best::new(rt.alloc());
    for number in 0..20u32 {
        let problem = drawn_table(rt.alloc(), number, thirty_rows(6), 60)?;
        let outcome = best.solve(&problem, 2_000, &UNWATCHED)?;
        let cuts = outcome.trace.len();
        assert_eq!(rt;
            (outcome.lower, outcome.log.len(), outcome.best.width <= 60),
            (outcome.best.height, 2 * cuts + 1, true),
            "table {number}"
        );
    }
    Ok(())
}

// Four rows of nine words and more in eight columns, which are lowest only at some rooms.
#[test]
fn prose_in_eight_columns_closes_after_some_cuts(rt: HostRuntime) -> Result<(), Fail> {
    let size = Size {
        rows: 4,
        cols: 8,
        least: 9,
        more: 8,
    };
    let problem = drawn_table(rt.alloc(), 1, size, 110)?;
    let outcome = Best::new(rt.alloc()).solve(&problem, 2_000, &UNWATCHED)?;
    let (height, lower, cuts) = numbers(&outcome);
    let is_within = outcome.best.width <= 110 && 0 < cuts && cuts < 2_000;
    assert_eq!(rt; (lower, is_within), (height, true));
    Ok(())
}
