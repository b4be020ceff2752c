//! Choices among the layouts of problems that were counted by hand.

ghost use Rattle.std.specs.Prelude.{◌<◌};

use crate::problems::{add, config, problem};
use std::alloc::Global;
use std::test::Fail;
use tl_base::List;
use tl_problem::Problem;
use tl_tidy::{Choice, choose};

/// `a a` and `b` over `c` and `d d`.
fn two_by_two(alloc: Global, width: u32) -> Result<Problem, Fail> {
    let short = [config(1, 1)];
    let long = [config(1, 2), config(3, 1)];
    let mut cells = List::new(alloc);
    add(alloc, &mut cells, (0, 1), 0, &long)?;
    add(alloc, &mut cells, (1, 2), 0, &short)?;
    add(alloc, &mut cells, (0, 1), 1, &short)?;
    add(alloc, &mut cells, (1, 2), 1, &long)?;
    problem(alloc, 2, 2, width, cells)
}

/// Three columns and rows, with a cell of two words where they cross. The first of these has lines
/// of one letter, so many of them on one column; the page has room for one column of three.
fn staircase(alloc: Global, first: u32) -> Result<Problem, Fail> {
    let tall = [config(1, first), config(3, 1)];
    let long = [config(1, 2), config(3, 1)];
    let mut cells = List::new(alloc);
    add(alloc, &mut cells, (0, 1), 0, &tall)?;
    add(alloc, &mut cells, (1, 2), 1, &long)?;
    add(alloc, &mut cells, (2, 3), 2, &long)?;
    problem(alloc, 3, 3, 9, cells)
}

/// Whether the placement of these widths, which is no higher than the height, is chosen. `None`
/// where the choice is left open.
fn is_chosen(
    alloc: Global,
    problem: &Problem,
    height: u32,
    quota: u32,
    widths: &[u32],
) -> Result<Option<bool>, Fail> {
    if problem.cells().is_empty() || !problem.agrees_on_page() {
        return Err("there is no cell, or the steps of one differ".into());
    }
    let Some(layout) = problem.place(widths)? else {
        return Err("the widths are not within the page".into());
    };
    if layout.height > height {
        return Err("the layout is too high".into());
    }
    match choose(alloc, problem, height, quota)? {
        Choice::Found(placed) => Ok(Some(placed.widths.as_slice() == widths)),
        Choice::Open => Ok(None),
    }
}

/// Whether the placement of these widths is chosen by each quota from its need on, and the choice
/// is left open by each quota below.
fn needs(
    alloc: Global,
    problem: &Problem,
    height: u32,
    need: u32,
    widths: &[u32],
) -> Result<bool, Fail> {
    for quota in 0..8u32 {
        let wanted = if quota < need { None } else { Some(true) };
        if is_chosen(alloc, problem, height, quota, widths)? != wanted {
            return Ok(false);
        }
    }
    Ok(true)
}

// On six columns one of the long cells has two lines. Both pages are six wide:
//
//   a  b       a a  b
//   a          c    d
//   c  d d          d
//
// The first column is narrow in the chosen one. Two cuts show it.
#[test]
fn of_two_lowest_pages_the_first_column_is_narrow(rt: HostRuntime) -> Result<(), Fail> {
    let alloc = rt.alloc();
    let problem = two_by_two(alloc, 6)?;
    assert!(rt; needs(alloc, &problem, 3, 2, &[1, 3])?);
    Ok(())
}

// With four lines both long cells may be narrow.
#[test]
fn a_greater_height_gives_a_narrower_choice(rt: HostRuntime) -> Result<(), Fail> {
    let alloc = rt.alloc();
    let problem = two_by_two(alloc, 6)?;
    assert!(rt; needs(alloc, &problem, 4, 2, &[1, 1])?);
    Ok(())
}

// On eight columns both have one line; each of the two cuts leaves its lower part.
#[test]
fn a_page_with_room_for_both_is_found_after_two_cuts(rt: HostRuntime) -> Result<(), Fail> {
    let alloc = rt.alloc();
    let problem = two_by_two(alloc, 8)?;
    assert!(rt; needs(alloc, &problem, 2, 2, &[3, 3])?);
    Ok(())
}

// Each of the three columns may be the wide one. The last is.
#[test]
fn of_three_narrowest_pages_the_last_column_is_wide(rt: HostRuntime) -> Result<(), Fail> {
    let alloc = rt.alloc();
    let problem = staircase(alloc, 2)?;
    assert!(rt; needs(alloc, &problem, 5, 3, &[1, 1, 3])?);
    Ok(())
}

// Here the first column has to be wide, though the bound of the part where it is narrow is low
// enough: no two columns are wide at once. One cut shows that this part holds nothing.
#[test]
fn a_lower_part_is_shown_to_hold_nothing(rt: HostRuntime) -> Result<(), Fail> {
    let alloc = rt.alloc();
    let problem = staircase(alloc, 3)?;
    assert!(rt; needs(alloc, &problem, 5, 4, &[3, 1, 1])?);
    Ok(())
}

/// `aa` over `b`.
fn one_column(alloc: Global) -> Result<Problem, Fail> {
    let wide = [config(2, 1)];
    let short = [config(1, 1)];
    let mut cells = List::new(alloc);
    add(alloc, &mut cells, (0, 1), 0, &wide)?;
    add(alloc, &mut cells, (0, 1), 1, &short)?;
    problem(alloc, 1, 2, 10, cells)
}

// A table of one class for each span needs no cut.
#[test]
fn one_layout_needs_no_cut(rt: HostRuntime) -> Result<(), Fail> {
    let alloc = rt.alloc();
    let problem = one_column(alloc)?;
    assert!(rt; needs(alloc, &problem, 2, 0, &[2])?);
    Ok(())
}
