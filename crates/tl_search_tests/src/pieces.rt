//! Pieces of searches, counted by hand.

ghost use Rattle.std.specs.Prelude.{IfOk};
ghost use Rattle.tl_problem.specs.Zones.{IsZone};

use crate::problems::{add, cell, config, cut_at, problem, share, two_cells, two_rows, whole_of};
use std::process::Abort;
use std::test::Fail;
use tl_base::{List, MAX_BUDGET};
use tl_branch::{Learn, MakeLearnPiece};
use tl_problem::{Problem, Zone};
use tl_solve::{MakePiece, Piece, PieceSolver};

#[test]
fn a_maker_and_its_pieces_may_go_to_other_threads() {
    share::<Option<MakeLearnPiece>>(None);
    share::<Option<Piece>>(None);
}

/// The `best` and the quota that a piece is asked for, and what is wanted of it: the height of its placement,
/// if there is one, the number of its cuts, and the zones that it leaves.
type Case<'a> = (u32, u32, (Option<u32>, usize, &'a [u32]));

/// Asserts of each case what a piece of the zone finds, makes and leaves.
fn check_pieces(
    rt: &(impl Abort + AllocGlobal),
    problem: &Problem,
    zone: &Zone,
    cases: &[Case<'_>],
) -> Result<(), Fail>
    requires { IsZone problem.now zone.now }
{
    for &(best, quota, wanted) in cases {
        if quota == 0 || quota > MAX_BUDGET {
            return Err("a piece makes a cut at least".into());
        }
        let mut learn = MakeLearnPiece::new().make(rt.alloc())?;
        let piece = learn.piece(problem, zone, best, quota)?;
        assert_eq!(rt; found_by(&piece), wanted, "{quota} cuts below {best} lines");
    }
    Ok(())
}

/// The height of the placement, the number of cuts, and the zones that are left.
fn found_by(piece: &Piece) -> (Option<u32>, usize, &[u32]) {
    let height = piece.best.as_ref().map(|placed| placed.height);
    (height, piece.trace.len(), piece.lefts.as_slice())
}

// The first column is narrow, then the second: then each of the long cells leaves no room for the other, and both parts
// of the third column are closed. The zones with a wide second and a wide first column are left, the next one first.
#[test]
fn three_cuts_of_two_rows_leave_two_zones(rt: HostRuntime) -> Result<(), Fail> {
    let problem = two_rows(rt.alloc())?;
    let whole = whole_of(&problem)?;
    let piece = Learn::new(rt.alloc()).piece(&problem, &whole, 4, 3)?;
    assert_eq!(rt; found_by(&piece), (None, 3, [4u32, 2].as_slice()));
    assert_eq!(rt;
        piece.trace.as_slice(),
        [cut_at(0, 0, 0), cut_at(1, 1, 0), cut_at(3, 2, 0)].as_slice()
    );
    Ok(())
}

// Seven cuts of the whole close it. The zones that fewer cuts leave stand in the order in which they come.
#[test]
fn each_quota_leaves_the_zones_that_it_does_not_come_to(rt: HostRuntime) -> Result<(), Fail> {
    let problem = two_rows(rt.alloc())?;
    let whole = whole_of(&problem)?;
    let cases: &[Case<'_>] = &[
        (4, 1, (None, 1, &[1, 2])),
        (4, 2, (None, 2, &[3, 4, 2])),
        (4, 4, (None, 4, &[2])),
        (4, 5, (None, 5, &[9, 10])),
        (4, 6, (None, 6, &[10])),
        (4, 7, (None, 7, &[])),
        (4, 16, (None, 7, &[])),
    ];
    check_pieces(&rt, &problem, &whole, cases)
}

// No layout of the two rows is lower than four lines, and the whole has a bound of three.
#[test]
fn a_zone_without_a_lower_layout_gives_no_placement(rt: HostRuntime) -> Result<(), Fail> {
    let problem = two_rows(rt.alloc())?;
    let whole = whole_of(&problem)?;
    let cases: &[Case<'_>] = &[
        (0, 16, (None, 0, &[])),
        (3, 16, (None, 0, &[])),
        (5, 1, (Some(4), 1, &[1, 2])),
        (5, 16, (Some(4), 7, &[])),
    ];
    check_pieces(&rt, &problem, &whole, cases)
}

/// One part of the zone, cut at a span after the first of its classes.
fn part(zone: &Zone, problem: &Problem, span: u32, upper: bool) -> Result<Zone, Fail>
    requires { IsZone problem.now zone.now }
    ensures { IfOk result (IsZone problem.now) }
{
    let ranges = zone.ranges();
    if span as usize >= ranges.len() {
        return Err("there is no such span".into());
    }
    let range = ranges[span as usize];
    if range.first == range.last {
        return Err("the span has one class".into());
    }
    let (lower, higher) = zone.cut(span, range.first)?;
    if upper { Ok(higher) } else { Ok(lower) }
}

// The two zones that three cuts of the two rows leave. With a wide second column one cut closes all; with a wide first
// one both parts of the second are left.
#[test]
fn one_cut_of_each_zone_that_was_left(rt: HostRuntime) -> Result<(), Fail> {
    let problem = two_rows(rt.alloc())?;
    let whole = whole_of(&problem)?;
    let narrow = part(&whole, &problem, 0, false)?;
    let second = part(&narrow, &problem, 1, true)?;
    let first = part(&whole, &problem, 0, true)?;
    check_pieces(&rt, &problem, &second, &[(4, 1, (None, 1, &[]))])?;
    check_pieces(&rt, &problem, &first, &[(4, 1, (None, 1, &[1, 2]))])
}

// The second cut gives the right cell five columns, and two lines are as few as the bound.
#[test]
fn a_lower_placement_closes_zones(rt: HostRuntime) -> Result<(), Fail> {
    let problem = two_cells(rt.alloc(), 12)?;
    let whole = whole_of(&problem)?;
    check_pieces(&rt, &problem, &whole, &[(3, 1, (None, 1, &[1]))])?;
    let piece = Learn::new(rt.alloc()).piece(&problem, &whole, 3, 6)?;
    let widths = piece.best.as_ref().map(|placed| placed.widths.as_slice());
    assert_eq!(rt;
        (found_by(&piece), widths),
        ((Some(2), 2, [].as_slice()), Some([3u32, 5].as_slice()))
    );
    Ok(())
}

// The first cell needs one line by `low` from 3 columns on, and by `high` from 4. After three cuts the zone of one class
// for each span, in which both have three columns, is closed, though its bound is one line.
#[test]
fn a_zone_of_one_class_is_closed_where_low_is_not_high(rt: HostRuntime) -> Result<(), Fail> {
    let alloc = rt.alloc();
    let pair = [config(1, 2), config(3, 1)];
    let mut cells = List::new(alloc);
    cells.push(cell(alloc, (0, 1), 0, &pair, &[config(1, 2), config(4, 1)])?)?;
    add(alloc, &mut cells, (1, 2), 0, &pair)?;
    let problem = problem(alloc, 2, 1, 8, cells)?;
    let whole = whole_of(&problem)?;
    check_pieces(&rt, &problem, &whole, &[(2, 2, (None, 2, &[3]))])?;
    let piece = Learn::new(alloc).piece(&problem, &whole, 2, 100)?;
    let cuts = [cut_at(0, 0, 0), cut_at(2, 0, 1), cut_at(3, 1, 0)];
    assert_eq!(rt;
        (found_by(&piece), piece.trace.as_slice()),
        ((None, 3, [].as_slice()), cuts.as_slice())
    );
    Ok(())
}

#[test]
fn a_problem_without_columns_has_a_placement_of_height_0(rt: HostRuntime) -> Result<(), Fail> {
    let problem = problem(rt.alloc(), 0, 0, 10, List::new(rt.alloc()))?;
    let whole = whole_of(&problem)?;
    let cases: &[Case<'_>] = &[(1, 1, (Some(0), 0, &[])), (0, 1, (None, 0, &[]))];
    check_pieces(&rt, &problem, &whole, cases)
}
