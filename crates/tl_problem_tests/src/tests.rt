//! Problems counted by hand. A row of a table has the page, as `sound` reads it, the cells, as `cell`
//! reads each of them, and what is wanted.

ghost use Rattle.std.specs.Prelude.{IfOk, IfSome};
ghost use Rattle.tl_problem.specs.Placements.{IsPlacement};
ghost use Rattle.tl_problem.specs.Zones.{IsZone};

use std::alloc::Global;
use std::process::Abort;
use std::test::Fail;
use tl_base::{Config, List, Spacing, Steps, Style};
use tl_diff::{Arc, Matrix};
use tl_problem::{Cell, Placed, Problem, Range, Span, Work, Zone};

/// `aaa bbb` beside `cc dd ee`.
const TWO_CELLS: &str = "0-1 0-1 = 3:2 7:1; 1-2 0-1 = 2:3 5:2 8:1";

/// `aaaa bbbb cc` over two columns, above `x` and `yy`.
const A_COLSPAN: &str = "0-2 0-1 = 4:3 7:2 12:1; 0-1 1-2 = 1:1; 1-2 1-2 = 2:1";

/// `a a`, `b b` and `c` above `c`, over `p`, `q`, `cccc cccc` and `dddd dddd`.
const FOUR_COLUMNS: &str = "0-1 0-1 = 1:2 3:1; 1-2 0-1 = 1:2 3:1; 2-3 0-1 = 1:2; \
    0-1 1-2 = 1:1; 1-2 1-2 = 1:1; 2-3 1-2 = 4:2 9:1; 3-4 1-2 = 4:2 9:1";

// The spans with their classes, and the count: two cells side by side, a colspan, a rowspan over three
// rows, four columns, one cell on three pages, and no cell.
const CLASSES: &str = "\
plain 2x1 12 | 0-1 0-1 = 3:2 7:1; 1-2 0-1 = 2:3 5:2 8:1 | 0-1 [3, 7], 1-2 [2, 5, 8], 6
plain 2x2 9 | 0-2 0-1 = 4:3 7:2 12:1; 0-1 1-2 = 1:1; 1-2 1-2 = 2:1 | 0-1 [1], 0-2 [4, 7], 1-2 [2], 2
plain 2x3 6 | 0-1 0-3 = 1:6 3:3 5:2 11:1; 1-2 0-1 = 1:1; 1-2 1-2 = 1:2 3:1; 1-2 2-3 = 1:1 | 0-1 [1, 3, 5], 1-2 [1, 3], 6
plain 4x2 25 | 0-1 0-1 = 1:2 3:1; 1-2 0-1 = 1:2 3:1; 2-3 0-1 = 1:2; \
    0-1 1-2 = 1:1; 1-2 1-2 = 1:1; 2-3 1-2 = 4:2 9:1; 3-4 1-2 = 4:2 9:1 | 0-1 [1, 3], 1-2 [1, 3], 2-3 [4, 9], 3-4 [4, 9], 16
plain 1x1 8 | 0-1 0-1 = 2:3 5:2 8:1 | 0-1 [2, 5, 8], 3
plain 1x1 7 | 0-1 0-1 = 2:3 5:2 8:1 | 0-1 [2, 5], 2
plain 1x1 2 | 0-1 0-1 = 2:3 5:2 8:1 | 0-1 [2], 1
plain 0x0 10 |  | 1";

// The bound of the whole, its area bound, and the opening, which is the placement in it. In two cells
// the areas are 9 and 12, on 14 columns at most; in two pairs 5 and 5, on 9; beside the rowspan 12, 3 and
// 3, on 9; in four columns 50, on 27.
const WHOLES: &str = "\
plain 2x1 12 | 0-1 0-1 = 3:2 7:1; 1-2 0-1 = 2:3 5:2 8:1 | Some(2) Some(2) [3, 2] [3] 7x3
plain 2x1 7 | 0-1 0-1 = 3:2 7:1; 1-2 0-1 = 2:3 5:2 8:1 | Some(3) Some(3) [3, 2] [3] 7x3
frame 2x1 12 | 0-1 0-1 = 3:2 7:1; 1-2 0-1 = 2:3 5:2 8:1 | Some(4) Some(4) [3, 2] [3] 8x5
plain 2x1 7 | 0-1 0-1 = 1:2 3:1; 1-2 0-1 = 1:2 3:1 | Some(1) Some(2) [1, 1] [2] 4x2
plain 2x2 7 | 0-1 0-2 = 2:3 5:2 8:1; 1-2 0-1 = 1:1; 1-2 1-2 = 1:1 | Some(3) Some(2) [2, 1] [1, 2] 5x3
frame 2x2 10 | 0-2 0-1 = 3:1; 0-1 1-2 = 1:1; 1-2 1-2 = 1:1 | Some(5) Some(3) [1, 1] [1, 1] 5x5
plain 4x2 25 | 0-1 0-1 = 1:2 3:1; 1-2 0-1 = 1:2 3:1; 2-3 0-1 = 1:2; \
    0-1 1-2 = 1:1; 1-2 1-2 = 1:1; 2-3 1-2 = 4:2 9:1; 3-4 1-2 = 4:2 9:1 | Some(3) Some(2) [1, 1, 4, 4] [2, 2] 16x4
plain 1x1 8 | 0-1 0-1 = 2:3 5:2 8:1 | Some(1) Some(1) [2] [3] 2x3
plain 1x1 2 | 0-1 0-1 = 2:3 5:2 8:1 | Some(3) Some(3) [2] [3] 2x3
plain 1x1 3 | 0-1 0-1 = 1:2 3:1 / 1:4 3:2 | Some(1) Some(1) [1] [4] 1x4
plain 0x0 10 |  | Some(0) Some(0) [] [] 0x0
frame 0x0 10 |  | Some(0) Some(0) [] [] 0x0";

// The same with five lines beside the rows, which each height has: the areas are 12 and 4, on 10 columns.
const WITH_LINES: &str = "\
2,0,0,5 1x2 8 | 0-1 0-1 = 2:3; 0-1 1-2 = 2:1 | Some(9) Some(7) [2] [3, 1] 2x9
2,1,0,5 1x2 8 | 0-1 0-1 = 2:3; 0-1 1-2 = 2:1 | Some(10) Some(7) [2] [3, 1] 2x10
2,1,2,5 0x0 8 |  | Some(0) Some(0) [] [] 0x0";

// A sound problem has columns that stand apart, rows with at most a line between them, and little beside.
const SPACED: &str = "\
1,0,0,0 1x1 8 | 0-1 0-1 = 2:3 | true
2,1,2,2002 1x1 8 | 0-1 0-1 = 2:3 | true
0,0,0,0 1x1 8 | 0-1 0-1 = 2:3 | false
3,0,0,0 1x1 8 | 0-1 0-1 = 2:3 | false
1,2,0,0 1x1 8 | 0-1 0-1 = 2:3 | false
1,0,3,0 1x1 8 | 0-1 0-1 = 2:3 | false
1,0,0,2003 1x1 8 | 0-1 0-1 = 2:3 | false";

// Whether each cell needs the same by `low` and by `high` in any room, and at all widths up to the page's. The steps
// differ nowhere; everywhere; at five and six columns, on a page of six and on one of four; on a page of six of which
// a frame leaves four, at four, at five, at six and at seven; and in the second of two cells at nine.
const AGREEMENT: &str = "\
plain 1x1 6 | 0-1 0-1 = 1:2 3:1 | true true
plain 1x1 6 | 0-1 0-1 = 1:2 3:1 / 1:4 3:2 | false false
plain 1x1 6 | 0-1 0-1 = 1:2 5:1 / 1:2 7:1 | false false
plain 1x1 4 | 0-1 0-1 = 1:2 5:1 / 1:2 7:1 | true true
frame 1x1 6 | 0-1 0-1 = 1:2 4:1 / 1:2 5:1 | false false
frame 1x1 6 | 0-1 0-1 = 1:2 5:1 / 1:2 6:1 | true false
frame 1x1 6 | 0-1 0-1 = 1:2 6:1 / 1:2 7:1 | true false
frame 1x1 6 | 0-1 0-1 = 1:2 7:1 / 1:2 8:1 | true true
plain 2x1 9 | 0-1 0-1 = 1:2 3:1; 1-2 0-1 = 1:2 9:1 / 1:2 | false false";

// The placement under widths: two cells, a colspan, rowspans over two and three rows, and no cell.
const PLACED: &str = "\
plain 2x1 12 | 0-1 0-1 = 3:2 7:1; 1-2 0-1 = 2:3 5:2 8:1 | 3 5 | [3, 5] [2] 10x2
plain 2x1 12 | 0-1 0-1 = 3:2 7:1; 1-2 0-1 = 2:3 5:2 8:1 | 8 2 | [8, 2] [3] 12x3
plain 2x1 12 | 0-1 0-1 = 3:2 7:1; 1-2 0-1 = 2:3 5:2 8:1 | 3 8 | None
plain 2x1 12 | 0-1 0-1 = 3:2 7:1; 1-2 0-1 = 2:3 5:2 8:1 | 2 5 | None
plain 2x1 12 | 0-1 0-1 = 3:2 7:1; 1-2 0-1 = 2:3 5:2 8:1 | 3 | None
plain 2x2 9 | 0-2 0-1 = 4:3 7:2 12:1; 0-1 1-2 = 1:1; 1-2 1-2 = 2:1 | 1 4 | [1, 4] [2, 1] 7x3
plain 2x2 8 | 0-1 0-2 = 2:3 5:2 8:1; 1-2 0-1 = 1:1; 1-2 1-2 = 1:1 | 5 1 | [5, 1] [1, 1] 8x2
plain 2x3 6 | 0-1 0-3 = 1:6 3:3 5:2; 1-2 0-1 = 1:1; 1-2 1-2 = 1:2 3:1; 1-2 2-3 = 1:1 | 3 1 | [3, 1] [1, 2, 1] 6x4
plain 2x3 6 | 0-1 0-3 = 1:6 3:3 5:2; 1-2 0-1 = 1:1; 1-2 1-2 = 1:2 3:1; 1-2 2-3 = 1:1 | 1 3 | [1, 3] [1, 1, 4] 6x6
plain 0x0 10 |  |  | [] [] 0x0
plain 0x0 10 |  | 1 | None";

// Whether the cells are a sound problem: none; two over one slot, or not; none that begins in a column, or
// in a row; one out of the grid, and of no column or row; `low` and `high`; heights that sum to the limit,
// and to one more; the page's width.
const SOUND: &str = "\
plain 0x0 0 |  | true
plain 1x0 9 |  | false
plain 0x1 9 |  | false
plain 2x2 9 | 0-2 0-1 = 1:1; 0-1 1-2 = 1:1; 1-2 1-2 = 1:1 | true
plain 2x2 9 | 0-2 0-2 = 1:1; 0-1 1-2 = 1:1; 1-2 1-2 = 1:1 | false
plain 2x1 9 | 0-2 0-1 = 1:1 | false
plain 1x2 9 | 0-1 0-2 = 1:1 | false
plain 1x1 9 | 0-2 0-1 = 1:1 | false
plain 1x1 9 | 0-1 0-2 = 1:1 | false
plain 1x1 9 | 0-1 0-1 = 1:1; 0-0 0-1 = 1:1 | false
plain 1x1 9 | 0-1 0-1 = 1:1; 0-1 0-0 = 1:1 | false
plain 1x1 9 | 0-1 0-1 = 1:1 / 1:2 | true
plain 1x1 9 | 0-1 0-1 = 1:2 / 1:1 | false
plain 1x1 9 | 0-1 0-1 = 1:1 / 2:1 | false
plain 1x1 9 | 0-1 0-1 = 1:3 5:1 / 1:3 3:2 5:1 | false
plain 1x1 9 | 0-1 0-1 = 1:3 3:1 / 1:3 3:2 5:1 | true
plain 1x1 9 | 0-1 0-1 = 1:1 / 1:1073741824 | true
plain 1x1 9 | 0-1 0-1 = 1:1 / 1:1073741825 | false
plain 2x1 7 | 0-1 0-1 = 3:2 7:1; 1-2 0-1 = 2:3 5:2 8:1 | true
plain 2x1 6 | 0-1 0-1 = 3:2 7:1; 1-2 0-1 = 2:3 5:2 8:1 | false
frame 2x1 8 | 0-1 0-1 = 3:2 7:1; 1-2 0-1 = 2:3 5:2 8:1 | true
frame 2x1 7 | 0-1 0-1 = 3:2 7:1; 1-2 0-1 = 2:3 5:2 8:1 | false
plain 1x1 500 | 0-1 0-1 = 1:1 | true
plain 1x1 501 | 0-1 0-1 = 1:1 | false
plain 2x2 5 | 0-2 0-1 = 5:1; 0-1 1-2 = 1:1; 1-2 1-2 = 1:1 | true
plain 2x2 4 | 0-2 0-1 = 5:1; 0-1 1-2 = 1:1; 1-2 1-2 = 1:1 | false";

// A row of 60 cells, so many of which have the steps after ` | `, the others two steps; and the count.
const COUNTS: &str = "\
0 | 1:1 | 1152921504606846976
3 | 1:3 2:2 3:1 | 3891110078048108544
3 | 1:4 2:3 3:2 4:1 | 9223372036854775808
4 | 1:4 2:3 3:2 4:1 | 18446744073709551615
60 | 1:3 2:2 3:1 | 18446744073709551615";

/// Asserts that what is found of a row is what is wanted of it.
fn check_text(rt: &impl Abort, row: &str, found: &str, wanted: &str) {
    assert_eq!(rt; found, wanted, "{row}");
}

fn number(text: &str) -> Result<u32, Fail> {
    Ok(text.parse::<u32>().ok().ok_or("no number")?)
}

/// The parts of a row before and after a bar.
fn halves(row: &str) -> Result<(&str, &str), Fail> {
    Ok(row.split_once(" | ").ok_or("no bar")?)
}

/// Two numbers with a character between them.
fn pair(text: &str, between: char) -> Result<(u32, u32), Fail> {
    let (first, second) = text.split_once(between).ok_or("no pair")?;
    Ok((number(first)?, number(second)?))
}

/// The step function with these widths and heights.
fn steps(alloc: Global, text: &str) -> Result<Steps, Fail> {
    let mut list = List::new(alloc);
    for step in text.split(' ') {
        let (width, height) = pair(step, ':')?;
        list.push(Config { width, height })?;
    }
    Ok(Steps::new(list).ok_or("no steps")?)
}

/// The cell that is written as its columns, its rows and its steps: `0-2 0-1 = 4:3 7:2` covers two columns
/// of the first row, and needs three lines from 4 columns on, two from 7. Where `high` differs from `low`,
/// its steps follow ` / `.
fn cell(alloc: Global, text: &str) -> Result<Cell, Fail> {
    let (place, both) = text.split_once(" = ").ok_or("no steps")?;
    let (columns, rows) = place.split_once(' ').ok_or("no rows")?;
    let (low, high) = both.split_once(" / ").unwrap_or((both, both));
    let (left, right) = pair(columns, '-')?;
    let (top, bottom) = pair(rows, '-')?;
    let low = steps(alloc, low)?;
    let high = steps(alloc, high)?;
    Ok(Cell {
        left,
        right,
        top,
        bottom,
        low,
        high,
    })
}

/// The cells that are written with `; ` between two.
fn cells(alloc: Global, text: &str) -> Result<List<Cell>, Fail> {
    let mut list = List::new(alloc);
    if text.is_empty() {
        return Ok(list);
    }
    for text in text.split("; ") {
        list.push(cell(alloc, text)?)?;
    }
    Ok(list)
}

/// A spacing: that of a style, or its gap, row gap, edges and lines, as `2,0,0,5`.
fn spacing(text: &str) -> Result<Spacing, Fail> {
    if text == "frame" {
        return Ok(Style::Frame.spacing(2));
    }
    if text == "plain" {
        return Ok(Style::Plain.spacing(0));
    }
    let (gap, rest) = text.split_once(',').ok_or("no row gap")?;
    let (row_gap, rest) = rest.split_once(',').ok_or("no edges")?;
    let (edges, lines) = rest.split_once(',').ok_or("no lines")?;
    Ok(Spacing {
        gap: number(gap)?,
        row_gap: number(row_gap)?,
        edges: number(edges)?,
        lines: number(lines)?,
    })
}

/// The problem of these cells on this page, or `None` if it is not sound. A page is its spacing, the
/// columns and rows of the grid, and its width: `plain 2x1 12`.
fn sound(alloc: Global, page: &str, text: &str) -> Result<Option<Problem>, Fail> {
    let (apart, page) = page.split_once(' ').ok_or("no grid")?;
    let (size, width) = page.split_once(' ').ok_or("no width")?;
    let spacing = spacing(apart)?;
    let (cols, rows) = pair(size, 'x')?;
    let width = number(width)?;
    made(alloc, cols, rows, spacing, width, cells(alloc, text)?)
}

/// The problem, if it is sound.
fn made(
    alloc: Global,
    cols: u32,
    rows: u32,
    spacing: Spacing,
    width: u32,
    cells: List<Cell>,
) -> Result<Option<Problem>, Fail> {
    if !Problem::is_sound(cols, rows, spacing, width, cells.as_slice()) {
        return Ok(None);
    }
    Ok(Some(Problem::new(alloc, cols, rows, spacing, width, cells)?))
}

/// The problem of these cells on this page, which is sound.
fn problem(alloc: Global, page: &str, text: &str) -> Result<Problem, Fail> {
    Ok(sound(alloc, page, text)?.ok_or("no sound problem")?)
}

/// Widths, heights and both totals.
fn shown(alloc: Global, placed: &Placed) -> Result<String, Fail> {
    Ok(format!(in alloc;
        "{:?} {:?} {}x{}",
        placed.widths.as_slice(),
        placed.heights.as_slice(),
        placed.width,
        placed.height
    )?)
}

/// The bound of the zone with the widths at its least positions, and these widths found alone.
fn outlined(alloc: Global, problem: &Problem, zone: &Zone) -> Result<String, Fail>
    requires { IsZone problem.now zone.now }
{
    let mut work = Work::new(problem)?;
    let outline = match problem.outline_of(zone, &mut work)? {
        Some(outline) => format!(in alloc; "{} {:?}", outline.bound, outline.widths.as_slice())?,
        None => String::from_str(alloc, "None")?,
    };
    let least = match problem.least_in(zone, &mut work)? {
        Some(least) => format!(in alloc; "{:?}", least.as_slice())?,
        None => String::from_str(alloc, "None")?,
    };
    Ok(format!(in alloc; "{outline} {least}")?)
}

/// The bound and the area bound of the zone, and the placement in it.
fn found_in(alloc: Global, problem: &Problem, zone: &Zone) -> Result<String, Fail>
    requires { IsZone problem.now zone.now }
{
    let mut work = Work::new(problem)?;
    let bound = problem.bound_of(zone, &mut work);
    let placed = problem.place_in(zone, &mut work)?;
    let area = problem.area_of(zone, &mut work);
    let placed = match placed {
        Some(placed) => shown(alloc, &placed)?,
        None => String::new(alloc),
    };
    Ok(format!(in alloc; "{bound:?} {area:?} {placed}")?)
}

/// The zone of all layouts.
fn whole(problem: &Problem) -> Result<Zone, Fail>
    ensures { IfOk result (IsZone problem.now) }
{
    let zone = problem.whole()?;
    Ok(zone)
}

/// The spans with their classes, and how many ways there are to give each span a class.
fn classes_of(alloc: Global, problem: &Problem) -> Result<String, Fail> {
    let mut text = String::new(alloc);
    for (s, span) in problem.spans().iter().enumerate() {
        let s = u32::try_from(s).ok().ok_or("many spans")?;
        let classes = problem.classes(s);
        text.push_str(&format!(in alloc; "{}-{} {classes:?}, ", span.left, span.right)?)?;
    }
    text.push_str(&format!(in alloc; "{}", problem.count())?)?;
    Ok(text)
}

#[test]
fn spans_are_by_left_then_right_and_classes_begin_within_the_page(
    rt: HostRuntime,
) -> Result<(), Fail> {
    for row in CLASSES.lines() {
        let (page, rest) = halves(row)?;
        let (cells, wanted) = halves(rest)?;
        let found = classes_of(rt.alloc(), &problem(rt.alloc(), page, cells)?)?;
        check_text(&rt, row, found.as_str(), wanted);
    }
    Ok(())
}

/// What is found in the zone of all layouts.
fn found_in_whole(alloc: Global, problem: &Problem) -> Result<String, Fail> {
    let whole = whole(problem)?;
    found_in(alloc, problem, &whole)
}

fn shown_opening(alloc: Global, problem: &Problem) -> Result<String, Fail> {
    let opening = problem.opening()?;
    shown(alloc, &opening)
}

#[test]
fn whole_problems_have_the_bounds_counted_by_hand(rt: HostRuntime) -> Result<(), Fail> {
    for row in WHOLES.lines() {
        let (page, rest) = halves(row)?;
        let (cells, wanted) = halves(rest)?;
        let found = found_in_whole(rt.alloc(), &problem(rt.alloc(), page, cells)?)?;
        check_text(&rt, row, found.as_str(), wanted);
    }
    Ok(())
}

#[test]
fn the_lines_beside_the_rows_are_in_each_height(rt: HostRuntime) -> Result<(), Fail> {
    for row in WITH_LINES.lines() {
        let (page, rest) = halves(row)?;
        let (cells, wanted) = halves(rest)?;
        let found = found_in_whole(rt.alloc(), &problem(rt.alloc(), page, cells)?)?;
        check_text(&rt, row, found.as_str(), wanted);
    }
    Ok(())
}

#[test]
fn an_opening_is_the_placement_in_the_whole(rt: HostRuntime) -> Result<(), Fail> {
    for row in WHOLES.lines() {
        let (page, rest) = halves(row)?;
        let (cells, wanted) = halves(rest)?;
        let opening = shown_opening(rt.alloc(), &problem(rt.alloc(), page, cells)?)?;
        assert!(rt; wanted.ends_with(opening.as_str()), "{row}");
    }
    Ok(())
}

/// The placement under widths that are written so.
fn placed(alloc: Global, problem: &Problem, widths: &str) -> Result<Option<Placed>, Fail>
    ensures { IfOk result (λ found. IfSome found (IsPlacement problem.now)) }
{
    let mut list = List::new(alloc);
    for width in widths.split_whitespace() {
        list.push(number(width)?)?;
    }
    Ok(problem.place(list.as_slice())?)
}

/// The placement under these widths, or that there is none.
fn shown_placed(alloc: Global, problem: &Problem, widths: &str) -> Result<String, Fail> {
    match placed(alloc, problem, widths)? {
        Some(placed) => shown(alloc, &placed),
        None => Ok(String::from_str(alloc, "None")?),
    }
}

#[test]
fn a_placement_has_the_least_heights_under_its_widths(rt: HostRuntime) -> Result<(), Fail> {
    for row in PLACED.lines() {
        let (page, rest) = halves(row)?;
        let (cells, rest) = halves(rest)?;
        let (widths, wanted) = halves(rest)?;
        let problem = problem(rt.alloc(), page, cells)?;
        let found = shown_placed(rt.alloc(), &problem, widths)?;
        check_text(&rt, row, found.as_str(), wanted);
    }
    Ok(())
}

/// The placement under widths that are written so, where it is lower than this height.
fn shown_lower(
    alloc: Global,
    problem: &Problem,
    widths: &str,
    height: u32,
) -> Result<String, Fail> {
    let placed = placed(alloc, problem, widths)?.ok_or("no placement")?;
    let mut work = Work::new(problem)?;
    match problem.place_lower(placed.widths.as_slice(), height, &mut work)? {
        Some(lower) => shown(alloc, &lower),
        None => Ok(String::from_str(alloc, "None")?),
    }
}

// In 3 and 5 columns both cells have two lines, in 8 and 2 columns the second has three.
#[test]
fn a_placement_is_given_where_it_is_lower(rt: HostRuntime) -> Result<(), Fail> {
    let problem = problem(rt.alloc(), "plain 2x1 12", TWO_CELLS)?;
    for (widths, height, wanted) in [
        ("3 5", 3u32, "[3, 5] [2] 10x2"),
        ("3 5", 2, "None"),
        ("8 2", 4, "[8, 2] [3] 12x3"),
        ("8 2", 3, "None"),
        ("8 2", 0, "None"),
    ] {
        let found = shown_lower(rt.alloc(), &problem, widths, height)?;
        check_text(&rt, widths, found.as_str(), wanted);
    }
    Ok(())
}

// The parts of the zone with all widths of two cells, cut after the first class of the first: in the lower part
// it has at most 6 columns and so two lines, in the upper part 7, which leave the second 3 columns and three
// lines. Their least widths are the page's, and 7 and 2. From 5 columns on for the second, no widths are left.
#[test]
fn parts_have_bounds_and_least_widths(rt: HostRuntime) -> Result<(), Fail> {
    let problem = problem(rt.alloc(), "plain 2x1 12", TWO_CELLS)?;
    let whole = whole(&problem)?;
    let (lower, upper) = cut(&whole, &problem, 0)?;
    let none = upper_part(&upper, &problem, 1)?;
    let found = format!(in rt.alloc();
        "{}; {}; {}; {}",
        outlined(rt.alloc(), &problem, &whole)?,
        outlined(rt.alloc(), &problem, &lower)?,
        outlined(rt.alloc(), &problem, &upper)?,
        outlined(rt.alloc(), &problem, &none)?
    )?;
    check_text(
        &rt,
        TWO_CELLS,
        found.as_str(),
        "2 [3, 2] [3, 2]; 2 [3, 2] [3, 2]; 3 [7, 2] [7, 2]; None None",
    );
    Ok(())
}

/// The placement made tight.
fn shown_tight(alloc: Global, problem: &Problem, placed: &Placed) -> Result<String, Fail>
    requires { IsPlacement problem.now placed.now }
{
    let tight = problem.tight(placed)?;
    shown(alloc, &tight)
}

/// The placement made tight, and that made tight again.
fn shown_tight_twice(alloc: Global, problem: &Problem, placed: &Placed) -> Result<String, Fail>
    requires { IsPlacement problem.now placed.now }
{
    let once = shown_tight(alloc, problem, placed)?;
    let tight = problem.tight(placed)?;
    let twice = shown_tight(alloc, problem, &tight)?;
    Ok(format!(in alloc; "{once}; {twice}")?)
}

// In 4 and 6 columns both cells need two lines, as they do in 3 and 5.
#[test]
fn a_tight_placement_has_the_least_columns_for_its_heights(rt: HostRuntime) -> Result<(), Fail> {
    let problem = problem(rt.alloc(), "plain 2x1 12", TWO_CELLS)?;
    let placed = placed(rt.alloc(), &problem, "4 6")?.ok_or("no placement")?;
    let found = shown_tight_twice(rt.alloc(), &problem, &placed)?;
    let wanted = "[3, 5] [2] 10x2; [3, 5] [2] 10x2";
    check_text(&rt, TWO_CELLS, found.as_str(), wanted);
    Ok(())
}

/// The two parts of the zone, cut after the first class that it gives the span.
fn cut(zone: &Zone, problem: &Problem, s: u32) -> Result<(Zone, Zone), Fail>
    requires { IsZone problem.now zone.now }
    ensures { IfOk result (λ parts. IsZone problem.now parts.0 × IsZone problem.now parts.1) }
{
    let ranges = zone.ranges();
    if s as usize >= ranges.len() {
        return Err("no such span".into());
    }
    let range = ranges[s as usize];
    if range.first >= range.last {
        return Err("one class".into());
    }
    Ok(zone.cut(s, range.first)?)
}

/// Writes the bound of the zone and of the parts that cuts of its first three spans make, from the span
/// `s` on: each zone before its parts, and the lower part before the upper.
fn write_bounds(problem: &Problem, zone: &Zone, s: u32, bounds: &mut List<u32>) -> Result<(), Fail>
    requires { IsZone problem.now zone.now }
{
    let mut work = Work::new(problem)?;
    bounds.push(problem.bound_of(zone, &mut work).ok_or("no widths")?)?;
    if s < 3 {
        let (lower, upper) = cut(zone, problem, s)?;
        write_bounds(problem, &lower, s + 1, bounds)?;
        write_bounds(problem, &upper, s + 1, bounds)?;
    }
    Ok(())
}

// The two long cells have one line each only at 9 columns, and 1, 1, 9 and 9 with their gaps are 26.
// So seven cuts make eight zones of which none has both at one line.
#[test]
fn seven_cuts_of_four_columns_make_fifteen_zones(rt: HostRuntime) -> Result<(), Fail> {
    let problem = problem(rt.alloc(), "plain 4x2 25", FOUR_COLUMNS)?;
    let mut bounds = List::new(rt.alloc());
    write_bounds(&problem, &whole(&problem)?, 0, &mut bounds)?;
    let found = format!(in rt.alloc(); "{:?}", bounds.as_slice())?;
    let wanted = "[3, 3, 3, 4, 4, 3, 4, 4, 3, 3, 4, 4, 3, 4, 4]";
    check_text(&rt, FOUR_COLUMNS, found.as_str(), wanted);
    Ok(())
}

/// The upper one of the two parts.
fn upper_part(zone: &Zone, problem: &Problem, s: u32) -> Result<Zone, Fail>
    requires { IsZone problem.now zone.now }
    ensures { IfOk result (IsZone problem.now) }
{
    let (_, upper) = cut(zone, problem, s)?;
    Ok(upper)
}

/// What is found in the lower part, and in the upper one.
fn found_in_parts(alloc: Global, problem: &Problem, zone: &Zone, s: u32) -> Result<String, Fail>
    requires { IsZone problem.now zone.now }
{
    let (lower, upper) = cut(zone, problem, s)?;
    let lower = found_in(alloc, problem, &lower)?;
    let upper = found_in(alloc, problem, &upper)?;
    Ok(format!(in alloc; "{lower}; {upper}")?)
}

// The left cell has one line from 7 columns on, the right one two from 5: together these are 14.
#[test]
fn a_zone_that_no_widths_lie_in_has_no_bound(rt: HostRuntime) -> Result<(), Fail> {
    let problem = problem(rt.alloc(), "plain 2x1 12", TWO_CELLS)?;
    let whole = whole(&problem)?;
    let wide = upper_part(&whole, &problem, 0)?;
    let found = found_in_parts(rt.alloc(), &problem, &wide, 1)?;
    let wanted = "Some(3) Some(2) [7, 2] [3] 11x3; None None ";
    check_text(&rt, TWO_CELLS, found.as_str(), wanted);
    Ok(())
}

// In 7 columns the wide cell has two lines, in 5 three. The zone of 5 and 6 columns has areas of 21, 3
// and 4 on 8 columns, that from 7 columns on areas of 18, 3 and 4 on 11.
#[test]
fn a_colspan_is_cut_at_its_own_classes(rt: HostRuntime) -> Result<(), Fail> {
    let problem = problem(rt.alloc(), "plain 2x2 9", A_COLSPAN)?;
    let whole = whole(&problem)?;
    let found = found_in_parts(rt.alloc(), &problem, &whole, 1)?;
    let wanted = "Some(4) Some(4) [1, 2] [3, 1] 5x4; Some(3) Some(3) [1, 4] [2, 1] 7x3";
    check_text(&rt, A_COLSPAN, found.as_str(), wanted);
    Ok(())
}

#[test]
fn a_new_work_has_the_bounds_of_the_whole(rt: HostRuntime) -> Result<(), Fail> {
    let problem = problem(rt.alloc(), "plain 2x1 12", TWO_CELLS)?;
    let mut work = Work::new(&problem)?;
    let bound = problem.held_bound(&mut work);
    assert_eq!(rt; (bound, problem.held_area(&work)), (Some(2), Some(2)));
    Ok(())
}

/// Whether the cells on the page are a sound problem, in words.
fn soundness(alloc: Global, page: &str, cells: &str) -> Result<&'static str, Fail> {
    if sound(alloc, page, cells)?.is_some() {
        Ok("true")
    } else {
        Ok("false")
    }
}

#[test]
fn a_sound_problem_keeps_the_grid_its_steps_and_the_page(rt: HostRuntime) -> Result<(), Fail> {
    for row in SOUND.lines() {
        let (page, rest) = halves(row)?;
        let (cells, wanted) = halves(rest)?;
        check_text(&rt, row, soundness(rt.alloc(), page, cells)?, wanted);
    }
    Ok(())
}

#[test]
fn a_sound_problem_has_a_spacing(rt: HostRuntime) -> Result<(), Fail> {
    for row in SPACED.lines() {
        let (page, rest) = halves(row)?;
        let (cells, wanted) = halves(rest)?;
        check_text(&rt, row, soundness(rt.alloc(), page, cells)?, wanted);
    }
    Ok(())
}

#[test]
fn low_and_high_agree_in_rooms_or_on_the_whole_page(rt: HostRuntime) -> Result<(), Fail> {
    let alloc = rt.alloc();
    for row in AGREEMENT.lines() {
        let (page, rest) = halves(row)?;
        let (cells, wanted) = halves(rest)?;
        let made = problem(alloc, page, cells)?;
        let found = format!(in alloc; "{} {}", made.low_is_high(), made.agrees_on_page())?;
        check_text(&rt, row, found.as_str(), wanted);
    }
    Ok(())
}

/// A row of so many cells, some of which have the one step function and the others two steps.
fn a_row(alloc: Global, cols: u32, more: u32, one: &str) -> Result<Option<Problem>, Fail> {
    let mut cells = List::new(alloc);
    for left in 0..cols {
        let text = if left < more { one } else { "1:2 3:1" };
        let low = steps(alloc, text)?;
        let high = steps(alloc, text)?;
        cells.push(Cell {
            left,
            right: left + 1,
            top: 0,
            bottom: 1,
            low,
            high,
        })?;
    }
    made(alloc, cols, 1, Style::Plain.spacing(0), 200, cells)
}

/// The count of such a row, or that it is no sound problem.
fn count_of_row(alloc: Global, cols: u32, more: u32, one: &str) -> Result<String, Fail> {
    match a_row(alloc, cols, more, one)? {
        Some(problem) => Ok(format!(in alloc; "{}", problem.count())?),
        None => Ok(String::from_str(alloc, "no sound problem")?),
    }
}

#[test]
fn counts_of_sixty_columns_stop_at_the_last_number_of_64_bits(rt: HostRuntime) -> Result<(), Fail> {
    for row in COUNTS.lines() {
        let (more, rest) = halves(row)?;
        let (one, wanted) = halves(rest)?;
        let found = count_of_row(rt.alloc(), 60, number(more)?, one)?;
        check_text(&rt, row, found.as_str(), wanted);
    }
    let found = count_of_row(rt.alloc(), 61, 0, "1:1")?;
    check_text(&rt, "61 columns", found.as_str(), "no sound problem");
    Ok(())
}

// The page has 22 columns more than 60 cells of one column and 59 gaps take, so each cell alone may have
// its one line. The areas are 5 each, 300 in all, on 202 columns.
#[test]
fn sixty_columns_have_a_bound_below_their_area_bound(rt: HostRuntime) -> Result<(), Fail> {
    let problem = a_row(rt.alloc(), 60, 0, "1:1")?.ok_or("no sound problem")?;
    let whole = whole(&problem)?;
    let mut work = Work::new(&problem)?;
    let bound = problem.bound_of(&whole, &mut work);
    let area = problem.area_of(&whole, &mut work);
    let again = problem.bound_of(&whole, &mut work);
    assert_eq!(rt; (bound, area, again), (Some(1), Some(2), Some(1)));
    Ok(())
}

/// The width and the height of the placement in the zone.
fn size_in(problem: &Problem, zone: &Zone) -> Result<(u32, u32), Fail>
    requires { IsZone problem.now zone.now }
{
    let mut work = Work::new(problem)?;
    let placed = problem.place_in(zone, &mut work)?.ok_or("no placement")?;
    Ok((placed.width, placed.height))
}

// 60 columns of one and 59 gaps of two take 178 columns, and each cell needs two lines.
#[test]
fn sixty_columns_are_placed(rt: HostRuntime) -> Result<(), Fail> {
    let problem = a_row(rt.alloc(), 60, 0, "1:1")?.ok_or("no sound problem")?;
    let whole = whole(&problem)?;
    assert_eq!(rt; size_in(&problem, &whole)?, (178, 2));
    Ok(())
}

// In the upper part the last of 60 columns has three columns of the page, in which its cell has one line.
#[test]
fn a_part_of_sixty_columns_is_placed(rt: HostRuntime) -> Result<(), Fail> {
    let problem = a_row(rt.alloc(), 60, 0, "1:1")?.ok_or("no sound problem")?;
    let whole = whole(&problem)?;
    let upper = upper_part(&whole, &problem, 59)?;
    assert_eq!(rt; size_in(&problem, &upper)?, (180, 2));
    Ok(())
}

/// Takes what may be sent to other threads and shared between them.
fn share<T: Send + Sync + Drop>(_value: Option<T>) {}

#[test]
fn matrices_and_paths_may_go_to_other_threads() {
    share::<Matrix>(None);
    share::<Arc>(None);
}

#[test]
fn problems_and_zones_may_go_to_other_threads() {
    share::<Problem>(None);
    share::<Cell>(None);
    share::<Span>(None);
    share::<Zone>(None);
    share::<Range>(None);
    share::<Placed>(None);
    share::<Work>(None);
}
