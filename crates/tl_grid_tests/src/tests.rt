//! Tables with their grids drawn by hand, the message of each error, and tables at the limits.

ghost use Rattle.std.specs.Prelude.{◌≡◌, ◌+◌, ◌<◌, ◌≤◌, IsTrue, IfSome};
ghost use Rattle.std.specs.List.{AllByRecursion};
ghost use Rattle.tl_grid.specs.Shapes.{IsSpan, AllSpans};
ghost use Rattle.tl_grid.specs.Forming.{cells_in, cells_in_groups, rows_in_groups};

use std::alloc::{AllocError, Global};
use std::process::Abort;
use std::test::Fail;
use tl_base::List;
use tl_grid::{Grid, GridError, Place, Shape, ShapeGroup, SpanOf, form};

/// Whether all spans are within their ranges.
fn are_spans(spans: &[SpanOf]) -> bool
    ensures { IsTrue result → AllByRecursion IsSpan spans.now }
{
    for span in spans {
        if span.colspan < 1 || span.colspan > 1000 || span.rowspan > 65534 {
            return false;
        }
    }
    true
}

fn are_rows(rows: &[List<SpanOf>]) -> bool
    ensures { IsTrue result → AllByRecursion (AllByRecursion IsSpan) rows.now }
{
    for row in rows {
        if !are_spans(row.as_slice()) {
            return false;
        }
    }
    true
}

/// Whether the groups may be formed.
fn are_groups(groups: &[ShapeGroup]) -> bool
    ensures spans { IsTrue result → AllSpans groups.now }
{
    for group in groups {
        if !are_rows(group.rows.as_slice()) {
            return false;
        }
    }
    true
}

/// How many cells the rows have, if that is at most a million.
fn few_cells(rows: &[List<SpanOf>]) -> Option<usize>
    ensures { IfSome result (λ count. (count ≡ cells_in rows.now) × (count ≤ 1000000)) }
{
    let mut cells = 0;
    for row in rows {
        if row.len() > 1_000_000 - cells {
            return None;
        }
        cells += row.len();
    }
    Some(cells)
}

/// Whether there are at most a million rows and a million cells.
fn are_few(groups: &[ShapeGroup]) -> bool
    ensures cells { IsTrue result → cells_in_groups groups.now ≤ 1000000 }
    ensures rows { IsTrue result → rows_in_groups groups.now ≤ 1000000 }
{
    let mut cells = 0;
    let mut rows = 0;
    for group in groups {
        let Some(more) = few_cells(group.rows.as_slice()) else {
            return false;
        };
        if more > 1_000_000 - cells || group.rows.len() > 1_000_000 - rows {
            return false;
        }
        cells += more;
        rows += group.rows.len();
    }
    true
}

/// The number of a digit.
fn digit(byte: Option<&u8>) -> Result<u32, Fail> {
    match byte {
        Some(&b @ b'0'..=b'9') => Ok(u32::from(b - b'0')),
        _ => Err("no digit".into()),
    }
}

/// Reads a table: `|` stands between row groups, `/` between rows and a blank between cells; a
/// group of which the text begins with `f` is a footer; a cell is the digits of its colspan and its
/// rowspan.
fn read(alloc: Global, text: &str) -> Result<Shape, Fail> {
    let mut groups = List::new(alloc);
    for group in text.split('|') {
        let mut rows = List::new(alloc);
        for row in group.trim_start_matches('f').split('/') {
            let mut spans = List::new(alloc);
            for cell in row.split_whitespace() {
                let digits = cell.as_bytes();
                spans.push(SpanOf {
                    colspan: digit(digits.get(0))?,
                    rowspan: digit(digits.get(1))?,
                })?;
            }
            rows.push(spans)?;
        }
        groups.push(ShapeGroup {
            foot: group.starts_with('f'),
            rows,
        })?;
    }
    Ok(Shape { columns: 0, groups })
}

/// The letter of the cell over a slot, or a dot.
fn letter_at(places: &[Place], x: u32, y: u32) -> char {
    let mut letters = 'A'..='Z';
    for place in places {
        let letter = letters.next().unwrap_or('?');
        if place.left <= x && x < place.right && place.top <= y && y < place.bottom {
            return letter;
        }
    }
    '.'
}

/// Draws a grid, with the cells as letters in the order in which they are written.
fn draw(alloc: Global, grid: &Grid) -> Result<String, AllocError> {
    let mut drawing = String::new(alloc);
    for y in 0..grid.rows {
        if y > 0 {
            drawing.push('/')?;
        }
        for x in 0..grid.cols {
            drawing.push(letter_at(grid.places.as_slice(), x, y))?;
        }
    }
    Ok(drawing)
}

/// The grid of a shape without declared columns.
fn grid_of(alloc: Global, shape: &Shape) -> Result<Grid, Fail> {
    if !are_groups(shape.groups.as_slice()) || !are_few(shape.groups.as_slice()) {
        return Err("not a shape that form takes".into());
    }
    if shape.columns != 0 {
        return Err("declared columns".into());
    }
    Ok(form(alloc, shape)?)
}

/// The drawing of the grid of a table.
fn drawn(alloc: Global, table: &str) -> Result<String, Fail> {
    let shape = read(alloc, table)?;
    let grid = grid_of(alloc, &shape)?;
    Ok(draw(alloc, &grid)?)
}

#[test]
fn tables_have_their_grids(rt: HostRuntime) -> Result<(), Fail> {
    for (table, drawing) in [
        // no cell at all, and rows without cells
        ("", ""),
        ("//", ""),
        ("11", "A"),
        // side by side, and one under the other
        ("11 11/11 11", "AB/CD"),
        ("11/11 11", "A./BC"),
        // columns in which no cell begins are dropped
        ("91", "A"),
        ("21 11", "AB"),
        ("21 11/11 11 11", "AAB/CDE"),
        ("31/11 11", "AA/BC"),
        ("31/11 21", "AA/BC"),
        // so are rows
        ("12", "A"),
        ("11/ /11", "A/B"),
        ("13 11/11/11", "AB/AC/AD"),
        ("13/ /11", "A./AB"),
        // a cell stands beside those that come from above
        ("12 11/11 11", "AB./ACD"),
        ("11 12 11/11 11", "ABC/DBE"),
        ("22/11", "A./AB"),
        // a cell of rowspan 0 grows to the end of its group
        ("10 11/11/11", "AB/AC/AD"),
        ("10 11/11|11", "AB/AC/D."),
        ("11 10/11/11", "AB/CB/DB"),
        ("10|11", "A/B"),
        ("10 12|11", "AB/C."),
        // a rowspan that goes past the last row of its group keeps the next group below it
        ("15 11|11 11", "AB/CD"),
        // a footer goes to the end
        ("f11|11/11", "B/C/A"),
        ("f11|13", "B/A"),
        ("f12 11/11|11|f11 11|11", "D./G./AB/AC/EF"),
    ] {
        let found = drawn(rt.alloc(), table)?;
        assert_eq!(rt; found.as_str(), drawing, "{table}");
    }
    Ok(())
}

/// One group: for each part so many rows, of so many cells with that span each.
fn group_of_parts(alloc: Global, parts: &[(u32, u32, SpanOf)]) -> Result<Shape, AllocError> {
    let mut all = List::new(alloc);
    for &(rows, cells, span) in parts {
        for _ in 0..rows {
            let mut spans = List::new(alloc);
            for _ in 0..cells {
                spans.push(span)?;
            }
            all.push(spans)?;
        }
    }
    let mut groups = List::new(alloc);
    groups.push(ShapeGroup {
        foot: false,
        rows: all,
    })?;
    Ok(Shape { columns: 7, groups })
}

/// What `form` returns for a table, in words: the size of its grid or the message of the error.
fn outcome(alloc: Global, shape: &Shape) -> Result<String, AllocError> {
    if !are_groups(shape.groups.as_slice())
        || !are_few(shape.groups.as_slice())
        || shape.columns > 1_000_000_000
    {
        return String::from_str(alloc, "not a shape that form takes");
    }
    match form(alloc, shape) {
        Ok(grid) => format!(in alloc;
            "{} by {}, {} cells",
            grid.cols,
            grid.rows,
            grid.places.len()
        ),
        Err(error) => format!(in alloc; "{error}"),
    }
}

/// A group of these rows, each cell by its colspan and its rowspan.
fn group_of(alloc: Global, rows: &[&[(u32, u32)]]) -> Result<Shape, AllocError> {
    let mut all = List::new(alloc);
    for row in rows {
        let mut spans = List::new(alloc);
        for &(colspan, rowspan) in *row {
            spans.push(SpanOf { colspan, rowspan })?;
        }
        all.push(spans)?;
    }
    let mut groups = List::new(alloc);
    groups.push(ShapeGroup {
        foot: false,
        rows: all,
    })?;
    Ok(Shape { columns: 0, groups })
}

/// Compares places with their edges: left, right, top and bottom.
fn compare_places(rt: &impl Abort, found: &[Place], wanted: &[(u32, u32, u32, u32)]) {
    assert_eq!(rt; found.len(), wanted.len());
    for (place, edges) in found.iter().zip(wanted) {
        assert_eq!(rt; (place.left, place.right, place.top, place.bottom), *edges);
    }
}

#[test]
fn cells_have_their_places(rt: HostRuntime) -> Result<(), Fail> {
    for (rows, cols, lines, places) in [
        // a a
        // b c
        (
            [[(1000, 1)].as_slice(), [(1, 1), (1, 65534)].as_slice()].as_slice(),
            2,
            2,
            [(0, 2, 0, 1), (0, 1, 1, 2), (1, 2, 1, 2)].as_slice(),
        ),
        // a a b c d d d e
        // f g h i j k l e
        (
            [
                [(2, 1), (1, 1), (1, 1), (3, 1), (1, 0)].as_slice(),
                [(1, 1), (1, 1), (1, 1), (1, 1), (1, 1), (1, 1), (1, 1)].as_slice(),
            ]
            .as_slice(),
            8,
            2,
            [
                (0, 2, 0, 1),
                (2, 3, 0, 1),
                (3, 4, 0, 1),
                (4, 7, 0, 1),
                (7, 8, 0, 2),
                (0, 1, 1, 2),
                (1, 2, 1, 2),
                (2, 3, 1, 2),
                (3, 4, 1, 2),
                (4, 5, 1, 2),
                (5, 6, 1, 2),
                (6, 7, 1, 2),
            ]
            .as_slice(),
        ),
    ] {
        let shape = group_of(rt.alloc(), rows)?;
        let grid = grid_of(rt.alloc(), &shape)?;
        assert_eq!(rt; (grid.cols, grid.rows), (cols, lines));
        compare_places(&rt, grid.places.as_slice(), places);
    }
    Ok(())
}

/// What `form` returns for a table, in words.
fn outcome_of_text(alloc: Global, table: &str) -> Result<String, Fail> {
    let shape = read(alloc, table)?;
    Ok(outcome(alloc, &shape)?)
}

#[test]
fn the_first_overlap_is_named(rt: HostRuntime) -> Result<(), Fail> {
    for (table, wanted) in [
        // A B
        // C *   with B above the second column of C
        ("11 12/21", "cells 1 and 2 overlap at row 1 column 1"),
        // of two overlapped slots the left one, and of two rows the upper one
        ("11 12 12/31", "cells 1 and 3 overlap at row 1 column 1"),
        ("11 13/22/11", "cells 1 and 2 overlap at row 1 column 1"),
        // a growing cell
        ("11 10/21", "cells 1 and 2 overlap at row 1 column 1"),
        // cells are numbered as written, rows as formed: the footer's rows come last
        ("f21|11 12", "2 by 2, 3 cells"),
        ("f11 12/21|11", "cells 1 and 2 overlap at row 2 column 1"),
        // a slot that dropping would leave out
        ("41/11 12/31", "cells 2 and 3 overlap at row 2 column 1"),
    ] {
        let found = outcome_of_text(rt.alloc(), table)?;
        assert_eq!(rt; found.as_str(), wanted, "{table}");
    }
    Ok(())
}

/// What `form` returns for one group of such rows, in words.
fn outcome_of(alloc: Global, parts: &[(u32, u32, SpanOf)]) -> Result<String, AllocError> {
    let shape = group_of_parts(alloc, parts)?;
    outcome(alloc, &shape)
}

const ONE: SpanOf = SpanOf {
    colspan: 1,
    rowspan: 1,
};

#[test]
fn limits_are_refused_one_past_their_ends(rt: HostRuntime) -> Result<(), Fail> {
    for (parts, wanted) in [
        (
            [(1, 60, ONE), (1999, 9, ONE)].as_slice(),
            "60 by 2000, 18051 cells",
        ),
        ([(1, 61, ONE)].as_slice(), "61 columns in a table"),
        ([(2001, 1, ONE)].as_slice(), "2001 rows in a table"),
        ([(400, 50, ONE)].as_slice(), "50 by 400, 20000 cells"),
        ([(1, 20001, ONE)].as_slice(), "20001 cells in a table"),
        ([(3000, 5, ONE)].as_slice(), "3000 rows in a table"),
    ] {
        let found = outcome_of(rt.alloc(), parts)?;
        assert_eq!(rt; found.as_str(), wanted);
    }
    Ok(())
}

#[test]
fn out_of_memory_is_printed(rt: HostRuntime) -> Result<(), Fail> {
    let printed = format!(in rt.alloc(); "{}", GridError::Memory(AllocError))?;
    assert_eq!(rt; printed.as_str(), "out of memory");
    Ok(())
}

#[test]
fn growing_cells_above_many_empty_rows_are_too_many_columns(rt: HostRuntime) -> Result<(), Fail> {
    let growing = SpanOf {
        colspan: 1,
        rowspan: 0,
    };
    let found = outcome_of(rt.alloc(), &[(1, 20000, growing), (192_000, 0, ONE)])?;
    assert_eq!(rt; found.as_str(), "20000 columns in a table");
    Ok(())
}

#[test]
fn long_cells_one_under_the_other_are_too_many_columns(rt: HostRuntime) -> Result<(), Fail> {
    let long = SpanOf {
        colspan: 1000,
        rowspan: 65534,
    };
    let found = outcome_of(rt.alloc(), &[(20000, 1, long)])?;
    assert_eq!(rt; found.as_str(), "20000 columns in a table");
    Ok(())
}

#[test]
fn long_cells_in_a_square_are_too_many_columns(rt: HostRuntime) -> Result<(), Fail> {
    let long = SpanOf {
        colspan: 1000,
        rowspan: 65534,
    };
    let found = outcome_of(rt.alloc(), &[(141, 141, long)])?;
    assert_eq!(rt; found.as_str(), "19881 columns in a table");
    Ok(())
}

/// Takes what may be sent to other threads and shared between them.
fn share<T: Send + Sync + Drop>(_value: T) {}

#[test]
fn shapes_and_grids_are_shared_between_threads(rt: HostRuntime) -> Result<(), Fail> {
    let shape = read(rt.alloc(), "11 10/11")?;
    share(Grid {
        cols: 1,
        rows: 1,
        places: List::new(rt.alloc()),
    });
    share(shape);
    share(GridError::TooManyCells(20_001));
    Ok(())
}
