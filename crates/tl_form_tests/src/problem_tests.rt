//! Problems of files' tables, with what their cells need counted by hand.

ghost use Rattle.tl_table.specs.Sound.{IsSound};

use crate::tests::table_of;
use std::alloc::{AllocError, Global};
use std::process::Abort;
use std::test::Fail;
use tl_base::{Breaking, Config, List, Steps, Style};
use tl_form::{InnerSteps, has_sound_problem, problem};
use tl_problem::{Cell, Problem};
use tl_table::Table;

/// Steps as text: `3:2 7:1`.
fn push_steps(alloc: Global, line: &mut String, steps: &Steps) -> Result<(), AllocError> {
    let mut before = "";
    for step in steps.configs() {
        let (width, height) = (step.width, step.height);
        line.push_str(format!(in alloc; "{before}{width}:{height}")?.as_str())?;
        before = " ";
    }
    Ok(())
}

/// A cell: its columns, its rows, and its steps: ` 0-1,0-1(3:2 7:1)`, or ` 0-1,0-1(7:2|7:3)` where `low`
/// and `high` differ.
fn push_cell(alloc: Global, line: &mut String, cell: &Cell) -> Result<(), AllocError> {
    let (left, right, top, bottom) = (cell.left, cell.right, cell.top, cell.bottom);
    line.push_str(format!(in alloc; " {left}-{right},{top}-{bottom}(")?.as_str())?;
    push_steps(alloc, line, &cell.low)?;
    if cell.low.configs() != cell.high.configs() {
        line.push('|')?;
        push_steps(alloc, line, &cell.high)?;
    }
    line.push(')')
}

/// A problem: its columns and rows, its page's width, how many ways it has, and its cells.
fn shown(alloc: Global, problem: &Problem) -> Result<String, AllocError> {
    let (cols, rows, width) = (problem.cols(), problem.rows(), problem.width());
    let count = problem.count();
    let mut line = format!(in alloc; "{cols}x{rows} at {width}, count {count}:")?;
    for cell in problem.cells() {
        push_cell(alloc, &mut line, cell)?;
    }
    Ok(line)
}

/// The problem of the table as text, or that it is not sound.
fn shown_or_unsound(
    alloc: Global,
    table: &Table,
    style: Style,
    width: u32,
    inner: &[InnerSteps],
) -> Result<String, AllocError>
    requires { IsSound table.now }
{
    if !has_sound_problem(alloc, table, style, width, inner)? {
        let text = String::from_str(alloc, "unsound")?;
        return Ok(text);
    }
    let problem = problem(alloc, table, style, width, inner)?;
    shown(alloc, &problem)
}

/// The problem of a file's table, with these steps for its nested tables.
fn problem_of(
    alloc: Global,
    file: &str,
    breaking: Breaking,
    style: Style,
    width: u32,
    inner: &[InnerSteps],
) -> Result<String, AllocError> {
    match table_of(alloc, file, breaking)? {
        Ok(table) => shown_or_unsound(alloc, &table, style, width, inner),
        Err(text) => Ok(text),
    }
}

/// The number that is written so.
pub fn number(text: &str) -> Result<u32, Fail> {
    Ok(text.parse::<u32>().ok().ok_or("no number")?)
}

/// The steps that are written so: `7:3 10:2`. An empty text has none; any other that is no step
/// function fails the test.
fn steps(alloc: Global, text: &str) -> Result<Option<Steps>, Fail> {
    if text.is_empty() {
        return Ok(None);
    }
    let mut list = List::new(alloc);
    for step in text.split(' ') {
        let (width, height) = step.split_once(':').ok_or("no pair")?;
        let (width, height) = (number(width)?, number(height)?);
        list.push(Config { width, height })?;
    }
    match Steps::new(list) {
        Some(steps) => Ok(Some(steps)),
        None => Err("no step function".into()),
    }
}

/// The steps of the table with this number, unless a text is empty.
fn push_bounds(
    alloc: Global,
    inner: &mut Vec<InnerSteps>,
    table: u32,
    low: &str,
    high: &str,
) -> Result<(), Fail> {
    if let (Some(low), Some(high)) = (steps(alloc, low)?, steps(alloc, high)?) {
        inner.push(InnerSteps { table, low, high })?;
    }
    Ok(())
}

/// The problem of a table with another inside, of which the texts are the bounds.
fn around(alloc: Global, width: u32, low: &str, high: &str) -> Result<String, Fail> {
    let mut inner = Vec::new(alloc);
    push_bounds(alloc, &mut inner, 1, low, high)?;
    let (words, style) = (Breaking::Words, Style::Plain);
    let found = problem_of(alloc, TWO_WORDS_INSIDE, words, style, width, &inner)?;
    Ok(found)
}

/// The problem of a table with two others inside, of which the texts are both bounds.
fn around_two(alloc: Global, first: &str, second: &str) -> Result<String, Fail> {
    let mut inner = Vec::new(alloc);
    push_bounds(alloc, &mut inner, 1, first, first)?;
    push_bounds(alloc, &mut inner, 2, second, second)?;
    let (words, style) = (Breaking::Words, Style::Plain);
    let found = problem_of(alloc, TWO_TABLES_INSIDE, words, style, 9, &inner)?;
    Ok(found)
}

/// The problem of a file's table without nested tables.
fn flat(alloc: Global, file: &str, width: u32) -> Result<String, Fail> {
    let found = problem_of(alloc, file, Breaking::Words, Style::Plain, width, &[])?;
    Ok(found)
}

/// Compares the problem of a file's table, without nested tables, with a text.
fn is_flat(
    rt: &impl Abort,
    alloc: Global,
    file: &str,
    width: u32,
    wanted: &str,
) -> Result<(), Fail> {
    let found = flat(alloc, file, width)?;
    assert_eq!(rt; found.as_str(), wanted);
    Ok(())
}

/// Compares the problem of a table with another inside, by these bounds of it, with a text.
fn is_around(
    rt: &impl Abort,
    alloc: Global,
    width: u32,
    bounds: (&str, &str),
    wanted: &str,
) -> Result<(), Fail> {
    let found = around(alloc, width, bounds.0, bounds.1)?;
    assert_eq!(rt; found.as_str(), wanted);
    Ok(())
}

/// Compares the problem of a table with two others inside, by their steps, with a text.
fn is_around_two(
    rt: &impl Abort,
    alloc: Global,
    steps: (&str, &str),
    wanted: &str,
) -> Result<(), Fail> {
    let found = around_two(alloc, steps.0, steps.1)?;
    assert_eq!(rt; found.as_str(), wanted);
    Ok(())
}

const TWO_WORDS: &str = "<table><tr><td>aaa bbb<td>cc dd ee</table>";

const TWO_WORDS_INSIDE: &str = "<table><tr><td><table><tr><td>aaa bbb<td>cc dd ee</table></table>";

const TWO_TABLES_INSIDE: &str =
    "<table><tr><td><table><tr><td>a</table><table><tr><td>b</table></table>";

#[test]
fn each_cell_has_the_least_lines_of_its_paragraphs(rt: HostRuntime) -> Result<(), Fail> {
    let alloc = rt.alloc();
    let wanted = "2x1 at 12, count 6: 0-1,0-1(3:2 7:1) 1-2,0-1(2:3 5:2 8:1)";
    is_flat(&rt, alloc, TWO_WORDS, 12, wanted)?;
    let file = "<table><tr><td>a<br><br><p>b<br></table>";
    is_flat(&rt, alloc, file, 5, "1x1 at 5, count 1: 0-1,0-1(1:3)")?;
    let file = "<table><tr><td data-min=4>a<td><td data-min=3></table>";
    let wanted = "3x1 at 20, count 1: 0-1,0-1(4:1) 1-2,0-1(0:0) 2-3,0-1(3:0)";
    is_flat(&rt, alloc, file, 20, wanted)
}

#[test]
fn spans_have_steps_of_their_own(rt: HostRuntime) -> Result<(), Fail> {
    let file = "<table><tr><td colspan=2>aaaa bbbb cc<tr><td>x<td>yy</table>";
    let wanted = "2x2 at 9, count 2: 0-2,0-1(4:3 7:2) 0-1,1-2(1:1) 1-2,1-2(2:1)";
    is_flat(&rt, rt.alloc(), file, 9, wanted)?;
    let file = "<table><tr><td rowspan=2>aa bb cc<td>x<tr><td>y</table>";
    let wanted = "2x2 at 7, count 2: 0-1,0-2(2:3 5:2) 1-2,0-1(1:1) 1-2,1-2(1:1)";
    is_flat(&rt, rt.alloc(), file, 7, wanted)
}

/// The lines beside the rows in the problem of a file's table on a page of 9 columns.
fn lines_beside(alloc: Global, file: &str, style: Style) -> Result<u32, Fail> {
    let Ok(table) = table_of(alloc, file, Breaking::Words)? else {
        return Err("no table".into());
    };
    if !has_sound_problem(alloc, &table, style, 9, &[])? {
        return Err("unsound".into());
    }
    let problem = problem(alloc, &table, style, 9, &[])?;
    Ok(problem.spacing().lines)
}

/// A header row above a plain one.
const HEADED: &str = "<table><tr><th>h<tr><td>d</table>";

//   h
//   -    the one line beside the rows, in style rule alone
//   d
#[test]
fn the_line_under_the_head_is_beside_the_rows(rt: HostRuntime) -> Result<(), Fail> {
    let alloc = rt.alloc();
    assert_eq!(rt; lines_beside(alloc, HEADED, Style::Rule)?, 1);
    assert_eq!(rt; lines_beside(alloc, HEADED, Style::Compact)?, 0);
    assert_eq!(rt; lines_beside(alloc, HEADED, Style::Frame)?, 2);
    Ok(())
}

#[test]
fn without_a_head_there_is_no_line_under_it(rt: HostRuntime) -> Result<(), Fail> {
    let alloc = rt.alloc();
    let plain = "<table><tr><td>h<tr><td>d</table>";
    assert_eq!(rt; lines_beside(alloc, plain, Style::Rule)?, 0);
    let all_header = "<table><tr><th>h<tr><th>d</table>";
    assert_eq!(rt; lines_beside(alloc, all_header, Style::Rule)?, 0);
    Ok(())
}

//   a
//
//   b    three rows that have an empty line between any two
//
//   c
#[test]
fn in_style_apart_a_line_lies_between_any_two_rows_below_the_head(
    rt: HostRuntime,
) -> Result<(), Fail> {
    let alloc = rt.alloc();
    let plain = "<table><tr><td>a<tr><td>b<tr><td>c</table>";
    assert_eq!(rt; lines_beside(alloc, plain, Style::Apart)?, 2);
    assert_eq!(rt; lines_beside(alloc, plain, Style::Rule)?, 0);
    let headed = "<table><tr><th>h<tr><td>a<tr><td>b</table>";
    assert_eq!(rt; lines_beside(alloc, headed, Style::Apart)?, 2);
    assert_eq!(rt; lines_beside(alloc, HEADED, Style::Apart)?, 1);
    let captioned = "<table><caption>t</caption><tr><td>a<tr><td>b<tr><td>c</table>";
    assert_eq!(rt; lines_beside(alloc, captioned, Style::Apart)?, 2);
    Ok(())
}

/// Compares the problem of a file's table in style apart on a page of 9 columns, by the steps of two tables
/// nested in it, if it has any, with a text.
fn is_apart(
    rt: &impl Abort,
    alloc: Global,
    file: &str,
    steps: (&str, &str),
    wanted: &str,
) -> Result<(), Fail> {
    let mut inner = Vec::new(alloc);
    push_bounds(alloc, &mut inner, 1, steps.0, steps.0)?;
    push_bounds(alloc, &mut inner, 2, steps.1, steps.1)?;
    let found = problem_of(alloc, file, Breaking::Words, Style::Apart, 9, &inner)?;
    assert_eq!(rt; found.as_str(), wanted);
    Ok(())
}

//   aa x
//   bb      of its three lines the middle one lies between the rows
//   cc y
#[test]
fn a_cell_over_rows_has_the_lines_between_them(rt: HostRuntime) -> Result<(), Fail> {
    let alloc = rt.alloc();
    let none = ("", "");
    let file = "<table><tr><td rowspan=2>aa bb cc<td>x<tr><td>y</table>";
    let wanted = "2x2 at 9, count 3: 0-1,0-2(2:2 5:1 8:0) 1-2,0-1(1:1) 1-2,1-2(1:1)";
    is_apart(&rt, alloc, file, none, wanted)?;
    let file = "<table><tr><td rowspan=2>a<td>x<tr><td>y</table>";
    let wanted = "2x2 at 9, count 1: 0-1,0-2(1:0) 1-2,0-1(1:1) 1-2,1-2(1:1)";
    is_apart(&rt, alloc, file, none, wanted)?;
    let file = "<table><tr><td rowspan=3>aa bb cc<td>x<tr><td>y<tr><td>z</table>";
    let wanted = "2x3 at 9, count 2: 0-1,0-3(2:1 5:0) 1-2,0-1(1:1) 1-2,1-2(1:1) 1-2,2-3(1:1)";
    is_apart(&rt, alloc, file, none, wanted)
}

#[test]
fn in_the_head_a_cell_over_rows_has_no_line_between_them(rt: HostRuntime) -> Result<(), Fail> {
    let file =
        "<table><tr><th rowspan=2>aa bb<th>x<tr><th>y<tr><td rowspan=2>a<td>c<tr><td>d</table>";
    let wanted =
        "2x4 at 9, count 2: 0-1,0-2(2:2 5:1) 1-2,0-1(1:1) 1-2,1-2(1:1) 0-1,2-4(1:0) 1-2,2-3(1:1) 1-2,3-4(1:1)";
    is_apart(&rt, rt.alloc(), file, ("", ""), wanted)
}

// The lines between the rows do not count towards the limit of heights.
#[test]
fn a_cell_over_rows_is_as_high_as_the_limit_and_the_lines_between_them(
    rt: HostRuntime,
) -> Result<(), Fail> {
    let alloc = rt.alloc();
    let file =
        "<table><tr><td rowspan=2><table><tr><td>a</table><table><tr><td>b</table><td><tr><td></table>";
    let wanted = "2x2 at 9, count 1: 0-1,0-2(5:1073741824) 1-2,0-1(0:0) 1-2,1-2(0:0)";
    is_apart(
        &rt,
        alloc,
        file,
        ("1:1073741824 5:1", "5:1073741824"),
        wanted,
    )?;
    let wanted = "2x2 at 9, count 3: 0-1,0-2(5:1073741824 6:6 8:5) 1-2,0-1(0:0) 1-2,1-2(0:0)";
    is_apart(&rt, alloc, file, ("5:1073741823 6:5", "5:2 8:1"), wanted)?;
    is_apart(&rt, alloc, file, ("5:1073741824", "5:2"), "unsound")
}

#[test]
fn a_page_too_narrow_or_too_wide_has_no_sound_problem(rt: HostRuntime) -> Result<(), Fail> {
    is_flat(&rt, rt.alloc(), TWO_WORDS, 6, "unsound")?;
    is_flat(&rt, rt.alloc(), TWO_WORDS, 501, "unsound")
}

#[test]
fn four_columns_of_two_classes_have_16_ways(rt: HostRuntime) -> Result<(), Fail> {
    let file =
        "<table><tr><td>a a<td>b b<td>c<br>c<tr><td>p<td>q<td>cccc cccc<td>dddd dddd</table>";
    let wanted =
        "4x2 at 25, count 16: 0-1,0-1(1:2 3:1) 1-2,0-1(1:2 3:1) 2-3,0-1(1:2) 0-1,1-2(1:1) 1-2,1-2(1:1) 2-3,1-2(4:2 9:1) 3-4,1-2(4:2 9:1)";
    is_flat(&rt, rt.alloc(), file, 25, wanted)
}

#[test]
fn a_word_between_units_has_a_step_at_each_width_that_pays(rt: HostRuntime) -> Result<(), Fail> {
    let file = "<table><tr><td>abcdef</table>";
    let found = problem_of(rt.alloc(), file, Breaking::Wider(0), Style::Frame, 8, &[])?;
    assert_eq!(rt;
        found.as_str(),
        "1x1 at 8, count 4: 0-1,0-1(1:6 2:3 3:2 6:1)"
    );
    Ok(())
}

// The table of two words fits 7 columns in 3 lines, 10 in 2 and 17 in one.
const WHOLE: &str = "7:3 10:2 17:1";

#[test]
fn a_nested_table_needs_what_its_steps_say(rt: HostRuntime) -> Result<(), Fail> {
    let wanted = "1x1 at 12, count 2: 0-1,0-1(7:3 10:2)";
    is_around(&rt, rt.alloc(), 12, (WHOLE, WHOLE), wanted)?;
    let wanted = "1x1 at 12, count 1: 0-1,0-1(7:2|7:3)";
    is_around(&rt, rt.alloc(), 12, ("7:2", "7:3"), wanted)
}

#[test]
fn crossing_unequal_or_missing_bounds_make_no_sound_problem(rt: HostRuntime) -> Result<(), Fail> {
    is_around(&rt, rt.alloc(), 12, ("7:3", "7:2"), "unsound")?;
    is_around(&rt, rt.alloc(), 12, ("6:3", "7:3"), "unsound")?;
    is_around(&rt, rt.alloc(), 12, ("", WHOLE), "unsound")?;
    is_around(&rt, rt.alloc(), 6, (WHOLE, WHOLE), "unsound")
}

// A height at a width at which the cell has none does not count towards the limit of heights.
#[test]
fn tables_one_under_the_other_are_added_from_the_greater_least_width_on(
    rt: HostRuntime,
) -> Result<(), Fail> {
    let alloc = rt.alloc();
    let wanted = "1x1 at 9, count 2: 0-1,0-1(3:7 4:3)";
    is_around_two(&rt, alloc, ("2:5 4:1", "3:2"), wanted)?;
    let wanted = "1x1 at 9, count 1: 0-1,0-1(5:1073741824)";
    is_around_two(&rt, alloc, ("1:1073741824 5:1", "5:1073741823"), wanted)?;
    is_around_two(&rt, alloc, ("1:1073741824 5:1", "5:1073741824"), "unsound")
}
