//! The heads of tables, counted by hand.

use crate::tests::table_of;
use std::alloc::{AllocError, Global};
use std::process::Abort;
use std::test::Fail;
use tl_base::Breaking;
use tl_table::{Table, caption_height, head_end};

/// A `t` for each cell of a `thead`, and a `.` for each other: `tt..`.
fn push_marks(line: &mut String, table: &Table) -> Result<(), AllocError> {
    for cell in table.cells.as_slice() {
        line.push(if cell.in_head { 't' } else { '.' })?;
    }
    Ok(())
}

/// Where the head of a file's table begins and ends, in rows, and which cells are of a `thead`: `1-2:.tt..`.
fn head_of(alloc: Global, file: &str) -> Result<String, AllocError> {
    match table_of(alloc, file, Breaking::Words)? {
        Ok(formed) => {
            let (top, end) = (caption_height(&formed), head_end(&formed));
            let mut line = format!(in alloc; "{top}-{end}:")?;
            push_marks(&mut line, &formed)?;
            Ok(line)
        }
        Err(text) => Ok(text),
    }
}

/// Tables without a head.
const HEADLESS: &str = "
<table></table> => 0-0:
<table><caption>n</caption></table> => 1-1:.
<table><tr><td>a<td>b</table> => 0-0:..
<table><caption>n</caption><tr><td>a</table> => 1-1:..
<table><tbody><tr><td>a<thead><tr><td>b</table> => 0-0:.t
<table><tfoot><tr><th>a<tbody><tr><td>b</table> => 0-0:..
<table><tr><td><table><thead><tr><td>a</table></table> => 0-0:.
<table><tr><th rowspan=2>a<th>b<tr><td>c</table> => 0-0:...
";

/// Tables with rows of `thead` groups above all others.
const GROUPED: &str = "
<table><thead><tr><td>a<td>b<tbody><tr><td>c<td>d</table> => 0-1:tt..
<table><thead><tr><th>a<tbody><tr><th>b<tr><td>c</table> => 0-1:t..
<table><thead><tr><td>a<thead><tr><td>b<tbody><tr><td>c</table> => 0-2:tt.
<table><caption>n</caption><thead><tr><td>a<tbody><tr><td>b</table> => 1-2:.t.
<table><thead><tr><td rowspan=3>a<td>b<tbody><tr><td>c<td>d</table> => 0-1:tt..
<table><thead><tr><td rowspan=2>a<td>b<tr><td>c<tbody><tr><td>d<td>e</table> => 0-2:ttt..
";

/// Tables with rows of header cells above all others.
const HEADED: &str = "
<table><tr><th>a<th>b<tr><th>c<td>d</table> => 0-1:....
<table><tr><th>a<tr><td>b<tr><th>c</table> => 0-1:...
<table><tr><th>a<tr><th>b</table> => 0-2:..
<table><tr><th>a<tr></tr><tr><th>b<tr><td>c</table> => 0-2:...
<table><caption>n</caption><tr><th>a<tr><td>b</table> => 1-2:...
<table><thead></thead><tr><th>a<tr><th>b<tr><td>c</table> => 0-2:...
<table><thead><tr></thead><tr><th>a<tr><td>b</table> => 0-1:..
<table><tbody><tr><th>a<thead><tr><td>b</table> => 0-1:.t
<table><tr><th rowspan=2>a<th>b<tr><th>c<tr><td>d<td>e</table> => 0-2:.....
<table><tr><th>a<th>b<tr><th rowspan=2>c<th>d<tr><td>e</table> => 0-1:.....
";

/// Compares the head of each line's file with what stands after its arrow.
fn compare(rt: &impl Abort, alloc: Global, table: &str) -> Result<(), Fail> {
    let cases = table.strip_prefix('\n').ok_or("a case on the first line")?;
    for line in cases.lines() {
        let (file, wanted) = line.split_once(" => ").ok_or("a line without an arrow")?;
        let found = head_of(alloc, file)?;
        assert_eq!(rt; found.as_str(), wanted);
    }
    Ok(())
}

#[test]
fn a_table_without_a_head_begins_below_its_caption(rt: HostRuntime) -> Result<(), Fail> {
    compare(&rt, rt.alloc(), HEADLESS)
}

#[test]
fn the_rows_of_the_first_thead_groups_are_the_head(rt: HostRuntime) -> Result<(), Fail> {
    compare(&rt, rt.alloc(), GROUPED)
}

#[test]
fn without_a_thead_the_first_rows_of_header_cells_are_the_head(
    rt: HostRuntime,
) -> Result<(), Fail> {
    compare(&rt, rt.alloc(), HEADED)
}
