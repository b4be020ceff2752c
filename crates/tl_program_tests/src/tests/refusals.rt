//! Files that are refused: each fault with its place, and which refusal comes first.

use crate::tests::check_refused;
use std::test::Fail;

/// The command line that lays the file out.
const LINE: &str = "lay 10 t.html p.txt";

/// What is no token, and the message.
const TOKENS: &[(&str, &str)] = &[
    ("<table", "bad input: unended tag at 0\n"),
    ("<table></tab", "bad input: unended tag at 7\n"),
    ("<table><tr class=\"a", "bad input: unended tag at 7\n"),
    ("<!-- a", "bad input: unended comment at 0\n"),
    (
        "<table><!-- -></table>",
        "bad input: unended comment at 7\n",
    ),
    ("<table></ table>", "bad input: bad tag at 7\n"),
    (
        "<table><tr><td><img></table>",
        "bad input: unknown element at 15\n",
    ),
    (
        "<table><tr><td>&foo;</table>",
        "bad input: bad reference at 15\n",
    ),
    (
        "<table><tr><td>&#0;</table>",
        "bad input: bad reference at 15\n",
    ),
    (
        "<table><tr><td>a&#xd800;</table>",
        "bad input: bad reference at 16\n",
    ),
    (
        "<table><tr><td>\u{1}</table>",
        "bad input: bad character at 15\n",
    ),
];

#[test]
fn a_file_that_spells_no_tokens_is_refused(rt: HostRuntime) -> Result<(), Fail> {
    for &(file, message) in TOKENS {
        check_refused(&rt, LINE, file.as_bytes(), 5, message)?;
    }
    Ok(())
}

/// What is no document, and the message.
const DOCUMENTS: &[(&str, &str)] = &[
    ("", "bad input: no table at 0\n"),
    ("<html> </html>", "bad input: no table at 14\n"),
    ("x<table></table>", "bad input: stray text at 0\n"),
    ("<table></table>x", "bad input: stray text at 15\n"),
    ("<table><td>", "bad input: misplaced tag at 7\n"),
    (
        "<table></table><table></table>",
        "bad input: misplaced tag at 15\n",
    ),
    ("<table><tr><td>a", "bad input: unclosed table at 16\n"),
    (
        "<table><tr><td><table></table>",
        "bad input: unclosed table at 30\n",
    ),
];

#[test]
fn a_file_that_is_no_document_is_refused(rt: HostRuntime) -> Result<(), Fail> {
    for &(file, message) in DOCUMENTS {
        check_refused(&rt, LINE, file.as_bytes(), 5, message)?;
    }
    Ok(())
}

/// Two cells over one slot, which is named before rows and columns are dropped.
const OVERLAPS: &[(&str, &str, u8, &str)] = &[
    (
        LINE,
        "<table><tr><td>A<td rowspan=2>B<tr><td colspan=2>C</table>",
        5,
        "bad input: overlap in table 0 at row 1 column 1\n",
    ),
    (
        "lay 10 t.html p.txt c.txt",
        "<table><tr><td>A<td rowspan=2>B<tr><td colspan=2>C</table>",
        5,
        "bad input: overlap in table 0 at row 1 column 1\n",
    ),
    (
        LINE,
        "<table><tr><td><table><tr><td>A<td rowspan=2>B<tr><td colspan=2>C</table></table>",
        5,
        "bad input: overlap in table 1 at row 1 column 1\n",
    ),
    (
        LINE,
        "<table><tr><td><table><tr><td>A<td rowspan=2>B<tr><td colspan=2>C</table>\
         <td><table><tr><td>A<td rowspan=2>B<tr><td colspan=2>C</table></table>",
        5,
        "bad input: overlap in table 1 at row 1 column 1\n",
    ),
    (
        LINE,
        "<table><tr><tr><td>A<td rowspan=2>B<tr><td colspan=2>C</table>",
        5,
        "bad input: overlap in table 0 at row 2 column 1\n",
    ),
];

#[test]
fn overlapping_cells_are_refused(rt: HostRuntime) -> Result<(), Fail> {
    for &(line, file, status, message) in OVERLAPS {
        check_refused(&rt, line, file.as_bytes(), status, message)?;
    }
    Ok(())
}

/// What decides comes in this order: tokens, the tree, the grids, the reach, the width.
const FIRST: &[(&str, &str, u8, &str)] = &[
    (LINE, "<td><img>", 5, "bad input: unknown element at 4\n"),
    (
        LINE,
        "<table><tr><td><table><tr><td>A<td rowspan=2>B<tr><td colspan=2>C</table>",
        5,
        "bad input: unclosed table at 73\n",
    ),
    (
        "lay 20 t.html p.txt --budget 100000",
        "<table><tr><td><table><tr><td>A<td rowspan=2>B<tr><td colspan=2>C</table></table>",
        5,
        "bad input: overlap in table 1 at row 1 column 1\n",
    ),
    (
        "lay 20 t.html p.txt --budget 100000",
        "<table><tr><td><table><tr><td>abcdefghijklmnopqrstuvwxyz</table></table>",
        6,
        "limit: reach 2100000\n",
    ),
];

#[test]
fn the_first_step_that_refuses_decides(rt: HostRuntime) -> Result<(), Fail> {
    for &(line, file, status, message) in FIRST {
        check_refused(&rt, line, file.as_bytes(), status, message)?;
    }
    Ok(())
}

#[test]
fn bytes_that_are_no_text_are_refused(rt: HostRuntime) -> Result<(), Fail> {
    let files: [(&[u8], &str); 3] = [
        (b"\xff", "bad input: not utf-8 at 0\n"),
        (b"<table></table>\xc3", "bad input: not utf-8 at 15\n"),
        (b"<img>\xe2\x82<table>", "bad input: not utf-8 at 5\n"),
    ];
    for (file, message) in files {
        check_refused(&rt, LINE, file, 5, message)?;
    }
    Ok(())
}
