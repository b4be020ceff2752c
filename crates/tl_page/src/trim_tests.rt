//! Pages without the spaces at the ends of their lines, drawn by hand.

use crate::page_tests::{at_left, drawn, layout, table_of};
use crate::{Look, fits, trimmed_page};
use std::alloc::{AllocError, Global};
use std::process::Abort;
use std::test::Fail;
use tl_base::{Breaking, List, MAX_PAGE_WIDTH, Style};
use tl_table::Layout;

/// A file without nested tables, the sizes of its columns and rows, and its page as it is and trimmed.
#[derive(Clone, Copy)]
struct Case<'a> {
    file: &'a str,
    style: Style,
    widths: &'a [u32],
    heights: &'a [u32],
    whole: &'a str,
    trimmed: &'a str,
}

/// The trimmed page of a file's table in a layout, or why there is none.
fn trimmed(alloc: Global, file: &str, look: Look, layout: &Layout) -> Result<List<u8>, AllocError> {
    let Some(formed) = table_of(alloc, file, Breaking::Words)? else {
        return List::from_slice(alloc, b"no table");
    };
    if fits(&formed, look.style, MAX_PAGE_WIDTH, layout) {
        return trimmed_page(alloc, &formed, look, layout);
    }
    List::from_slice(alloc, b"does not fit")
}

/// The case has these pages.
fn trims(rt: &(impl Abort + AllocGlobal), case: &Case<'_>) -> Result<(), Fail> {
    let alloc = rt.alloc();
    let layout = layout(alloc, case.widths, case.heights)?;
    let words = Breaking::Words;
    let whole = drawn(
        alloc,
        case.file,
        words,
        at_left(case.style),
        MAX_PAGE_WIDTH,
        &layout,
    )?;
    assert_eq!(rt; whole.as_slice(), case.whole.as_bytes());
    let short = trimmed(alloc, case.file, at_left(case.style), &layout)?;
    assert_eq!(rt; short.as_slice(), case.trimmed.as_bytes());
    Ok(())
}

#[test]
fn lines_end_with_their_last_word(rt: HostRuntime) -> Result<(), Fail> {
    let case = Case {
        file: "<table><tr><td>aa<td>bbb c<tr><td>d<tr><td><td>e</table>",
        style: Style::Plain,
        widths: &[2, 3],
        heights: &[2, 1, 1],
        whole: "aa  bbb\n    c  \nd      \n    e  \n",
        trimmed: "aa  bbb\n    c\nd\n    e\n",
    };
    trims(&rt, &case)
}

#[test]
fn a_line_of_spaces_stays_as_an_empty_line(rt: HostRuntime) -> Result<(), Fail> {
    let case = Case {
        file: "<table><tr><td>aa<tr><td></table>",
        style: Style::Compact,
        widths: &[4],
        heights: &[1, 2],
        whole: "aa  \n    \n    \n",
        trimmed: "aa\n\n\n",
    };
    trims(&rt, &case)
}

#[test]
fn a_frame_ends_each_line(rt: HostRuntime) -> Result<(), Fail> {
    let page = "+---+--+\n|aa |b |\n+---+--+\n";
    let case = Case {
        file: "<table><tr><td>aa<td>b</table>",
        style: Style::Frame,
        widths: &[3, 2],
        heights: &[1],
        whole: page,
        trimmed: page,
    };
    trims(&rt, &case)
}

#[test]
fn a_no_break_space_is_text(rt: HostRuntime) -> Result<(), Fail> {
    let case = Case {
        file: "<table><tr><td>a&nbsp;<tr><td>bbb</table>",
        style: Style::Plain,
        widths: &[3],
        heights: &[1, 1],
        whole: "a\u{a0} \nbbb\n",
        trimmed: "a\u{a0}\nbbb\n",
    };
    trims(&rt, &case)
}

#[test]
fn a_table_without_cells_has_no_lines(rt: HostRuntime) -> Result<(), Fail> {
    let case = Case {
        file: "<table></table>",
        style: Style::Plain,
        widths: &[],
        heights: &[],
        whole: "",
        trimmed: "",
    };
    trims(&rt, &case)
}
