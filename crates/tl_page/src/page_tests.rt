//! Pages of files, drawn by hand.

ghost use Rattle.std.specs.Prelude.{◌≡◌, ◌≤◌, IfOk, Some};
ghost use Rattle.tl_table.specs.Sound.{IsSound};

use crate::{Look, fits, page};
use std::alloc::{AllocError, Global};
use std::process::Abort;
use std::test::Fail;
use tl_base::{Breaking, List, MAX_FILE_BYTES, MAX_PAGE_WIDTH, Style};
use tl_sides::{Align, Sides};
use tl_table::{Layout, Table, table};
use tl_token::tokens;
use tl_tree::tree;

/// The table of a file, if it has one.
pub fn table_of(alloc: Global, file: &str, breaking: Breaking) -> Result<Option<Table>, AllocError>
    ensures { IfOk result (λ found. (table : Table) → found ≡ Some table → IsSound table) }
{
    let bytes = file.as_bytes();
    if bytes.len() > MAX_FILE_BYTES {
        return Ok(None);
    }
    let Ok(list) = tokens(alloc, bytes) else {
        return Ok(None);
    };
    let Ok(node) = tree(alloc, list.as_slice()) else {
        return Ok(None);
    };
    match table(alloc, node, breaking) {
        Ok(formed) => Ok(Some(formed)),
        Err(_) => Ok(None),
    }
}

/// A layout with these columns and rows, without nested tables.
pub(crate) fn layout(alloc: Global, widths: &[u32], heights: &[u32]) -> Result<Layout, AllocError> {
    let widths = List::from_slice(alloc, widths)?;
    let heights = List::from_slice(alloc, heights)?;
    Ok(Layout {
        widths,
        heights,
        inner: List::new(alloc),
    })
}

/// A layout with these columns and rows around that of a nested table.
pub(crate) fn around(
    alloc: Global,
    widths: &[u32],
    heights: &[u32],
    nested: Layout,
) -> Result<Layout, AllocError> {
    let mut layout = layout(alloc, widths, heights)?;
    layout.inner.push(nested)?;
    Ok(layout)
}

/// The look of a style with all lines at the left.
pub(crate) fn at_left(style: Style) -> Look {
    Look {
        style,
        align: Align::Columns(Sides::none()),
    }
}

/// The page of a file's table in a layout, or why there is none.
pub(crate) fn drawn(
    alloc: Global,
    file: &str,
    breaking: Breaking,
    look: Look,
    width: u32,
    layout: &Layout,
) -> Result<List<u8>, AllocError>
    requires { width ≤ MAX_PAGE_WIDTH }
{
    let Some(formed) = table_of(alloc, file, breaking)? else {
        return List::from_slice(alloc, b"no table");
    };
    if fits(&formed, look.style, width, layout) {
        return page(alloc, &formed, look, layout);
    }
    List::from_slice(alloc, b"does not fit")
}

/// The page of a file's table without nested tables, with these columns and rows.
fn flat(
    alloc: Global,
    file: &str,
    style: Style,
    width: u32,
    widths: &[u32],
    heights: &[u32],
) -> Result<List<u8>, AllocError>
    requires { width ≤ MAX_PAGE_WIDTH }
{
    let layout = layout(alloc, widths, heights)?;
    drawn(alloc, file, Breaking::Words, at_left(style), width, &layout)
}

/// Compares the page of a file's table in a layout with a text.
pub(crate) fn draws_in(
    rt: &impl Abort,
    alloc: Global,
    file: &str,
    breaking: Breaking,
    style: Style,
    width: u32,
    layout: Layout,
    want: &str,
) -> Result<(), Fail>
    requires { width ≤ MAX_PAGE_WIDTH }
{
    let bytes = drawn(alloc, file, breaking, at_left(style), width, &layout)?;
    assert_eq!(rt; bytes.as_slice(), want.as_bytes());
    Ok(())
}

/// Compares the page of a file's table without nested tables, with these columns and rows, with a text.
pub(crate) fn draws(
    rt: &impl Abort,
    alloc: Global,
    file: &str,
    style: Style,
    width: u32,
    widths: &[u32],
    heights: &[u32],
    want: &str,
) -> Result<(), Fail>
    requires { width ≤ MAX_PAGE_WIDTH }
{
    let bytes = flat(alloc, file, style, width, widths, heights)?;
    assert_eq!(rt; bytes.as_slice(), want.as_bytes());
    Ok(())
}

#[test]
fn a_table_without_cells_has_no_page(rt: HostRuntime) -> Result<(), Fail> {
    let alloc = rt.alloc();
    let file = "<table></table>";
    draws(&rt, alloc, file, Style::Plain, 10, &[], &[], "")?;
    draws(&rt, alloc, file, Style::Frame, 10, &[], &[], "")
}

#[test]
fn one_cell_is_cut_at_its_room(rt: HostRuntime) -> Result<(), Fail> {
    let alloc = rt.alloc();
    let file = "<table><tr><td>aa bb cc</table>";
    draws(&rt, alloc, file, Style::Plain, 8, &[8], &[1], "aa bb cc\n")?;
    draws(
        &rt,
        alloc,
        file,
        Style::Plain,
        7,
        &[5],
        &[2],
        "aa bb\ncc   \n",
    )?;
    draws(
        &rt,
        alloc,
        file,
        Style::Frame,
        10,
        &[8],
        &[1],
        "+--------+\n|aa bb cc|\n+--------+\n",
    )
}

#[test]
fn two_cells_stand_side_by_side(rt: HostRuntime) -> Result<(), Fail> {
    let alloc = rt.alloc();
    let file = "<table><tr><td>aaa bbb<td>cc dd ee</table>";
    draws(
        &rt,
        alloc,
        file,
        Style::Plain,
        12,
        &[3, 5],
        &[2],
        "aaa  cc dd\nbbb  ee   \n",
    )?;
    draws(
        &rt,
        alloc,
        file,
        Style::Compact,
        9,
        &[3, 5],
        &[2],
        "aaa cc dd\nbbb ee   \n",
    )?;
    let want = "\
+---+-----+
|aaa|cc dd|
|bbb|ee   |
+---+-----+
";
    draws(&rt, alloc, file, Style::Frame, 12, &[3, 5], &[2], want)
}

#[test]
fn a_cell_over_two_columns_has_the_gap_between_them(rt: HostRuntime) -> Result<(), Fail> {
    let alloc = rt.alloc();
    let file = "<table><tr><td colspan=2>aaaa bbbb cc<tr><td>x<td>yy</table>";
    draws(
        &rt,
        alloc,
        file,
        Style::Plain,
        9,
        &[1, 4],
        &[2, 1],
        "aaaa   \nbbbb cc\nx  yy  \n",
    )?;
    draws(
        &rt,
        alloc,
        file,
        Style::Compact,
        7,
        &[1, 5],
        &[2, 1],
        "aaaa   \nbbbb cc\nx yy   \n",
    )?;
    let want = "\
+-------+
|aaaa   |
|bbbb cc|
+-+-----+
|x|yy   |
+-+-----+
";
    draws(&rt, alloc, file, Style::Frame, 9, &[1, 5], &[2, 1], want)?;
    let file = "<table><tr><td colspan=2>abc<tr><td>x<td>y</table>";
    let want = "\
+---+
|abc|
+-+-+
|x|y|
+-+-+
";
    draws(&rt, alloc, file, Style::Frame, 10, &[1, 1], &[1, 1], want)
}

#[test]
fn a_cell_over_two_rows_goes_on_through_the_rule(rt: HostRuntime) -> Result<(), Fail> {
    let alloc = rt.alloc();
    let file = "<table><tr><td rowspan=2>aa bb cc<td>x<tr><td>y</table>";
    draws(
        &rt,
        alloc,
        file,
        Style::Plain,
        7,
        &[2, 1],
        &[1, 2],
        "aa  x\nbb  y\ncc   \n",
    )?;
    draws(
        &rt,
        alloc,
        file,
        Style::Plain,
        8,
        &[5, 1],
        &[1, 1],
        "aa bb  x\ncc     y\n",
    )?;
    let want = "\
+--+-+
|aa|x|
|bb+-+
|cc|y|
+--+-+
";
    draws(&rt, alloc, file, Style::Frame, 6, &[2, 1], &[1, 1], want)
}

#[test]
fn spans_take_no_more_than_the_columns_that_are_kept(rt: HostRuntime) -> Result<(), Fail> {
    let alloc = rt.alloc();
    let file = "<table><tr><td colspan=1000>a b<tr><td>c<td rowspan=65534>d</table>";
    draws(
        &rt,
        alloc,
        file,
        Style::Plain,
        10,
        &[1, 1],
        &[1, 1],
        "a b \nc  d\n",
    )?;
    let file = "<table><tr><td colspan=2>a b<tr><td>c<td>d</table>";
    draws(
        &rt,
        alloc,
        file,
        Style::Plain,
        10,
        &[1, 1],
        &[1, 1],
        "a b \nc  d\n",
    )
}

#[test]
fn eight_columns_with_spans_of_many_kinds_are_drawn(rt: HostRuntime) -> Result<(), Fail> {
    let alloc = rt.alloc();
    let file = "<table><tbody><tr><td colspan=\" 2px\">a b c<td colspan=-1>d<td colspan=0>e\
                <td colspan=+3 colspan=2>f<td rowspan=0>g<tr><td>h<td>i<td>j<td>k<td>l<td>m<td>n</table>";
    let widths = [1, 2, 1, 1, 1, 1, 1, 1];
    let want = "a b c  d  e  f        g\nh  i   j  k  l  m  n   \n";
    draws(&rt, alloc, file, Style::Plain, 40, &widths, &[1, 1], want)?;
    let widths = [2, 2, 1, 1, 1, 1, 1, 1];
    let want = "\
+-----+-+-+-----+-+
|a b c|d|e|f    |g|
+--+--+-+-+-+-+-+ |
|h |i |j|k|l|m|n| |
+--+--+-+-+-+-+-+-+
";
    draws(&rt, alloc, file, Style::Frame, 40, &widths, &[1, 1], want)
}

#[test]
fn a_footer_stands_below(rt: HostRuntime) -> Result<(), Fail> {
    let alloc = rt.alloc();
    let file = "<table><tfoot><tr><td>f</tfoot><tr><td>a<tr><td>b</table>";
    draws(
        &rt,
        alloc,
        file,
        Style::Plain,
        3,
        &[1],
        &[1, 1, 1],
        "a\nb\nf\n",
    )?;
    let file = "<table><tfoot><tr><td>f</tfoot><tr><td rowspan=3>a</table>";
    draws(&rt, alloc, file, Style::Plain, 3, &[1], &[1, 1], "a\nf\n")
}

#[test]
fn a_break_ends_a_line_and_makes_none_at_the_end(rt: HostRuntime) -> Result<(), Fail> {
    let alloc = rt.alloc();
    let file = "<table><tr><td>a<br><br>b<br></table>";
    draws(&rt, alloc, file, Style::Plain, 5, &[1], &[3], "a\n \nb\n")?;
    draws(
        &rt,
        alloc,
        file,
        Style::Frame,
        5,
        &[1],
        &[3],
        "+-+\n|a|\n| |\n|b|\n+-+\n",
    )?;
    let file = "<table><tr><td>a<br><br><p>b<br></table>";
    draws(&rt, alloc, file, Style::Plain, 5, &[1], &[3], "a\n \nb\n")
}

#[test]
fn a_no_break_space_is_part_of_its_word(rt: HostRuntime) -> Result<(), Fail> {
    let alloc = rt.alloc();
    let file = "<table><tr><td>R & D &amp; x&nbsp;y</table>";
    draws(
        &rt,
        alloc,
        file,
        Style::Plain,
        11,
        &[11],
        &[1],
        "R & D & x\u{a0}y\n",
    )
}

#[test]
fn a_caption_stands_over_all_columns(rt: HostRuntime) -> Result<(), Fail> {
    let alloc = rt.alloc();
    let file = "<table><caption>Totals</caption><tr><td>a<td>b</table>";
    draws(
        &rt,
        alloc,
        file,
        Style::Plain,
        10,
        &[1, 3],
        &[1, 1],
        "Totals\na  b  \n",
    )?;
    let want = "\
+------+
|Totals|
+-+----+
|a|b   |
+-+----+
";
    draws(&rt, alloc, file, Style::Frame, 10, &[1, 4], &[1, 1], want)
}

#[test]
fn a_table_with_a_header_as_a_data_tool_writes_it_is_drawn(rt: HostRuntime) -> Result<(), Fail> {
    let alloc = rt.alloc();
    let file = "<table border=\"1\" class=\"dataframe\">\n  <thead>\n    \
                <tr style=\"text-align: right;\">\n      <th></th>\n      <th>name</th>\n      \
                <th>qty</th>\n    </tr>\n  </thead>\n  <tbody>\n    <tr>\n      <th>0</th>\n      \
                <td>red pepper</td>\n      <td>12</td>\n    </tr>\n  </tbody>\n</table>\n";
    let want = "   name        qty\n0  red pepper  12 \n";
    draws(
        &rt,
        alloc,
        file,
        Style::Plain,
        20,
        &[1, 10, 3],
        &[1, 1],
        want,
    )?;
    let want = "   name    qty\n0  red     12 \n   pepper     \n";
    draws(
        &rt,
        alloc,
        file,
        Style::Plain,
        16,
        &[1, 6, 3],
        &[1, 2],
        want,
    )
}

#[test]
fn corners_of_every_kind_among_sixteen_slots_are_drawn(rt: HostRuntime) -> Result<(), Fail> {
    let alloc = rt.alloc();
    let file = "<table><tr><td colspan=2 rowspan=2>a<td colspan=2>b<tr><td rowspan=2>c<td>d\
                <tr><td>e<td>f<tr><td colspan=4>g</table>";
    let want = "\
+---+---+
|a  |b  |
|   +-+-+
|   |c|d|
+-+-+ +-+
|e|f| | |
+-+-+-+-+
|g      |
+-------+
";
    draws(
        &rt,
        alloc,
        file,
        Style::Frame,
        9,
        &[1, 1, 1, 1],
        &[1, 1, 1, 1],
        want,
    )?;
    let want = "a     b   \n      c  d\ne  f      \ng         \n";
    draws(
        &rt,
        alloc,
        file,
        Style::Plain,
        10,
        &[1, 1, 1, 1],
        &[1, 1, 1, 1],
        want,
    )
}

#[test]
fn wide_and_combining_characters_are_filled_by_their_columns(rt: HostRuntime) -> Result<(), Fail> {
    let alloc = rt.alloc();
    let file = "<table><tr><td>\u{4e2d} x<td>e\u{301} y<tr><td>a<td>b</table>";
    let want = "\u{4e2d} x  e\u{301} y\na     b  \n";
    draws(&rt, alloc, file, Style::Plain, 9, &[4, 3], &[1, 1], want)?;
    let want = "+-----+---+\n|\u{4e2d} x |e\u{301} y|\n+-----+---+\n|a    |b  |\n+-----+---+\n";
    draws(&rt, alloc, file, Style::Frame, 11, &[5, 3], &[1, 1], want)
}

#[test]
fn a_word_may_be_broken_between_its_clusters(rt: HostRuntime) -> Result<(), Fail> {
    let alloc = rt.alloc();
    let file = "<table><tr><td>abc d</table>";
    let three = layout(alloc, &[2], &[3])?;
    let (any, plain) = (Breaking::Wider(0), Style::Plain);
    draws_in(&rt, alloc, file, any, plain, 2, three, "ab\nc \nd \n")?;
    draws(&rt, alloc, file, plain, 2, &[2], &[3], "does not fit")
}

#[test]
fn a_nested_table_stands_as_its_own_page(rt: HostRuntime) -> Result<(), Fail> {
    let alloc = rt.alloc();
    let file = "<table><tr><td><table><tr><td>aaa bbb<td>cc dd ee</table></table>";
    let words = Breaking::Words;
    let outer = around(alloc, &[10], &[2], layout(alloc, &[3, 5], &[2])?)?;
    let want = "aaa  cc dd\nbbb  ee   \n";
    draws_in(&rt, alloc, file, words, Style::Plain, 12, outer, want)?;
    let outer = around(alloc, &[7], &[3], layout(alloc, &[3, 2], &[3])?)?;
    let want = "aaa  cc\nbbb  dd\n     ee\n";
    draws_in(&rt, alloc, file, words, Style::Plain, 9, outer, want)?;
    let outer = around(alloc, &[12], &[4], layout(alloc, &[3, 5], &[2])?)?;
    let want = "\
+------------+
|+---+-----+ |
||aaa|cc dd| |
||bbb|ee   | |
|+---+-----+ |
+------------+
";
    draws_in(&rt, alloc, file, words, Style::Frame, 14, outer, want)
}

#[test]
fn three_tables_inside_one_another_are_drawn(rt: HostRuntime) -> Result<(), Fail> {
    let alloc = rt.alloc();
    let file =
        "<table><tr><td>o<td><table><tr><td>m<td><table><tr><td>i<td>j</table></table></table>";
    let words = Breaking::Words;
    let second = around(alloc, &[1, 4], &[1], layout(alloc, &[1, 1], &[1])?)?;
    let first = around(alloc, &[1, 7], &[1], second)?;
    draws_in(
        &rt,
        alloc,
        file,
        words,
        Style::Plain,
        10,
        first,
        "o  m  i  j\n",
    )?;
    let second = around(alloc, &[1, 5], &[3], layout(alloc, &[1, 1], &[1])?)?;
    let first = around(alloc, &[1, 9], &[5], second)?;
    let want = "\
+-+---------+
|o|+-+-----+|
| ||m|+-+-+||
| || ||i|j|||
| || |+-+-+||
| |+-+-----+|
+-+---------+
";
    draws_in(&rt, alloc, file, words, Style::Frame, 13, first, want)
}

/// A table with two others in its cell.
const TWO_NESTED: &str =
    "<table><tr><td><table><tr><td>a b</table>c<table><tr><td>d e</table></table>";

/// A layout of it in three columns and four lines.
fn two_nested(alloc: Global) -> Result<Layout, AllocError> {
    let mut outer = around(alloc, &[3], &[4], layout(alloc, &[1], &[2])?)?;
    outer.inner.push(layout(alloc, &[3], &[1])?)?;
    Ok(outer)
}

#[test]
fn two_nested_tables_have_layouts_of_their_own(rt: HostRuntime) -> Result<(), Fail> {
    let alloc = rt.alloc();
    let (words, plain) = (Breaking::Words, Style::Plain);
    let want = "a  \nb  \nc  \nd e\n";
    draws_in(
        &rt,
        alloc,
        TWO_NESTED,
        words,
        plain,
        3,
        two_nested(alloc)?,
        want,
    )?;
    let want = "does not fit";
    draws_in(
        &rt,
        alloc,
        TWO_NESTED,
        words,
        plain,
        2,
        two_nested(alloc)?,
        want,
    )
}

#[test]
fn a_layout_that_does_not_fit_is_refused(rt: HostRuntime) -> Result<(), Fail> {
    let alloc = rt.alloc();
    let file = "<table><tr><td>aa bb<td data-min=4>c</table>";
    let (words, plain, no) = (Breaking::Words, Style::Plain, "does not fit");
    draws(&rt, alloc, file, plain, 11, &[5, 4], &[1], "aa bb  c   \n")?;
    // The page is too narrow, the row too low, a column narrower than a word and one below its floor.
    draws(&rt, alloc, file, plain, 10, &[5, 4], &[1], no)?;
    draws(&rt, alloc, file, plain, 11, &[2, 4], &[1], no)?;
    draws(&rt, alloc, file, plain, 11, &[1, 4], &[9], no)?;
    draws(&rt, alloc, file, plain, 11, &[5, 3], &[1], no)?;
    // A column is missing, a row is too many, and so is a layout of a nested table.
    draws(&rt, alloc, file, plain, 11, &[5], &[1], no)?;
    draws(&rt, alloc, file, plain, 11, &[5, 4], &[1, 1], no)?;
    let left = around(alloc, &[5, 4], &[1], layout(alloc, &[1], &[1])?)?;
    draws_in(&rt, alloc, file, words, plain, 11, left, no)
}

/// So many copies of a text.
fn repeated(alloc: Global, text: &str, count: u32) -> Result<String, AllocError> {
    let mut all = String::new(alloc);
    for _ in 0..count {
        all.push_str(text)?;
    }
    Ok(all)
}

/// The file of a table of 2,000 rows and ten columns, with two words in each cell.
fn large_file(alloc: Global) -> Result<String, AllocError> {
    let cells = repeated(alloc, "<td>aa b", 10)?;
    let row = format!(in alloc; "<tr>{cells}")?;
    let rows = repeated(alloc, row.as_str(), 2000)?;
    format!(in alloc; "<table>{rows}</table>")
}

/// Ten copies of a part of a line.
fn ten(alloc: Global, part: &str) -> Result<String, AllocError> {
    repeated(alloc, part, 10)
}

/// Its page in columns of two: a rule above each row and one below the last, and two lines in each row,
/// of 32 bytes each.
fn large_page(alloc: Global) -> Result<String, AllocError> {
    let rule = ten(alloc, "+--")?;
    let first = ten(alloc, "|aa")?;
    let second = ten(alloc, "|b ")?;
    let band = format!(in alloc; "{rule}+\n{first}|\n{second}|\n")?;
    let bands = repeated(alloc, band.as_str(), 2000)?;
    format!(in alloc; "{bands}{rule}+\n")
}

#[test]
fn two_thousand_rows_of_ten_cells_fill_a_page(rt: HostRuntime) -> Result<(), Fail> {
    let alloc = rt.alloc();
    let file = large_file(alloc)?;
    let heights = vec![in alloc; 2; 2000]?;
    let bytes = flat(alloc, file.as_str(), Style::Frame, 31, &[2; 10], &heights)?;
    let want = large_page(alloc)?;
    assert_eq!(rt; bytes.len(), 6001 * 32);
    assert!(rt; bytes.as_slice() == want.as_bytes());
    Ok(())
}
