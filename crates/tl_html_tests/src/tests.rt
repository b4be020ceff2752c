//! Pages of small tables, written out by hand, each read back.

use std::alloc::Global;
use std::process::Abort;
use std::test::Fail;
use tl_base::{Breaking, List, MAX_FILE_BYTES, Text};
use tl_grid::Place;
use tl_html::html;
use tl_table::{Content, Kind, Layout, Table, TableCell};
use tl_text::{Atom, Para, words};
use tl_token::tokens;
use tl_tree::tree;

/// A paragraph of words; `/` is a break, and `+` begins a unit that goes on with a word.
fn paragraph(alloc: Global, spelt: &str) -> Result<Para, Fail> {
    let units = words(alloc, spelt)?;
    let mut atoms = List::new(alloc);
    for unit in units.as_slice() {
        let unit = unit.as_str();
        if unit == "/" {
            atoms.push(Atom::Break)?;
        } else if let Some(rest) = unit.strip_prefix('+') {
            atoms.push(Atom::Glue(Text::from_str(alloc, rest)?))?;
        } else {
            atoms.push(Atom::Word(Text::from_str(alloc, unit)?))?;
        }
    }
    Ok(Para::new(atoms).ok_or("no paragraph")?)
}

/// The blocks of a cell with one paragraph.
fn text(alloc: Global, spelt: &str) -> Result<List<Content>, Fail> {
    let mut blocks = List::new(alloc);
    blocks.push(Content::Para(paragraph(alloc, spelt)?))?;
    Ok(blocks)
}

/// A cell over the columns `left` to `right` and the rows `top` to `bottom`.
fn cell(
    kind: Kind,
    (left, right, top, bottom): (u32, u32, u32, u32),
    least: u32,
    blocks: List<Content>,
) -> TableCell {
    TableCell {
        kind,
        in_head: false,
        place: Place {
            left,
            right,
            top,
            bottom,
        },
        least,
        align: None,
        blocks,
    }
}

/// A table of these cells.
fn table(cols: u32, rows: u32, cells: List<TableCell>) -> Table {
    Table {
        number: 0,
        cols,
        rows,
        cells,
    }
}

/// A layout with these columns and rows, and layouts of nested tables.
fn layout(
    alloc: Global,
    widths: &[u32],
    heights: &[u32],
    inner: List<Layout>,
) -> Result<Layout, Fail> {
    let mut layout = Layout {
        widths: List::new(alloc),
        heights: List::new(alloc),
        inner,
    };
    for width in widths {
        layout.widths.push(*width)?;
    }
    for height in heights {
        layout.heights.push(*height)?;
    }
    Ok(layout)
}

/// The page as a text.
fn written(alloc: Global, table: &Table, layout: &Layout) -> Result<String, Fail> {
    let page = html(alloc, table, layout)?;
    Ok(String::from_str(alloc, str::from_utf8(page.as_slice())?)?)
}

/// The table that a page spells.
fn table_of(alloc: Global, page: &str, breaking: Breaking) -> Result<Table, Fail> {
    let bytes = page.as_bytes();
    if bytes.len() > MAX_FILE_BYTES {
        return Err("the page is too long".into());
    }
    let list = tokens(alloc, bytes)?;
    let node = tree(alloc, list.as_slice())?;
    Ok(tl_table::table(alloc, node, breaking)?)
}

/// Whether two paragraphs have the same units and breaks.
fn same_paragraph(one: &Para, other: &Para) -> bool {
    let atoms = one.atoms();
    let twins = other.atoms();
    if atoms.len() != twins.len() {
        return false;
    }
    for (atom, twin) in atoms.iter().zip(twins.iter()) {
        let same = match (atom, twin) {
            (Atom::Word(word), Atom::Word(other)) => word.as_str() == other.as_str(),
            (Atom::Glue(unit), Atom::Glue(other)) => unit.as_str() == other.as_str(),
            (Atom::Break, Atom::Break) => true,
            _ => false,
        };
        if !same {
            return false;
        }
    }
    true
}

/// Whether two places have the same edges.
fn same_place(one: Place, other: Place) -> bool {
    one.left == other.left
        && one.right == other.right
        && one.top == other.top
        && one.bottom == other.bottom
}

/// Whether two blocks are the same, but for the numbers of tables.
#[cycle(same)]
fn same_block(one: &Content, other: &Content) -> bool {
    match (one, other) {
        (Content::Para(paragraph), Content::Para(other)) => same_paragraph(paragraph, other),
        (Content::Table(table), Content::Table(other)) => same(table, other),
        _ => false,
    }
}

/// Whether two cells are the same, but for the numbers of tables.
#[cycle(same)]
fn same_cell(one: &TableCell, other: &TableCell) -> bool {
    let blocks = one.blocks.as_slice();
    let twins = other.blocks.as_slice();
    if one.kind != other.kind || !same_place(one.place, other.place) {
        return false;
    }
    if one.least != other.least || blocks.len() != twins.len() {
        return false;
    }
    for (block, twin) in blocks.iter().zip(twins.iter()) {
        if !same_block(block, twin) {
            return false;
        }
    }
    true
}

/// Whether two tables are the same, but for the numbers of tables.
#[cycle(same)]
fn same(one: &Table, other: &Table) -> bool {
    let cells = one.cells.as_slice();
    let twins = other.cells.as_slice();
    if one.cols != other.cols || one.rows != other.rows || cells.len() != twins.len() {
        return false;
    }
    for (cell, twin) in cells.iter().zip(twins.iter()) {
        if !same_cell(cell, twin) {
            return false;
        }
    }
    true
}

/// A cell of one paragraph, or of nothing: its kind, its edges, its floor and its text.
type TextCell = (Kind, (u32, u32, u32, u32), u32, &'static str);

/// The cells with their texts.
fn cells_of(alloc: Global, texts: &[TextCell]) -> Result<List<TableCell>, Fail> {
    let mut cells = List::new(alloc);
    for &(kind, edges, least, spelt) in texts {
        let blocks = if spelt.is_empty() {
            List::new(alloc)
        } else {
            text(alloc, spelt)?
        };
        cells.push(cell(kind, edges, least, blocks))?;
    }
    Ok(cells)
}

/// Compares the page of a table in a layout, and reads it back.
fn compare(
    rt: &impl Abort,
    alloc: Global,
    table: &Table,
    layout: &Layout,
    want: &str,
    breaking: Breaking,
) -> Result<(), Fail> {
    let page = written(alloc, table, layout)?;
    assert_eq!(rt; page.as_str(), want);
    let again = table_of(alloc, want, breaking)?;
    assert!(rt; same(table, &again));
    Ok(())
}

/// Compares the page of a table of these cells, in a layout with these columns and rows.
fn compare_cells(
    rt: &impl Abort,
    alloc: Global,
    (cols, rows): (u32, u32),
    (widths, heights): (&[u32], &[u32]),
    cells: &[TextCell],
    want: &str,
) -> Result<(), Fail> {
    let layout = layout(alloc, widths, heights, List::new(alloc))?;
    let table = table(cols, rows, cells_of(alloc, cells)?);
    compare(rt, alloc, &table, &layout, want, Breaking::Words)
}

#[test]
fn one_cell_is_a_column_and_a_row(rt: HostRuntime) -> Result<(), Fail> {
    let cells = [(Kind::Plain, (0, 1, 0, 1), 0, "aa bb cc")];
    let want = "<table>\n\
        <colgroup><col style=\"width:8ch\"></colgroup>\n\
        <tr><td><p>aa bb cc</p></td></tr>\n\
        </table>\n";
    compare_cells(&rt, rt.alloc(), (1, 1), (&[8], &[1]), &cells, want)
}

#[test]
fn a_span_is_an_attribute_above_one(rt: HostRuntime) -> Result<(), Fail> {
    let cells = [
        (Kind::Plain, (0, 2, 0, 1), 0, "aaaa bbbb cc"),
        (Kind::Plain, (0, 1, 1, 2), 0, "x"),
        (Kind::Plain, (1, 2, 1, 2), 0, "yy"),
    ];
    let want = "<table>\n\
        <colgroup><col style=\"width:1ch\"><col style=\"width:4ch\"></colgroup>\n\
        <tr><td colspan=\"2\"><p>aaaa bbbb cc</p></td></tr>\n\
        <tr><td><p>x</p></td><td><p>yy</p></td></tr>\n\
        </table>\n";
    compare_cells(&rt, rt.alloc(), (2, 2), (&[1, 4], &[2, 1]), &cells, want)
}

#[test]
fn a_caption_has_a_line_above_the_columns_and_no_row(rt: HostRuntime) -> Result<(), Fail> {
    let cells = [
        (Kind::Caption, (0, 2, 0, 1), 0, "A"),
        (Kind::Head, (0, 1, 1, 3), 4, "b"),
        (Kind::Plain, (1, 2, 1, 2), 0, "c"),
        (Kind::Plain, (1, 2, 2, 3), 0, ""),
    ];
    let want = "<table>\n\
        <caption><p>A</p></caption>\n\
        <colgroup><col style=\"width:4ch\"><col style=\"width:1ch\"></colgroup>\n\
        <tr><th rowspan=\"2\" data-min=\"4\"><p>b</p></th><td><p>c</p></td></tr>\n\
        <tr><td></td></tr>\n\
        </table>\n";
    compare_cells(&rt, rt.alloc(), (2, 3), (&[4, 1], &[1, 1, 0]), &cells, want)
}

/// A table of one cell with that text.
fn nested(alloc: Global, spelt: &'static str) -> Result<Content, Fail> {
    let cells = cells_of(alloc, &[(Kind::Plain, (0, 1, 0, 1), 0, spelt)])?;
    Ok(Content::Table(Box::new(alloc, table(1, 1, cells))?))
}

#[test]
fn each_nested_table_takes_the_next_layout(rt: HostRuntime) -> Result<(), Fail> {
    let alloc = rt.alloc();
    let mut blocks = text(alloc, "x")?;
    blocks.push(nested(alloc, "1")?)?;
    blocks.push(nested(alloc, "2")?)?;
    let mut cells = List::new(alloc);
    cells.push(cell(Kind::Plain, (0, 1, 0, 1), 0, blocks))?;
    let table = table(1, 1, cells);
    let mut inner = List::new(alloc);
    inner.push(layout(alloc, &[3], &[1], List::new(alloc))?)?;
    inner.push(layout(alloc, &[5], &[1], List::new(alloc))?)?;
    let layout = layout(alloc, &[5], &[3], inner)?;
    let want = "<table>\n\
        <colgroup><col style=\"width:5ch\"></colgroup>\n\
        <tr><td><p>x</p><table>\n\
        <colgroup><col style=\"width:3ch\"></colgroup>\n\
        <tr><td><p>1</p></td></tr>\n\
        </table>\n\
        <table>\n\
        <colgroup><col style=\"width:5ch\"></colgroup>\n\
        <tr><td><p>2</p></td></tr>\n\
        </table>\n\
        </td></tr>\n\
        </table>\n";
    compare(&rt, alloc, &table, &layout, want, Breaking::Words)
}

#[test]
fn a_table_without_columns_has_no_line_between_its_tags(rt: HostRuntime) -> Result<(), Fail> {
    let want = "<table>\n</table>\n";
    compare_cells(&rt, rt.alloc(), (0, 0), (&[], &[]), &[], want)
}

/// Compares what stands in the one cell of a page, for a cell with one paragraph.
fn compare_words(
    rt: &impl Abort,
    alloc: Global,
    spelt: &'static str,
    want: &str,
    breaking: Breaking,
) -> Result<(), Fail> {
    let layout = layout(alloc, &[9], &[3], List::new(alloc))?;
    let cells = cells_of(alloc, &[(Kind::Plain, (0, 1, 0, 1), 0, spelt)])?;
    let page = format!(in alloc;
        "<table>\n<colgroup><col style=\"width:9ch\"></colgroup>\n<tr><td>{want}</td></tr>\n</table>\n"
    )?;
    compare(
        rt,
        alloc,
        &table(1, 1, cells),
        &layout,
        page.as_str(),
        breaking,
    )
}

#[test]
fn words_are_escaped_and_keep_their_breaks(rt: HostRuntime) -> Result<(), Fail> {
    for (spelt, want) in [
        ("a&b <c>", "<p>a&amp;b &lt;c&gt;</p>"),
        ("a\u{a0}b", "<p>a&nbsp;b</p>"),
        ("a +b c", "<p>ab c</p>"),
        ("a / b", "<p>a<br>b</p>"),
        ("/ a / /", "<p><br>a<br><br></p>"),
        ("\"'\u{e9}\u{4e2d}", "<p>\"'\u{e9}\u{4e2d}</p>"),
    ] {
        // A unit that goes on with a word is read back where words may be broken.
        let breaking = if spelt.contains('+') {
            Breaking::Wider(0)
        } else {
            Breaking::Words
        };
        compare_words(&rt, rt.alloc(), spelt, want, breaking)?;
    }
    Ok(())
}

#[test]
fn a_caption_alone_makes_one_column(rt: HostRuntime) -> Result<(), Fail> {
    let cells = [(Kind::Caption, (0, 1, 0, 1), 0, "A b")];
    let want = "<table>\n\
        <caption><p>A b</p></caption>\n\
        <colgroup><col style=\"width:3ch\"></colgroup>\n\
        </table>\n";
    compare_cells(&rt, rt.alloc(), (1, 1), (&[3], &[1]), &cells, want)
}

/// A table of so many rows of one cell.
fn tall_table(alloc: Global, rows: u32) -> Result<Table, Fail> {
    let mut cells = List::new(alloc);
    for row in 0..rows {
        cells.push(cell(Kind::Plain, (0, 1, row, row + 1), 0, text(alloc, "a")?))?;
    }
    Ok(table(1, rows, cells))
}

/// The page of `tall_table`.
fn tall_page(alloc: Global, rows: u32) -> Result<String, Fail> {
    let start = "<table>\n<colgroup><col style=\"width:1ch\"></colgroup>\n";
    let mut page = String::from_str(alloc, start)?;
    for _ in 0..rows {
        page.push_str("<tr><td><p>a</p></td></tr>\n")?;
    }
    page.push_str("</table>\n")?;
    Ok(page)
}

#[test]
fn two_thousand_rows_have_a_line_each(rt: HostRuntime) -> Result<(), Fail> {
    let alloc = rt.alloc();
    let heights = vec![in alloc; 1; 2_000]?;
    let layout = layout(alloc, &[1], &heights, List::new(alloc))?;
    let table = tall_table(alloc, 2_000)?;
    let want = tall_page(alloc, 2_000)?;
    compare(&rt, alloc, &table, &layout, want.as_str(), Breaking::Words)
}
