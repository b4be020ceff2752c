//! Files whose tables, least widths and chains are counted by hand, refusals, and tables at the limits.

ghost use Rattle.std.specs.Prelude.{◌≡◌, IfOk, Some};
ghost use Rattle.tl_table.specs.Sound.{IsSound};
ghost use Rattle.tl_tree.specs.Sound.{IsSound as IsSoundTree};

use std::alloc::{AllocError, Global};
use std::process::Abort;
use std::test::Fail;
use tl_base::{Breaking, Chain, Entry, List, MAX_FILE_BYTES, Style};
use tl_grid::GridError;
use tl_table::{
    Content, FormError, Kind, Layout, Table, TableCell, by_number, least_width, narrow_chain,
    nested, table,
};
use tl_text::{Atom, Para};
use tl_token::tokens;
use tl_tree::{TableNode, tree};

/// The tree of a file, if it spells one.
fn tree_of(alloc: Global, file: &str) -> Result<Option<TableNode>, AllocError>
    ensures { IfOk result (λ found. (node : TableNode) → found ≡ Some node → IsSoundTree node) }
{
    let bytes = file.as_bytes();
    if bytes.len() > MAX_FILE_BYTES {
        return Ok(None);
    }
    let Ok(list) = tokens(alloc, bytes) else {
        return Ok(None);
    };
    match tree(alloc, list.as_slice()) {
        Ok(node) => Ok(Some(node)),
        Err(_) => Ok(None),
    }
}

/// The table of a tree, or why it has none.
fn table_or_text(
    alloc: Global,
    node: TableNode,
    breaking: Breaking,
) -> Result<Result<Table, String>, AllocError>
    requires { IsSoundTree node }
    ensures { IfOk result (λ found. IfOk found IsSound) }
{
    match table(alloc, node, breaking) {
        Ok(formed) => Ok(Ok(formed)),
        Err(error) => {
            let text = format!(in alloc; "{error}")?;
            Ok(Err(text))
        }
    }
}

/// The table of a file, or why it has none.
pub fn table_of(
    alloc: Global,
    file: &str,
    breaking: Breaking,
) -> Result<Result<Table, String>, AllocError>
    ensures { IfOk result (λ found. IfOk found IsSound) }
{
    match tree_of(alloc, file)? {
        Some(node) => table_or_text(alloc, node, breaking),
        None => {
            let text = String::from_str(alloc, "no tree")?;
            Ok(Err(text))
        }
    }
}

/// The units of a paragraph, `~` before one that goes on with a word, and `/` for each break: `(a~b / c)`.
fn push_para(line: &mut String, para: &Para) -> Result<(), AllocError> {
    let mut before = "(";
    for atom in para.atoms() {
        match atom {
            Atom::Word(text) => {
                line.push_str(before)?;
                line.push_str(text.as_str())?;
            }
            Atom::Glue(text) => {
                line.push('~')?;
                line.push_str(text.as_str())?;
            }
            Atom::Break => {
                line.push_str(before)?;
                line.push('/')?;
            }
        }
        before = " ";
    }
    line.push(')')
}

#[cycle(shown)]
fn push_block(alloc: Global, line: &mut String, block: &Content) -> Result<(), AllocError> {
    match block {
        Content::Para(para) => push_para(line, para),
        Content::Table(inner) => push_table(alloc, line, inner),
    }
}

/// What a cell is, its columns, its rows, and its floor if it has one: `d0-2,1-2m4(a)`.
#[cycle(shown)]
fn push_cell(alloc: Global, line: &mut String, cell: &TableCell) -> Result<(), AllocError> {
    line.push_str(match cell.kind {
        Kind::Caption => " c",
        Kind::Head => " h",
        Kind::Plain => " d",
    })?;
    let (left, right, top, bottom) = (
        cell.place.left,
        cell.place.right,
        cell.place.top,
        cell.place.bottom,
    );
    line.push_str(format!(in alloc; "{left}-{right},{top}-{bottom}")?.as_str())?;
    let least = cell.least;
    if least > 0 {
        line.push_str(format!(in alloc; "m{least}")?.as_str())?;
    }
    for block in cell.blocks.as_slice() {
        push_block(alloc, line, block)?;
    }
    Ok(())
}

/// A table, with its number, its columns and its rows: `[T0 2x1 d0-1,0-1(a) d1-2,0-1(b)]`.
#[cycle(shown)]
fn push_table(alloc: Global, line: &mut String, table: &Table) -> Result<(), AllocError> {
    let (number, cols, rows) = (table.number, table.cols, table.rows);
    line.push_str(format!(in alloc; "[T{number} {cols}x{rows}")?.as_str())?;
    for cell in table.cells.as_slice() {
        push_cell(alloc, line, cell)?;
    }
    line.push(']')
}

/// The table of a file as a text, or why it has none.
fn shown(alloc: Global, file: &str, breaking: Breaking) -> Result<String, AllocError> {
    match table_of(alloc, file, breaking)? {
        Ok(formed) => {
            let mut line = String::new(alloc);
            push_table(alloc, &mut line, &formed)?;
            Ok(line)
        }
        Err(text) => Ok(text),
    }
}

/// An entry, with the number of the nested table whose chain gives its width: ` 0:1`.
fn push_entry(alloc: Global, line: &mut String, entry: &Entry) -> Result<(), AllocError> {
    let cell = entry.cell;
    let text = match entry.inner {
        Some(number) => format!(in alloc; " {cell}:{number}")?,
        None => format!(in alloc; " {cell}")?,
    };
    line.push_str(text.as_str())
}

fn push_chain(alloc: Global, line: &mut String, chain: &Chain) -> Result<(), AllocError> {
    let number = chain.table;
    line.push_str(format!(in alloc; ", chain {number}")?.as_str())?;
    for entry in chain.entries.as_slice() {
        push_entry(alloc, line, entry)?;
    }
    Ok(())
}

/// The least width of a file's table, and a heaviest chain with those that it rests on:
/// `7, chain 0 0:1, chain 1 0 1`.
fn narrowest(alloc: Global, file: &str, style: Style) -> Result<String, AllocError> {
    match table_of(alloc, file, Breaking::Words)? {
        Ok(formed) => {
            let least = least_width(alloc, &formed, style)?;
            let mut line = format!(in alloc; "{least}")?;
            if formed.cols > 0 {
                let chains = narrow_chain(alloc, &formed, style)?;
                for chain in chains.as_slice() {
                    push_chain(alloc, &mut line, chain)?;
                }
            }
            Ok(line)
        }
        Err(text) => Ok(text),
    }
}

/// The least width of a file's table.
fn least_of(alloc: Global, file: &str, style: Style) -> Result<Option<u32>, AllocError> {
    match table_of(alloc, file, Breaking::Words)? {
        Ok(formed) => {
            let least = least_width(alloc, &formed, style)?;
            Ok(Some(least))
        }
        Err(_) => Ok(None),
    }
}

/// How many tables are inside a file's table.
fn nested_of(alloc: Global, file: &str) -> Result<Option<u32>, AllocError> {
    match table_of(alloc, file, Breaking::Words)? {
        Ok(formed) => Ok(Some(nested(&formed))),
        Err(_) => Ok(None),
    }
}

/// The tables of a file by their numbers, each with its columns and rows: ` T0 1x1 T1 0x0`.
fn numbered(alloc: Global, file: &str) -> Result<String, AllocError> {
    let mut line = String::new(alloc);
    if let Ok(formed) = table_of(alloc, file, Breaking::Words)? {
        for one in by_number(alloc, &formed)?.as_slice() {
            let (number, cols, rows) = (one.number, one.cols, one.rows);
            line.push_str(format!(in alloc; " T{number} {cols}x{rows}")?.as_str())?;
        }
    }
    Ok(line)
}

/// So many copies of the text.
fn repeated(alloc: Global, text: &str, times: usize) -> Result<String, AllocError> {
    let mut whole = String::new(alloc);
    for _ in 0..times {
        whole.push_str(text)?;
    }
    Ok(whole)
}

/// Spans, dropped rows and columns, footers, captions, floors and nested tables.
const TABLES: &str = "
<table></table> => [T0 0x0]
<table><tr></table> => [T0 0x0]
<table><tr><td>a</table> => [T0 1x1 d0-1,0-1(a)]
<table><tr><td><th></table> => [T0 2x1 d0-1,0-1 h1-2,0-1]
<table><tr><td colspan=2>aaaa bbbb cc<tr><td>x<td>yy</table> => [T0 2x2 d0-2,0-1(aaaa bbbb cc) d0-1,1-2(x) d1-2,1-2(yy)]
<table><tr><td rowspan=2>aa bb cc<td>x<tr><td>y</table> => [T0 2x2 d0-1,0-2(aa bb cc) d1-2,0-1(x) d1-2,1-2(y)]
<table><tr><td colspan=1000>a b<tr><td>c<td rowspan=65534>d</table> => [T0 2x2 d0-2,0-1(a b) d0-1,1-2(c) d1-2,1-2(d)]
<table><tr><td colspan=2>a b<tr><td>c<td>d</table> => [T0 2x2 d0-2,0-1(a b) d0-1,1-2(c) d1-2,1-2(d)]
<table><tfoot><tr><td>f</tfoot><tr><td>a<tr><td>b</table> => [T0 1x3 d0-1,0-1(a) d0-1,1-2(b) d0-1,2-3(f)]
<table><tfoot><tr><td>f</tfoot><tr><td rowspan=3>a</table> => [T0 1x2 d0-1,0-1(a) d0-1,1-2(f)]
<table><col span=9><tr><td>a</table> => [T0 1x1 d0-1,0-1(a)]
<table><tr><td>a<td rowspan=2>b<tr><td>c</table> => [T0 2x2 d0-1,0-1(a) d1-2,0-2(b) d0-1,1-2(c)]
<table><caption>Totals</caption><tr><td>a<td>b</table> => [T0 2x2 c0-2,0-1(Totals) d0-1,1-2(a) d1-2,1-2(b)]
<table><caption>Totals</table> => [T0 1x1 c0-1,0-1(Totals)]
<table><caption></caption></table> => [T0 1x1 c0-1,0-1]
<table><tr><td data-min=4>a<td>b</table> => [T0 2x1 d0-1,0-1m4(a) d1-2,0-1(b)]
<table><tr><td>a<br><br>b<br><p>c</table> => [T0 1x1 d0-1,0-1(a / / b /)(c)]
<table><tr><td>a<table><tr><td>b</table>c</table> => [T0 1x1 d0-1,0-1(a)[T1 1x1 d0-1,0-1(b)](c)]
<table><caption><table></table></caption><tr><td><table></table></table> => [T0 1x2 c0-1,0-1[T1 0x0] d0-1,1-2[T2 0x0]]
<table><tfoot><tr><td><table></table><tbody><tr><td><table></table></table> => [T0 1x2 d0-1,0-1[T2 0x0] d0-1,1-2[T1 0x0]]
";

/// The first of the tables without a grid is named, whatever comes after it.
const REFUSALS: &str = "
<table><tr><td>A<td rowspan=2>B<tr><td colspan=2>C</table> => table 0: cells 1 and 2 overlap at row 1 column 1
<table><tr><td><table></table><td><table>OVER</table></table> => table 2: cells 1 and 2 overlap at row 1 column 1
<table><caption><table>OVER</table></caption><tr><td><table>OVER</table></table> => table 1: cells 1 and 2 overlap at row 1 column 1
<table><tr><td><table>OVER</table><td><table>OVER</table></table> => table 1: cells 1 and 2 overlap at row 1 column 1
<table><tr><td><table><tr><td><table>OVER</table></table><td><table>OVER</table></table> => table 2: cells 1 and 2 overlap at row 1 column 1
<table><tr><td>A<td rowspan=2><table>OVER</table><tr><td colspan=2>C</table> => table 0: cells 1 and 2 overlap at row 1 column 1
<table><tfoot><tr><td><table>OVER</table><tbody><tr><td><table>OVER</table></table> => table 1: cells 1 and 2 overlap at row 1 column 1
";

/// Rows in which two cells overlap.
const OVERLAP: &str = "<tr><td>A<td rowspan=2>B<tr><td colspan=2>C";

/// The least width of each file in style plain, and a heaviest chain.
const NARROWEST: &str = "
<table></table> => 0
<table><tr><td>abcdef</table> => 6, chain 0 0
<table><tr><td>abcdef<td>ghij</table> => 12, chain 0 0 1
<table><tr><td colspan=2>aaaa bbbb cc<tr><td>x<td>yy</table> => 5, chain 0 1 2
<table><tr><td colspan=2>abcdef<tr><td>x<td>y</table> => 6, chain 0 0
<table><tr><td data-min=4>a<td>b</table> => 7, chain 0 0 1
<table><tr><td><table><tr><td>aaa bbb<td>cc dd ee</table></table> => 7, chain 0 0:1, chain 1 0 1
<table><tr><td>abcdefgh<table><tr><td>aaa bbb<td>cc dd ee</table></table> => 8, chain 0 0
<table><caption>Totals</table> => 6, chain 0 0
";

/// A file as a data tool writes it.
const DATAFRAME: &str = "<table border=\"1\" class=\"dataframe\">
  <thead>
    <tr style=\"text-align: right;\">
      <th></th>
      <th>name</th>
      <th>qty</th>
    </tr>
  </thead>
  <tbody>
    <tr>
      <th>0</th>
      <td>red pepper</td>
      <td>12</td>
    </tr>
  </tbody>
</table>
";

/// Compares the table of a file with a text.
fn forms(
    rt: &impl Abort,
    alloc: Global,
    file: &str,
    breaking: Breaking,
    wanted: &str,
) -> Result<(), Fail> {
    let found = shown(alloc, file, breaking)?;
    assert_eq!(rt; found.as_str(), wanted);
    Ok(())
}

/// Compares the least width of a file's table and its heaviest chain with a text.
fn weighs(
    rt: &impl Abort,
    alloc: Global,
    file: &str,
    style: Style,
    wanted: &str,
) -> Result<(), Fail> {
    let found = narrowest(alloc, file, style)?;
    assert_eq!(rt; found.as_str(), wanted);
    Ok(())
}

/// Compares the least width of a file's table with a number.
fn takes(
    rt: &impl Abort,
    alloc: Global,
    file: &str,
    style: Style,
    wanted: u32,
) -> Result<(), Fail> {
    let found = least_of(alloc, file, style)?;
    assert_eq!(rt; found, Some(wanted));
    Ok(())
}

/// Compares how many tables are inside a file's table with a number.
fn nests(rt: &impl Abort, alloc: Global, file: &str, wanted: u32) -> Result<(), Fail> {
    let found = nested_of(alloc, file)?;
    assert_eq!(rt; found, Some(wanted));
    Ok(())
}

/// Compares the table of each line's file with what stands after its arrow.
fn compare(rt: &impl Abort, alloc: Global, table: &str, breaking: Breaking) -> Result<(), Fail> {
    let cases = table.strip_prefix('\n').ok_or("a case on the first line")?;
    for line in cases.lines() {
        let (input, wanted) = line.split_once(" => ").ok_or("a line without an arrow")?;
        let file = input.replace(alloc, "OVER", OVERLAP)?;
        forms(rt, alloc, file.as_str(), breaking, wanted)?;
    }
    Ok(())
}

#[test]
fn cells_lie_at_their_places_by_row_and_column(rt: HostRuntime) -> Result<(), Fail> {
    compare(&rt, rt.alloc(), TABLES, Breaking::Words)
}

#[test]
fn the_first_table_without_a_grid_is_named(rt: HostRuntime) -> Result<(), Fail> {
    compare(&rt, rt.alloc(), REFUSALS, Breaking::Words)
}

#[test]
fn faulty_spans_are_1_and_rowspan_0_reaches_the_end_of_its_group(
    rt: HostRuntime,
) -> Result<(), Fail> {
    let file =
        "<table><tbody><tr><td colspan=\" 2px\">a b c<td colspan=-1>d<td colspan=0>e<td colspan=+3 colspan=2>f\
        <td rowspan=0>g<tr><td>h<td>i<td>j<td>k<td>l<td>m<td>n</table>";
    let wanted =
        "[T0 8x2 d0-2,0-1(a b c) d2-3,0-1(d) d3-4,0-1(e) d4-7,0-1(f) d7-8,0-2(g) d0-1,1-2(h) d1-2,1-2(i) \
        d2-3,1-2(j) d3-4,1-2(k) d4-5,1-2(l) d5-6,1-2(m) d6-7,1-2(n)]";
    forms(&rt, rt.alloc(), file, Breaking::Words, wanted)
}

#[test]
fn a_file_as_a_data_tool_writes_it_is_formed(rt: HostRuntime) -> Result<(), Fail> {
    let wanted =
        "[T0 3x2 h0-1,0-1 h1-2,0-1(name) h2-3,0-1(qty) h0-1,1-2(0) d1-2,1-2(red pepper) d2-3,1-2(12)]";
    forms(&rt, rt.alloc(), DATAFRAME, Breaking::Words, wanted)?;
    takes(&rt, rt.alloc(), DATAFRAME, Style::Plain, 14)
}

#[test]
fn words_are_separated_into_units_at_all_depths(rt: HostRuntime) -> Result<(), Fail> {
    let file = "<table><caption>T u</caption><tr><td>ab c<br>d<table><tr><td>ef</table></table>";
    let wanted = "[T0 1x2 c0-1,0-1(T u) d0-1,1-2(a~b c / d)[T1 1x1 d0-1,0-1(e~f)]]";
    forms(&rt, rt.alloc(), file, Breaking::Wider(0), wanted)
}

#[test]
fn least_widths_and_heaviest_chains_are_those_counted_by_hand(rt: HostRuntime) -> Result<(), Fail> {
    let alloc = rt.alloc();
    let cases = NARROWEST
        .strip_prefix('\n')
        .ok_or("a case on the first line")?;
    for line in cases.lines() {
        let (file, wanted) = line.split_once(" => ").ok_or("a line without an arrow")?;
        weighs(&rt, alloc, file, Style::Plain, wanted)?;
    }
    Ok(())
}

#[test]
fn a_compact_table_has_one_column_between_two_and_no_edge(rt: HostRuntime) -> Result<(), Fail> {
    let spanned = "<table><tr><td colspan=2>abc<tr><td>x<td>y</table>";
    takes(&rt, rt.alloc(), spanned, Style::Compact, 3)?;
    let inner = "<table><tr><td><table><tr><td>aaa bbb<td>cc dd ee</table></table>";
    let wanted = "6, chain 0 0:1, chain 1 0 1";
    weighs(&rt, rt.alloc(), inner, Style::Compact, wanted)
}

#[test]
fn a_frame_adds_one_column_between_two_and_one_at_each_side(rt: HostRuntime) -> Result<(), Fail> {
    let spanned = "<table><tr><td colspan=2>abc<tr><td>x<td>y</table>";
    takes(&rt, rt.alloc(), spanned, Style::Frame, 5)?;
    let inner = "<table><tr><td><table><tr><td>aaa bbb<td>cc dd ee</table></table>";
    let wanted = "10, chain 0 0:1, chain 1 0 1";
    weighs(&rt, rt.alloc(), inner, Style::Frame, wanted)
}

/// So many tables inside one another.
fn inside_one_another(alloc: Global, times: usize) -> Result<String, AllocError> {
    let starts = repeated(alloc, "<table><tr><td>", times)?;
    let ends = repeated(alloc, "</table>", times)?;
    format!(in alloc; "{starts}a{ends}")
}

#[test]
fn eight_tables_stand_inside_one_another(rt: HostRuntime) -> Result<(), Fail> {
    let alloc = rt.alloc();
    let file = inside_one_another(alloc, 8)?;
    nests(&rt, alloc, file.as_str(), 7)?;
    takes(&rt, alloc, file.as_str(), Style::Frame, 17)?;
    let wanted =
        "1, chain 0 0:1, chain 1 0:2, chain 2 0:3, chain 3 0:4, chain 4 0:5, chain 5 0:6, chain 6 0:7, chain 7 0";
    weighs(&rt, alloc, file.as_str(), Style::Plain, wanted)
}

#[test]
fn two_hundred_tables_are_counted(rt: HostRuntime) -> Result<(), Fail> {
    let alloc = rt.alloc();
    let inner = repeated(alloc, "<table></table>", 199)?;
    let file = format!(in alloc; "<table><tr><td>{inner}</table>")?;
    nests(&rt, alloc, file.as_str(), 199)
}

#[test]
fn tables_stand_by_their_numbers_though_a_footer_is_moved(rt: HostRuntime) -> Result<(), Fail> {
    let footer = "<tfoot><tr><td><table></table>";
    let body = "<tbody><tr><td><table><tr><td><table></table></table><td>x";
    let alloc = rt.alloc();
    let file = format!(in alloc; "<table>{footer}{body}</table>")?;
    let found = numbered(alloc, file.as_str())?;
    assert_eq!(rt; found.as_str(), " T0 2x2 T1 0x0 T2 1x1 T3 0x0");
    Ok(())
}

/// A nested table as large as it may be: a beginning, and a part so many times.
#[derive(Clone, Copy)]
struct Limit<'a> {
    begin: &'a str,
    part: &'a str,
    times: usize,
    /// The least width of the table around it.
    least: u32,
    /// What is too much at its end.
    more: &'a str,
    /// What is then the refusal.
    refusal: &'a str,
}

/// The file of the limit, with this at the end of its nested table.
fn file_of(alloc: Global, limit: &Limit<'_>, end: &str) -> Result<String, AllocError> {
    let parts = repeated(alloc, limit.part, limit.times)?;
    let begin = limit.begin;
    format!(in alloc; "<table><tr><td><table>{begin}{parts}{end}</table></table>")
}

/// Compares what is found at the limit, and past it.
fn is_held(rt: &impl Abort, alloc: Global, limit: &Limit<'_>) -> Result<(), Fail> {
    let file = file_of(alloc, limit, "")?;
    takes(rt, alloc, file.as_str(), Style::Plain, limit.least)?;
    let past = file_of(alloc, limit, limit.more)?;
    forms(rt, alloc, past.as_str(), Breaking::Words, limit.refusal)
}

#[test]
fn a_nested_table_may_have_20000_cells(rt: HostRuntime) -> Result<(), Fail> {
    let limit = Limit {
        begin: "",
        part: "<tr><td><td><td><td><td><td><td><td><td><td>",
        times: 2000,
        least: 18,
        more: "<td>",
        refusal: "table 1: 20001 cells in a table",
    };
    is_held(&rt, rt.alloc(), &limit)
}

#[test]
fn a_nested_table_may_have_60_columns(rt: HostRuntime) -> Result<(), Fail> {
    let limit = Limit {
        begin: "<tr>",
        part: "<td>",
        times: 60,
        least: 118,
        more: "<td>",
        refusal: "table 1: 61 columns in a table",
    };
    is_held(&rt, rt.alloc(), &limit)
}

#[test]
fn a_nested_table_may_have_2000_rows_below_its_caption(rt: HostRuntime) -> Result<(), Fail> {
    let limit = Limit {
        begin: "<caption>abc</caption>",
        part: "<tr><td>",
        times: 2000,
        least: 3,
        more: "<tr><td>",
        refusal: "table 1: 2001 rows in a table",
    };
    is_held(&rt, rt.alloc(), &limit)
}

/// A table of so many rows and columns, with two words in each cell.
fn filled(alloc: Global, rows: usize, columns: usize) -> Result<String, AllocError> {
    let cells = repeated(alloc, "<td>aa b", columns)?;
    let row = format!(in alloc; "<tr>{cells}")?;
    let rows = repeated(alloc, row.as_str(), rows)?;
    format!(in alloc; "<table>{rows}</table>")
}

#[test]
fn two_thousand_rows_of_ten_cells_have_a_least_width(rt: HostRuntime) -> Result<(), Fail> {
    let file = filled(rt.alloc(), 2000, 10)?;
    let found = narrowest(rt.alloc(), file.as_str(), Style::Frame)?;
    assert_eq!(&rt; found.starts_with("31, chain 0 "), true);
    Ok(())
}

#[test]
fn sixty_columns_of_333_rows_have_a_least_width(rt: HostRuntime) -> Result<(), Fail> {
    let file = filled(rt.alloc(), 333, 60)?;
    let found = narrowest(rt.alloc(), file.as_str(), Style::Frame)?;
    assert_eq!(&rt; found.starts_with("181, chain 0 "), true);
    Ok(())
}

/// Compares the message of an error with a text.
fn says(rt: &impl Abort, alloc: Global, error: FormError, wanted: &str) -> Result<(), Fail> {
    let found = format!(in alloc; "{error}")?;
    assert_eq!(rt; found.as_str(), wanted);
    Ok(())
}

#[test]
fn each_error_has_its_message(rt: HostRuntime) -> Result<(), Fail> {
    let alloc = rt.alloc();
    says(&rt, alloc, FormError::Memory(AllocError), "out of memory")?;
    let error = FormError::Grid(3, GridError::TooManyRows(2001));
    says(&rt, alloc, error, "table 3: 2001 rows in a table")
}
