//! Files with their trees or their errors, counted by hand, and files at the limits.

use std::alloc::{AllocError, Global};
use std::process::Abort;
use std::test::Fail;
use tl_base::{List, MAX_FILE_BYTES};
use tl_sides::Side;
use tl_text::{Atom, Para};
use tl_token::{Token, tokens};
use tl_tree::{Block, CellNode, GroupNode, Part, TableNode, TreeError, tree};

/// The words of a paragraph, and `/` for each break: `(a b / c)`.
fn push_para(line: &mut String, para: &Para) -> Result<(), AllocError> {
    let mut before = "(";
    for atom in para.atoms() {
        line.push_str(before)?;
        match atom {
            Atom::Word(text) | Atom::Glue(text) => line.push_str(text.as_str())?,
            Atom::Break => line.push('/')?,
        }
        before = " ";
    }
    line.push(')')
}

/// One number of a cell, where it is not the one of a cell without attributes.
fn push_number(
    alloc: Global,
    line: &mut String,
    letter: char,
    number: u32,
    usual: u32,
) -> Result<(), AllocError> {
    if number != usual {
        line.push_str(format!(in alloc; "{letter}{number}")?.as_str())?;
    }
    Ok(())
}

/// The side that a cell asks for, if it asks for one.
fn push_side(alloc: Global, line: &mut String, side: Option<Side>) -> Result<(), AllocError> {
    if let Some(side) = side {
        line.push_str(format!(in alloc; "@{side:?}")?.as_str())?;
    }
    Ok(())
}

#[cycle(shown)]
fn push_flow(alloc: Global, line: &mut String, flow: &List<Block>) -> Result<(), AllocError> {
    for block in flow.as_slice() {
        match block {
            Block::Para(para) => push_para(line, para)?,
            Block::Table(table) => push_table(alloc, line, table)?,
        }
    }
    Ok(())
}

/// A cell: `d(a)`, or `hc2r0m4@Right(b)` for a header cell with numbers and a side of its own.
#[cycle(shown)]
fn push_cell(alloc: Global, line: &mut String, cell: &CellNode) -> Result<(), AllocError> {
    line.push_str(if cell.head { " h" } else { " d" })?;
    push_number(alloc, line, 'c', cell.colspan, 1)?;
    push_number(alloc, line, 'r', cell.rowspan, 1)?;
    push_number(alloc, line, 'm', cell.least, 0)?;
    push_side(alloc, line, cell.align)?;
    push_flow(alloc, line, &cell.flow)
}

#[cycle(shown)]
fn push_row(alloc: Global, line: &mut String, cells: &List<CellNode>) -> Result<(), AllocError> {
    line.push('|')?;
    for cell in cells.as_slice() {
        push_cell(alloc, line, cell)?;
    }
    Ok(())
}

/// A group, with `|` before each row: `Body{| d(a) d(b)| d(c)}`.
#[cycle(shown)]
fn push_group(alloc: Global, line: &mut String, group: &GroupNode) -> Result<(), AllocError> {
    let part = group.part;
    line.push_str(format!(in alloc; " {part:?}{{")?.as_str())?;
    for cells in group.rows.as_slice() {
        push_row(alloc, line, cells)?;
    }
    line.push('}')
}

/// A table, with its number: `[T0 caption(a) cols=2 Loose{| d(b)}]`.
#[cycle(shown)]
fn push_table(alloc: Global, line: &mut String, table: &TableNode) -> Result<(), AllocError> {
    let number = table.number;
    line.push_str(format!(in alloc; "[T{number}")?.as_str())?;
    if let Some(flow) = &table.caption {
        line.push_str(" caption")?;
        push_flow(alloc, line, flow)?;
    }
    let columns = table.columns;
    if columns > 0 {
        line.push_str(format!(in alloc; " cols={columns}")?.as_str())?;
    }
    for group in table.groups.as_slice() {
        push_group(alloc, line, group)?;
    }
    line.push(']')
}

/// The tree of a file, or why it has none.
fn shown(alloc: Global, bytes: &[u8]) -> Result<String, AllocError> {
    if bytes.len() > MAX_FILE_BYTES {
        return String::from_str(alloc, "too long");
    }
    let list: List<Token> = match tokens(alloc, bytes) {
        Ok(list) => list,
        Err(error) => return format!(in alloc; "{error}"),
    };
    match tree(alloc, list.as_slice()) {
        Ok(table) => {
            let mut line = String::new(alloc);
            push_table(alloc, &mut line, &table)?;
            Ok(line)
        }
        Err(error) => format!(in alloc; "{error}"),
    }
}

const TABLES: &str = "
<table></table> => [T0]
 <table> </table>  => [T0]
<!DOCTYPE html><html><head><meta charset=utf-8></head> <body> <table></table> </body></html> => [T0]
<table><caption>A</caption></table> => [T0 caption(A)]
<table><caption>A</table> => [T0 caption(A)]
<table><caption></caption></table> => [T0 caption]
<table> <caption>A b</caption> <tr><td>c</td></tr></table> => [T0 caption(A b) Loose{| d(c)}]
<table><caption>A <tr><td>b</table> => [T0 caption(A) Loose{| d(b)}]
<table><caption>A<p>b<br>c</p> </caption></table> => [T0 caption(A)(b / c)]
<table><col></table> => [T0 cols=1]
<table><col span=3> <col></table> => [T0 cols=4]
<table><colgroup></colgroup></table> => [T0 cols=1]
<table><colgroup span=3></table> => [T0 cols=3]
<table><colgroup span=5><col span=2><col></colgroup></table> => [T0 cols=3]
<table><colgroup span=5><col><col></table> => [T0 cols=2]
<table><colgroup span=2><colgroup> <col span=4> </colgroup> <col></table> => [T0 cols=7]
<table><colgroup span=2> <tr></table> => [T0 cols=2 Loose{|}]
<table><caption>A</caption><col><tr><td>a</table> => [T0 caption(A) cols=1 Loose{| d(a)}]
<table><colgroup><col></colgroup><col span=2><thead><tr><td>a</table> => [T0 cols=3 Head{| d(a)}]
<table><tr></table> => [T0 Loose{|}]
<table><tr></tr><tr></table> => [T0 Loose{||}]
<table><tr><td>a</td><th>b</th></tr></table> => [T0 Loose{| d(a) h(b)}]
<table><tr><td>a<th>b<tr><td>c</table> => [T0 Loose{| d(a) h(b)| d(c)}]
<table> <tr> <td>a</td> <td>b</td> </tr> <tr> </tr> </table> => [T0 Loose{| d(a) d(b)|}]
<table><thead></thead><tbody></tbody><tfoot></tfoot></table> => [T0 Head{} Body{} Foot{}]
<table><tfoot><tbody><thead></table> => [T0 Foot{} Body{} Head{}]
<table> <thead> <tr> <th>a</th> </tr> </thead> <tbody> <tr><td>b</td></tr> </tbody> </table> => [T0 Head{| h(a)} Body{| d(b)}]
<table><thead><tr><th>a<tbody><tr><td>b<tr><td>c<tfoot><tr><td>d</table> => [T0 Head{| h(a)} Body{| d(b)| d(c)} Foot{| d(d)}]
<table><tbody><tr><td>a</td></tr><tr><td>b</table> => [T0 Body{| d(a)| d(b)}]
<table><tbody><tr><tbody><tr></table> => [T0 Body{|} Body{|}]
<table><tr><td>a<tbody><tr><td>b</tbody><tr><td>c<tr><td>d</table> => [T0 Loose{| d(a)} Body{| d(b)} Loose{| d(c)| d(d)}]
<table><tr><td colspan=2><th rowspan=0><td rowspan=3 data-min=4>a</table> => [T0 Loose{| dc2 hr0 dr3m4(a)}]
<table><tr><th colspan=2000 rowspan=70000 data-min=600></table> => [T0 Loose{| hc1000r65534m500}]
<table><tr align=right><td>a<th colspan=2 align=Center>b</table> => [T0 Loose{| d(a) hc2@Center(b)}]
";

/// The files of a page's first examples: words that break, breaks, references, a nested table and a caption.
const EXAMPLES: &str = "
<table></table> => [T0]
<table><tr><td>aa bb cc</table> => [T0 Loose{| d(aa bb cc)}]
<table><tr><td>abcdef</table> => [T0 Loose{| d(abcdef)}]
<table><tr><td>a<br><br>b<br></table> => [T0 Loose{| d(a / / b /)}]
<table><tr><td>a<br><br><p>b<br></table> => [T0 Loose{| d(a / /)(b /)}]
<table><tr><td>R & D &amp; x&nbsp;y</table> => [T0 Loose{| d(R & D & x\u{a0}y)}]
<table><tr><td>&foo;</table> => bad reference at 15
<table><tr><td>&#0;</table> => bad reference at 15
<table><tr><td><img></table> => unknown element at 15
<table><tr><td><table><tr><td>aaa bbb<td>cc dd ee</table></table> => [T0 Loose{| d[T1 Loose{| d(aaa bbb) d(cc dd ee)}]}]
<table><caption>Totals</caption><tr><td>a<td>b</table> => [T0 caption(Totals) Loose{| d(a) d(b)}]
<table><tr><td>a => unclosed table
<table><td> => misplaced tag at token 1
x<table></table> => stray text at token 0
";

/// A file as a data tool writes it.
const DATAFRAME: &str = "<table border=\"1\" class=\"dataframe\">
  <thead>
    <tr style=\"text-align: right;\">
      <th></th>
      <th>name</th>
      <th>qty</th>
    </tr>
  </thead>
  <tbody>
    <tr>
      <th>0</th>
      <td>red pepper</td>
      <td>12</td>
    </tr>
  </tbody>
</table>
";

const FLOWS: &str = "
 => 
 a  b => (a b)
a <b>b</b>c<span> d => (a bc d)
a<!--x-->b => (ab)
a<p>b</p>c<div>d</div> => (a)(b)(c)(d)
</p>a</div> => (a)
<p></p> <p> </p> => 
<p><br></p> => (/)
<br>a<br><br>b<br> => (/ a / / b /)
a&lt;&nbsp; b => (a<\u{a0} b)
<table></table> => [T1]
a<table><tr><td>b</table>c => (a)[T1 Loose{| d(b)}](c)
<p>a<table></table> b</p> => (a)[T1](b)
<table><caption>a<table></table>b<tr><td><table></table></table><table></table> => [T1 caption(a)[T2](b) Loose{| d[T3]}][T4]
";

const REFUSALS: &str = "
 => no table
  => no table
<html><body></body></html> => no table
x => stray text at token 0
<table></table>x => stray text at token 2
<table><tr><td>a</td></tr></table></body></html>x => stray text at token 9
<table>x</table> => stray text at token 1
<table>&nbsp; => stray text at token 1
<table><tr>x => stray text at token 2
<table><tr><td>a</td>x => stray text at token 5
<table><caption>A</caption>x => stray text at token 4
<table><colgroup>x => stray text at token 2
<table><col> x => stray text at token 2
<table><tbody>x => stray text at token 2
<table><tr></tr>x => stray text at token 3
<table><tbody></tbody>x => stray text at token 3
<td> => misplaced tag at token 0
</table> => misplaced tag at token 0
<br> => misplaced tag at token 0
<html></table> => misplaced tag at token 1
<html><table></html> => misplaced tag at token 2
<table></table><table> => misplaced tag at token 2
<table></table></table> => misplaced tag at token 2
<table><tr><td>a</td></tr></table></body></html><p> => misplaced tag at token 9
<table><table> => misplaced tag at token 1
<table><td>x<tr> => misplaced tag at token 1
<table><tbody><td> => misplaced tag at token 2
<table><tr></tr><td> => misplaced tag at token 3
<table><caption></caption><caption> => misplaced tag at token 3
<table><caption><caption> => misplaced tag at token 2
<table><tr><caption> => misplaced tag at token 2
<table><col><caption> => misplaced tag at token 2
<table><tr><td><caption> => misplaced tag at token 3
<table><tr><col> => misplaced tag at token 2
<table><tr><td><colgroup> => misplaced tag at token 3
<table><tbody><col> => misplaced tag at token 2
<table></caption> => misplaced tag at token 1
<table><caption>A</caption></caption> => misplaced tag at token 4
<table></colgroup> => misplaced tag at token 1
<table><col></colgroup> => misplaced tag at token 2
<table><colgroup></colgroup></colgroup> => misplaced tag at token 3
<table><tr><td></th> => misplaced tag at token 3
<table><tr><th></td> => misplaced tag at token 3
<table><tr><td></td></td> => misplaced tag at token 4
<table></tr> => misplaced tag at token 1
<table><tr></tr></tr> => misplaced tag at token 3
<table></tbody> => misplaced tag at token 1
<table><tr></tbody> => misplaced tag at token 2
<table><tr><td></tfoot> => misplaced tag at token 3
<table><thead></tbody> => misplaced tag at token 2
<table><thead></thead></thead> => misplaced tag at token 3
<table><tr><td></br> => misplaced tag at token 3
<table><tr><td></col> => misplaced tag at token 3
<table><col></col> => misplaced tag at token 2
<table><tr><br> => misplaced tag at token 2
<table><p> => misplaced tag at token 1
<table><b> => misplaced tag at token 1
<table><tr><td><body> => misplaced tag at token 3
<table><tr><td><table><td> => misplaced tag at token 4
<table> => unclosed table
<table><caption>A => unclosed table
<table><tr><td>a => unclosed table
<table><tr><td><table></table> => unclosed table
<table><tr><td>a</td></tr> => unclosed table
";

/// Reads what stands before the arrow of each line after the first, which is empty, with those texts
/// around it, and compares its tree or its error with what stands after the arrow.
fn compare(
    rt: &impl Abort,
    alloc: Global,
    table: &str,
    around: (&str, &str),
    shown_around: (&str, &str),
) -> Result<(), Fail> {
    let cases = table.strip_prefix('\n').ok_or("a case on the first line")?;
    for line in cases.lines() {
        let (input, wanted) = line.split_once(" => ").ok_or("a line without an arrow")?;
        let file = format!(in alloc; "{}{input}{}", around.0, around.1)?;
        let wanted = format!(in alloc; "{}{wanted}{}", shown_around.0, shown_around.1)?;
        let found = shown(alloc, file.as_bytes())?;
        assert_eq!(rt; found.as_str(), wanted.as_str(), "{input:?}");
    }
    Ok(())
}

/// So many copies of the text.
fn repeated(alloc: Global, text: &str, times: usize) -> Result<String, AllocError> {
    let mut whole = String::new(alloc);
    for _ in 0..times {
        whole.push_str(text)?;
    }
    Ok(whole)
}

#[test]
fn tables_are_read_with_and_without_end_tags(rt: HostRuntime) -> Result<(), Fail> {
    compare(&rt, rt.alloc(), TABLES, ("", ""), ("", ""))
}

#[test]
fn the_first_examples_are_read(rt: HostRuntime) -> Result<(), Fail> {
    compare(&rt, rt.alloc(), EXAMPLES, ("", ""), ("", ""))
}

#[test]
fn white_space_between_tags_is_ignored(rt: HostRuntime) -> Result<(), Fail> {
    let wanted = "[T0 Head{| h h(name) h(qty)} Body{| h(0) d(red pepper) d(12)}]";
    assert_eq!(rt; shown(rt.alloc(), DATAFRAME.as_bytes())?.as_str(), wanted);
    Ok(())
}

/// Reads one text so many times, another so many times, and what ends the file, and compares its tree
/// or its error.
fn compare_repeated(
    rt: &impl Abort,
    alloc: Global,
    starts: (&str, usize),
    nested: (&str, usize),
    end: &str,
    wanted: &str,
) -> Result<(), AllocError> {
    let starts = repeated(alloc, starts.0, starts.1)?;
    let nested = repeated(alloc, nested.0, nested.1)?;
    let file = format!(in alloc; "{}{}{end}", starts.as_str(), nested.as_str())?;
    assert_eq!(rt; shown(alloc, file.as_bytes())?.as_str(), wanted);
    Ok(())
}

const EMPTY_TABLE: &str = "<table></table>";

const TABLE_WITH_CELL: &str = "<table><tr><td>";

const TABLE_WITH_CAPTION: &str = "<table><caption>";

#[test]
fn the_token_that_passes_a_limit_is_named(rt: HostRuntime) -> Result<(), Fail> {
    let alloc = rt.alloc();
    // Eight tables, each in a caption, and a ninth.
    let starts = (TABLE_WITH_CAPTION, 9);
    let wanted = "tables too deep at token 16";
    compare_repeated(&rt, alloc, starts, ("", 0), "", wanted)?;
    // The table after 200 others, inside eight of them: its depth comes before its number.
    let starts = (TABLE_WITH_CELL, 7);
    let end = "<table><tr><td><table>";
    let wanted = "tables too deep at token 408";
    compare_repeated(&rt, alloc, starts, (EMPTY_TABLE, 192), end, wanted)?;
    // The table after 200 others, with no token besides those that they need, and with a text before it.
    let starts = (TABLE_WITH_CAPTION, 1);
    let nested = (EMPTY_TABLE, 199);
    let wanted = "too many tables at token 400";
    compare_repeated(&rt, alloc, starts, nested, "<table>", wanted)?;
    let wanted = "too many tables at token 401";
    compare_repeated(&rt, alloc, starts, nested, "a<table>", wanted)?;
    Ok(())
}

#[test]
fn flows_are_paragraphs_and_tables(rt: HostRuntime) -> Result<(), Fail> {
    let around = ("<table><tr><td>", "</td></table>");
    compare(&rt, rt.alloc(), FLOWS, around, ("[T0 Loose{| d", "}]"))
}

#[test]
fn what_is_no_document_is_refused_at_its_first_wrong_token(rt: HostRuntime) -> Result<(), Fail> {
    compare(&rt, rt.alloc(), REFUSALS, ("", ""), ("", ""))
}

#[test]
fn at_most_eight_tables_are_inside_one_another(rt: HostRuntime) -> Result<(), Fail> {
    let alloc = rt.alloc();
    let starts = (TABLE_WITH_CELL, 7);
    let end = "<table></table></table></table></table></table></table></table></table>";
    let wanted =
        "[T0 Loose{| d[T1 Loose{| d[T2 Loose{| d[T3 Loose{| d[T4 Loose{| d[T5 Loose{| d[T6 Loose{| d[T7]}]}]}]}]}]}]}]";
    compare_repeated(&rt, alloc, starts, ("", 0), end, wanted)?;
    let end = "<table><tr><td>a<table>";
    let wanted = "tables too deep at token 25";
    compare_repeated(&rt, alloc, starts, ("", 0), end, wanted)?;
    let wanted = "misplaced tag at token 22";
    compare_repeated(&rt, alloc, starts, ("", 0), "<table><table>", wanted)?;
    Ok(())
}

#[test]
fn a_document_has_at_most_200_tables(rt: HostRuntime) -> Result<(), Fail> {
    let alloc = rt.alloc();
    let starts = (TABLE_WITH_CELL, 1);
    let nested = (EMPTY_TABLE, 199);
    compare_repeated(&rt, alloc, starts, nested, "", "unclosed table")?;
    let wanted = "too many tables at token 401";
    compare_repeated(&rt, alloc, starts, nested, "<table>", wanted)?;
    let wanted = "misplaced tag at token 402";
    compare_repeated(&rt, alloc, starts, nested, "</td><table>", wanted)?;
    Ok(())
}

/// A table of a whole file, with the same text so many times, and its tree.
fn compare_large(
    rt: &impl Abort,
    alloc: Global,
    times: usize,
    file: (&str, &str, &str),
    wanted: (&str, &str, &str),
) -> Result<(), AllocError> {
    let inner = repeated(alloc, file.1, times)?;
    let whole = format!(in alloc; "{}{}{}", file.0, inner.as_str(), file.2)?;
    let inner = repeated(alloc, wanted.1, times)?;
    let line = format!(in alloc; "{}{}{}", wanted.0, inner.as_str(), wanted.2)?;
    assert_eq!(rt; shown(alloc, whole.as_bytes())?.as_str(), line.as_str());
    Ok(())
}

#[test]
fn rows_that_fill_a_file_are_read(rt: HostRuntime) -> Result<(), Fail> {
    let file = ("<table>", "<tr>", "</table>");
    compare_large(&rt, rt.alloc(), 262_140, file, ("[T0 Loose{", "|", "}]"))?;
    Ok(())
}

#[test]
fn empty_cells_that_fill_a_file_are_read(rt: HostRuntime) -> Result<(), Fail> {
    let file = ("<table><tr>", "<td></td>", "</table>");
    compare_large(&rt, rt.alloc(), 116_506, file, ("[T0 Loose{|", " d", "}]"))?;
    Ok(())
}

#[test]
fn breaks_that_fill_a_file_are_read(rt: HostRuntime) -> Result<(), Fail> {
    let file = ("<table><tr><td><br>", "<br>", "</table>");
    let wanted = ("[T0 Loose{| d(/", " /", ")}]");
    compare_large(&rt, rt.alloc(), 262_136, file, wanted)?;
    Ok(())
}

#[test]
fn words_that_fill_a_file_are_read(rt: HostRuntime) -> Result<(), Fail> {
    let file = ("<table><tr><td>a", " b", "</table>");
    let wanted = ("[T0 Loose{| d(a", " b", ")}]");
    compare_large(&rt, rt.alloc(), 524_276, file, wanted)?;
    Ok(())
}

/// A table with 199 in it, which fill a file with their cells.
fn file_of_tables(alloc: Global) -> Result<String, AllocError> {
    let cells = repeated(alloc, "<td>", 1_305)?;
    let table = format!(in alloc; "<table><tr>{}</table>", cells.as_str())?;
    let nested = repeated(alloc, table.as_str(), 199)?;
    format!(in alloc; "<table><tr><td>{}</table>", nested.as_str())
}

/// The tree of `file_of_tables`.
fn tree_of_tables(alloc: Global) -> Result<String, AllocError> {
    let cells = repeated(alloc, " d", 1_305)?;
    let mut line = String::from_str(alloc, "[T0 Loose{| d")?;
    for number in 1..200 {
        let table = format!(in alloc; "[T{number} Loose{{|{}}}]", cells.as_str())?;
        line.push_str(table.as_str())?;
    }
    line.push_str("}]")?;
    Ok(line)
}

#[test]
fn two_hundred_tables_that_fill_a_file_are_read(rt: HostRuntime) -> Result<(), Fail> {
    let alloc = rt.alloc();
    let file = file_of_tables(alloc)?;
    let wanted = tree_of_tables(alloc)?;
    assert_eq!(rt; shown(alloc, file.as_bytes())?.as_str(), wanted.as_str());
    Ok(())
}

#[test]
fn out_of_memory_is_printed(rt: HostRuntime) -> Result<(), Fail> {
    let printed = format!(in rt.alloc(); "{}", TreeError::Memory(AllocError))?;
    assert_eq!(rt; printed.as_str(), "out of memory");
    Ok(())
}

/// Takes what may be sent to other threads and shared between them.
fn share<T: Send + Sync + Drop>(_value: Option<T>) {}

#[test]
fn a_tree_may_go_to_other_threads() {
    share::<TableNode>(None);
    share::<GroupNode>(None);
    share::<CellNode>(None);
    share::<Block>(None);
    share::<Part>(None);
    share::<TreeError>(None);
}
