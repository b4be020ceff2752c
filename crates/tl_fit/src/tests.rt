//! Which words may break on drawn tables, counted by hand: a letter takes one column.

use crate::fit;
use std::alloc::{AllocError, Global};
use std::process::Abort;
use std::test::Fail;
use tl_base::Breaking::{Wider, Words};
use tl_base::Style::{Compact, Frame, Plain};
use tl_base::{Breaking, MAX_COLUMNS, MAX_FILE_BYTES, MAX_PAGE_WIDTH, Style};
use tl_floors::Floors;
use tl_read::{Reading, Source, read};
use tl_table::least_width;

/// HTML; what its own breaking is counts for nothing.
const HTML: Source = Source::Html(Breaking::Words);

/// CSV without a header row, with these floors.
fn csv(list: &[u32]) -> Source {
    let mut floors = Floors::none();
    for &floor in list {
        if floors.len() < MAX_COLUMNS && floor <= MAX_PAGE_WIDTH {
            floors = floors.with(floor);
        }
    }
    Source::Csv {
        head: false,
        floors,
        breaking: Breaking::Words,
    }
}

/// A file, a style, the width of a page, and which words may break on it.
type Row = (&'static str, Style, u32, Breaking);

/// Compares which words of each file may break with what is wanted.
fn fits(rt: &impl Abort, alloc: Global, source: Source, rows: &[Row]) -> Result<(), Fail> {
    for &(file, style, width, wanted) in rows {
        let found = fit(alloc, file.as_bytes(), &source, style, width)?;
        assert_eq!(rt; found, wanted, "{file} on {width}");
    }
    Ok(())
}

/// A column of 4 and one of 3.
const FITTING: &str = "<table><tr><td>aaaa bb<td>ccc</table>";

/// Tables on pages that hold them with all words whole: two columns and the gap, no column, no word.
const WHOLE: &[Row] = &[
    (FITTING, Plain, 9, Words),
    (FITTING, Plain, 500, Words),
    ("<table></table>", Plain, 0, Words),
    ("<table></table>", Frame, 0, Words),
    ("<table><tr><td></table>", Plain, 0, Words),
    ("<table><tr><td></table>", Frame, 2, Words),
];

#[test]
fn words_stay_whole_on_a_page_that_holds_them(rt: HostRuntime) -> Result<(), Fail> {
    fits(&rt, rt.alloc(), HTML, WHOLE)
}

/// A path, whose parts take 4, 6 and 3 columns.
const PATH: &str = "<table><tr><td>usr/share/doc</table>";

/// A number of 6 to 12 keeps all parts whole, 5 and 4 keep `usr/` and `doc`, 3 keeps `doc`, and with 2 and 1
/// all are in clusters.
const PARTS_OF_A_PATH: &[Row] = &[
    (PATH, Plain, 13, Words),
    (PATH, Plain, 12, Wider(12)),
    (PATH, Plain, 9, Wider(12)),
    (PATH, Plain, 6, Wider(12)),
    (PATH, Plain, 5, Wider(5)),
    (PATH, Plain, 4, Wider(5)),
    (PATH, Plain, 3, Wider(3)),
    (PATH, Plain, 2, Wider(2)),
    (PATH, Plain, 1, Wider(2)),
    (PATH, Plain, 0, Wider(0)),
];

#[test]
fn a_word_is_parted_after_its_marks_before_a_part_is_separated(
    rt: HostRuntime,
) -> Result<(), Fail> {
    fits(&rt, rt.alloc(), HTML, PARTS_OF_A_PATH)
}

#[test]
fn the_breaking_of_the_source_counts_for_nothing(rt: HostRuntime) -> Result<(), Fail> {
    for breaking in [Wider(0), Wider(6), Wider(500)] {
        fits(
            &rt,
            rt.alloc(),
            HTML.with_breaking(breaking),
            PARTS_OF_A_PATH,
        )?;
    }
    Ok(())
}

/// A date, whose parts take 5, 3 and 2 columns.
const DATE: &str = "<table><tr><td>2024-05-17</table>";

/// The parts of a file's name take 3, 5 and 2 columns. A number and a time have one part, and so has a word
/// whose mark no letter or digit of ASCII follows.
const PARTS: &[Row] = &[
    (DATE, Plain, 9, Wider(9)),
    (DATE, Plain, 5, Wider(9)),
    (DATE, Plain, 4, Wider(4)),
    (DATE, Plain, 3, Wider(4)),
    (DATE, Plain, 2, Wider(2)),
    (DATE, Plain, 1, Wider(1)),
    ("<table><tr><td>tl_base.rt</table>", Plain, 5, Wider(9)),
    ("<table><tr><td>tl_base.rt</table>", Plain, 4, Wider(4)),
    ("<table><tr><td>1.234,56</table>", Plain, 7, Wider(7)),
    ("<table><tr><td>1.234,56</table>", Plain, 1, Wider(7)),
    ("<table><tr><td>1.234,56-x</table>", Plain, 9, Wider(9)),
    ("<table><tr><td>1.234,56-x</table>", Plain, 8, Wider(8)),
    ("<table><tr><td>12:30</table>", Plain, 3, Wider(4)),
    ("<table><tr><td>abc/</table>", Plain, 3, Wider(3)),
    ("<table><tr><td>abc/é</table>", Plain, 3, Wider(4)),
];

#[test]
fn parts_end_after_marks_but_not_inside_a_number(rt: HostRuntime) -> Result<(), Fail> {
    fits(&rt, rt.alloc(), HTML, PARTS)
}

/// Columns of 8 and 21.
const BESIDE: &str = "<table><tr><td>1.234,56<td>Donaudampfschifffahrt</table>";

/// Columns of 4 and 6, whose other cells are narrower.
const ROWS: &str = "<table><tr><td>aaaa<td>b<tr><td>cc<td>dddddd</table>";

/// Words of 4 and 6 in one paragraph.
const LINES: &str = "<table><tr><td>aaaa bbbbbb<br>cc</table>";

/// The number stays whole until the page has no 8 columns for it beside the gap and a letter.
const COLUMNS: &[Row] = &[
    (BESIDE, Plain, 31, Words),
    (BESIDE, Plain, 30, Wider(20)),
    (BESIDE, Plain, 11, Wider(20)),
    (BESIDE, Plain, 10, Wider(7)),
    (BESIDE, Plain, 4, Wider(7)),
    (BESIDE, Plain, 3, Wider(0)),
    (ROWS, Plain, 12, Words),
    (ROWS, Plain, 11, Wider(5)),
    (ROWS, Plain, 7, Wider(5)),
    (ROWS, Plain, 6, Wider(3)),
    (ROWS, Plain, 4, Wider(1)),
    (LINES, Plain, 6, Words),
    (LINES, Plain, 4, Wider(5)),
    (LINES, Plain, 3, Wider(3)),
];

#[test]
fn the_longest_words_break_and_shorter_ones_beside_them_stay_whole(
    rt: HostRuntime,
) -> Result<(), Fail> {
    fits(&rt, rt.alloc(), HTML, COLUMNS)
}

/// Two characters of two columns each.
const WIDE: &str = "<table><tr><td>中文</table>";

/// Two clusters of one column each, a letter and its accent.
const ACCENTS: &str = "<table><tr><td>e\u{301}e\u{301}</table>";

/// A cluster is not separated.
const CLUSTERS: &[Row] = &[
    (WIDE, Plain, 4, Words),
    (WIDE, Plain, 3, Wider(3)),
    (WIDE, Plain, 2, Wider(3)),
    (WIDE, Plain, 1, Wider(0)),
    (ACCENTS, Plain, 2, Words),
    (ACCENTS, Plain, 1, Wider(1)),
];

#[test]
fn no_number_holds_where_a_cluster_is_wider_than_the_page(rt: HostRuntime) -> Result<(), Fail> {
    fits(&rt, rt.alloc(), HTML, CLUSTERS)
}

/// A table with columns of 8 and 3 beside a word of 2.
const INNER: &str = "<table><tr><td>ab<td><table><tr><td>abcdefgh<td>xyz</table></table>";

/// A word of 4 in a table inside another.
const FRAMES: &str = "<table><tr><td><table><tr><td>abcd</table></table>";

/// A frame inside a frame has edges of its own.
const NESTED: &[Row] = &[
    (INNER, Plain, 17, Words),
    (INNER, Plain, 16, Wider(7)),
    (INNER, Plain, 10, Wider(7)),
    (INNER, Plain, 9, Wider(2)),
    (INNER, Plain, 8, Wider(2)),
    (INNER, Plain, 7, Wider(1)),
    (INNER, Plain, 6, Wider(0)),
    (FRAMES, Frame, 8, Words),
    (FRAMES, Frame, 7, Wider(3)),
    (FRAMES, Frame, 5, Wider(3)),
    (FRAMES, Frame, 4, Wider(0)),
];

#[test]
fn words_of_nested_tables_break_as_those_around_them(rt: HostRuntime) -> Result<(), Fail> {
    fits(&rt, rt.alloc(), HTML, NESTED)
}

/// A word of 10 over two columns of 1 and their gap.
const SPAN: &str = "<table><tr><td>a<td>b<tr><td colspan=2>abcdefghij</table>";

/// A word of 9 over columns of 4 and 3, which take 9 with their gap.
const EVEN_SPAN: &str = "<table><tr><td>aaaa<td>bbb<tr><td colspan=2>abcdefghi</table>";

/// A word of 9 over two columns of 1 and their gap.
const CAPTION: &str = "<table><caption>Regenfall</caption><tr><td>a<td>b</table>";

/// It is the span that is too wide, or its columns as well.
const SPANS: &[Row] = &[
    (SPAN, Plain, 10, Words),
    (SPAN, Plain, 9, Wider(9)),
    (SPAN, Plain, 4, Wider(9)),
    (SPAN, Plain, 3, Wider(0)),
    (EVEN_SPAN, Plain, 9, Words),
    (EVEN_SPAN, Plain, 8, Wider(3)),
    (CAPTION, Plain, 9, Words),
    (CAPTION, Plain, 8, Wider(8)),
    (CAPTION, Plain, 3, Wider(0)),
];

#[test]
fn the_word_of_a_span_breaks_where_the_span_is_too_wide(rt: HostRuntime) -> Result<(), Fail> {
    fits(&rt, rt.alloc(), HTML, SPANS)
}

/// Columns of 6 and 3.
const PAIR: &str = "<table><tr><td>abcdef<td>xyz</table>";

/// A plain table has two columns between its own, a compact one has one, and a frame has three lines.
const STYLES: &[Row] = &[
    (PAIR, Plain, 11, Words),
    (PAIR, Plain, 10, Wider(5)),
    (PAIR, Plain, 6, Wider(5)),
    (PAIR, Plain, 5, Wider(2)),
    (PAIR, Plain, 3, Wider(0)),
    (PAIR, Compact, 10, Words),
    (PAIR, Compact, 9, Wider(5)),
    (PAIR, Compact, 5, Wider(5)),
    (PAIR, Compact, 4, Wider(2)),
    (PAIR, Compact, 2, Wider(0)),
    (PAIR, Frame, 12, Words),
    (PAIR, Frame, 11, Wider(5)),
    (PAIR, Frame, 7, Wider(5)),
    (PAIR, Frame, 6, Wider(2)),
    (PAIR, Frame, 4, Wider(0)),
    ("<table><tr><td></table>", Frame, 1, Wider(0)),
];

#[test]
fn gaps_and_edges_of_the_style_count(rt: HostRuntime) -> Result<(), Fail> {
    fits(&rt, rt.alloc(), HTML, STYLES)
}

/// A floor of 5 under a word of 2, beside another word of 2.
const FLOOR: &str = "<table><tr><td data-min=5>ab<td>cc</table>";

/// The last floor is wider than the page.
const HTML_FLOORS: &[Row] = &[
    (FLOOR, Plain, 9, Words),
    (FLOOR, Plain, 8, Wider(1)),
    (FLOOR, Plain, 7, Wider(0)),
    ("<table><tr><td data-min=20>ab</table>", Plain, 10, Wider(0)),
];

/// CSV files whose first column has a floor of 5.
const CSV_FLOOR_5: &[Row] = &[
    ("aa,bb\n", Plain, 9, Words),
    ("aa,bb\n", Plain, 8, Wider(1)),
    ("aa,bb\n", Plain, 7, Wider(0)),
];

/// CSV files whose first column has a floor of 20.
const CSV_FLOOR_20: &[Row] = &[
    ("aa,bb\n", Plain, 24, Words),
    ("aa,bb\n", Plain, 23, Wider(1)),
    ("aa,bb\n", Plain, 10, Wider(0)),
];

#[test]
fn a_floor_does_not_break(rt: HostRuntime) -> Result<(), Fail> {
    let alloc = rt.alloc();
    fits(&rt, alloc, HTML, HTML_FLOORS)?;
    fits(&rt, alloc, csv(&[5]), CSV_FLOOR_5)?;
    fits(&rt, alloc, csv(&[20]), CSV_FLOOR_20)
}

/// A record with columns of 3 and 9: the parts are `b-`, `c`, `long-` and `word`.
const RECORD: &str = "a b-c,long-word\n";

/// CSV files without floors. The last has no record.
const RECORDS: &[Row] = &[
    ("aa,bb\n", Plain, 6, Words),
    ("aa,bb\n", Plain, 5, Wider(1)),
    (RECORD, Plain, 14, Words),
    (RECORD, Plain, 13, Wider(8)),
    (RECORD, Plain, 10, Wider(8)),
    (RECORD, Plain, 9, Wider(4)),
    (RECORD, Plain, 8, Wider(3)),
    (RECORD, Plain, 5, Wider(2)),
    (RECORD, Plain, 4, Wider(1)),
    (RECORD, Plain, 3, Wider(0)),
    ("", Plain, 0, Words),
];

#[test]
fn words_of_a_csv_file_break_as_those_of_html(rt: HostRuntime) -> Result<(), Fail> {
    fits(&rt, rt.alloc(), csv(&[]), RECORDS)
}

/// Files that are no table as HTML.
const REFUSED: &[Row] = &[
    ("", Plain, 0, Words),
    ("<p>usr/share/doc</p>", Plain, 4, Words),
    ("<table><tr><td>usr/share/doc", Plain, 4, Words),
    ("<table></table>x", Frame, 1, Words),
];

#[test]
fn the_words_of_a_file_that_is_refused_stay_whole(rt: HostRuntime) -> Result<(), Fail> {
    let alloc = rt.alloc();
    fits(&rt, alloc, HTML, REFUSED)?;
    fits(
        &rt,
        alloc,
        csv(&[20]),
        &[("long,word\nuneven\n", Plain, 1, Words)],
    )?;
    let mut bytes = Vec::new(alloc);
    bytes.resize(MAX_FILE_BYTES + 1, b'a')?;
    assert!(rt; fit(alloc, &bytes, &csv(&[]), Plain, 1)? == Words);
    Ok(())
}

/// Letters of one word, a style, the width of a page, and whether the word may break on it. No number is
/// above 500.
const LONG_WORDS: &[(usize, Style, u32, Breaking)] = &[
    (500, Plain, 500, Words),
    (500, Plain, 499, Wider(499)),
    (500, Frame, 500, Wider(499)),
    (501, Plain, 501, Words),
    (501, Plain, 500, Wider(500)),
    (501, Plain, 1, Wider(500)),
    (501, Frame, 502, Wider(500)),
    (501, Plain, 0, Wider(0)),
    (9_000, Plain, 500, Wider(500)),
];

#[test]
fn a_word_wider_than_the_widest_page_breaks_with_500(rt: HostRuntime) -> Result<(), Fail> {
    let alloc = rt.alloc();
    for &(letters, style, width, wanted) in LONG_WORDS {
        let mut bytes = Vec::new(alloc);
        bytes.resize(letters, b'a')?;
        let found = fit(alloc, &bytes, &csv(&[]), style, width)?;
        assert_eq!(rt; found, wanted, "{letters} letters on {width}");
    }
    Ok(())
}

/// The least width of the table of the file, broken so.
fn least_with(alloc: Global, file: &str, style: Style, breaking: Breaking) -> Result<u32, Fail> {
    match read(alloc, file.as_bytes(), HTML.with_breaking(breaking))? {
        Reading::Table(table) => Ok(least_width(alloc, &table, style)?),
        Reading::Refused(_) => Err("no table".into()),
    }
}

/// The least width with each number of columns up to 60, from 0 on, and at last that with the words whole.
fn each_least(alloc: Global, file: &str, style: Style) -> Result<Vec<(Breaking, u32)>, Fail> {
    let mut each = Vec::new(alloc);
    for most in 0..=60 {
        each.push((Wider(most), least_with(alloc, file, style, Wider(most))?))?;
    }
    each.push((Words, least_with(alloc, file, style, Words)?))?;
    Ok(each)
}

/// The last of the breakings with which a page of the width holds the table, and else that with 0.
fn last_that_holds(each: &[(Breaking, u32)], width: u32) -> Breaking {
    let mut last = Wider(0);
    for &(breaking, least) in each {
        if least <= width {
            last = breaking;
        }
    }
    last
}

/// Tables whose words are at most 60 columns wide.
const DRAWN: &[&str] = &[
    "<table><tr><td>usr/share/doc<td>1.234,56<tr><td colspan=2>Donaudampf-schifffahrt 中文</table>",
    "<table><caption>Regenfall-2024</caption><tr><td>ab<td><table><tr><td>abcdefgh<td>x.yz</table></table>",
    "<table><tr><td data-min=7>ab-c<td>10:30<br>2024-05-17<td>tl_base.rt and so on</table>",
];

#[test]
fn the_breaking_is_the_first_of_all_that_holds(rt: HostRuntime) -> Result<(), Fail> {
    let alloc = rt.alloc();
    for &file in DRAWN {
        for style in [Plain, Compact, Frame] {
            let each = each_least(alloc, file, style)?;
            for width in 0..=60 {
                let found = fit(alloc, file.as_bytes(), &HTML, style, width)?;
                assert_eq!(rt; found, last_that_holds(&each, width), "{file} on {width}");
            }
        }
    }
    Ok(())
}
