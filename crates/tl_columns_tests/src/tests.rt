//! CSV files whose tables are written by hand, files that are refused, and files at the limits.

use std::alloc::{AllocError, Global};
use std::process::Abort;
use std::test::Fail;
use tl_base::{Breaking, MAX_FILE_BYTES, MAX_PAGE_WIDTH};
use tl_columns::{CsvError, from_csv};
use tl_table::{Content, Kind, Table, TableCell};
use tl_text::{Atom, Para};

/// The units of a paragraph, a space before a word and `~` before a unit that goes on with one.
fn push_para(line: &mut String, para: &Para) -> Result<(), AllocError> {
    for atom in para.atoms() {
        match atom {
            Atom::Word(text) => {
                line.push(' ')?;
                line.push_str(text.as_str())?;
            }
            Atom::Glue(text) => {
                line.push('~')?;
                line.push_str(text.as_str())?;
            }
            Atom::Break => line.push('/')?,
        }
    }
    Ok(())
}

/// A cell: `|` or, for a header cell, `#`, its column and row, its floor, and the units of its paragraphs.
fn push_cell(alloc: Global, line: &mut String, cell: &TableCell) -> Result<(), AllocError> {
    let mark = match cell.kind {
        Kind::Caption => '^',
        Kind::Head => '#',
        Kind::Plain => '|',
    };
    let place = format!(in alloc;
        "{}{},{} {}:",
        mark, cell.place.left, cell.place.top, cell.least
    )?;
    line.push_str(place.as_str())?;
    for block in cell.blocks.as_slice() {
        match block {
            Content::Para(para) => push_para(line, para)?,
            Content::Table(_) => line.push('T')?,
        }
    }
    Ok(())
}

/// The numbers of columns and rows of the table, and its cells in order.
fn shown(alloc: Global, table: &Table) -> Result<String, AllocError> {
    let mut line = format!(in alloc; "{}x{}", table.cols, table.rows)?;
    for cell in table.cells.as_slice() {
        push_cell(alloc, &mut line, cell)?;
    }
    Ok(line)
}

/// The table of the bytes, as text, or why they have none.
fn table_of(
    alloc: Global,
    bytes: &[u8],
    head: bool,
    least: &[u32],
    breaking: Breaking,
) -> Result<String, AllocError> {
    if bytes.len() > MAX_FILE_BYTES || !least.iter().all(|floor| *floor <= MAX_PAGE_WIDTH) {
        return String::from_str(alloc, "no call");
    }
    match from_csv(alloc, bytes, head, least, breaking) {
        Ok(table) => shown(alloc, &table),
        Err(error) => format!(in alloc; "{error}"),
    }
}

/// Files, and the table of each: how many columns and rows, and the cells row by row.
const TABLES: &[(&str, &str)] = &[
    ("", "0x0"),
    ("\n\r\n\n", "0x0"),
    ("\u{feff}", "0x0"),
    ("a,b\nccc,d\n", "2x2|0,0 0: a|1,0 0: b|0,1 0: ccc|1,1 0: d"),
    ("a,b\r\nccc,d", "2x2|0,0 0: a|1,0 0: b|0,1 0: ccc|1,1 0: d"),
    ("\u{feff}a\rb", "1x2|0,0 0: a|0,1 0: b"),
    ("a\n\n", "1x1|0,0 0: a"),
    ("a\n\n\nb\n", "1x2|0,0 0: a|0,1 0: b"),
    ("\"\"", "1x1|0,0 0:"),
    ("a\n\"\"\n", "1x2|0,0 0: a|0,1 0:"),
    (",\n", "2x1|0,0 0:|1,0 0:"),
    (" \t,a\n", "2x1|0,0 0:|1,0 0: a"),
    ("\"a,b\",\"c\"\"d\"\n", "2x1|0,0 0: a,b|1,0 0: c\"d"),
    ("\"a\nb\r\n c\",d", "2x1|0,0 0: a b c|1,0 0: d"),
    (" a\u{c} bc ,\u{a0}\n", "2x1|0,0 0: a bc|1,0 0: \u{a0}"),
    ("<td>,&amp;\n", "2x1|0,0 0: <td>|1,0 0: &amp;"),
    (PSQL, PSQL_TABLE),
    (SPREADSHEET, SPREADSHEET_TABLE),
];

/// What `psql --csv` writes of three columns and two rows: a text with a comma and double quotes, one with
/// a line end, and a null.
const PSQL: &str = "id,name,note\n1,\"Smith, J.\",\"said \"\"hi\"\"\"\n2,Ann,\"a\nb\"\n3,,\n";

const PSQL_TABLE: &str = "3x4|0,0 0: id|1,0 0: name|2,0 0: note\
    |0,1 0: 1|1,1 0: Smith, J.|2,1 0: said \"hi\"|0,2 0: 2|1,2 0: Ann|2,2 0: a b|0,3 0: 3|1,3 0:|2,3 0:";

/// What a spreadsheet saves as CSV in UTF-8: a byte order mark, and a carriage return before each line feed.
const SPREADSHEET: &str = "\u{feff}Datum,Preis\r\n1. Mai,\"1.234,50 \u{20ac}\"\r\n,\r\n";

const SPREADSHEET_TABLE: &str = "2x3|0,0 0: Datum|1,0 0: Preis\
    |0,1 0: 1. Mai|1,1 0: 1.234,50 \u{20ac}|0,2 0:|1,2 0:";

#[test]
fn a_file_has_a_row_for_each_record_and_a_column_for_each_field(
    rt: HostRuntime,
) -> Result<(), Fail> {
    for &(file, table) in TABLES {
        let found = table_of(rt.alloc(), file.as_bytes(), false, &[], Breaking::Words)?;
        assert_eq!(rt; found.as_str(), table, "{file}");
    }
    Ok(())
}

/// Files, how many floors of 5, 0, 500 are given, and the tables with a header row and words in clusters.
const HEADED: &[(&str, usize, &str)] = &[
    (
        "ab,c\nde,f\n",
        0,
        "2x2#0,0 0: a~b#1,0 0: c|0,1 0: d~e|1,1 0: f",
    ),
    (
        "a,b,c\nd,e,f\n",
        3,
        "3x2#0,0 5: a#1,0 0: b#2,0 500: c|0,1 0: d|1,1 0: e|2,1 0: f",
    ),
    ("a,b\n", 1, "2x1#0,0 5: a#1,0 0: b"),
    ("a\n", 3, "1x1#0,0 5: a"),
    ("", 3, "0x0"),
    (
        "e\u{301}a \u{1f1e9}\u{1f1ea}\n",
        0,
        "1x1#0,0 0: e\u{301}~a \u{1f1e9}\u{1f1ea}",
    ),
];

#[test]
fn the_first_row_alone_has_header_cells_and_floors(rt: HostRuntime) -> Result<(), Fail> {
    for &(file, count, table) in HEADED {
        let floors = [5, 0, 500];
        let least = &floors[..count.min(3)];
        let found = table_of(rt.alloc(), file.as_bytes(), true, least, Breaking::Wider(0))?;
        assert_eq!(rt; found.as_str(), table, "{file}");
    }
    Ok(())
}

/// A record of so many empty fields.
fn empty_record(alloc: Global, fields: usize) -> Result<Vec<u8>, AllocError> {
    let mut bytes = Vec::new(alloc);
    for _ in 1..fields {
        bytes.push(b',')?;
    }
    bytes.push(b'\n')?;
    Ok(bytes)
}

/// Numbers of floors, each of 7, for a record of 60 fields, and how many cells have one.
const FLOOR_COUNTS: [(usize, usize); 4] = [(0, 0), (1, 1), (59, 59), (60, 60)];

#[test]
fn each_of_60_columns_may_have_a_floor(rt: HostRuntime) -> Result<(), Fail> {
    let bytes = empty_record(rt.alloc(), 60)?;
    let floors = [7; 60];
    for (count, wanted) in FLOOR_COUNTS {
        let least = &floors[..count.min(60)];
        let found = table_of(rt.alloc(), &bytes, false, least, Breaking::Words)?;
        assert!(rt; found.as_str().matches(" 7:").count() == wanted);
    }
    Ok(())
}

/// Files that are no table, and why: the first record counts, and at one record the length, then UTF-8.
const REFUSED: &[(&[u8], &str)] = &[
    (b"a,b\nc\n", "uneven record at 1"),
    (b"a\nb\nc,d\ne,f\n", "uneven record at 2"),
    (b"a,\"b\nc\"\nd\n", "uneven record at 1"),
    (b"a\n\n\xff,b\n", "uneven record at 1"),
    (b"a\n\xff\n", "record not utf-8 at 1"),
    (b"\x01,\xc3\n", "record not utf-8 at 0"),
    (b"a\nb\x01\n\xff\n", "bad character in record at 1"),
    (b"a\n\x01\nb,c\n", "bad character in record at 1"),
    (b"a\n\x0b\n", "bad character in record at 1"),
    (b"a,\x7f\n", "bad character in record at 0"),
    (b"\xc2\x80\n", "bad character in record at 0"),
    (b"\xc2\x9f\n", "bad character in record at 0"),
];

#[test]
fn the_first_record_with_a_fault_is_named(rt: HostRuntime) -> Result<(), Fail> {
    for &(file, why) in REFUSED {
        let found = table_of(rt.alloc(), file, false, &[], Breaking::Words)?;
        assert_eq!(rt; found.as_str(), why);
    }
    Ok(())
}

/// The numbers of columns and rows of a file of so many records with so many empty fields, or why it is no
/// table.
fn size_of(alloc: Global, fields: usize, records: usize) -> Result<String, AllocError> {
    let mut bytes = Vec::new(alloc);
    for _ in 0..records {
        for _ in 1..fields {
            bytes.push(b',')?;
        }
        bytes.extend_from_slice(b"a\n")?;
    }
    if bytes.len() > MAX_FILE_BYTES {
        return String::from_str(alloc, "no call");
    }
    match from_csv(alloc, &bytes, false, &[], Breaking::Words) {
        Ok(table) => { format!(in alloc; "{}x{} {}", table.cols, table.rows, table.cells.len()) }
        Err(error) => format!(in alloc; "{error}"),
    }
}

/// Numbers of fields and of records, and what the file is.
const SIZES: &[(usize, usize, &str)] = &[
    (60, 1, "60x1 60"),
    (61, 1, "61 columns in a table"),
    (1, 2_000, "1x2000 2000"),
    (1, 2_001, "2001 rows in a table"),
    (10, 2_000, "10x2000 20000"),
    (61, 400, "24400 cells in a table"),
    (10, 2_001, "20010 cells in a table"),
    (524_287, 2, "1048574 cells in a table"),
];

#[test]
fn a_table_has_at_most_60_columns_2000_rows_and_20000_cells(rt: HostRuntime) -> Result<(), Fail> {
    for &(fields, records, what) in SIZES {
        let found = size_of(rt.alloc(), fields, records)?;
        assert_eq!(rt; found.as_str(), what);
    }
    Ok(())
}

#[test]
fn one_word_may_be_as_long_as_a_file(rt: HostRuntime) -> Result<(), Fail> {
    let alloc = rt.alloc();
    let mut bytes = Vec::new(alloc);
    bytes.resize(MAX_FILE_BYTES, b'a')?;
    let found = table_of(alloc, &bytes, false, &[], Breaking::Words)?;
    assert!(rt; found.len() == "1x1|0,0 0: ".len() + MAX_FILE_BYTES);
    Ok(())
}

/// Takes what may be sent to other threads and shared between them.
fn share<T: Send + Sync + Drop>(_value: Option<T>) {}

#[test]
fn why_a_file_is_no_table_may_go_to_other_threads() {
    share::<CsvError>(None);
}
