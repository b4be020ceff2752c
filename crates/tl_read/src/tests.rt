//! Files that are read, and files that are refused, each with what is wrong and where.

use crate::{Fault, Limit, Reading, RecordFault, Refusal, Source, read};
use std::alloc::{AllocError, Global};
use std::process::Abort;
use std::test::Fail;
use tl_base::{Breaking, MAX_COLUMNS, MAX_FILE_BYTES, MAX_PAGE_WIDTH};
use tl_floors::Floors;
use tl_table::{Content, Kind, Table, TableCell};

/// HTML whose lines end between words.
const HTML: Source = Source::Html(Breaking::Words);

/// CSV without a header row and floors, whose lines end between words.
fn csv() -> Source {
    Source::Csv {
        head: false,
        floors: Floors::none(),
        breaking: Breaking::Words,
    }
}

/// Why the bytes are refused; none where they are a table.
fn refusal_as(alloc: Global, bytes: &[u8], source: Source) -> Result<Option<Refusal>, Fail> {
    match read(alloc, bytes, source)? {
        Reading::Table(_) => Ok(None),
        Reading::Refused(refusal) => Ok(Some(refusal)),
    }
}

/// Why the bytes are refused as HTML; none where they are a table.
fn refusal_of(alloc: Global, bytes: &[u8]) -> Result<Option<Refusal>, Fail> {
    refusal_as(alloc, bytes, HTML)
}

/// Files, and why each is refused, in the order of the steps: tokens, the tree, the grids by their numbers.
const REFUSED: &[(&str, Refusal)] = &[
    ("<table", Refusal::BadInput(Fault::UnendedTag, 0)),
    ("<!-- a", Refusal::BadInput(Fault::UnendedComment, 0)),
    ("<table></ table>", Refusal::BadInput(Fault::BadTag, 7)),
    (
        "<table><tr><td><img></table>",
        Refusal::BadInput(Fault::UnknownElement, 15),
    ),
    (
        "<table><tr><td>&foo;</table>",
        Refusal::BadInput(Fault::BadReference, 15),
    ),
    (
        "<table><tr><td>\u{1}</table>",
        Refusal::BadInput(Fault::BadCharacter, 15),
    ),
    ("<html> </html>", Refusal::BadInput(Fault::NoTable, 14)),
    ("<table></table>x", Refusal::BadInput(Fault::StrayText, 15)),
    ("<table><td>", Refusal::BadInput(Fault::MisplacedTag, 7)),
    (
        "<table><tr><td>a",
        Refusal::BadInput(Fault::UnclosedTable, 16),
    ),
    (
        "<table><tr><td>A<td rowspan=2>B<tr><td colspan=2>C</table>",
        Refusal::Overlap {
            table: 0,
            row: 1,
            column: 1,
        },
    ),
    (
        "<table><tr><td><table><tr><td>A<td rowspan=2>B<tr><td colspan=2>C</table>\
         <td><table><tr><td>A<td rowspan=2>B<tr><td colspan=2>C</table></table>",
        Refusal::Overlap {
            table: 1,
            row: 1,
            column: 1,
        },
    ),
    (
        "<table><tr><td><table><tr><td><table><tr><td><table><tr><td><table><tr><td><table><tr><td>\
         <table><tr><td><table><tr><td><table>",
        Refusal::Limit(Limit::Depth, 9),
    ),
];

#[test]
fn a_file_that_is_no_table_is_refused_for_its_first_fault(rt: HostRuntime) -> Result<(), Fail> {
    for &(file, refusal) in REFUSED {
        assert!(rt; refusal_of(rt.alloc(), file.as_bytes())? == Some(refusal));
    }
    Ok(())
}

#[test]
fn bytes_that_are_not_utf_8_are_refused_at_the_first_that_is_not(
    rt: HostRuntime,
) -> Result<(), Fail> {
    let refusal = Refusal::BadInput(Fault::NotUtf8, 7);
    assert!(rt; refusal_of(rt.alloc(), b"<table>\xFF</table>")? == Some(refusal));
    Ok(())
}

#[test]
fn one_byte_more_than_the_limit_is_refused_unread(rt: HostRuntime) -> Result<(), Fail> {
    let alloc = rt.alloc();
    let mut bytes = Vec::new(alloc);
    bytes.resize(MAX_FILE_BYTES, b' ')?;
    assert!(rt; refusal_of(alloc, &bytes)? == Some(Refusal::BadInput(Fault::NoTable, 1_048_576)));
    bytes.push(b' ')?;
    assert!(rt; refusal_of(alloc, &bytes)? == Some(Refusal::Limit(Limit::File, 1_048_577)));
    Ok(())
}

#[test]
fn a_file_of_one_table_is_that_table(rt: HostRuntime) -> Result<(), Fail> {
    let alloc = rt.alloc();
    let reading = read(alloc, b"<p>a</p><table><tr><td>x<td>y</table>", HTML)?;
    let size = reading
        .table()
        .map(|table| (table.cols, table.rows, table.cells.len()));
    assert!(rt; size.is_none());
    let reading = read(alloc, b" <table><tr><td>x<td>y</table> ", HTML)?;
    let size = reading
        .table()
        .map(|table| (table.cols, table.rows, table.cells.len()));
    assert!(rt; size == Some((2, 1, 2)));
    Ok(())
}

/// CSV files, and which record is refused and why: the first with a fault, and of its faults the first.
const BAD_RECORDS: &[(&[u8], RecordFault, u32)] = &[
    (b"a,b\nc\n", RecordFault::Uneven, 1),
    (b"a\nb\nc,d\n", RecordFault::Uneven, 2),
    (b"a\n\xff\n", RecordFault::NotUtf8, 1),
    (b"a,\xc3\n", RecordFault::NotUtf8, 0),
    (b"a\nb\nc\x01\n", RecordFault::BadCharacter, 2),
    (b"\x7f\n", RecordFault::BadCharacter, 0),
    (b"a\nb,c\n\x01\n", RecordFault::Uneven, 1),
    (b"a\n\x01\nb,c\n", RecordFault::BadCharacter, 1),
    (b"a\n\xff,b\n", RecordFault::Uneven, 1),
    (b"\x01,\xff\n", RecordFault::NotUtf8, 0),
];

#[test]
fn a_csv_file_is_refused_for_its_first_bad_record(rt: HostRuntime) -> Result<(), Fail> {
    for &(file, fault, record) in BAD_RECORDS {
        let refusal = Refusal::BadRecord(fault, record);
        assert!(rt; refusal_as(rt.alloc(), file, csv())? == Some(refusal));
    }
    Ok(())
}

/// Why a CSV file of so many records with so many fields is refused; none where it is a table.
fn refusal_of_size(alloc: Global, fields: usize, records: usize) -> Result<Option<Refusal>, Fail> {
    let mut bytes = Vec::new(alloc);
    for _ in 0..records {
        for _ in 1..fields {
            bytes.push(b',')?;
        }
        bytes.extend_from_slice(b"a\n")?;
    }
    refusal_as(alloc, &bytes, csv())
}

/// Numbers of fields and of records, and the limit that the file passes first, with what is counted.
const PAST_LIMITS: &[(usize, usize, Limit, u64)] = &[
    (61, 1, Limit::Columns, 61),
    (1, 2_001, Limit::Rows, 2_001),
    (10, 2_001, Limit::Cells, 20_010),
    (61, 2_001, Limit::Cells, 122_061),
    (1, 600_000, Limit::File, 1_048_577),
];

#[test]
fn a_csv_file_is_refused_for_the_first_limit_that_it_passes(rt: HostRuntime) -> Result<(), Fail> {
    for &(fields, records, limit, count) in PAST_LIMITS {
        let refusal = Refusal::Limit(limit, count);
        assert!(rt; refusal_of_size(rt.alloc(), fields, records)? == Some(refusal));
    }
    for (fields, records) in [(60, 1), (1, 2_000), (10, 2_000), (60, 333)] {
        assert!(rt; refusal_of_size(rt.alloc(), fields, records)?.is_none());
    }
    Ok(())
}

/// The floors of this list.
fn floors_of(list: &[u32]) -> Floors {
    let mut floors = Floors::none();
    for &floor in list {
        if floors.len() < MAX_COLUMNS && floor <= MAX_PAGE_WIDTH {
            floors = floors.with(floor);
        }
    }
    floors
}

/// The units of the first paragraph of a cell.
fn units_in(cell: &TableCell) -> usize {
    match cell.blocks.as_slice().first() {
        Some(Content::Para(para)) => para.atoms().len(),
        _ => 0,
    }
}

/// How many columns and rows the table has, and of each cell whether it is a header cell (`#`) or not
/// (`|`), its floor, and how many units its paragraph has.
fn shown(alloc: Global, table: &Table) -> Result<String, AllocError> {
    let mut line = format!(in alloc; "{}x{}", table.cols, table.rows)?;
    for cell in table.cells.as_slice() {
        let mark = match cell.kind {
            Kind::Head => '#',
            _ => '|',
        };
        let cell = format!(in alloc; "{}{} {}", mark, cell.least, units_in(cell))?;
        line.push_str(cell.as_str())?;
    }
    Ok(line)
}

/// CSV files, whether the first record is a header row, the floors, the breaking, and the table.
const CSV_TABLES: &[(&str, bool, &[u32], Breaking, &str)] = &[
    ("", true, &[5], Breaking::Wider(0), "0x0"),
    (
        "\u{feff}a,b\r\nccc,d",
        false,
        &[],
        Breaking::Words,
        "2x2|0 1|0 1|0 1|0 1",
    ),
    (
        "a,b\nccc,d\n",
        true,
        &[],
        Breaking::Wider(0),
        "2x2#0 1#0 1|0 3|0 1",
    ),
    (
        "a,b\nccc,d\n",
        false,
        &[5],
        Breaking::Wider(0),
        "2x2|5 1|0 1|0 3|0 1",
    ),
    (
        "a,b\nccc,d\n",
        true,
        &[0, 500, 7],
        Breaking::Words,
        "2x2#0 1#500 1|0 1|0 1",
    ),
    ("\"a b\n\"\"c\"\n\n", false, &[], Breaking::Words, "1x1|0 3"),
    (
        "\"a b\n\"\"c\"\n\n",
        false,
        &[1; 60],
        Breaking::Wider(0),
        "1x1|1 4",
    ),
    (
        "<table></table>\n\"\"\n",
        false,
        &[],
        Breaking::Words,
        "1x2|0 1|0 0",
    ),
];

#[test]
fn a_csv_file_is_the_table_of_its_records_as_the_source_says(rt: HostRuntime) -> Result<(), Fail> {
    for &(file, head, list, breaking, wanted) in CSV_TABLES {
        let floors = floors_of(list);
        let source = Source::Csv {
            head,
            floors,
            breaking,
        };
        let reading = read(rt.alloc(), file.as_bytes(), source)?;
        let found = match reading {
            Reading::Table(table) => shown(rt.alloc(), &table)?,
            Reading::Refused(_) => String::from_str(rt.alloc(), "refused")?,
        };
        assert_eq!(rt; found.as_str(), wanted, "{file}");
    }
    Ok(())
}

#[test]
fn a_file_is_read_as_the_kind_that_it_is_said_to_be(rt: HostRuntime) -> Result<(), Fail> {
    let alloc = rt.alloc();
    let stray = Refusal::BadInput(Fault::StrayText, 0);
    assert!(rt; refusal_as(alloc, b"a,b\n", HTML)? == Some(stray));
    assert!(rt; refusal_as(alloc, b"a,b\n", csv())?.is_none());
    assert!(rt; refusal_as(alloc, b"<table></table>", csv())?.is_none());
    assert!(rt; HTML.breaking() == Breaking::Words);
    assert!(rt; csv().breaking() == Breaking::Words);
    assert!(rt; HTML.with_breaking(Breaking::Wider(7)).breaking() == Breaking::Wider(7));
    assert!(rt; csv().with_breaking(Breaking::Wider(7)).breaking() == Breaking::Wider(7));
    assert!(rt;
        refusal_as(alloc, b"a,b\n", HTML.with_breaking(Breaking::Wider(7)))? == Some(stray)
    );
    assert!(rt; refusal_as(alloc, b"a,b\n", csv().with_breaking(Breaking::Wider(7)))?.is_none());
    Ok(())
}

/// Takes what may be sent to other threads and shared between them.
fn share<T: Send + Sync + Drop>(_value: Option<T>) {}

#[test]
fn sources_and_readings_may_go_to_other_threads() {
    share::<Source>(None);
    share::<Reading>(None);
    share::<Refusal>(None);
    share::<Fault>(None);
    share::<RecordFault>(None);
    share::<Limit>(None);
}
