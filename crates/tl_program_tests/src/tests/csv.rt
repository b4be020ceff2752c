//! Tables from CSV: their pages, their certificates, the files that are refused, and each limit at its end.

use crate::tests::checks::laid_and_checked;
use crate::tests::limits::{Built, check_built, check_last, check_page};
use crate::tests::{Case, check, check_refused};
use std::process::Abort;
use std::test::Fail;
use std::thread::Threads;

/// What `psql --csv` writes of `SELECT name, setting, unit, short_desc FROM pg_settings WHERE name IN
/// ('DateStyle', 'search_path', 'shared_buffers', 'work_mem')`.
const SETTINGS: &str = "name,setting,unit,short_desc\n\
    DateStyle,\"ISO, MDY\",,Sets the display format for date and time values.\n\
    search_path,\"\"\"$user\"\", public\",,\
    Sets the schema search order for names that are not schema-qualified.\n\
    shared_buffers,16384,8kB,Sets the number of shared memory buffers used by the server.\n\
    work_mem,4096,kB,Sets the maximum memory to be used for query workspaces.\n";

/// What a spreadsheet writes: a byte order mark, CR LF, and a line end inside quotes.
const SHEET: &str = "\u{feff}Item,Qty,Note\r\nApples,12,\"red,\r\nripe\"\r\nPears,3,\r\n";

/// A command line, a file, and the page and the message.
type Page = (&'static str, &'static str, &'static str, &'static str);

/// Rows of records, columns of fields, and columns with a least width.
const PAGES: &[Page] = &[
    (
        "lay 10 t.html p.txt --csv",
        "a,b\nccc,d\n",
        "a    b\nccc  d\n",
        "lowest height 2 width 6\n",
    ),
    (
        "lay 10 t.html p.txt --csv --least 5",
        "a,b\nccc,d\n",
        "a      b\nccc    d\n",
        "lowest height 2 width 8\n",
    ),
    (
        "lay 10 t.html p.txt --head --least 0,3 --csv",
        "a,b\nccc,d\n",
        "a    b  \nccc  d  \n",
        "lowest height 2 width 8\n",
    ),
    (
        "lay 10 t.html p.txt --csv --least 5,0,9",
        "a,b\n",
        "a      b\n",
        "lowest height 1 width 8\n",
    ),
    (
        "lay 20 t.html p.txt --csv",
        SHEET,
        "Item    Qty  Note\nApples  12   red,\n             ripe\nPears   3        \n",
        "lowest height 4 width 17\n",
    ),
    (
        "lay 10 t.html p.txt --csv",
        "a,b\r\nccc,d",
        "a    b\nccc  d\n",
        "lowest height 2 width 6\n",
    ),
    (
        "lay 9 t.html p.txt --csv",
        "\"a,b\",\"c\"\"d\"\n",
        "a,b  c\"d\n",
        "lowest height 1 width 8\n",
    ),
    (
        "lay 5 t.html p.txt --csv",
        "<td>\n",
        "<td>\n",
        "lowest height 1 width 4\n",
    ),
    (
        "lay 5 t.html p.txt --csv",
        "",
        "",
        "lowest height 0 width 0\n",
    ),
    (
        "lay 5 t.html p.txt --csv",
        "\n\r\n",
        "",
        "lowest height 0 width 0\n",
    ),
    (
        "lay 5 t.html p.txt --csv",
        "\"\"\n",
        "",
        "lowest height 0 width 0\n",
    ),
    (
        "lay 5 t.html p.txt --csv",
        "a\n\"\"\nb\n\n",
        "a\nb\n",
        "lowest height 2 width 1\n",
    ),
    (
        "lay 4 t.html p.txt --csv --break any",
        "abcdef\n",
        "abc\ndef\n",
        "lowest height 2 width 3\n",
    ),
];

/// The pages of exports, with lines around the cells and as HTML.
const DRAWN: &[Page] = &[
    (
        "lay 80 t.html p.txt --csv --head --style frame",
        SETTINGS,
        "+--------------+--------+----+-------------------------------------------------+\n\
         |name          |setting |unit|short_desc                                       |\n\
         +--------------+--------+----+-------------------------------------------------+\n\
         |DateStyle     |ISO, MDY|    |Sets the display format for date and time values.|\n\
         +--------------+--------+----+-------------------------------------------------+\n\
         |search_path   |\"$user\",|    |Sets the schema search order for names that are  |\n\
         |              |public  |    |not schema-qualified.                            |\n\
         +--------------+--------+----+-------------------------------------------------+\n\
         |shared_buffers|16384   |8kB |Sets the number of shared memory buffers used by |\n\
         |              |        |    |the server.                                      |\n\
         +--------------+--------+----+-------------------------------------------------+\n\
         |work_mem      |4096    |kB  |Sets the maximum memory to be used for query     |\n\
         |              |        |    |workspaces.                                      |\n\
         +--------------+--------+----+-------------------------------------------------+\n",
        "lowest height 14 width 80\n",
    ),
    (
        "lay 10 t.html p.txt --csv --html",
        "a,b\nccc,\n",
        "<table>\n\
         <colgroup><col style=\"width:3ch\"><col style=\"width:1ch\"></colgroup>\n\
         <tr><td><p>a</p></td><td><p>b</p></td></tr>\n\
         <tr><td><p>ccc</p></td><td></td></tr>\n\
         </table>\n",
        "lowest height 2 width 6\n",
    ),
    (
        "lay 10 t.html p.txt --csv --html --head --least 5",
        "a,<&>\nccc,d\n",
        "<table>\n\
         <colgroup><col style=\"width:5ch\"><col style=\"width:3ch\"></colgroup>\n\
         <tr><th data-min=\"5\"><p>a</p></th><th><p>&lt;&amp;&gt;</p></th></tr>\n\
         <tr><td><p>ccc</p></td><td><p>d</p></td></tr>\n\
         </table>\n",
        "lowest height 2 width 10\n",
    ),
];

#[test]
fn a_csv_file_has_a_row_for_each_record(rt: HostRuntime) -> Result<(), Fail> {
    for pages in [PAGES, DRAWN] {
        for &(line, file, page, message) in pages {
            let case = Case {
                line,
                file,
                status: 0,
                page: Some(page),
                certificate: None,
                message,
            };
            check(&rt, &case)?;
        }
    }
    Ok(())
}

/// Command lines over files that store nothing: the status, and the message.
const REFUSED: &[(&str, &[u8], u8, &str)] = &[
    (
        "lay 7 t.html p.txt --csv --least 5",
        b"a,b\nccc,d\n",
        4,
        "narrow least 8 width 7\n",
    ),
    (
        "lay 10 t.html p.txt --csv",
        b"a,b\nc\n",
        5,
        "bad input: uneven record at 1\n",
    ),
    (
        "lay 10 t.html p.txt --csv",
        b"a\nb\x01\n\xff\nc,d\n",
        5,
        "bad input: bad character in record at 1\n",
    ),
    (
        "lay 10 t.html p.txt --csv",
        b"a\n\xff\n\x01\n",
        5,
        "bad input: record not utf-8 at 1\n",
    ),
    (
        "lay 10 t.html p.txt --csv",
        b"a\n\n\xff,b\n",
        5,
        "bad input: uneven record at 1\n",
    ),
    // A file is read as what it is said to be.
    (
        "lay 10 t.html p.txt",
        b"a,b\n",
        5,
        "bad input: stray text at 0\n",
    ),
    (
        "lay 10 t.html p.txt --csv",
        b"<table><tr><td>a</table>",
        4,
        "narrow least 24 width 10\n",
    ),
    ("lay 10 t.html p.txt --head", b"a,b\n", 2, "usage\n"),
    ("lay 10 t.html p.txt --least 5", b"a,b\n", 2, "usage\n"),
    (
        "lay 10 t.html p.txt --csv --least 5,",
        b"a,b\n",
        2,
        "usage\n",
    ),
    (
        "lay 10 t.html p.txt --csv --least 501",
        b"a,b\n",
        2,
        "usage\n",
    ),
    // The file is refused before its certificate is read.
    (
        "check 10 t.html none.txt --csv",
        b"a,b\nc\n",
        5,
        "bad input: uneven record at 1\n",
    ),
    (
        "check 10 t.html none.txt --csv",
        b"a,b\n",
        7,
        "read fault\n",
    ),
    ("check 10 t.html none.txt --head", b"a,b\n", 2, "usage\n"),
];

#[test]
fn a_csv_file_that_is_no_table_is_refused_by_its_record(rt: HostRuntime) -> Result<(), Fail> {
    for &(line, file, status, message) in REFUSED {
        check_refused(&rt, line, file, status, message)?;
    }
    Ok(())
}

#[test]
fn a_certificate_of_a_csv_file_is_accepted_with_the_same_options(
    rt: HostRuntime,
) -> Result<(), Fail> {
    for (width, file, options) in [
        ("10", "a,b\nccc,d\n", " --csv"),
        ("10", "a,b\nccc,d\n", " --csv --least 5"),
        ("7", "a,b\nccc,d\n", " --least 5 --csv"),
        ("10", "a,b\nccc,d\n", " --csv --head --style frame"),
        ("5", "", " --csv"),
        ("80", SETTINGS, " --csv --head --style frame"),
        ("60", SETTINGS, " --csv --head"),
        ("40", SETTINGS, " --csv --break any --style compact"),
        ("20", SETTINGS, " --csv"),
        ("20", SHEET, " --csv --head --least 8,8"),
        ("12", "aaa bbb,cc dd ee\n", " --csv --budget 0"),
    ] {
        laid_and_checked(&rt, width, file, options, "")?;
        laid_and_checked(&rt, width, file, options, " --solver plain")?;
        laid_and_checked(&rt, width, file, options, " --solver rounds --workers 2")?;
    }
    Ok(())
}

/// A line of a CSV file, or of its page, so many times.
fn lines(text: &str, times: usize) -> Built<'_> {
    Built {
        start: "",
        text,
        times,
        end: "",
    }
}

#[test]
fn a_csv_table_has_60_columns_and_2000_rows(rt: HostRuntime) -> Result<(), Fail> {
    let record = Built {
        end: "a\n",
        ..lines("a,", 59)
    };
    let row = Built {
        end: "a\n",
        ..lines("a  ", 59)
    };
    let line = "lay 200 t.html p.txt --csv";
    let wide = (6, "limit: columns 61\n");
    check_last(
        &rt,
        line,
        &record,
        &row,
        "lowest height 1 width 178\n",
        wide,
    )?;
    let line = "lay 10 t.html p.txt --csv";
    let long = (6, "limit: rows 2001\n");
    let rows = lines("a\n", 2_000);
    check_last(
        &rt,
        line,
        &rows,
        &rows,
        "lowest height 2000 width 1\n",
        long,
    )
}

// Ten columns without text take the 18 columns of their gaps, so that no search is needed at 17.
#[test]
fn a_csv_table_has_20000_cells(rt: HostRuntime) -> Result<(), Fail> {
    let line = "lay 17 t.html p.txt --csv";
    let record = ",,,,,,,,,\n";
    check_built(
        &rt,
        line,
        &lines(record, 2_000),
        4,
        "narrow least 18 width 17\n",
    )?;
    check_built(&rt, line, &lines(record, 2_001), 6, "limit: cells 20010\n")
}

#[test]
fn a_csv_file_has_1048576_bytes(rt: HostRuntime) -> Result<(), Fail> {
    let line = "lay 10 t.html p.txt --csv";
    let last = Built {
        start: "a",
        ..lines(" ", 1_048_575)
    };
    let past = (6, "limit: file 1048577\n");
    check_last(
        &rt,
        line,
        &last,
        &Built::just("a\n"),
        "lowest height 1 width 1\n",
        past,
    )
}

/// A list of so many least widths of 1.
fn check_least(
    rt: &(impl Abort + AllocGlobal + Threads + Sync),
    count: usize,
    status: u8,
    message: &str,
) -> Result<(), Fail> {
    let list = Built {
        start: "lay 10 t.html p.txt --csv --least ",
        end: "1",
        ..lines("1,", count)
    };
    let line = list.whole(rt.alloc())?;
    check_refused(rt, line.as_str(), b"a,b\nc\n", status, message)
}

#[test]
fn a_list_has_60_least_widths(rt: HostRuntime) -> Result<(), Fail> {
    check_least(&rt, 0, 5, "bad input: uneven record at 1\n")?;
    check_least(&rt, 59, 5, "bad input: uneven record at 1\n")?;
    check_least(&rt, 60, 2, "usage\n")
}
