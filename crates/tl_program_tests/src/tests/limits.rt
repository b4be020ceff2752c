//! Each limit at its end and one past it.

use crate::tests::{TWO, check_refused, desk, held, repeated, status_of};
use std::alloc::{AllocError, Global};
use std::process::Abort;
use std::test::Fail;
use std::thread::Threads;

/// A text that is repeated so many times, between a start and an end.
#[derive(Clone, Copy)]
pub struct Built<'a> {
    pub start: &'a str,
    pub text: &'a str,
    pub times: usize,
    pub end: &'a str,
}

impl<'a> Built<'a> {
    /// What is neither repeated nor followed by an end.
    pub fn just(start: &'a str) -> Built<'a> {
        Built {
            start,
            text: "",
            times: 0,
            end: "",
        }
    }

    /// The whole text.
    pub fn whole(&self, alloc: Global) -> Result<String, AllocError> {
        let inner = repeated(alloc, self.text, self.times)?;
        format!(in alloc; "{}{}{}", self.start, inner.as_str(), self.end)
    }
}

/// The command line over the file stores nothing, with this status and this message.
pub fn check_built(
    rt: &(impl Abort + AllocGlobal + Threads + Sync),
    line: &str,
    built: &Built<'_>,
    status: u8,
    message: &str,
) -> Result<(), Fail> {
    let file = built.whole(rt.alloc())?;
    check_refused(rt, line, file.as_bytes(), status, message)
}

/// The command line over the file stores this page, the lowest.
pub fn check_page(
    rt: &(impl Abort + AllocGlobal + Threads + Sync),
    line: &str,
    built: &Built<'_>,
    page: &Built<'_>,
    message: &str,
) -> Result<(), Fail> {
    let alloc = rt.alloc();
    let file = built.whole(alloc)?;
    let page = page.whole(alloc)?;
    let mut desk = desk(alloc, file.as_bytes(), &[])?;
    let status = status_of(rt, alloc, line, &mut desk)?;
    let stored = held(&desk, "p.txt") == Some(page.as_bytes()) && desk.files().len() == 2;
    let told = desk.said() == message.as_bytes();
    assert!(rt;
        status == 0 && stored && told,
        "{line}: {status}, {message:?}"
    );
    Ok(())
}

/// The file passes with this page, and with its text once more it is refused as `past` says.
pub fn check_last(
    rt: &(impl Abort + AllocGlobal + Threads + Sync),
    line: &str,
    last: &Built<'_>,
    page: &Built<'_>,
    message: &str,
    past: (u8, &str),
) -> Result<(), Fail> {
    check_page(rt, line, last, page, message)?;
    let longer = Built {
        times: last.times.saturating_add(1),
        ..*last
    };
    let (status, message) = past;
    check_built(rt, line, &longer, status, message)
}

#[test]
fn a_page_has_1_to_500_columns(rt: HostRuntime) -> Result<(), Fail> {
    let file = Built::just("<table><tr><td>a b</table>");
    for (line, page, message) in [
        ("lay 1 t.html p.txt", "a\nb\n", "lowest height 2 width 1\n"),
        ("lay 500 t.html p.txt", "a b\n", "lowest height 1 width 3\n"),
    ] {
        check_page(&rt, line, &file, &Built::just(page), message)?;
    }
    for line in ["lay 0 t.html p.txt", "lay 501 t.html p.txt"] {
        check_built(&rt, line, &file, 2, "usage\n")?;
    }
    Ok(())
}

// A cell of 500 columns fills the widest page, and one of 501 fits on none.
#[test]
fn a_word_may_be_as_wide_as_the_widest_page(rt: HostRuntime) -> Result<(), Fail> {
    let line = "lay 500 t.html p.txt";
    let last = Built {
        start: "<table><tr><td>",
        text: "a",
        times: 500,
        end: "</table>",
    };
    let page = Built {
        start: "",
        end: "\n",
        ..last
    };
    let message = "lowest height 1 width 500\n";
    let past = (4, "narrow least 501 width 500\n");
    check_last(&rt, line, &last, &page, message, past)
}

#[test]
fn a_file_has_1048576_bytes(rt: HostRuntime) -> Result<(), Fail> {
    let line = "lay 10 t.html p.txt";
    let last = Built {
        start: "<table></table>",
        text: " ",
        times: 1_048_561,
        end: "",
    };
    let page = Built::just("");
    let message = "lowest height 0 width 0\n";
    let past = "limit: file 1048577\n";
    check_last(&rt, line, &last, &page, message, (6, past))?;
    let spaces = Built {
        start: "",
        times: 2_000_000,
        ..last
    };
    check_built(&rt, line, &spaces, 6, past)
}

#[test]
fn tables_are_8_deep(rt: HostRuntime) -> Result<(), Fail> {
    let line = "lay 10 t.html p.txt";
    let last = Built {
        start: "<table><tr><td>",
        text: "<table><tr><td>",
        times: 7,
        end: "a</table></table></table></table></table></table></table></table>",
    };
    let page = Built::just("a\n");
    let message = "lowest height 1 width 1\n";
    check_last(&rt, line, &last, &page, message, (6, "limit: depth 9\n"))
}

#[test]
fn a_document_has_200_tables(rt: HostRuntime) -> Result<(), Fail> {
    let line = "lay 10 t.html p.txt";
    let last = Built {
        start: "<table><tr><td>",
        text: "<table></table>",
        times: 199,
        end: "a</table>",
    };
    let page = Built::just("a\n");
    let message = "lowest height 1 width 1\n";
    check_last(&rt, line, &last, &page, message, (6, "limit: tables 201\n"))
}

// Ten columns without text take the 18 columns of their gaps, so that no search is needed at 17.
#[test]
fn a_table_has_20000_cells(rt: HostRuntime) -> Result<(), Fail> {
    let line = "lay 17 t.html p.txt";
    let last = Built {
        start: "<table>",
        text: "<tr><td><td><td><td><td><td><td><td><td><td>",
        times: 2_000,
        end: "</table>",
    };
    check_built(&rt, line, &last, 4, "narrow least 18 width 17\n")?;
    let past = Built {
        end: "<td></table>",
        ..last
    };
    check_built(&rt, line, &past, 6, "limit: cells 20001\n")
}

#[test]
fn a_table_has_60_columns(rt: HostRuntime) -> Result<(), Fail> {
    let line = "lay 178 t.html p.txt";
    let last = Built {
        start: "<table><tr>",
        text: "<td>a",
        times: 60,
        end: "</table>",
    };
    let page = Built {
        start: "",
        text: "a  ",
        times: 59,
        end: "a\n",
    };
    let message = "lowest height 1 width 178\n";
    let plain = "lay 178 t.html p.txt --solver plain";
    check_page(&rt, plain, &last, &page, message)?;
    check_last(&rt, line, &last, &page, message, (6, "limit: columns 61\n"))
}

// The row of the caption is not counted.
#[test]
fn a_table_has_2000_rows(rt: HostRuntime) -> Result<(), Fail> {
    let line = "lay 10 t.html p.txt";
    let last = Built {
        start: "<table><caption>a",
        text: "<tr><td>a",
        times: 2_000,
        end: "</table>",
    };
    let page = Built {
        start: "",
        text: "a\n",
        times: 2_001,
        end: "",
    };
    let message = "lowest height 2001 width 1\n";
    let plain = "lay 10 t.html p.txt --solver plain";
    check_page(&rt, plain, &last, &page, message)?;
    check_last(&rt, line, &last, &page, message, (6, "limit: rows 2001\n"))
}

#[test]
fn the_searches_make_2000000_cuts(rt: HostRuntime) -> Result<(), Fail> {
    let file = Built::just("<table><tr><td><table><tr><td>a</table></table>");
    let page = Built::just("a\n");
    let lowest = "lowest height 1 width 1\n";
    for (last, past, message) in [
        (
            "lay 19 t.html p.txt --budget 100000",
            "lay 20 t.html p.txt --budget 100000",
            "limit: reach 2100000\n",
        ),
        (
            "lay 100 t.html p.txt --budget 19801",
            "lay 100 t.html p.txt --budget 19802",
            "limit: reach 2000002\n",
        ),
        (
            "lay 500 t.html p.txt --budget 3992",
            "lay 500 t.html p.txt --budget 3993",
            "limit: reach 2000493\n",
        ),
    ] {
        check_page(&rt, last, &file, &page, lowest)?;
        check_built(&rt, past, &file, 6, message)?;
    }
    check_page(&rt, "lay 500 t.html p.txt", &file, &page, lowest)
}

#[test]
fn a_search_makes_100000_cuts(rt: HostRuntime) -> Result<(), Fail> {
    let file = Built::just(TWO);
    let page = Built::just("aaa  cc dd\nbbb  ee   \n");
    let message = "lowest height 2 width 10\n";
    let last = "lay 12 t.html p.txt --budget 100000";
    check_page(&rt, last, &file, &page, message)?;
    let past = "lay 12 t.html p.txt --budget 100001";
    check_built(&rt, past, &file, 2, "usage\n")
}

// A line of 500 columns has 100 words of four letters, which take 499 with the spaces between them.
#[test]
fn a_cell_of_70000_words_has_700_lines(rt: HostRuntime) -> Result<(), Fail> {
    let alloc = rt.alloc();
    let file = Built {
        start: "<table><tr><td>",
        text: "word ",
        times: 70_000,
        end: "</table>",
    };
    let line = Built {
        start: "",
        text: "word ",
        times: 99,
        end: "word\n",
    };
    let line = line.whole(alloc)?;
    let page = Built {
        start: "",
        text: line.as_str(),
        times: 700,
        end: "",
    };
    let message = "lowest height 700 width 499\n";
    check_page(&rt, "lay 500 t.html p.txt", &file, &page, message)
}
