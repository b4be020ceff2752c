//! Any number of workers, and each search: the same pages, certificates and messages.

use crate::tests::checks::laid_and_checked;
use crate::tests::limits::{Built, check_page};
use crate::tests::{SPANNED, TWO, check_refused, desk, held, status_of};
use std::test::Fail;

/// Two tables side by side in one.
const BESIDE: &str =
    "<table><tr><td><table><tr><td>aa bb</table><td><table><tr><td>cc dd</table></table>";

/// Widths, and the page and the message of `BESIDE`.
const PAGES: &[(&str, &str, &str)] = &[
    ("12", "aa bb  cc dd\n", "lowest height 1 width 12\n"),
    ("11", "aa  cc\nbb  dd\n", "lowest height 2 width 6\n"),
];

#[test]
fn each_search_finds_the_lowest_page_with_any_workers(rt: HostRuntime) -> Result<(), Fail> {
    let file = Built::just(BESIDE);
    for options in [
        "1",
        "2",
        "16",
        "1 --solver plain",
        "1 --solver learn",
        "1 --solver rounds",
        "2 --solver rounds",
        "16 --solver rounds",
    ] {
        for &(width, page, message) in PAGES {
            let line = format!(in rt.alloc(); "lay {width} t.html p.txt --workers {options}")?;
            check_page(&rt, line.as_str(), &file, &Built::just(page), message)?;
        }
    }
    Ok(())
}

#[test]
fn a_certificate_has_the_sections_that_are_due_with_any_workers(
    rt: HostRuntime,
) -> Result<(), Fail> {
    let alloc = rt.alloc();
    for options in ["1", "2", "16", "2 --solver rounds"] {
        let line = format!(in alloc; "lay 12 t.html p.txt c.txt --workers {options}")?;
        let mut desk = desk(alloc, BESIDE.as_bytes(), &[])?;
        let status = status_of(&rt, alloc, line.as_str(), &mut desk)?;
        let text = held(&desk, "c.txt").unwrap_or(b"");
        let sections = text
            .windows(9)
            .filter(|word| word.starts_with(b"\nsection "))
            .count();
        assert!(rt;
            status == 0 && sections == 5,
            "{line}: {status}, {sections}"
        );
    }
    Ok(())
}

#[test]
fn a_check_needs_no_workers_and_takes_any(rt: HostRuntime) -> Result<(), Fail> {
    for (file, width, options) in [
        (BESIDE, "12", ""),
        (BESIDE, "11", " --style frame"),
        (BESIDE, "3", ""),
        (TWO, "12", " --budget 0"),
        (SPANNED, "9", " --style compact"),
    ] {
        for workers in ["", " --workers 1", " --workers 3", " --workers 16"] {
            laid_and_checked(&rt, width, file, options, workers)?;
            let both = format!(in rt.alloc(); "{options}{workers}")?;
            laid_and_checked(&rt, width, file, both.as_str(), "")?;
        }
    }
    Ok(())
}

#[test]
fn no_workers_and_more_than_16_are_no_option(rt: HostRuntime) -> Result<(), Fail> {
    for workers in ["0", "17", "01", "1.0", "all"] {
        let line = format!(in rt.alloc(); "lay 12 t.html p.txt --workers {workers}")?;
        check_refused(&rt, line.as_str(), BESIDE.as_bytes(), 2, "usage\n")?;
    }
    Ok(())
}
