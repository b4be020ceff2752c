//! The search in rounds, by several numbers of workers: what it finds beside what the other searches do.

use crate::tests::checks::{LAID_OUT, laid_and_checked, told};
use crate::tests::{Case, TWO, check, desk};
use std::alloc::{AllocError, Global};
use std::test::Fail as Failure;
use std::thread::Threads;
use tl_base::List;

/// One worker, two, and as many as there may be.
const BY_ROUNDS: [&str; 3] = [
    " --solver rounds",
    " --solver rounds --workers 2",
    " --solver rounds --workers 16",
];

#[test]
fn what_rounds_find_is_accepted(rt: HostRuntime) -> Result<(), Failure> {
    for &(width, file, options) in LAID_OUT {
        for search in BY_ROUNDS {
            laid_and_checked(&rt, width, file, options, search)?;
        }
    }
    Ok(())
}

/// The status and the message of a file that is laid out by a search.
fn laid(
    rt: &(impl Threads + Sync),
    alloc: Global,
    width: &str,
    file: &str,
    search: &str,
) -> Result<(u8, List<u8>), AllocError> {
    let line = format!(in alloc; "lay {width} t.html p.txt{search}")?;
    let mut desk = desk(alloc, file.as_bytes(), &[])?;
    told(rt, alloc, line.as_str(), &mut desk)
}

/// What a message says of the height, before it says the width.
fn height_of(message: &[u8]) -> Option<&str> {
    let text = str::from_utf8(message).ok()?;
    let (height, _) = text.split_once(" width")?;
    Some(height)
}

/// Whether two answers agree: where both say that a page is the lowest it is as high, and where none is
/// stored they are the same.
fn agree(one: (u8, &[u8]), other: (u8, &[u8])) -> bool {
    match (one.0, other.0) {
        (0, 0) => height_of(one.1) == height_of(other.1),
        (0 | 3, 3) | (3, 0) => true,
        _ => one == other,
    }
}

#[test]
fn rounds_agree_with_each_search(rt: HostRuntime) -> Result<(), Failure> {
    let alloc = rt.alloc();
    for &(width, file, options) in LAID_OUT {
        for search in [" --solver plain", " --solver best", " --solver learn"] {
            let other = format!(in alloc; "{options}{search}")?;
            let (status, message) = laid(&rt, alloc, width, file, other.as_str())?;
            for rounds in BY_ROUNDS {
                let own = format!(in alloc; "{options}{rounds}")?;
                let (also, found) = laid(&rt, alloc, width, file, own.as_str())?;
                let alike = agree((status, message.as_slice()), (also, found.as_slice()));
                assert!(rt; alike, "{width} {file} {own}: {also}, {other}: {status}");
            }
        }
    }
    Ok(())
}

/// Four cells, of which two need a line less in two columns more.
const FOUR_CELLS: &str = "<table><tr><td>a a<td>b<tr><td>c<td>d d</table>";

/// The other commands that search, by rounds.
const NARROWEST: &[Case<'static>] = &[
    Case {
        line: "narrow 2 t.html p.txt --solver rounds --workers 2",
        file: TWO,
        status: 0,
        page: Some("aaa  cc dd\nbbb  ee   \n"),
        certificate: None,
        message: "slimmest width 10 height 2\n",
    },
    Case {
        line: "narrow 0 t.html p.txt --solver rounds --workers 2",
        file: TWO,
        status: 12,
        page: None,
        certificate: None,
        message: "too tall height 0\n",
    },
    Case {
        line: "tidy 7 t.html p.txt --solver rounds --workers 2",
        file: FOUR_CELLS,
        status: 0,
        page: Some("a  b  \na     \nc  d d\n"),
        certificate: None,
        message: "tidy height 3 width 6\n",
    },
];

#[test]
fn rounds_find_the_narrowest_page(rt: HostRuntime) -> Result<(), Failure> {
    for case in NARROWEST {
        check(&rt, case)?;
    }
    Ok(())
}
