//! Checks certificates over files in memory, and demonstrates tables.

use super::{
    Left, NESTED, ONE, SPANNED, TWO, check_left, desk, desk_with, held, repeated, status_of,
};
use std::alloc::{AllocError, Global};
use std::process::Abort;
use std::test::Fail as Failure;
use std::thread::Threads;
use tl_base::{Fail, List, MemoryDesk};

/// Runs a command line over a file and a certificate, and compares status and message. The files
/// are as before.
fn check(
    rt: &(impl Abort + AllocGlobal + Threads + Sync),
    line: &str,
    file: &str,
    certificate: Option<&str>,
    status: u8,
    message: &str,
) -> Result<(), Failure> {
    let alloc = rt.alloc();
    let mut desk = desk_with(alloc, file.as_bytes(), certificate, &[])?;
    let found = status_of(rt, alloc, line, &mut desk)?;
    let before = certificate.map(|text| text.as_bytes());
    let stays = held(&desk, "c.txt") == before && held(&desk, "t.html") == Some(file.as_bytes());
    let told = desk.said() == message.as_bytes();
    assert!(rt;
        found == status && stays && told,
        "{line}: {certificate:?}: {found}, {message:?}"
    );
    Ok(())
}

/// A certificate, and what is printed where it is checked.
type Case = (&'static str, u8, &'static str);

/// Checks each certificate for one command line and file.
fn check_all(
    rt: &(impl Abort + AllocGlobal + Threads + Sync),
    line: &str,
    file: &str,
    cases: &[Case],
) -> Result<(), Failure> {
    for &(certificate, status, message) in cases {
        check(rt, line, file, Some(certificate), status, message)?;
    }
    Ok(())
}

/// No cut is needed: in 12 columns not both cells have one line.
pub const CLOSED: &str =
    "tablelayout 1 12 plain 6\nlowest 2\nsection 0 12 2 2 0 1\nwidths 3 5\nz0 chain\nend\n";

/// The command line that `CLOSED` is valid for, over `TWO`.
pub const LINE: &str = "check 12 t.html c.txt --budget 6";

/// `LINE` with workers, which read the file and its certificate at one time.
const WORKED: &str = "check 12 t.html c.txt --budget 6 --workers 2";

/// Checks that each certificate is rejected with its message, for `LINE` over `TWO` without and with workers.
fn check_rejected(
    rt: &(impl Abort + AllocGlobal + Threads + Sync),
    cases: &[(&str, &str)],
) -> Result<(), Failure> {
    for &(certificate, message) in cases {
        check(rt, LINE, TWO, Some(certificate), 10, message)?;
        check(rt, WORKED, TWO, Some(certificate), 10, message)?;
    }
    Ok(())
}

#[test]
fn a_valid_certificate_is_accepted(rt: HostRuntime) -> Result<(), Failure> {
    let message = "lowest height 2 width 10\n";
    check(&rt, LINE, TWO, Some(CLOSED), 0, message)?;
    check(&rt, WORKED, TWO, Some(CLOSED), 0, message)
}

#[test]
fn the_default_budget_is_given_or_not(rt: HostRuntime) -> Result<(), Failure> {
    let certificate =
        "tablelayout 1 12 plain 5000\nlowest 2\nsection 0 12 2 2 0 1\nwidths 3 5\nz0 chain\nend\n";
    let message = "lowest height 2 width 10\n";
    for line in [
        "check 12 t.html c.txt",
        "check 12 t.html c.txt --budget 5000",
    ] {
        check(&rt, line, TWO, Some(certificate), 0, message)?;
    }
    Ok(())
}

/// Texts that are no certificate, each with the place.
const TEXTS: &[(&str, &str)] = &[
    (
        "tablelayout 1 12 plain 6\nlowest 02\nsection 0 12 2 2 0 1\nwidths 3 5\nz0 chain\nend\n",
        "rejected: syntax at 33\n",
    ),
    (
        "tablelayout 1 12 plain 6\nlowest 2\nsection 0 12 2 2 0 1\nwidths 3 5\nz0 chain\nend\n ",
        "rejected: syntax at 79\n",
    ),
    (
        "tablelayout 2 12 plain 6\nlowest 2\nsection 0 12 2 2 0 1\nwidths 3 5\nz0 chain\nend\n",
        "rejected: syntax at 75\n",
    ),
    (
        "tablelayout 1 501 plain 6\nlowest 2\nsection 0 12 2 2 0 1\nwidths 3 5\nz0 chain\nend\n",
        "rejected: range at 14\n",
    ),
];

#[test]
fn a_text_that_is_no_certificate_is_rejected_at_its_place(rt: HostRuntime) -> Result<(), Failure> {
    check_rejected(&rt, TEXTS)
}

/// `CLOSED` with another budget, height or section, and with a section too many.
const CLAIMS: &[(&str, &str)] = &[
    (
        "tablelayout 1 12 plain 7\nlowest 2\nsection 0 12 2 2 0 1\nwidths 3 5\nz0 chain\nend\n",
        "rejected: claim\n",
    ),
    (
        "tablelayout 1 12 plain 6\nlowest 1\nsection 0 12 2 2 0 1\nwidths 3 5\nz0 chain\nend\n",
        "rejected: claim\n",
    ),
    (
        "tablelayout 1 12 plain 6\nlowest 2\nsection 1 12 2 2 0 1\nwidths 3 5\nz0 chain\nend\n",
        "rejected: missing section of table 0\n",
    ),
    (
        "tablelayout 1 12 plain 6\nlowest 2\nsection 0 12 2 2 0 1\nwidths 3 5\nz0 chain\n\
         section 0 12 2 2 0 1\nwidths 3 5\nz0 chain\nend\n",
        "rejected: extra section 1\n",
    ),
];

#[test]
fn another_claim_and_other_sections_are_rejected(rt: HostRuntime) -> Result<(), Failure> {
    check_rejected(&rt, CLAIMS)
}

/// `CLOSED` with other widths, with other cuts or bounds, and with another line.
const SEARCHES: &[(&str, &str)] = &[
    (
        "tablelayout 1 12 plain 6\nlowest 2\nsection 0 12 2 2 0 1\nwidths 3 4\nz0 chain\nend\n",
        "rejected: layout of section 0\n",
    ),
    (
        "tablelayout 1 12 plain 6\nlowest 2\nsection 0 12 2 2 0 1\nwidths 3 6\nz0 chain\nend\n",
        "rejected: layout of section 0\n",
    ),
    (
        "tablelayout 1 12 plain 6\nlowest 2\nsection 0 12 2 2 1 1\nwidths 3 5\ncut 0 0 1\n\
         z0 chain\nend\n",
        "rejected: trace of section 0\n",
    ),
    (
        "tablelayout 1 12 plain 6\nlowest 2\nsection 0 12 2 1 0 1\nwidths 3 5\nz0 chain\nend\n",
        "rejected: trace of section 0\n",
    ),
    (
        "tablelayout 1 12 plain 6\nlowest 2\nsection 0 12 2 2 0 1\nwidths 3 5\nz0 cycle\nend\n",
        "rejected: line 0 of section 0\n",
    ),
    (
        "tablelayout 1 12 plain 6\nlowest 2\nsection 0 12 2 2 0 1\nwidths 3 5\nz0 @0 fired\nend\n",
        "rejected: line 0 of section 0\n",
    ),
    (
        "tablelayout 1 12 plain 6\nbounded 3 2\nsection 0 12 3 2 0 1\nwidths 3 2\nz0 chain\nend\n",
        "rejected: trace of section 0\n",
    ),
];

#[test]
fn another_layout_trace_or_line_is_rejected(rt: HostRuntime) -> Result<(), Failure> {
    check_rejected(&rt, SEARCHES)
}

#[test]
fn each_prefix_of_a_certificate_is_rejected_where_it_ends(rt: HostRuntime) -> Result<(), Failure> {
    let alloc = rt.alloc();
    let mut tried: usize = 0;
    for length in 0..CLOSED.len() {
        if let Some(prefix) = CLOSED.get(..length) {
            let message = format!(in alloc; "rejected: syntax at {length}\n")?;
            check(&rt, LINE, TWO, Some(prefix), 10, message.as_str())?;
            tried = tried.saturating_add(1);
        }
    }
    assert_eq!(rt; tried, CLOSED.len());
    Ok(())
}

#[test]
fn a_bound_is_accepted_where_the_budget_is_spent(rt: HostRuntime) -> Result<(), Failure> {
    let open =
        "tablelayout 1 12 plain 0\nbounded 3 2\nsection 0 12 3 2 0 1\nwidths 3 2\nz0 chain\nend\n";
    check(
        &rt,
        "check 12 t.html c.txt --budget 0",
        TWO,
        Some(open),
        3,
        "bounded height 3 lower 2 width 7\n",
    )
}

#[test]
fn a_chain_shows_that_the_page_is_too_narrow(rt: HostRuntime) -> Result<(), Failure> {
    let file = "<table><tr><td>abcdef<td>ghij</table>";
    let cases: &[Case] = &[
        (
            "tablelayout 1 11 plain 5000\nnarrow 12\nchain 0 0 1\nend\n",
            4,
            "narrow least 12 width 11\n",
        ),
        (
            "tablelayout 1 11 plain 5000\nnarrow 12\nchain 0 0\nend\n",
            10,
            "rejected: chain\n",
        ),
        (
            "tablelayout 1 11 plain 5000\nnarrow 12\nchain 1 0 1\nend\n",
            10,
            "rejected: chain\n",
        ),
        (
            "tablelayout 1 11 plain 5000\nnarrow 13\nchain 0 0 1\nend\n",
            10,
            "rejected: chain\n",
        ),
    ];
    check_all(&rt, "check 11 t.html c.txt", file, cases)?;
    let cases: &[Case] = &[
        (
            "tablelayout 1 6 plain 5000\nnarrow 7\nchain 0 0:1\nchain 1 0 1\nend\n",
            4,
            "narrow least 7 width 6\n",
        ),
        (
            "tablelayout 1 6 plain 5000\nnarrow 7\nchain 1 0 1\nchain 0 0:1\nend\n",
            10,
            "rejected: chain\n",
        ),
    ];
    check_all(&rt, "check 6 t.html c.txt", NESTED, cases)
}

#[test]
fn every_section_of_a_nested_table_is_required(rt: HostRuntime) -> Result<(), Failure> {
    let cases: &[Case] = &[
        (
            "tablelayout 1 12 plain 5000\nlowest 2\nsection 1 12 2 2 0 1\nwidths 3 5\nz0 chain\n\
             section 1 9 3 3 0 1\nwidths 3 2\nz0 chain\n\
             section 0 12 2 2 0 1\nwidths 10\nz0 chain\nend\n",
            0,
            "lowest height 2 width 10\n",
        ),
        (
            "tablelayout 1 12 plain 5000\nlowest 2\n\
             section 1 12 2 2 0 1\nwidths 3 5\nz0 chain\n\
             section 0 12 2 2 0 1\nwidths 10\nz0 chain\nend\n",
            10,
            "rejected: missing section of table 1\n",
        ),
        (
            "tablelayout 1 12 plain 5000\nlowest 2\nsection 1 9 3 3 0 1\nwidths 3 2\nz0 chain\n\
             section 1 12 2 2 0 1\nwidths 3 5\nz0 chain\n\
             section 0 12 2 2 0 1\nwidths 10\nz0 chain\nend\n",
            10,
            "rejected: missing section of table 1\n",
        ),
        (
            "tablelayout 1 12 plain 5000\nlowest 2\nsection 1 12 2 2 0 1\nwidths 3 5\nz0 chain\n\
             section 1 9 3 3 0 1\nwidths 3 2\nz0 chain\n\
             section 0 12 2 2 0 1\nwidths 11\nz0 chain\nend\n",
            10,
            "rejected: layout of section 2\n",
        ),
    ];
    check_all(&rt, "check 12 t.html c.txt", NESTED, cases)
}

#[test]
fn learned_bounds_and_areas_are_judged(rt: HostRuntime) -> Result<(), Failure> {
    let cases: &[Case] = &[
        (
            "tablelayout 1 25 plain 3\nlowest 4\nsection 0 25 4 4 3 3\nwidths 1 1 4 4\n\
             cut 0 0 0\ncut 1 1 0\ncut 3 2 0\n\
             2-8 chain\n2+9 chain\nz0 @0 @1 fired\nend\n",
            0,
            "lowest height 4 width 16\n",
        ),
        (
            "tablelayout 1 25 plain 3\nlowest 4\nsection 0 25 4 4 3 3\nwidths 1 1 4 4\n\
             cut 0 0 0\ncut 1 1 0\ncut 3 2 0\n\
             2-8 chain\n2+9 chain\nz0 @0 @2 fired\nend\n",
            10,
            "rejected: line 2 of section 0\n",
        ),
    ];
    check_all(&rt, "check 25 t.html c.txt --budget 3", FOUR, cases)?;
    let area = "<table><tr><td>a a<td>b b</table>";
    let cases: &[Case] = &[
        (
            "tablelayout 2 7 plain 0\nlowest 2\nsection 0 7 2 2 0 1\nwidths 1 1\nz0 area\nend\n",
            0,
            "lowest height 2 width 4\n",
        ),
        (
            "tablelayout 1 7 plain 0\nlowest 2\nsection 0 7 2 2 0 1\nwidths 1 1\nz0 area\nend\n",
            10,
            "rejected: syntax at 67\n",
        ),
    ];
    check_all(&rt, "check 7 t.html c.txt --budget 0", area, cases)
}

#[test]
fn a_certificate_for_something_else_is_rejected(rt: HostRuntime) -> Result<(), Failure> {
    let lines: &[(&str, &str, &str)] = &[
        ("check 13 t.html c.txt --budget 6", TWO, "rejected: claim\n"),
        ("check 12 t.html c.txt --budget 5", TWO, "rejected: claim\n"),
        ("check 12 t.html c.txt", TWO, "rejected: claim\n"),
        (
            "check 12 t.html c.txt --budget 6 --style frame",
            TWO,
            "rejected: claim\n",
        ),
        (
            "check 12 t.html c.txt --break any --budget 6",
            TWO,
            "rejected: layout of section 0\n",
        ),
        (LINE, ONE, "rejected: layout of section 0\n"),
        (
            LINE,
            "<table><tr><td>abcdef<td>ghijk</table>",
            "rejected: claim\n",
        ),
    ];
    for &(line, file, message) in lines {
        check(&rt, line, file, Some(CLOSED), 10, message)?;
    }
    Ok(())
}

#[test]
fn what_is_wrong_with_a_file_is_told_before_its_certificate(
    rt: HostRuntime,
) -> Result<(), Failure> {
    let stray = ("x<table></table>", 5, "bad input: stray text at 0\n");
    let far = "<table><tr><td><table><tr><td>a</table></table>";
    let fault = (TWO, 7, "read fault\n");
    for options in [
        "--budget 100000",
        "--budget 100000 --workers 1",
        "--budget 100000 --workers 2",
        "--budget 100000 --workers 16",
    ] {
        for (names, certificate, (file, status, message)) in [
            ("t.html c.txt", None, stray),
            ("t.html c.txt", Some("no certificate"), stray),
            (
                "t.html c.txt",
                Some(CLOSED),
                (far, 6, "limit: reach 8100000\n"),
            ),
            ("t.html c.txt", None, (far, 6, "limit: reach 8100000\n")),
            ("t.html c.txt", None, fault),
            ("u.html c.txt", Some(CLOSED), fault),
        ] {
            let line = format!(in rt.alloc(); "check 80 {names} {options}")?;
            check(&rt, line.as_str(), file, certificate, status, message)?;
        }
    }
    Ok(())
}

#[test]
fn arguments_that_ask_for_no_check_are_invalid(rt: HostRuntime) -> Result<(), Failure> {
    let lines = [
        "check",
        "check 12 t.html",
        "check 0 t.html c.txt",
        "check 501 t.html c.txt",
        "check 012 t.html c.txt",
        "check 12 t.html t.html",
        "check 12 t.html c.txt p.txt",
        "check 12 t.html c.txt --html",
        "check 12 t.html c.txt --solver best",
        "check 12 t.html c.txt --budget 6 --budget 6",
        "check 12 t.html c.txt --budget 100001",
        "check --budget 6 12 t.html c.txt",
        "demo",
        "demo 07",
        "demo -1",
        "demo 4294967296",
        "demo 0 0",
        "demo 0 --budget 6",
    ];
    for line in lines {
        check(&rt, line, TWO, Some(CLOSED), 2, "usage\n")?;
    }
    Ok(())
}

#[test]
fn a_call_of_the_desk_that_fails_ends_a_check(rt: HostRuntime) -> Result<(), Failure> {
    // There are three calls, so that a failure of a fourth changes nothing.
    let cases: [(u32, u32, u8, &[u8]); 4] = [
        (0, 0, 7, b"read fault\n"),
        (1, 0, 7, b"read fault\n"),
        (2, 6, 8, b"lowest"),
        (3, 0, 0, b"lowest height 2 width 10\n"),
    ];
    for (call, bytes, status, said) in cases {
        let wanted = Left {
            status,
            page: None,
            certificate: Some(CLOSED.as_bytes()),
            said,
            stays: true,
        };
        let fails = [Fail { call, bytes }];
        check_left(&rt, LINE, TWO.as_bytes(), Some(CLOSED), &fails, &wanted)?;
    }
    Ok(())
}

/// The status of the command line over the desk, and what it prints.
pub(super) fn told(
    rt: &(impl Threads + Sync),
    alloc: Global,
    line: &str,
    desk: &mut MemoryDesk,
) -> Result<(u8, List<u8>), AllocError> {
    let before = desk.said().len();
    let status = status_of(rt, alloc, line, desk)?;
    let message = desk.said().get(before..).unwrap_or(b"");
    Ok((status, List::from_slice(alloc, message)?))
}

/// The status of two command lines over the desk, one after the other, where both have one status and
/// print one message.
fn common_status(
    rt: &(impl Threads + Sync),
    alloc: Global,
    one: &str,
    other: &str,
    desk: &mut MemoryDesk,
) -> Result<Option<u8>, AllocError> {
    let (status, message) = told(rt, alloc, one, desk)?;
    let (again, second) = told(rt, alloc, other, desk)?;
    let same = again == status && second.as_slice() == message.as_slice();
    Ok(if same { Some(status) } else { None })
}

/// Lays a file out, and checks the certificate with the same width and options. No file is refused.
pub fn laid_and_checked(
    rt: &(impl Abort + AllocGlobal + Threads + Sync),
    width: &str,
    file: &str,
    options: &str,
    search: &str,
) -> Result<(), Failure> {
    let alloc = rt.alloc();
    let lay = format!(in alloc; "lay {width} t.html p.txt c.txt{options}{search}")?;
    let check = format!(in alloc; "check {width} t.html c.txt{options}")?;
    let mut desk = desk(alloc, file.as_bytes(), &[])?;
    let status = common_status(rt, alloc, lay.as_str(), check.as_str(), &mut desk)?;
    assert!(rt;
        matches!(status, Some(0 | 3 | 4)),
        "{lay}: {file}: {status:?}"
    );
    Ok(())
}

/// Four columns that need cuts.
const FOUR: &str =
    "<table><tr><td>a a<td>b b<td>c<br>c<tr><td>p<td>q<td>cccc cccc<td>dddd dddd</table>";

/// Spans that are declared in odd ways, and a cell that grows downward.
const DECLARED: &str = "<table><tbody>\
    <tr><td colspan=\" 2px\">a b c<td colspan=-1>d<td colspan=0>e\
    <td colspan=+3 colspan=2>f<td rowspan=0>g\
    <tr><td>h<td>i<td>j<td>k<td>l<td>m<td>n</table>";

/// A table as a data tool writes it.
const DATA: &str =
    "<table border=\"1\" class=\"dataframe\">\n  <thead>\n    <tr style=\"text-align: right;\">\n\
    <th></th>\n<th>name</th>\n<th>qty</th>\n</tr>\n</thead>\n  <tbody>\n    <tr>\n<th>0</th>\n\
    <td>red pepper</td>\n<td>12</td>\n</tr>\n</tbody>\n</table>\n";

/// Widths, files and options that are laid out and checked.
pub(super) const LAID_OUT: &[(&str, &str, &str)] = &[
    ("10", "<table></table>", ""),
    ("8", ONE, ""),
    ("7", ONE, ""),
    ("6", "<table><tr><td>abcdef</table>", ""),
    ("5", "<table><tr><td>abcdef</table>", ""),
    ("4", "<table><tr><td>abcdef</table>", " --break any"),
    ("1", "<table><tr><td>abcdef</table>", " --break any"),
    ("4", "<table><tr><td>aa bb</table>", " --break any"),
    ("5", "<table><tr><td>aa bb</table>", " --break any"),
    (
        "1",
        "<table><tr><td>e\u{301}e\u{301}</table>",
        " --break any",
    ),
    ("1", "<table><tr><td>\u{4E2D}</table>", " --break any"),
    ("5", "<table><tr><td>src/lib.rt</table>", " --break 4"),
    ("5", "<table><tr><td>src/lib.rt</table>", " --break fit"),
    ("10", "<table><tr><td>src/lib.rt</table>", " --break fit"),
    ("1", "<table><tr><td>\u{4E2D}</table>", " --break fit"),
    ("9", SPANNED, " --break fit"),
    ("12", "<table><tr><td>abcdef<td>ghij</table>", ""),
    ("11", "<table><tr><td>abcdef<td>ghij</table>", ""),
    ("12", TWO, ""),
    ("12", TWO, " --budget 0"),
    ("12", TWO, " --budget 6"),
    ("12", TWO, " --style frame"),
    ("9", SPANNED, ""),
    ("4", SPANNED, ""),
    ("10", SPANNED, " --style frame --break any"),
    (
        "10",
        "<table><tr><td colspan=2>abc<tr><td>x<td>y</table>",
        " --style frame",
    ),
    (
        "7",
        "<table><tr><td rowspan=2>aa bb cc<td>x<tr><td>y</table>",
        "",
    ),
    (
        "8",
        "<table><tr><td rowspan=2>aa bb cc<td>x<tr><td>y</table>",
        "",
    ),
    (
        "10",
        "<table><tr><td colspan=1000>a b<tr><td>c<td rowspan=65534>d</table>",
        "",
    ),
    ("40", DECLARED, ""),
    (
        "3",
        "<table><tfoot><tr><td>f</tfoot><tr><td>a<tr><td>b</table>",
        "",
    ),
    (
        "3",
        "<table><tfoot><tr><td>f</tfoot><tr><td rowspan=3>a</table>",
        "",
    ),
    ("5", "<table><tr><td>a<br><br>b<br></table>", ""),
    ("5", "<table><tr><td>a<br><br><p>b<br></table>", ""),
    ("11", "<table><tr><td>R & D &amp; x&nbsp;y</table>", ""),
    ("12", NESTED, ""),
    ("9", NESTED, ""),
    ("6", NESTED, ""),
    ("12", NESTED, " --budget 0"),
    ("12", NESTED, " --style frame"),
    ("25", FOUR, " --budget 3"),
    ("25", FOUR, " --budget 7"),
    ("25", FOUR, " --budget 16"),
    ("7", "<table><tr><td>a a<td>b b</table>", " --budget 0"),
    (
        "10",
        "<table><caption>Totals</caption><tr><td>a<td>b</table>",
        "",
    ),
    ("20", DATA, ""),
    ("16", DATA, ""),
];

#[test]
fn a_stored_certificate_is_accepted_with_the_same_message(rt: HostRuntime) -> Result<(), Failure> {
    for &(width, file, options) in LAID_OUT {
        laid_and_checked(&rt, width, file, options, "")?;
        laid_and_checked(&rt, width, file, options, " --solver plain")?;
        laid_and_checked(&rt, width, file, options, " --solver learn")?;
    }
    Ok(())
}

// Sixty columns, 2,000 rows and a caption, 200 tables, and the widest page.
#[test]
fn a_certificate_at_the_limits_is_accepted(rt: HostRuntime) -> Result<(), Failure> {
    let alloc = rt.alloc();
    for (width, start, inner, times, end) in [
        ("178", "<table><tr>", "<td>a", 60, "</table>"),
        ("10", "<table><caption>a", "<tr><td>a", 2_000, "</table>"),
        ("10", "<table><tr><td>", "<table></table>", 199, "a</table>"),
        ("500", "<table><tr><td>", "a", 500, "</table>"),
    ] {
        let inner = repeated(alloc, inner, times)?;
        let file = format!(in alloc; "{start}{}{end}", inner.as_str())?;
        laid_and_checked(&rt, width, file.as_str(), "", "")?;
    }
    Ok(())
}

/// Whether the command line has status 0 and one message, which begins so, over two desks with different
/// files.
fn is_told_twice(
    rt: &(impl Threads + Sync),
    alloc: Global,
    line: &str,
    begin: &[u8],
) -> Result<bool, AllocError> {
    let (status, message) = told(rt, alloc, line, &mut desk(alloc, TWO.as_bytes(), &[])?)?;
    let (again, second) = told(rt, alloc, line, &mut desk(alloc, &[], &[])?)?;
    let begins = message.as_slice().starts_with(begin);
    Ok(status == 0 && again == 0 && begins && second.as_slice() == message.as_slice())
}

#[test]
fn a_demonstration_is_the_same_each_time(rt: HostRuntime) -> Result<(), Failure> {
    // The cells and the ways to give each span a class were counted by another program.
    let cases: [(&str, &[u8]); 3] = [
        ("demo 0", b"cells 159 count 185118922800 height "),
        ("demo 1", b"cells 157 count 369733496832 height "),
        ("demo 2", b"cells 152 count 434928130560 height "),
    ];
    for (line, begin) in cases {
        assert!(rt; is_told_twice(&rt, rt.alloc(), line, begin)?, "{line}");
    }
    Ok(())
}
