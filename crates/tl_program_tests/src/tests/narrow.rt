//! The narrowest page for a height: what `narrow` stores and prints, and what `check` says of it.

use crate::tests::trying::{Tried, check_stored, check_tried};
use crate::tests::{NESTED, TWO, check_refused, desk_with, held, status_of};
use std::test::Fail as Failure;

/// Two lines in 10 columns.
const IN_TWO: Tried<'static> = Tried {
    line: "narrow 2 t.html p.txt c.txt l.txt s.txt",
    file: TWO,
    status: 0,
    message: "slimmest width 10 height 2\n",
    page: Some("aaa  cc dd\nbbb  ee   \n"),
    kept: Some("tablelayout 1 10 plain 5000\nlowest 2\n"),
    less: Some("tablelayout 1 9 plain 5000\nlowest 3\n"),
    spent: None,
};

const FOUND: &[Tried<'static>] = &[
    IN_TWO,
    Tried {
        line: "narrow 3 t.html p.txt c.txt l.txt s.txt",
        message: "slimmest width 7 height 3\n",
        page: Some("aaa  cc\nbbb  dd\n     ee\n"),
        kept: Some("tablelayout 1 7 plain 5000\nlowest 3\n"),
        less: Some("tablelayout 1 6 plain 5000\nnarrow 7\nchain 0 0 1\nend\n"),
        ..IN_TWO
    },
    // The table's least width, whatever height is allowed.
    Tried {
        line: "narrow 1073741824 t.html p.txt c.txt l.txt s.txt",
        message: "slimmest width 7 height 1073741824\n",
        page: Some("aaa  cc\nbbb  dd\n     ee\n"),
        kept: Some("tablelayout 1 7 plain 5000\nlowest 3\n"),
        less: Some("tablelayout 1 6 plain 5000\nnarrow 7\nchain 0 0 1\nend\n"),
        ..IN_TWO
    },
    Tried {
        line: "narrow 2 t.html p.txt c.txt l.txt s.txt --solver plain --workers 3",
        ..IN_TWO
    },
    // The frame takes a line above and below and between, and a column at each side.
    Tried {
        line: "narrow 4 t.html p.txt c.txt l.txt s.txt --style frame",
        message: "slimmest width 11 height 4\n",
        page: Some("+---+-----+\n|aaa|cc dd|\n|bbb|ee   |\n+---+-----+\n"),
        kept: Some("tablelayout 1 11 frame 5000\nlowest 4\n"),
        less: Some("tablelayout 1 10 frame 5000\nlowest 5\n"),
        ..IN_TWO
    },
    // Between characters two columns of one cell and a gap hold the table, in more lines.
    Tried {
        line: "narrow 3 t.html p.txt c.txt l.txt s.txt --break any",
        file: "<table><tr><td>abc</table>",
        message: "slimmest width 1 height 3\n",
        page: Some("a\nb\nc\n"),
        kept: Some("tablelayout 1 1 plain 5000\nlowest 3\n"),
        less: None,
        ..IN_TWO
    },
    Tried {
        line: "narrow 2 t.html p.txt c.txt l.txt s.txt",
        file: NESTED,
        kept: Some("tablelayout 1 10 plain 3992\nlowest 2\n"),
        less: Some("tablelayout 1 9 plain 3992\nlowest 3\n"),
        ..IN_TWO
    },
    Tried {
        line: "narrow 2 t.html p.txt c.txt l.txt s.txt --html",
        page: Some(
            "<table>\n<colgroup><col style=\"width:3ch\"><col style=\"width:5ch\"></colgroup>\n\
             <tr><td><p>aaa bbb</p></td><td><p>cc dd ee</p></td></tr>\n</table>\n",
        ),
        ..IN_TWO
    },
    // A table without columns has no lines, and fits the narrowest page that there is.
    Tried {
        line: "narrow 0 t.html p.txt c.txt l.txt s.txt",
        file: "<table></table>",
        message: "slimmest width 1 height 0\n",
        page: Some(""),
        kept: Some("tablelayout 1 1 plain 5000\nlowest 0\n"),
        less: None,
        ..IN_TWO
    },
];

/// No page holds the table in so few lines; or the budget does not tell.
const NOT_FOUND: &[Tried<'static>] = &[
    Tried {
        line: "narrow 0 t.html p.txt c.txt l.txt s.txt",
        status: 12,
        message: "too tall height 0\n",
        page: None,
        kept: None,
        less: Some("tablelayout 1 500 plain 5000\nlowest 1\n"),
        ..IN_TWO
    },
    Tried {
        line: "narrow 2 t.html p.txt c.txt l.txt s.txt --budget 0",
        status: 3,
        message: "bounded width none least 7\n",
        page: None,
        kept: None,
        less: Some("tablelayout 1 6 plain 0\nnarrow 7\nchain 0 0 1\nend\n"),
        spent: Some("tablelayout 1 500 plain 0\nbounded 3 1\n"),
        ..IN_TWO
    },
];

/// What is not named is not stored, and all else is as with every file.
const UNNAMED: &[Tried<'static>] = &[
    Tried {
        line: "narrow 2 t.html p.txt",
        kept: None,
        less: None,
        ..IN_TWO
    },
    Tried {
        line: "narrow 2 t.html p.txt c.txt",
        less: None,
        ..IN_TWO
    },
    Tried {
        line: "narrow 2 t.html p.txt c.txt l.txt",
        ..IN_TWO
    },
    Tried {
        line: "narrow 0 t.html p.txt c.txt",
        status: 12,
        message: "too tall height 0\n",
        page: None,
        kept: None,
        less: None,
        ..IN_TWO
    },
];

#[test]
fn the_narrowest_page_is_stored(rt: HostRuntime) -> Result<(), Failure> {
    check_tried(&rt, FOUND)?;
    check_tried(&rt, NOT_FOUND)?;
    check_tried(&rt, UNNAMED)
}

/// A command line of `narrow` on `TWO`, and checks of what it has stored with their statuses.
const CHECKED: &[(&str, &[(&str, u8)])] = &[
    (
        "narrow 2 t.html p.txt c.txt l.txt s.txt",
        &[
            ("check 10 t.html c.txt", 0),
            ("check 10 t.html c.txt --workers 2 --budget 5000", 0),
            ("check 9 t.html l.txt", 0),
            ("check 9 t.html c.txt", 10),
            ("check 10 t.html c.txt --budget 4999", 10),
        ],
    ),
    (
        "narrow 3 t.html p.txt c.txt l.txt s.txt --budget 6",
        &[
            ("check 7 t.html c.txt --budget 6", 0),
            ("check 6 t.html l.txt --budget 6", 4),
        ],
    ),
    (
        "narrow 2 t.html p.txt c.txt l.txt s.txt --budget 0",
        &[
            ("check 500 t.html s.txt --budget 0", 3),
            ("check 6 t.html l.txt --budget 0", 4),
        ],
    ),
];

#[test]
fn a_check_accepts_each_certificate_that_is_stored(rt: HostRuntime) -> Result<(), Failure> {
    for &(line, checks) in CHECKED {
        check_stored(&rt, TWO, line, checks)?;
    }
    Ok(())
}

#[test]
fn what_is_not_stored_stays(rt: HostRuntime) -> Result<(), Failure> {
    let mut desk = desk_with(rt.alloc(), TWO.as_bytes(), Some("before"), &[])?;
    let line = "narrow 0 t.html p.txt c.txt l.txt s.txt";
    let status = status_of(&rt, rt.alloc(), line, &mut desk)?;
    assert_eq!(rt;
        (status, held(&desk, "c.txt"), held(&desk, "p.txt")),
        (12, Some(b"before".as_slice()), None)
    );
    Ok(())
}

#[test]
fn a_file_that_is_refused_is_told_as_by_a_layout(rt: HostRuntime) -> Result<(), Failure> {
    let line = "narrow 2 t.html p.txt c.txt l.txt s.txt";
    check_refused(&rt, line, b"", 5, "bad input: no table at 0\n")?;
    // The searches are counted on the widest page: 501 of them with one nested table.
    check_refused(
        &rt,
        "narrow 2 t.html p.txt c.txt --budget 100000",
        NESTED.as_bytes(),
        6,
        "limit: reach 50100000\n",
    )
}
