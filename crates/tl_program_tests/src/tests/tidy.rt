//! The narrowest of the lowest pages, in the layout that is chosen: what `tidy` stores and prints, and what
//! `check` says of it.

use crate::tests::trying::{Tried, check_stored, check_tried};
use crate::tests::{NESTED, ONE, TWO, check_refused, desk, held, status_of};
use std::test::Fail as Failure;
use tl_base::MemoryDesk;

/// Three lines on 7 columns and on 6, and four on 5.
const FOUR_CELLS: &str = "<table><tr><td>a a<td>b<tr><td>c<td>d d</table>";

const IN_SIX: Tried<'static> = Tried {
    line: "tidy 7 t.html p.txt c.txt l.txt s.txt",
    file: FOUR_CELLS,
    status: 0,
    message: "tidy height 3 width 6\n",
    page: Some("a  b  \na     \nc  d d\n"),
    kept: Some("tablelayout 1 6 plain 5000\nlowest 3\n"),
    less: Some("tablelayout 1 5 plain 5000\nlowest 4\n"),
    spent: None,
};

const TWO_LINES: Tried<'static> = Tried {
    line: "tidy 12 t.html p.txt c.txt l.txt s.txt",
    file: TWO,
    message: "tidy height 2 width 10\n",
    page: Some("aaa  cc dd\nbbb  ee   \n"),
    kept: Some("tablelayout 1 10 plain 5000\nlowest 2\n"),
    less: Some("tablelayout 1 9 plain 5000\nlowest 3\n"),
    ..IN_SIX
};

const FOUND: &[Tried<'static>] = &[
    IN_SIX,
    Tried {
        line: "tidy 7 t.html p.txt c.txt l.txt s.txt --solver plain",
        ..IN_SIX
    },
    Tried {
        line: "tidy 7 t.html p.txt c.txt l.txt s.txt --solver best --workers 3",
        ..IN_SIX
    },
    Tried {
        line: "tidy 7 t.html p.txt c.txt l.txt s.txt --solver learn",
        ..IN_SIX
    },
    TWO_LINES,
    // One of three columns is broken, whichever it is: the choice breaks the first.
    Tried {
        line: "tidy 12 t.html p.txt c.txt l.txt s.txt",
        file: "<table><tr><td>a a<td>x<td>y<tr><td>p<td>b b<td>q<tr><td>r<td>s<td>c c</table>",
        message: "tidy height 4 width 11\n",
        page: Some("a  x    y  \na          \np  b b  q  \nr  s    c c\n"),
        kept: Some("tablelayout 1 11 plain 5000\nlowest 4\n"),
        less: Some("tablelayout 1 10 plain 5000\nlowest 5\n"),
        ..IN_SIX
    },
    // The frame takes a line above and below and between, and a column at each side.
    Tried {
        line: "tidy 12 t.html p.txt c.txt l.txt s.txt --style frame",
        message: "tidy height 4 width 11\n",
        page: Some("+---+-----+\n|aaa|cc dd|\n|bbb|ee   |\n+---+-----+\n"),
        kept: Some("tablelayout 1 11 frame 5000\nlowest 4\n"),
        less: Some("tablelayout 1 10 frame 5000\nlowest 5\n"),
        ..TWO_LINES
    },
    // A nested table is laid out as before, in the room that it has.
    Tried {
        line: "tidy 12 t.html p.txt c.txt l.txt s.txt --budget 100",
        file: NESTED,
        kept: Some("tablelayout 1 10 plain 100\nlowest 2\n"),
        less: Some("tablelayout 1 9 plain 100\nlowest 3\n"),
        ..TWO_LINES
    },
    Tried {
        line: "tidy 12 t.html p.txt c.txt l.txt s.txt --html",
        page: Some(
            "<table>\n<colgroup><col style=\"width:3ch\"><col style=\"width:5ch\"></colgroup>\n\
             <tr><td><p>aaa bbb</p></td><td><p>cc dd ee</p></td></tr>\n</table>\n",
        ),
        ..TWO_LINES
    },
    // One line in 8 columns, which is all that is asked for, and in no fewer.
    Tried {
        line: "tidy 8 t.html p.txt c.txt l.txt s.txt",
        file: ONE,
        message: "tidy height 1 width 8\n",
        page: Some("aa bb cc\n"),
        kept: Some("tablelayout 1 8 plain 5000\nlowest 1\n"),
        less: Some("tablelayout 1 7 plain 5000\nlowest 2\n"),
        ..IN_SIX
    },
    // A table without columns has no lines, and fits the narrowest page that there is.
    Tried {
        line: "tidy 9 t.html p.txt c.txt l.txt s.txt",
        file: "<table></table>",
        message: "tidy height 0 width 1\n",
        page: Some(""),
        kept: Some("tablelayout 1 1 plain 5000\nlowest 0\n"),
        less: None,
        ..IN_SIX
    },
];

/// Told as by `lay`: the page is not known to be the lowest, or there is none.
const EARLY: &[Tried<'static>] = &[
    Tried {
        line: "tidy 12 t.html p.txt c.txt l.txt s.txt --budget 0",
        status: 3,
        message: "bounded height 3 lower 2 width 7\n",
        page: Some("aaa  cc\nbbb  dd\n     ee\n"),
        kept: Some("tablelayout 1 12 plain 0\nbounded 3 2\n"),
        less: None,
        ..TWO_LINES
    },
    Tried {
        line: "tidy 6 t.html p.txt c.txt l.txt s.txt",
        status: 4,
        message: "narrow least 7 width 6\n",
        page: None,
        kept: Some("tablelayout 1 6 plain 5000\nnarrow 7\nchain 0 0 1\nend\n"),
        less: None,
        ..TWO_LINES
    },
];

/// Two lines in 17 columns, 4 and 6 and 3 of them with two gaps; any line less of a cell takes 3 columns more.
const THREE_CELLS: &str = "<table><tr><td>a a bb a<td>bb ccc dd<td>a e a a</table>";

/// Five lines, whatever the nested table takes: its own are three on 7 columns and two on 10.
const TALL: &str =
    "<table><tr><td><table><tr><td>aaa bbb<td>cc dd ee</table><td>c<br>c<br>c<br>c<br>c</table>";

/// The page is as low as any, and what the budget left open is told.
const LEFT_OPEN: &[Tried<'static>] = &[
    // The page of 14 columns was tried and is too high, and that of 16 was not decided.
    Tried {
        line: "tidy 19 t.html p.txt c.txt l.txt s.txt --budget 1",
        file: THREE_CELLS,
        status: 3,
        message: "untidy width 19 least 15\n",
        page: Some("a a   bb ccc  a e\nbb a  dd      a a\n"),
        kept: Some("tablelayout 2 19 plain 1\nlowest 2\n"),
        less: Some("tablelayout 2 14 plain 1\nlowest 3\n"),
        spent: Some("tablelayout 1 16 plain 1\nbounded 3 2\n"),
    },
    // The choice takes three cuts.
    Tried {
        line: "tidy 12 t.html p.txt c.txt l.txt s.txt --budget 2",
        status: 3,
        message: "untidy choice\n",
        kept: Some("tablelayout 1 10 plain 2\nlowest 2\n"),
        less: Some("tablelayout 1 9 plain 2\nlowest 3\n"),
        ..TWO_LINES
    },
    Tried {
        line: "tidy 12 t.html p.txt c.txt l.txt s.txt --budget 3",
        kept: Some("tablelayout 1 10 plain 3\nlowest 2\n"),
        less: Some("tablelayout 1 9 plain 3\nlowest 3\n"),
        ..TWO_LINES
    },
    // How low the nested table is on 10 columns is not known, and no choice is made on it.
    Tried {
        line: "tidy 12 t.html p.txt c.txt l.txt s.txt --budget 0",
        file: TALL,
        status: 3,
        message: "untidy choice\n",
        page: Some("aaa  cc  c\nbbb  dd  c\n     ee  c\n         c\n         c\n"),
        kept: Some("tablelayout 1 10 plain 0\nlowest 5\n"),
        less: Some("tablelayout 1 9 plain 0\nnarrow 10\n"),
        spent: None,
    },
];

/// What is not named is not stored, and all else is as with every file.
const UNNAMED: &[Tried<'static>] = &[
    Tried {
        line: "tidy 12 t.html p.txt",
        kept: None,
        less: None,
        ..TWO_LINES
    },
    Tried {
        line: "tidy 12 t.html p.txt c.txt",
        less: None,
        ..TWO_LINES
    },
    Tried {
        line: "tidy 12 t.html p.txt c.txt l.txt",
        ..TWO_LINES
    },
];

#[test]
fn the_lowest_page_is_stored_on_the_narrowest(rt: HostRuntime) -> Result<(), Failure> {
    check_tried(&rt, FOUND)?;
    check_tried(&rt, EARLY)?;
    check_tried(&rt, LEFT_OPEN)?;
    check_tried(&rt, UNNAMED)
}

/// Command lines of `tidy`, each with the file that it reads, and checks of what it has stored with their
/// statuses.
const CHECKED: &[(&str, &str, &[(&str, u8)])] = &[
    (
        FOUR_CELLS,
        "tidy 7 t.html p.txt c.txt l.txt s.txt",
        &[
            ("check 6 t.html c.txt", 0),
            ("check 5 t.html l.txt", 0),
            ("check 7 t.html c.txt", 10),
        ],
    ),
    (
        NESTED,
        "tidy 12 t.html p.txt c.txt l.txt s.txt --budget 100",
        &[
            ("check 10 t.html c.txt --budget 100", 0),
            ("check 9 t.html l.txt --budget 100", 0),
        ],
    ),
    (
        TWO,
        "tidy 12 t.html p.txt c.txt --budget 0",
        &[("check 12 t.html c.txt --budget 0", 3)],
    ),
    (
        TWO,
        "tidy 6 t.html p.txt c.txt",
        &[("check 6 t.html c.txt", 4)],
    ),
    (
        TWO,
        "tidy 12 t.html p.txt c.txt l.txt --budget 2",
        &[
            ("check 10 t.html c.txt --budget 2", 0),
            ("check 9 t.html l.txt --budget 2", 0),
        ],
    ),
    (
        THREE_CELLS,
        "tidy 19 t.html p.txt c.txt l.txt s.txt --budget 1",
        &[
            ("check 19 t.html c.txt --budget 1", 0),
            ("check 14 t.html l.txt --budget 1", 0),
            ("check 16 t.html s.txt --budget 1", 3),
        ],
    ),
];

#[test]
fn a_check_accepts_each_certificate_that_is_stored(rt: HostRuntime) -> Result<(), Failure> {
    for &(file, line, checks) in CHECKED {
        check_stored(&rt, file, line, checks)?;
    }
    Ok(())
}

/// Budgets up to the count of what there is to search, for both searches.
const EFFORTS: &[&str] = &[
    "tidy 7 t.html p.txt --budget 0",
    "tidy 7 t.html p.txt --budget 1",
    "tidy 7 t.html p.txt --budget 2",
    "tidy 7 t.html p.txt --budget 3",
    "tidy 7 t.html p.txt --budget 4",
    "tidy 7 t.html p.txt --budget 0 --solver plain",
    "tidy 7 t.html p.txt --budget 1 --solver plain",
    "tidy 7 t.html p.txt --budget 2 --solver plain --workers 2",
    "tidy 7 t.html p.txt --budget 3 --solver plain",
    "tidy 7 t.html p.txt --budget 4 --solver plain",
];

#[test]
fn whatever_found_it_the_page_is_the_same(rt: HostRuntime) -> Result<(), Failure> {
    let page = IN_SIX.page.map(|page| page.as_bytes());
    for line in EFFORTS {
        let mut desk = desk(rt.alloc(), FOUR_CELLS.as_bytes(), &[])?;
        let status = status_of(&rt, rt.alloc(), line, &mut desk)?;
        let tidy = held(&desk, "p.txt") == page && desk.said() == IN_SIX.message.as_bytes();
        assert!(rt; status == 3 || status == 0 && tidy, "{line}: {status}");
    }
    Ok(())
}

/// A table with 16 ways to give its columns classes of widths, of four lines.
const SIXTEEN_WAYS: &str =
    "<table><tr><td>a a<td>b b<td>c<br>c<tr><td>p<td>q<td>cccc cccc<td>dddd dddd</table>";

/// Its tidy page: the first two columns broken, as the others take two lines in any case.
const OF_SIXTEEN: &str = "a  b  c         \na  b  c         \np  q  cccc  dddd\n      cccc  dddd\n";

/// The desk holds the tidy page, which was told.
fn is_of_sixteen(desk: &MemoryDesk) -> bool {
    desk.said() == "tidy height 4 width 16\n".as_bytes()
        && held(desk, "p.txt") == Some(OF_SIXTEEN.as_bytes())
}

/// The message says what the budget left open.
fn is_left_open(said: &[u8]) -> bool {
    said.starts_with(b"bounded height 4 lower 3 ")
        || said.starts_with(b"untidy width ")
        || said == "untidy choice\n".as_bytes()
}

#[test]
fn each_budget_gives_an_answer_and_each_tidy_page_is_the_same(
    rt: HostRuntime,
) -> Result<(), Failure> {
    let alloc = rt.alloc();
    for solver in ["plain", "best", "learn"] {
        for budget in 0..17u32 {
            let line = format!(in alloc;
                "tidy 25 t.html p.txt --budget {budget} --solver {solver}"
            )?;
            let mut desk = desk(alloc, SIXTEEN_WAYS.as_bytes(), &[])?;
            let status = status_of(&rt, alloc, line.as_str(), &mut desk)?;
            let answered = match status {
                0 => is_of_sixteen(&desk),
                3 => budget < 16 && is_left_open(desk.said()),
                _ => false,
            };
            assert!(rt; answered, "{line}: {status}");
        }
    }
    Ok(())
}

#[test]
fn a_file_that_is_refused_is_told_as_by_a_layout(rt: HostRuntime) -> Result<(), Failure> {
    let line = "tidy 7 t.html p.txt c.txt l.txt s.txt";
    check_refused(&rt, line, b"", 5, "bad input: no table at 0\n")?;
    // The searches are counted on the page that is asked for: 301 of them with one nested table.
    check_refused(
        &rt,
        "tidy 300 t.html p.txt c.txt --budget 100000",
        NESTED.as_bytes(),
        6,
        "limit: reach 30100000\n",
    )
}
