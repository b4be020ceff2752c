//! Certificates that nothing but the format decides: chains of the narrow, and searches without a cut.

use crate::tests::pages::FOUR;
use crate::tests::{Case, NESTED, SPANNED, TWO, check, desk, held, repeated, status_of};
use std::test::Fail;

/// `abcdef` beside `ghij`: no page below 12 columns.
const WIDE: &str = "<table><tr><td>abcdef<td>ghij</table>";

/// Too narrow: chains of cells that are wider than the page. A nested table has its own chain.
const CHAINS: &[Case<'static>] = &[
    Case {
        line: "lay 11 t.html p.txt c.txt",
        file: WIDE,
        status: 4,
        page: None,
        certificate: Some("tablelayout 1 11 plain 5000\nnarrow 12\nchain 0 0 1\nend\n"),
        message: "narrow least 12 width 11\n",
    },
    Case {
        line: "lay 11 t.html p.txt c.txt --budget 100000",
        file: WIDE,
        status: 4,
        page: None,
        certificate: Some("tablelayout 1 11 plain 100000\nnarrow 12\nchain 0 0 1\nend\n"),
        message: "narrow least 12 width 11\n",
    },
    Case {
        line: "lay 12 t.html p.txt c.txt --style frame",
        file: WIDE,
        status: 4,
        page: None,
        certificate: Some("tablelayout 1 12 frame 5000\nnarrow 13\nchain 0 0 1\nend\n"),
        message: "narrow least 13 width 12\n",
    },
    Case {
        line: "lay 4 t.html p.txt c.txt",
        file: SPANNED,
        status: 4,
        page: None,
        certificate: Some("tablelayout 1 4 plain 5000\nnarrow 5\nchain 0 1 2\nend\n"),
        message: "narrow least 5 width 4\n",
    },
    Case {
        line: "lay 6 t.html p.txt c.txt",
        file: NESTED,
        status: 4,
        page: None,
        certificate: Some("tablelayout 1 6 plain 5000\nnarrow 7\nchain 0 0:1\nchain 1 0 1\nend\n"),
        message: "narrow least 7 width 6\n",
    },
    Case {
        line: "lay 6 t.html p.txt c.txt",
        file: "<table><tr><td data-min=4>a<td>b</table>",
        status: 4,
        page: None,
        certificate: Some("tablelayout 1 6 plain 5000\nnarrow 7\nchain 0 0 1\nend\n"),
        message: "narrow least 7 width 6\n",
    },
    Case {
        line: "lay 1 t.html p.txt c.txt --break any",
        file: "<table><tr><td>\u{4e2d}</table>",
        status: 4,
        page: None,
        certificate: Some("tablelayout 1 1 plain 5000\nnarrow 2\nchain 0 0\nend\n"),
        message: "narrow least 2 width 1\n",
    },
];

#[test]
fn a_chain_is_stored_where_the_page_is_too_narrow(rt: HostRuntime) -> Result<(), Fail> {
    for case in CHAINS {
        check(&rt, case)?;
    }
    Ok(())
}

/// Searches that make no cut: one line shows the bound of all layouts.
const UNCUT: &[Case<'static>] = &[
    Case {
        line: "lay 10 t.html p.txt c.txt",
        file: "<table></table>",
        status: 0,
        page: Some(""),
        certificate: Some(
            "tablelayout 1 10 plain 5000\nlowest 0\nsection 0 10 0 0 0 1\nwidths\nz0 chain\nend\n",
        ),
        message: "lowest height 0 width 0\n",
    },
    Case {
        line: "lay 12 t.html p.txt c.txt --budget 0",
        file: TWO,
        status: 3,
        page: Some("aaa  cc\nbbb  dd\n     ee\n"),
        certificate: Some(
            "tablelayout 1 12 plain 0\nbounded 3 2\nsection 0 12 3 2 0 1\nwidths 3 2\nz0 chain\nend\n",
        ),
        message: "bounded height 3 lower 2 width 7\n",
    },
    Case {
        line: "lay 12 t.html p.txt c.txt --budget 0 --html",
        file: TWO,
        status: 3,
        page: Some(
            "<table>\n<colgroup><col style=\"width:3ch\"><col style=\"width:2ch\"></colgroup>\n\
             <tr><td><p>aaa bbb</p></td><td><p>cc dd ee</p></td></tr>\n</table>\n",
        ),
        certificate: Some(
            "tablelayout 1 12 plain 0\nbounded 3 2\nsection 0 12 3 2 0 1\nwidths 3 2\nz0 chain\nend\n",
        ),
        message: "bounded height 3 lower 2 width 7\n",
    },
];

#[test]
fn a_bound_is_certified_by_its_sections(rt: HostRuntime) -> Result<(), Fail> {
    for case in UNCUT {
        check(&rt, case)?;
    }
    Ok(())
}

// With one nested table on a page of 500 columns there are at most 501 searches, and 2,000,000 cuts of
// all of them are 3,992 of each.
#[test]
fn the_default_budget_is_within_the_reach(rt: HostRuntime) -> Result<(), Fail> {
    let alloc = rt.alloc();
    let word = repeated(alloc, "a", 501)?;
    let file = format!(in alloc;
        "<table><tr><td><table><tr><td>{}</table></table>",
        word.as_str()
    )?;
    let case = Case {
        line: "lay 500 t.html p.txt c.txt",
        file: file.as_str(),
        status: 4,
        page: None,
        certificate: Some(
            "tablelayout 1 500 plain 3992\nnarrow 501\nchain 0 0:1\nchain 1 0\nend\n",
        ),
        message: "narrow least 501 width 500\n",
    };
    check(&rt, &case)
}

#[test]
fn a_certificate_names_what_it_was_made_for(rt: HostRuntime) -> Result<(), Fail> {
    let alloc = rt.alloc();
    for (line, wanted) in [
        (
            "lay 12 t.html p.txt c.txt",
            "tablelayout 1 12 plain 5000\nlowest 2\n",
        ),
        (
            "lay 12 t.html p.txt c.txt --budget 6",
            "tablelayout 1 12 plain 6\nlowest 2\n",
        ),
        (
            "lay 12 t.html p.txt c.txt --style frame",
            "tablelayout 1 12 frame 5000\nlowest 4\n",
        ),
        (
            "lay 9 t.html p.txt c.txt --style compact",
            "tablelayout 1 9 compact 5000\nlowest 2\n",
        ),
        (
            "lay 7 t.html p.txt c.txt --solver plain",
            "tablelayout 1 7 plain 5000\nlowest 3\n",
        ),
    ] {
        let mut desk = desk(alloc, TWO.as_bytes(), &[])?;
        let status = status_of(&rt, alloc, line, &mut desk)?;
        let text = held(&desk, "c.txt").unwrap_or(b"");
        let named = text.starts_with(wanted.as_bytes()) && text.ends_with(b"\nend\n");
        assert!(rt; status == 0 && named, "{line}: {status}");
    }
    Ok(())
}

/// Three cuts: the lines of two of the zones have been shrunk to one bound each, and join.
const LEARNT: &str = "tablelayout 1 25 plain 3\nlowest 4\nsection 0 25 4 4 3 3\nwidths 1 1 4 4\n\
     cut 0 0 0\ncut 1 1 0\ncut 3 2 0\n2-8 chain\n2+9 chain\nz0 @0 @1 fired\nend\n";

#[test]
fn a_search_that_learns_writes_lines_of_few_bounds(rt: HostRuntime) -> Result<(), Fail> {
    check(
        &rt,
        &Case {
            line: "lay 25 t.html p.txt c.txt --solver learn --budget 3",
            file: FOUR,
            status: 0,
            page: Some("a  b  c         \na  b  c         \np  q  cccc  dddd\n      cccc  dddd\n"),
            certificate: Some(LEARNT),
            message: "lowest height 4 width 16\n",
        },
    )
}
