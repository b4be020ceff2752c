//! Pages of small tables, each worked by hand, in text and as HTML.

use crate::tests::{Case, NESTED, ONE, SPANNED, TWO, check, desk, status_of};
use std::test::Fail;

const ROWSPAN: &str = "<table><tr><td rowspan=2>aa bb cc<td>x<tr><td>y</table>";

/// A page has the lines of its lowest layout, each as wide as the page.
const PAGES: &[Case<'static>] = &[
    Case {
        line: "lay 10 t.html p.txt",
        file: "<table></table>",
        status: 0,
        page: Some(""),
        certificate: None,
        message: "lowest height 0 width 0\n",
    },
    Case {
        line: "lay 8 t.html p.txt",
        file: ONE,
        status: 0,
        page: Some("aa bb cc\n"),
        certificate: None,
        message: "lowest height 1 width 8\n",
    },
    Case {
        line: "lay 7 t.html p.txt",
        file: ONE,
        status: 0,
        page: Some("aa bb\ncc   \n"),
        certificate: None,
        message: "lowest height 2 width 5\n",
    },
    Case {
        line: "lay 6 t.html p.txt",
        file: "<table><tr><td>abcdef</table>",
        status: 0,
        page: Some("abcdef\n"),
        certificate: None,
        message: "lowest height 1 width 6\n",
    },
    Case {
        line: "lay 5 t.html p.txt",
        file: "<table><tr><td>abcdef</table>",
        status: 4,
        page: None,
        certificate: None,
        message: "narrow least 6 width 5\n",
    },
    Case {
        line: "lay 12 t.html p.txt",
        file: TWO,
        status: 0,
        page: Some("aaa  cc dd\nbbb  ee   \n"),
        certificate: None,
        message: "lowest height 2 width 10\n",
    },
    Case {
        line: "lay 12 t.html p.txt",
        file: "<table><tr><td>abcdef<td>ghij</table>",
        status: 0,
        page: Some("abcdef  ghij\n"),
        certificate: None,
        message: "lowest height 1 width 12\n",
    },
    Case {
        line: "lay 11 t.html p.txt",
        file: "<table><tr><td>abcdef<td>ghij</table>",
        status: 4,
        page: None,
        certificate: None,
        message: "narrow least 12 width 11\n",
    },
    Case {
        line: "lay 9 t.html p.txt",
        file: SPANNED,
        status: 0,
        page: Some("aaaa   \nbbbb cc\nx  yy  \n"),
        certificate: None,
        message: "lowest height 3 width 7\n",
    },
    Case {
        line: "lay 4 t.html p.txt",
        file: SPANNED,
        status: 4,
        page: None,
        certificate: None,
        message: "narrow least 5 width 4\n",
    },
    Case {
        line: "lay 7 t.html p.txt",
        file: ROWSPAN,
        status: 0,
        page: Some("aa  x\nbb  y\ncc   \n"),
        certificate: None,
        message: "lowest height 3 width 5\n",
    },
    Case {
        line: "lay 8 t.html p.txt",
        file: ROWSPAN,
        status: 0,
        page: Some("aa bb  x\ncc     y\n"),
        certificate: None,
        message: "lowest height 2 width 8\n",
    },
];

#[test]
fn the_lowest_page_is_stored(rt: HostRuntime) -> Result<(), Fail> {
    for case in PAGES {
        check(&rt, case)?;
    }
    Ok(())
}

/// Spans that reach past the table, footers, captions and rows without cells.
const GRIDS: &[Case<'static>] = &[
    Case {
        line: "lay 10 t.html p.txt",
        file: "<table><tr><td colspan=1000>a b<tr><td>c<td rowspan=65534>d</table>",
        status: 0,
        page: Some("a b \nc  d\n"),
        certificate: None,
        message: "lowest height 2 width 4\n",
    },
    Case {
        line: "lay 10 t.html p.txt",
        file: "<table><tr><td colspan=2>a b<tr><td>c<td>d</table>",
        status: 0,
        page: Some("a b \nc  d\n"),
        certificate: None,
        message: "lowest height 2 width 4\n",
    },
    Case {
        line: "lay 40 t.html p.txt",
        file: "<table><tbody>\
         <tr><td colspan=\" 2px\">a b c<td colspan=-1>d<td colspan=0>e<td colspan=+3 colspan=2>f<td rowspan=0>g\
         <tr><td>h<td>i<td>j<td>k<td>l<td>m<td>n</table>",
        status: 0,
        page: Some("a b c  d  e  f        g\nh  i   j  k  l  m  n   \n"),
        certificate: None,
        message: "lowest height 2 width 23\n",
    },
    Case {
        line: "lay 3 t.html p.txt",
        file: "<table><tfoot><tr><td>f</tfoot><tr><td>a<tr><td>b</table>",
        status: 0,
        page: Some("a\nb\nf\n"),
        certificate: None,
        message: "lowest height 3 width 1\n",
    },
    Case {
        line: "lay 3 t.html p.txt",
        file: "<table><tfoot><tr><td>f</tfoot><tr><td rowspan=3>a</table>",
        status: 0,
        page: Some("a\nf\n"),
        certificate: None,
        message: "lowest height 2 width 1\n",
    },
    Case {
        line: "lay 10 t.html p.txt",
        file: "<table><caption>Totals</caption><tr><td>a<td>b</table>",
        status: 0,
        page: Some("Totals\na  b  \n"),
        certificate: None,
        message: "lowest height 2 width 6\n",
    },
];

#[test]
fn a_page_is_laid_out_on_its_grid(rt: HostRuntime) -> Result<(), Fail> {
    for case in GRIDS {
        check(&rt, case)?;
    }
    Ok(())
}

/// A file as a data tool writes it.
const DATAFRAME: &str = "<table border=\"1\" class=\"dataframe\">
  <thead>
    <tr style=\"text-align: right;\">
      <th></th>
      <th>name</th>
      <th>qty</th>
    </tr>
  </thead>
  <tbody>
    <tr>
      <th>0</th>
      <td>red pepper</td>
      <td>12</td>
    </tr>
  </tbody>
</table>
";

/// Breaks, references, floors, and a file with indents.
const TEXTS: &[Case<'static>] = &[
    Case {
        line: "lay 5 t.html p.txt",
        file: "<table><tr><td>a<br><br>b<br></table>",
        status: 0,
        page: Some("a\n \nb\n"),
        certificate: None,
        message: "lowest height 3 width 1\n",
    },
    Case {
        line: "lay 5 t.html p.txt",
        file: "<table><tr><td>a<br><br><p>b<br></table>",
        status: 0,
        page: Some("a\n \nb\n"),
        certificate: None,
        message: "lowest height 3 width 1\n",
    },
    Case {
        line: "lay 11 t.html p.txt",
        file: "<table><tr><td>R & D &amp; x&nbsp;y</table>",
        status: 0,
        page: Some("R & D & x\u{a0}y\n"),
        certificate: None,
        message: "lowest height 1 width 11\n",
    },
    Case {
        line: "lay 7 t.html p.txt",
        file: "<table><tr><td data-min=4>a<td>b</table>",
        status: 0,
        page: Some("a     b\n"),
        certificate: None,
        message: "lowest height 1 width 7\n",
    },
    Case {
        line: "lay 6 t.html p.txt",
        file: "<table><tr><td data-min=4>a<td>b</table>",
        status: 4,
        page: None,
        certificate: None,
        message: "narrow least 7 width 6\n",
    },
    Case {
        line: "lay 20 t.html p.txt",
        file: DATAFRAME,
        status: 0,
        page: Some("   name        qty\n0  red pepper  12 \n"),
        certificate: None,
        message: "lowest height 2 width 18\n",
    },
    Case {
        line: "lay 16 t.html p.txt",
        file: DATAFRAME,
        status: 0,
        page: Some("   name    qty\n0  red     12 \n   pepper     \n"),
        certificate: None,
        message: "lowest height 3 width 14\n",
    },
];

#[test]
fn the_text_of_a_cell_is_whole(rt: HostRuntime) -> Result<(), Fail> {
    for case in TEXTS {
        check(&rt, case)?;
    }
    Ok(())
}

/// A table within a table is laid out at the width of its cell.
const WITHIN: &[Case<'static>] = &[
    Case {
        line: "lay 12 t.html p.txt",
        file: NESTED,
        status: 0,
        page: Some("aaa  cc dd\nbbb  ee   \n"),
        certificate: None,
        message: "lowest height 2 width 10\n",
    },
    Case {
        line: "lay 9 t.html p.txt",
        file: NESTED,
        status: 0,
        page: Some("aaa  cc\nbbb  dd\n     ee\n"),
        certificate: None,
        message: "lowest height 3 width 7\n",
    },
    Case {
        line: "lay 6 t.html p.txt",
        file: NESTED,
        status: 4,
        page: None,
        certificate: None,
        message: "narrow least 7 width 6\n",
    },
    Case {
        line: "lay 12 t.html p.txt --budget 0",
        file: NESTED,
        status: 3,
        page: Some("aaa  cc\nbbb  dd\n     ee\n"),
        certificate: None,
        message: "bounded height 3 lower 2 width 7\n",
    },
    Case {
        line: "lay 80 t.html p.txt --budget 100000",
        file: NESTED,
        status: 6,
        page: None,
        certificate: None,
        message: "limit: reach 8100000\n",
    },
];

#[test]
fn nested_tables_are_laid_out(rt: HostRuntime) -> Result<(), Fail> {
    for case in WITHIN {
        check(&rt, case)?;
    }
    Ok(())
}

/// The upper row has two lines for its last cell. The lower row has one only where both its long cells
/// have 9 columns each, which takes 26 columns with the gaps.
pub const FOUR: &str =
    "<table><tr><td>a a<td>b b<td>c<br>c<tr><td>p<td>q<td>cccc cccc<td>dddd dddd</table>";

/// Where the budget is spent, the page is the lowest found, with a bound that no page is below.
const SPENT: &[Case<'static>] = &[
    Case {
        line: "lay 12 t.html p.txt --budget 0",
        file: TWO,
        status: 3,
        page: Some("aaa  cc\nbbb  dd\n     ee\n"),
        certificate: None,
        message: "bounded height 3 lower 2 width 7\n",
    },
    Case {
        line: "lay 12 t.html p.txt --budget 6",
        file: TWO,
        status: 0,
        page: Some("aaa  cc dd\nbbb  ee   \n"),
        certificate: None,
        message: "lowest height 2 width 10\n",
    },
    Case {
        line: "lay 12 t.html p.txt --budget 0 --solver learn",
        file: TWO,
        status: 3,
        page: Some("aaa  cc\nbbb  dd\n     ee\n"),
        certificate: None,
        message: "bounded height 3 lower 2 width 7\n",
    },
    Case {
        line: "lay 12 t.html p.txt --budget 6 --solver learn",
        file: TWO,
        status: 0,
        page: Some("aaa  cc dd\nbbb  ee   \n"),
        certificate: None,
        message: "lowest height 2 width 10\n",
    },
    Case {
        line: "lay 12 t.html p.txt --budget 0 --solver rounds --workers 2",
        file: TWO,
        status: 3,
        page: Some("aaa  cc\nbbb  dd\n     ee\n"),
        certificate: None,
        message: "bounded height 3 lower 2 width 7\n",
    },
    Case {
        line: "lay 12 t.html p.txt --budget 6 --solver rounds",
        file: TWO,
        status: 0,
        page: Some("aaa  cc dd\nbbb  ee   \n"),
        certificate: None,
        message: "lowest height 2 width 10\n",
    },
    Case {
        line: "lay 25 t.html p.txt --solver plain --budget 3",
        file: FOUR,
        status: 3,
        page: Some("a  b  c         \na  b  c         \np  q  cccc  dddd\n      cccc  dddd\n"),
        certificate: None,
        message: "bounded height 4 lower 3 width 16\n",
    },
];

#[test]
fn a_spent_budget_gives_a_bound(rt: HostRuntime) -> Result<(), Fail> {
    for case in SPENT {
        check(&rt, case)?;
    }
    Ok(())
}

#[test]
fn each_search_finds_the_least_height(rt: HostRuntime) -> Result<(), Fail> {
    for line in [
        "lay 25 t.html p.txt",
        "lay 25 t.html p.txt --budget 16",
        "lay 25 t.html p.txt --solver best",
        "lay 25 t.html p.txt --solver plain",
        "lay 25 t.html p.txt --solver plain --budget 7",
        "lay 25 t.html p.txt --solver learn",
        "lay 25 t.html p.txt --solver learn --budget 3",
        "lay 25 t.html p.txt --solver rounds",
        "lay 25 t.html p.txt --solver rounds --budget 16",
        "lay 25 t.html p.txt --solver rounds --budget 16 --workers 2",
        "lay 25 t.html p.txt --solver rounds --budget 16 --workers 3",
        "lay 25 t.html p.txt --solver rounds --budget 16 --workers 16",
    ] {
        let mut desk = desk(rt.alloc(), FOUR.as_bytes(), &[])?;
        let status = status_of(&rt, rt.alloc(), line, &mut desk)?;
        let lowest = desk.said().starts_with(b"lowest height 4 width ");
        assert!(rt; status == 0 && lowest, "{line}: {status}");
    }
    Ok(())
}
