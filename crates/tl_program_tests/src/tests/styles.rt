//! Pages in a frame, with a head, trimmed, broken inside words, and as HTML, each worked by hand.

use crate::tests::{Case, ONE, SPANNED, TWO, check};
use std::test::Fail;

const BOX: &str = "<table><tr><td colspan=2>abc<tr><td>x<td>y</table>";

/// A frame takes a column or a line at each side and between two cells.
const FRAMES: &[Case<'static>] = &[
    Case {
        line: "lay 12 t.html p.txt --style frame",
        file: TWO,
        status: 0,
        page: Some("+---+-----+\n|aaa|cc dd|\n|bbb|ee   |\n+---+-----+\n"),
        certificate: None,
        message: "lowest height 4 width 11\n",
    },
    Case {
        line: "lay 10 t.html p.txt --style frame",
        file: BOX,
        status: 0,
        page: Some("+---+\n|abc|\n+-+-+\n|x|y|\n+-+-+\n"),
        certificate: None,
        message: "lowest height 5 width 5\n",
    },
    Case {
        line: "lay 5 t.html p.txt --style frame",
        file: BOX,
        status: 0,
        page: Some("+---+\n|abc|\n+-+-+\n|x|y|\n+-+-+\n"),
        certificate: None,
        message: "lowest height 5 width 5\n",
    },
    Case {
        line: "lay 4 t.html p.txt --style frame",
        file: BOX,
        status: 4,
        page: None,
        certificate: None,
        message: "narrow least 5 width 4\n",
    },
    Case {
        line: "lay 10 t.html p.txt --style frame",
        file: "<table></table>",
        status: 0,
        page: Some(""),
        certificate: None,
        message: "lowest height 0 width 0\n",
    },
];

#[test]
fn a_frame_is_drawn(rt: HostRuntime) -> Result<(), Fail> {
    for case in FRAMES {
        check(&rt, case)?;
    }
    Ok(())
}

/// A table of two rows, the first in a `thead`.
const HEADED: &str = "<table><thead><tr><th>ab<th>c<tbody><tr><td>d<td>ee</table>";

/// A table with a caption and a head over two columns.
const TITLED: &str = "<table><caption>cap<tr><th colspan=2>abc<tr><td>x<td>y<tr><td>z<td></table>";

/// In styles grid and box the line under the head differs: between the first rows, which are of header cells
/// or in a `thead`, and the others.
const HEADS: &[Case<'static>] = &[
    Case {
        line: "lay 12 t.html p.txt --style grid",
        file: HEADED,
        status: 0,
        page: Some("+--+--+\n|ab|c |\n+==+==+\n|d |ee|\n+--+--+\n"),
        certificate: None,
        message: "lowest height 5 width 7\n",
    },
    Case {
        line: "lay 12 t.html p.txt --style box",
        file: HEADED,
        status: 0,
        page: Some("┌──┬──┐\n│ab│c │\n╞══╪══╡\n│d │ee│\n└──┴──┘\n"),
        certificate: None,
        message: "lowest height 5 width 7\n",
    },
    Case {
        line: "lay 5 t.html p.txt --style grid",
        file: TITLED,
        status: 0,
        page: Some("+---+\n|cap|\n+---+\n|abc|\n+=+=+\n|x|y|\n+-+-+\n|z| |\n+-+-+\n"),
        certificate: None,
        message: "lowest height 9 width 5\n",
    },
    Case {
        line: "lay 5 t.html p.txt --style box",
        file: TITLED,
        status: 0,
        page: Some("┌───┐\n│cap│\n├───┤\n│abc│\n╞═╤═╡\n│x│y│\n├─┼─┤\n│z│ │\n└─┴─┘\n"),
        certificate: None,
        message: "lowest height 9 width 5\n",
    },
    Case {
        line: "lay 12 t.html p.txt --style grid",
        file: TWO,
        status: 0,
        page: Some("+---+-----+\n|aaa|cc dd|\n|bbb|ee   |\n+---+-----+\n"),
        certificate: None,
        message: "lowest height 4 width 11\n",
    },
    Case {
        line: "lay 80 t.html p.txt --csv --head --style grid",
        file: "a,b\nccc,d\n",
        status: 0,
        page: Some("+---+-+\n|a  |b|\n+===+=+\n|ccc|d|\n+---+-+\n"),
        certificate: None,
        message: "lowest height 5 width 7\n",
    },
    Case {
        line: "lay 80 t.html p.txt --csv --style box",
        file: "a,b\nccc,d\n",
        status: 0,
        page: Some("┌───┬─┐\n│a  │b│\n├───┼─┤\n│ccc│d│\n└───┴─┘\n"),
        certificate: None,
        message: "lowest height 5 width 7\n",
    },
    Case {
        line: "lay 10 t.html p.txt --style box",
        file: "<table></table>",
        status: 0,
        page: Some(""),
        certificate: None,
        message: "lowest height 0 width 0\n",
    },
    Case {
        line: "lay 4 t.html p.txt c.txt --style grid",
        file: "<table><tr><th>ab<th>c</table>",
        status: 4,
        page: None,
        certificate: Some("tablelayout 1 4 grid 5000\nnarrow 6\nchain 0 0 1\nend\n"),
        message: "narrow least 6 width 4\n",
    },
    Case {
        line: "lay 5 t.html p.txt c.txt --style box",
        file: "<table><tr><th>ab<th>c</table>",
        status: 4,
        page: None,
        certificate: Some("tablelayout 1 5 box 5000\nnarrow 6\nchain 0 0 1\nend\n"),
        message: "narrow least 6 width 5\n",
    },
];

#[test]
fn the_line_under_the_head_is_drawn_in_grid_and_box(rt: HostRuntime) -> Result<(), Fail> {
    for case in HEADS {
        check(&rt, case)?;
    }
    Ok(())
}

/// In compact style one column stands between two cells, and no edge beside them.
const COMPACT: &[Case<'static>] = &[
    Case {
        line: "lay 9 t.html p.txt --style compact",
        file: TWO,
        status: 0,
        page: Some("aaa cc dd\nbbb ee   \n"),
        certificate: None,
        message: "lowest height 2 width 9\n",
    },
    Case {
        line: "lay 6 t.html p.txt --style compact",
        file: TWO,
        status: 0,
        page: Some("aaa cc\nbbb dd\n    ee\n"),
        certificate: None,
        message: "lowest height 3 width 6\n",
    },
    Case {
        line: "lay 5 t.html p.txt c.txt --style compact",
        file: TWO,
        status: 4,
        page: None,
        certificate: Some("tablelayout 1 5 compact 5000\nnarrow 6\nchain 0 0 1\nend\n"),
        message: "narrow least 6 width 5\n",
    },
];

#[test]
fn a_compact_page_is_drawn(rt: HostRuntime) -> Result<(), Fail> {
    for case in COMPACT {
        check(&rt, case)?;
    }
    Ok(())
}

/// With `--break any` a line may end between two grapheme clusters of a word.
const INSIDE: &[Case<'static>] = &[
    Case {
        line: "lay 4 t.html p.txt --break any",
        file: "<table><tr><td>abcdef</table>",
        status: 0,
        page: Some("abc\ndef\n"),
        certificate: None,
        message: "lowest height 2 width 3\n",
    },
    Case {
        line: "lay 1 t.html p.txt --break any",
        file: "<table><tr><td>abcdef</table>",
        status: 0,
        page: Some("a\nb\nc\nd\ne\nf\n"),
        certificate: None,
        message: "lowest height 6 width 1\n",
    },
    Case {
        line: "lay 4 t.html p.txt --break words",
        file: "<table><tr><td>abcdef</table>",
        status: 4,
        page: None,
        certificate: None,
        message: "narrow least 6 width 4\n",
    },
    Case {
        line: "lay 4 t.html p.txt --break any",
        file: "<table><tr><td>aa bb</table>",
        status: 0,
        page: Some("aa\nbb\n"),
        certificate: None,
        message: "lowest height 2 width 2\n",
    },
    Case {
        line: "lay 5 t.html p.txt --break any",
        file: "<table><tr><td>aa bb</table>",
        status: 0,
        page: Some("aa bb\n"),
        certificate: None,
        message: "lowest height 1 width 5\n",
    },
    Case {
        line: "lay 1 t.html p.txt --break any",
        file: "<table><tr><td>e\u{301}e\u{301}</table>",
        status: 0,
        page: Some("e\u{301}\ne\u{301}\n"),
        certificate: None,
        message: "lowest height 2 width 1\n",
    },
    Case {
        line: "lay 1 t.html p.txt --break any",
        file: "<table><tr><td>\u{4e2d}</table>",
        status: 4,
        page: None,
        certificate: None,
        message: "narrow least 2 width 1\n",
    },
];

#[test]
fn with_break_any_lines_end_between_grapheme_clusters(rt: HostRuntime) -> Result<(), Fail> {
    for case in INSIDE {
        check(&rt, case)?;
    }
    Ok(())
}

/// As HTML a page names the width of each column, and a cell once with its spans.
const MARKUP: &[Case<'static>] = &[
    Case {
        line: "lay 8 t.html p.txt --html",
        file: ONE,
        status: 0,
        page: Some(
            "<table>\n<colgroup><col style=\"width:8ch\"></colgroup>\n<tr><td><p>aa bb cc</p></td></tr>\n</table>\n",
        ),
        certificate: None,
        message: "lowest height 1 width 8\n",
    },
    Case {
        line: "lay 9 t.html p.txt --html",
        file: SPANNED,
        status: 0,
        page: Some(
            "<table>\n<colgroup><col style=\"width:1ch\"><col style=\"width:4ch\"></colgroup>\n\
             <tr><td colspan=\"2\"><p>aaaa bbbb cc</p></td></tr>\n\
             <tr><td><p>x</p></td><td><p>yy</p></td></tr>\n</table>\n",
        ),
        certificate: None,
        message: "lowest height 3 width 7\n",
    },
    Case {
        line: "lay 12 t.html p.txt --html --style frame",
        file: TWO,
        status: 0,
        page: Some(
            "<table>\n<colgroup><col style=\"width:3ch\"><col style=\"width:5ch\"></colgroup>\n\
             <tr><td><p>aaa bbb</p></td><td><p>cc dd ee</p></td></tr>\n</table>\n",
        ),
        certificate: None,
        message: "lowest height 4 width 11\n",
    },
    Case {
        line: "lay 10 t.html p.txt --html",
        file: "<table></table>",
        status: 0,
        page: Some("<table>\n</table>\n"),
        certificate: None,
        message: "lowest height 0 width 0\n",
    },
    Case {
        line: "lay 5 t.html p.txt --html",
        file: "<table><tr><td>abcdef</table>",
        status: 4,
        page: None,
        certificate: None,
        message: "narrow least 6 width 5\n",
    },
];

#[test]
fn an_html_page_is_stored(rt: HostRuntime) -> Result<(), Fail> {
    for case in MARKUP {
        check(&rt, case)?;
    }
    Ok(())
}

/// In styles rule and apart the only line stands under the head, with a space in each gap; in style apart an
/// empty line stands between any two rows below it, through which a cell over both rows goes on.
const RULED: &[Case<'static>] = &[
    Case {
        line: "lay 12 t.html p.txt --style rule",
        file: HEADED,
        status: 0,
        page: Some("ab c \n-- --\nd  ee\n"),
        certificate: None,
        message: "lowest height 3 width 5\n",
    },
    Case {
        line: "lay 5 t.html p.txt --style rule",
        file: TITLED,
        status: 0,
        page: Some("cap\nabc\n- -\nx y\nz  \n"),
        certificate: None,
        message: "lowest height 5 width 3\n",
    },
    Case {
        line: "lay 5 t.html p.txt --style apart",
        file: TITLED,
        status: 0,
        page: Some("cap\nabc\n- -\nx y\n   \nz  \n"),
        certificate: None,
        message: "lowest height 6 width 3\n",
    },
    Case {
        line: "lay 12 t.html p.txt --style rule",
        file: TWO,
        status: 0,
        page: Some("aaa cc dd\nbbb ee   \n"),
        certificate: None,
        message: "lowest height 2 width 9\n",
    },
    Case {
        line: "lay 1 t.html p.txt --style apart",
        file: "<table><tr><td>a<tr><td>b c</table>",
        status: 0,
        page: Some("a\n \nb\nc\n"),
        certificate: None,
        message: "lowest height 4 width 1\n",
    },
    Case {
        line: "lay 3 t.html p.txt --style apart",
        file: "<table><tr><td rowspan=2>a b c<td>x<tr><td>y</table>",
        status: 0,
        page: Some("a x\nb  \nc y\n"),
        certificate: None,
        message: "lowest height 3 width 3\n",
    },
    Case {
        line: "tidy 80 t.html p.txt --csv --head --style apart",
        file: "a,b\nccc,d\ne,f\n",
        status: 0,
        page: Some("a   b\n--- -\nccc d\n     \ne   f\n"),
        certificate: None,
        message: "tidy height 5 width 5\n",
    },
    Case {
        line: "narrow 3 t.html p.txt --style rule",
        file: HEADED,
        status: 0,
        page: Some("ab c \n-- --\nd  ee\n"),
        certificate: None,
        message: "slimmest width 5 height 3\n",
    },
    Case {
        line: "lay 3 t.html p.txt c.txt --style apart",
        file: "<table><tr><th>ab<th>c</table>",
        status: 4,
        page: None,
        certificate: Some("tablelayout 1 3 apart 5000\nnarrow 4\nchain 0 0 1\nend\n"),
        message: "narrow least 4 width 3\n",
    },
];

#[test]
fn a_line_stands_under_the_head_and_rows_stand_apart(rt: HostRuntime) -> Result<(), Fail> {
    for case in RULED {
        check(&rt, case)?;
    }
    Ok(())
}

/// Lines of cells stand at the sides that are asked for. Nothing else changes.
const SIDED: &[Case<'static>] = &[
    Case {
        line: "lay 12 t.html p.txt --style compact --align l,r",
        file: TWO,
        status: 0,
        page: Some("aaa cc dd\nbbb    ee\n"),
        certificate: None,
        message: "lowest height 2 width 9\n",
    },
    Case {
        line: "lay 80 t.html p.txt --csv --head --style rule --align auto",
        file: "a,bb\nx,10\nyy,9\n",
        status: 0,
        page: Some("a  bb\n-- --\nx  10\nyy  9\n"),
        certificate: None,
        message: "lowest height 4 width 5\n",
    },
    Case {
        line: "lay 80 t.html p.txt --csv --style compact --align auto",
        file: "a,-\n10,9\n",
        status: 0,
        page: Some("a  -\n10 9\n"),
        certificate: None,
        message: "lowest height 2 width 4\n",
    },
    Case {
        line: "lay 80 t.html p.txt --style compact --align cells",
        file: "<table><tr><th align=center>a<th>bbb<tr><td>long<td align=Left>1<tr><td colspan=2 align=right>cc</table>",
        status: 0,
        page: Some(" a   bbb\nlong 1  \n      cc\n"),
        certificate: None,
        message: "lowest height 3 width 8\n",
    },
    Case {
        line: "lay 80 t.html p.txt --csv --style compact --align c",
        file: "abc,d\nx,e\nyz,f\n",
        status: 0,
        page: Some("abc d\n x  e\nyz  f\n"),
        certificate: None,
        message: "lowest height 3 width 5\n",
    },
    Case {
        line: "tidy 20 t.html p.txt --align r --trim",
        file: "<table><tr><td>aa<td>bbb<tr><td>c<td>d<tr><td>ee</table>",
        status: 0,
        page: Some("aa  bbb\n c  d\nee\n"),
        certificate: None,
        message: "tidy height 3 width 7\n",
    },
    Case {
        line: "narrow 3 t.html p.txt --style compact --align r",
        file: TWO,
        status: 0,
        page: Some("aaa cc\nbbb dd\n    ee\n"),
        certificate: None,
        message: "slimmest width 6 height 3\n",
    },
];

#[test]
fn lines_of_cells_stand_at_their_sides(rt: HostRuntime) -> Result<(), Fail> {
    for case in SIDED {
        check(&rt, case)?;
    }
    Ok(())
}

/// With `--trim` lines end without spaces. Nothing else changes: neither the layout nor the numbers.
const TRIMMED: &[Case<'static>] = &[
    Case {
        line: "lay 10 t.html p.txt --trim",
        file: TWO,
        status: 0,
        page: Some("aaa  cc dd\nbbb  ee\n"),
        certificate: None,
        message: "lowest height 2 width 10\n",
    },
    Case {
        line: "narrow 3 t.html p.txt --trim --style compact",
        file: TWO,
        status: 0,
        page: Some("aaa cc\nbbb dd\n    ee\n"),
        certificate: None,
        message: "slimmest width 6 height 3\n",
    },
    Case {
        line: "tidy 20 t.html p.txt --trim",
        file: "<table><tr><td>aa<td>bbb<tr><td>c<td>d<tr><td>ee</table>",
        status: 0,
        page: Some("aa  bbb\nc   d\nee\n"),
        certificate: None,
        message: "tidy height 3 width 7\n",
    },
    Case {
        line: "lay 7 t.html p.txt --trim --style compact",
        file: "<table><tr><td>a<td rowspan=2>b c<tr><td><tr><td>d<td>e</table>",
        status: 0,
        page: Some("a b c\nd e\n"),
        certificate: None,
        message: "lowest height 2 width 5\n",
    },
    Case {
        line: "lay 12 t.html p.txt --trim --style frame",
        file: TWO,
        status: 0,
        page: Some("+---+-----+\n|aaa|cc dd|\n|bbb|ee   |\n+---+-----+\n"),
        certificate: None,
        message: "lowest height 4 width 11\n",
    },
    Case {
        line: "lay 10 t.html p.txt --trim --html",
        file: TWO,
        status: 0,
        page: Some(
            "<table>\n<colgroup><col style=\"width:3ch\"><col style=\"width:5ch\"></colgroup>\n\
             <tr><td><p>aaa bbb</p></td><td><p>cc dd ee</p></td></tr>\n</table>\n",
        ),
        certificate: None,
        message: "lowest height 2 width 10\n",
    },
    Case {
        line: "lay 4 t.html p.txt c.txt --trim",
        file: SPANNED,
        status: 4,
        page: None,
        certificate: Some("tablelayout 1 4 plain 5000\nnarrow 5\nchain 0 1 2\nend\n"),
        message: "narrow least 5 width 4\n",
    },
];

#[test]
fn a_trimmed_page_is_stored(rt: HostRuntime) -> Result<(), Fail> {
    for case in TRIMMED {
        check(&rt, case)?;
    }
    Ok(())
}
