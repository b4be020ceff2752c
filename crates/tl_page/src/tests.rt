//! Pages drawn by hand.

use crate::line::{Drawn, Room, TextLine};
use crate::owners::Owners;
use crate::paragraph::put_paragraph;
use crate::picture::{Drawing, draw};
use crate::strip::Gaps;
use crate::strips::strips;
use std::alloc::{AllocError, Global};
use std::process::Abort;
use std::test::Fail;
use tl_base::{List, Style};
use tl_sides::Side;
use tl_text::{Atom, Para, least_width, words};

/// A cell with one line of text, each of whose characters takes a column.
fn cell(
    alloc: Global,
    left: u32,
    columns: u32,
    first: u32,
    text: &str,
) -> Result<Drawn, AllocError> {
    let mut lines = List::new(alloc);
    lines.push(TextLine {
        text: List::from_slice(alloc, text.as_bytes())?,
        width: 1,
    })?;
    Ok(Drawn {
        left,
        columns,
        first,
        lines,
    })
}

/// A cell over 2 by 2 slots, one over 2 columns, one over 2 rows, three of one slot, and a cell over 4
/// columns, in a grid of slots of one column and one line each.
fn spanning_cells(alloc: Global, style: Style) -> Result<List<Drawn>, AllocError> {
    let edge = style.edge();
    let step = 1 + style.row_gap();
    let wide = 2 + style.gap();
    let all = 4 + 3 * style.gap();
    let mut cells = List::new(alloc);
    for (left, columns, first, text) in [
        (0, wide, edge, "a"),
        (2, wide, edge, "b"),
        (2, 1, edge + step, "c"),
        (3, 1, edge + step, "d"),
        (0, 1, edge + 2 * step, "e"),
        (3, 1, edge + 2 * step, "f"),
        (0, all, edge + 3 * step, "g"),
    ] {
        cells.push(cell(alloc, left, columns, first, text)?)?;
    }
    Ok(cells)
}

/// A grid of 4 by 4 slots of one column and one line each, with these cells and a slot that none covers.
fn spans(alloc: Global, style: Style) -> Result<Drawing, AllocError> {
    let (a, b, c, d) = (Some(0), Some(1), Some(2), Some(3));
    let (e, f, g) = (Some(4), Some(5), Some(6));
    let slots = [a, a, b, b, a, a, c, d, e, None, c, f, g, g, g, g];
    let edge = style.edge();
    Ok(Drawing {
        style,
        across: strips(alloc, Gaps::even(style.gap()), edge, &[1, 1, 1, 1])?,
        down: strips(alloc, Gaps::even(style.row_gap()), edge, &[1, 1, 1, 1])?,
        owners: Owners {
            cols: 4,
            rows: 4,
            slots: List::from_slice(alloc, &slots)?,
        },
        head: None,
        cells: spanning_cells(alloc, style)?,
    })
}

/// The bytes of lines, each ended by a line feed.
fn joined(alloc: Global, lines: &[List<u8>]) -> Result<List<u8>, AllocError> {
    let mut bytes = List::new(alloc);
    for line in lines {
        bytes.extend_from_slice(line.as_slice())?;
        bytes.push(b'\n')?;
    }
    Ok(bytes)
}

/// Compares the page of the spans with a text.
fn draws(rt: &impl Abort, alloc: Global, style: Style, want: &str) -> Result<(), Fail> {
    let lines = draw(alloc, &spans(alloc, style)?)?;
    let page = joined(alloc, lines.as_slice())?;
    assert_eq!(rt; page.as_slice(), want.as_bytes());
    Ok(())
}

#[test]
fn corners_of_every_kind_are_drawn_between_spans(rt: HostRuntime) -> Result<(), Fail> {
    let want = "\
+---+---+
|a  |b  |
|   +-+-+
|   |c|d|
+-+-+ +-+
|e| | |f|
+-+-+-+-+
|g      |
+-------+
";
    draws(&rt, rt.alloc(), Style::Frame, want)
}

#[test]
fn gaps_are_spaces_in_style_plain(rt: HostRuntime) -> Result<(), Fail> {
    let want = "a     b   \n      c  d\ne        f\ng         \n";
    draws(&rt, rt.alloc(), Style::Plain, want)
}

/// The paragraph of the words of a text, in which a `/` is a forced break.
fn paragraph(alloc: Global, text: &str) -> Result<Para, Fail> {
    let mut atoms = List::new(alloc);
    for word in words(alloc, text)?.into_vec() {
        let ends = word.as_str() == "/";
        atoms.push(if ends { Atom::Break } else { Atom::Word(word) })?;
    }
    match Para::new(atoms) {
        Some(paragraph) => Ok(paragraph),
        None => Err("no paragraph".into()),
    }
}

/// The lines of a paragraph that is cut in the width of its widest word, each with its width.
fn shown(alloc: Global, paragraph: &Para) -> Result<List<u8>, AllocError> {
    let mut lines = List::new(alloc);
    let room = Room {
        columns: least_width(paragraph),
        side: Side::Left,
    };
    put_paragraph(alloc, &mut lines, paragraph, room)?;
    let mut shown = List::new(alloc);
    for line in lines.as_slice() {
        shown.extend_from_slice(line.text.as_slice())?;
        let width = format!(in alloc; ",{} ", line.width)?;
        shown.extend_from_slice(width.as_bytes())?;
    }
    Ok(shown)
}

#[test]
fn lines_of_paragraphs_are_their_units(rt: HostRuntime) -> Result<(), Fail> {
    for (text, want) in [
        ("aa b c", "aa,2 b,1 c,1 "),
        ("a bb ccc d e", "a,1 bb,2 ccc,3 d e,3 "),
        ("aa / / b /", "aa,2 ,0 b,1 "),
        ("\u{4e2d} x", "\u{4e2d},2 x,1 "),
        ("e\u{301} y", "e\u{301},1 y,1 "),
    ] {
        let found = shown(rt.alloc(), &paragraph(rt.alloc(), text)?)?;
        assert_eq!(rt; found.as_slice(), want.as_bytes(), "{text:?}");
    }
    Ok(())
}
