//! Words that are too wide: with a number, and with as few of them as can be, over a desk. The pages are counted by
//! hand.

use crate::tests::{Case, check};
use std::test::Fail;

/// A word of 10 columns, with the parts `src/`, `lib.` and `rt`.
const PATH: &str = "<table><tr><td>src/lib.rt</table>";

/// A number of 8 columns, which has one part.
const NUMBER: &str = "<table><tr><td>1.234,56</table>";

/// The path on a page that is one column too narrow for it.
const PARTED: Case<'static> = Case {
    line: "lay 9 t.html p.txt --break 9",
    file: PATH,
    status: 0,
    page: Some("src/  \nlib.rt\n"),
    certificate: None,
    message: "lowest height 2 width 6\n",
};

/// Words of at most so many columns stay whole.
const NUMBERS: &[Case<'static>] = &[
    Case {
        line: "lay 10 t.html p.txt --break 10",
        page: Some("src/lib.rt\n"),
        message: "lowest height 1 width 10\n",
        ..PARTED
    },
    // Parts stand on one line where they have room.
    Case {
        line: "lay 10 t.html p.txt --break 9",
        page: Some("src/lib.rt\n"),
        message: "lowest height 1 width 10\n",
        ..PARTED
    },
    PARTED,
    Case {
        line: "lay 5 t.html p.txt --break 4",
        page: Some("src/\nlib.\nrt  \n"),
        message: "lowest height 3 width 4\n",
        ..PARTED
    },
    Case {
        line: "lay 3 t.html p.txt --break 3",
        page: Some("src\n/li\nb. \nrt \n"),
        message: "lowest height 4 width 3\n",
        ..PARTED
    },
    Case {
        line: "lay 3 t.html p.txt --break 4",
        status: 4,
        page: None,
        message: "narrow least 4 width 3\n",
        ..PARTED
    },
    Case {
        line: "lay 7 t.html p.txt --break 8",
        file: NUMBER,
        status: 4,
        page: None,
        message: "narrow least 8 width 7\n",
        ..PARTED
    },
    Case {
        line: "lay 7 t.html p.txt --break 7",
        file: NUMBER,
        page: Some("1.23\n4,56\n"),
        message: "lowest height 2 width 4\n",
        ..PARTED
    },
];

#[test]
fn words_of_at_most_so_many_columns_stay_whole(rt: HostRuntime) -> Result<(), Fail> {
    for case in NUMBERS {
        check(&rt, case)?;
    }
    Ok(())
}

/// As few words as can be break, and the message says how wide those are that do not.
const FITTED: &[Case<'static>] = &[
    Case {
        line: "lay 10 t.html p.txt --break fit",
        page: Some("src/lib.rt\n"),
        message: "lowest height 1 width 10\n",
        ..PARTED
    },
    Case {
        line: "lay 9 t.html p.txt --break fit",
        message: "lowest height 2 width 6 break 9\n",
        ..PARTED
    },
    // With 5 to 9 the parts are the same, with 4 too: the greatest number is taken.
    Case {
        line: "lay 5 t.html p.txt --break fit",
        page: Some("src/\nlib.\nrt  \n"),
        message: "lowest height 3 width 4 break 9\n",
        ..PARTED
    },
    Case {
        line: "lay 3 t.html p.txt --break fit",
        page: Some("src\n/li\nb. \nrt \n"),
        message: "lowest height 4 width 3 break 3\n",
        ..PARTED
    },
    Case {
        line: "lay 1 t.html p.txt --break fit",
        page: Some("s\nr\nc\n/\nl\ni\nb\n.\nr\nt\n"),
        message: "lowest height 10 width 1 break 1\n",
        ..PARTED
    },
    // The number beside it has room, and stays whole.
    Case {
        line: "lay 17 t.html p.txt --break fit",
        file: "<table><tr><td>12,345<td>abcdefghij</table>",
        page: Some("12,345  abcde\n        fghij\n"),
        message: "lowest height 2 width 13 break 9\n",
        ..PARTED
    },
    // One cluster of two columns has none.
    Case {
        line: "lay 1 t.html p.txt c.txt --break fit",
        file: "<table><tr><td>\u{4E2D}</table>",
        status: 4,
        page: None,
        certificate: Some("tablelayout 1 1 plain 5000\nnarrow 2\nchain 0 0\nend\n"),
        message: "narrow least 2 width 1\n",
    },
    // A file that is none has its refusal.
    Case {
        line: "lay 3 t.html p.txt --break fit",
        file: "x<table></table>",
        status: 5,
        page: None,
        message: "bad input: stray text at 0\n",
        ..PARTED
    },
    Case {
        line: "lay 9 t.html p.txt --csv --least 12 --break fit",
        file: "src/lib.rt\n",
        status: 4,
        page: None,
        message: "narrow least 12 width 9\n",
        ..PARTED
    },
    Case {
        line: "lay 9 t.html p.txt --csv --break fit",
        file: "src/lib.rt\n",
        message: "lowest height 2 width 6 break 9\n",
        ..PARTED
    },
    Case {
        line: "tidy 9 t.html p.txt --break fit",
        message: "tidy height 2 width 6 break 9\n",
        ..PARTED
    },
    // The widest page that `narrow` may have holds the word whole.
    Case {
        line: "narrow 1 t.html p.txt --break fit",
        page: Some("src/lib.rt\n"),
        message: "slimmest width 10 height 1\n",
        ..PARTED
    },
];

#[test]
fn as_few_words_as_can_be_break(rt: HostRuntime) -> Result<(), Fail> {
    for case in FITTED {
        check(&rt, case)?;
    }
    Ok(())
}
