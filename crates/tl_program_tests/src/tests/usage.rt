//! Command lines: those that ask for nothing, and options in any order. tl_command has the whole tables.

use crate::tests::{Case, ONE, TWO, check, desk, held, status_of};
use std::test::Fail;

/// Each asks for nothing, for another reason.
const INVALID: &[&str] = &[
    "",
    "lay",
    "lie 7 t.html p.txt",
    "tablelayout lay 7 t.html p.txt",
    "lay 7 t.html",
    "lay 7 t.html p.txt c.txt d.txt",
    "lay 501 t.html p.txt",
    "lay 07 t.html p.txt",
    "lay 7  p.txt",
    "lay 7 t.html t.html",
    "lay --html 7 t.html p.txt",
    "lay 7 t.html p.txt --html --html",
    "lay 7 t.html p.txt --style none",
    "lay 7 t.html p.txt --budget 100001",
    "check 7 t.html c.txt --html",
    "check 7 t.html c.txt d.txt",
    "demo",
    "demo 7 t.html",
];

#[test]
fn invalid_arguments_print_the_usage(rt: HostRuntime) -> Result<(), Fail> {
    for line in INVALID {
        check(
            &rt,
            &Case {
                line,
                file: TWO,
                status: 2,
                page: None,
                certificate: None,
                message: "usage\n",
            },
        )?;
    }
    Ok(())
}

#[test]
fn options_come_in_any_order(rt: HostRuntime) -> Result<(), Fail> {
    for line in [
        "lay 12 t.html p.txt",
        "lay 12 t.html p.txt --budget 6 --solver plain",
        "lay 12 t.html p.txt --solver plain --budget 6",
        "lay 12 t.html p.txt --break words --style plain",
        "lay 12 t.html p.txt --budget 100000 --break words --solver best --style plain",
        "lay 12 t.html p.txt --style plain --solver best --break words --budget 100000",
    ] {
        check(
            &rt,
            &Case {
                line,
                file: TWO,
                status: 0,
                page: Some("aaa  cc dd\nbbb  ee   \n"),
                certificate: None,
                message: "lowest height 2 width 10\n",
            },
        )?;
    }
    Ok(())
}

// The positions come first, so an argument in their place is a name, however it begins.
#[test]
fn a_position_may_look_like_an_option(rt: HostRuntime) -> Result<(), Fail> {
    let alloc = rt.alloc();
    let mut desk = desk(alloc, ONE.as_bytes(), &[])?;
    let laid = status_of(&rt, alloc, "lay 8 t.html --html", &mut desk)?;
    let read = status_of(&rt, alloc, "lay 7 --html p.txt", &mut desk)?;
    let page = Some(b"aa bb cc\n".as_slice());
    let message: &[u8] = b"lowest height 1 width 8\nbad input: stray text at 0\n";
    assert_eq!(rt;
        (
            laid,
            held(&desk, "--html"),
            read,
            held(&desk, "p.txt"),
            desk.said()
        ),
        (0, page, 5, None, message)
    );
    Ok(())
}
