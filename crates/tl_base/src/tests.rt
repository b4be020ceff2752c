//! Numbers, lists, texts and the desk in memory, with values counted by hand.

use crate::{
    Desk, DeskFault, Fail, Gate, List, MemoryDesk, NoGate, Text, read_number, write_number,
};
use std::alloc::{AllocError, Global};
use std::collections::BTreeMap;
use std::process::Abort;
use std::test::Fail as Failure;

#[test]
fn a_number_is_read_only_in_its_canonical_form(rt: HostRuntime) {
    for (text, at, want) in [
        ("", 0, None),
        ("0", 0, Some((0, 1))),
        ("7 8", 0, Some((7, 1))),
        ("7 8", 1, None),
        ("7 8", 2, Some((8, 3))),
        ("02", 0, None),
        ("02", 1, Some((2, 2))),
        ("00", 0, None),
        ("+7", 0, None),
        ("-7", 0, None),
        ("x", 0, None),
        ("500x", 0, Some((500, 3))),
        ("18446744073709551615", 0, Some((18446744073709551615, 20))),
        ("18446744073709551616", 0, None),
        ("99999999999999999999999", 0, None),
    ] {
        let bytes = text.as_bytes();
        assert!(rt; at <= bytes.len());
        assert_eq!(rt; read_number(bytes, at), want, "{text:?} at {at}");
    }
}

#[test]
fn a_number_is_appended(rt: HostRuntime) -> Result<(), Failure> {
    let mut out = List::from_slice(rt.alloc(), b"n ")?;
    for n in [0, 7, 10, 18446744073709551615] {
        write_number(rt.alloc(), &mut out, n)?;
        out.push(b' ')?;
    }
    assert_eq!(rt;
        out.as_slice(),
        b"n 0 7 10 18446744073709551615 ".as_slice()
    );
    Ok(())
}

#[test]
fn a_list_and_a_text_hold_what_was_put_in(rt: HostRuntime) -> Result<(), Failure> {
    let mut list: List<Text> = List::new(rt.alloc());
    assert!(rt; list.is_empty());
    list.push(Text::from_str(rt.alloc(), "a\u{4e2d}")?)?;
    assert_eq!(rt; list.len(), 1);
    for text in list.as_slice() {
        assert_eq!(rt; text.as_str(), "a\u{4e2d}");
    }
    NoGate.pass(0);
    Ok(())
}

#[test]
fn a_list_is_iterated_in_order(rt: HostRuntime) -> Result<(), Failure> {
    let list = List::from_slice(rt.alloc(), &[7u32, 1, 4])?;
    let mut seen = List::new(rt.alloc());
    for &item in &list {
        seen.push(item)?;
    }
    assert_eq!(rt; seen.as_slice(), [7, 1, 4].as_slice());
    assert_eq!(rt; list.iter().count(), 3);
    Ok(())
}

#[test]
fn lists_and_texts_are_equal_by_what_they_hold(rt: HostRuntime) -> Result<(), Failure> {
    let string = String::from_str(rt.alloc(), "a\u{e9}\u{4e2d}")?;
    let list = list_of(rt.alloc(), Text::from_str(rt.alloc(), "a\u{e9}\u{4e2d}")?)?;
    let mut other = list_of(rt.alloc(), Text::from_string(string))?;
    assert!(rt; list == other);
    other.push(Text::from_str(rt.alloc(), "")?)?;
    assert!(rt; list != other);
    Ok(())
}

/// The list of one text.
fn list_of(alloc: Global, text: Text) -> Result<List<Text>, Failure> {
    let mut list = List::new(alloc);
    list.push(text)?;
    Ok(list)
}

#[test]
fn a_text_has_its_bytes_and_is_equal_to_no_other(rt: HostRuntime) -> Result<(), Failure> {
    let other = Text::from_str(rt.alloc(), "a\u{4e2d}")?;
    for (text, len, is_empty) in [
        ("", 0, true),
        ("a", 1, false),
        ("a\u{e9}\u{4e2d}", 6, false),
    ] {
        let held = Text::from_str(rt.alloc(), text)?;
        assert_eq!(rt;
            (held.len(), held.is_empty(), held == other),
            (len, is_empty, false),
            "{text:?}"
        );
    }
    Ok(())
}

/// A desk with one file, `in`, that holds `held`.
fn desk_with(alloc: Global, held: &[u8], fails: &[Fail]) -> Result<MemoryDesk, AllocError> {
    let mut files = BTreeMap::new(alloc);
    let name = String::from_str(alloc, "in")?;
    files.insert(name, List::from_slice(alloc, held)?)?;
    Ok(MemoryDesk::new(alloc, files, List::from_slice(alloc, fails)?))
}

#[test]
fn a_desk_in_memory_holds_what_was_stored_and_printed(rt: HostRuntime) -> Result<(), Failure> {
    let mut desk = desk_with(rt.alloc(), b"abcd", &[])?;
    holds_all(&rt, &mut desk)
}

/// Asserts that the desk, whose file `in` holds `abcd`, holds what is stored and printed.
fn holds_all(rt: &impl Abort, desk: &mut MemoryDesk) -> Result<(), Failure> {
    is_loaded(rt, desk, 2, b"abc")?;
    is_loaded(rt, desk, 9, b"abcd")?;
    assert!(rt; matches!(desk.load("out", 9), Err(DeskFault::Failed)));
    store_and_say_twice(desk)?;
    assert_eq!(rt; desk.said(), b"said twice".as_slice());
    let held = desk.files().get("out").ok_or("no file")?;
    assert_eq!(rt; held.as_slice(), b"two".as_slice());
    Ok(())
}

/// Asserts that the file `in` gives these bytes where `most` are read.
fn is_loaded(
    rt: &impl Abort,
    desk: &mut MemoryDesk,
    most: u32,
    wanted: &[u8],
) -> Result<(), Failure> {
    assert_eq!(rt; desk.load("in", most)?.as_slice(), wanted);
    Ok(())
}

/// Stores two files under the name `out`, and prints two texts.
fn store_and_say_twice(desk: &mut MemoryDesk) -> Result<(), Failure> {
    desk.store("out", b"one")?;
    desk.store("out", b"two")?;
    desk.say(b"said ")?;
    desk.say(b"twice")?;
    Ok(())
}

#[test]
fn a_planned_failure_passes_so_many_bytes(rt: HostRuntime) -> Result<(), Failure> {
    let fails = [
        Fail { call: 1, bytes: 2 },
        Fail { call: 2, bytes: 9 },
        Fail { call: 3, bytes: 0 },
    ];
    let mut desk = desk_with(rt.alloc(), b"abcd", &fails)?;
    fails_thrice(&rt, &mut desk)
}

/// Asserts that the desk fails at its second, third and fourth call, after 2, 9 and 0 bytes.
fn fails_thrice(rt: &impl Abort, desk: &mut MemoryDesk) -> Result<(), Failure> {
    desk.say(b"x")?;
    assert!(rt; matches!(desk.store("in", b"wxyz"), Err(DeskFault::Failed)));
    assert!(rt; matches!(desk.say(b"said"), Err(DeskFault::Failed)));
    assert!(rt; matches!(desk.load("in", 9), Err(DeskFault::Failed)));
    is_loaded(rt, desk, 9, b"wx")?;
    assert_eq!(rt; desk.said(), b"xsaid".as_slice());
    Ok(())
}

#[test]
fn long_texts_and_files_are_held_whole(rt: HostRuntime) -> Result<(), Failure> {
    let mut string = String::new(rt.alloc());
    for _ in 0..10_000 {
        string.push_str("seven b")?;
    }
    let text = Text::from_str(rt.alloc(), string.as_str())?;
    assert_eq!(rt; text.len(), 70_000);
    assert!(rt; text == Text::from_string(string));
    let bytes = text.as_str().as_bytes();
    let mut desk = desk_with(rt.alloc(), bytes, &[])?;
    is_held_whole(&rt, &mut desk, bytes)
}

/// Asserts that the desk holds the bytes whole, stored and printed.
fn is_held_whole(rt: &impl Abort, desk: &mut MemoryDesk, bytes: &[u8]) -> Result<(), Failure> {
    desk.store("out", bytes)?;
    desk.say(b"1")?;
    desk.say(bytes)?;
    assert!(rt; desk.load("out", 69_999)?.as_slice() == bytes);
    assert_eq!(rt; desk.said().len(), 70_001);
    Ok(())
}

#[test]
fn a_fault_is_printed_in_the_users_words(rt: HostRuntime) -> Result<(), Failure> {
    let failed = DeskFault::Failed;
    is_printed(&rt, rt.alloc(), failed, "reading or writing failed")?;
    is_printed(
        &rt,
        rt.alloc(),
        DeskFault::from(AllocError),
        "out of memory",
    )
}

/// Asserts that the fault is printed in these words.
fn is_printed(
    rt: &impl Abort,
    alloc: Global,
    fault: DeskFault,
    wanted: &str,
) -> Result<(), Failure> {
    let printed = format!(in alloc; "{fault}")?;
    assert_eq!(rt; printed.as_str(), wanted);
    Ok(())
}
