//! Bytes that nobody should send: each proper prefix of a file, files and certificates with one byte replaced,
//! and files whose tables are far larger than their bytes.

use crate::tests::checks::{CLOSED, LINE};
use crate::tests::limits::{Built, check_built, check_page};
use crate::tests::{TWO, add, check_refused, held, status_of};
use std::alloc::{AllocError, Global};
use std::collections::BTreeMap;
use std::process::Abort;
use std::test::Fail;
use std::thread::Threads;
use tl_base::{List, MemoryDesk};

/// Where the tags of `TWO` begin and end.
const TAGS: [(usize, usize); 5] = [(0, 7), (7, 11), (11, 15), (22, 26), (34, 42)];

/// What is printed of the first bytes of `TWO`: where its last tag begins, if that has no end, and otherwise
/// where the file ends.
fn cut_message(alloc: Global, length: usize) -> Result<String, AllocError> {
    for (start, end) in TAGS {
        if start < length && length < end {
            return format!(in alloc; "bad input: unended tag at {start}\n");
        }
    }
    let kind = if length == 0 {
        "no table"
    } else {
        "unclosed table"
    };
    format!(in alloc; "bad input: {kind} at {length}\n")
}

/// The first bytes of `TWO` are refused by this command line.
fn check_cut(
    rt: &(impl Abort + AllocGlobal + Threads + Sync),
    line: &str,
    length: usize,
) -> Result<(), Fail> {
    let message = cut_message(rt.alloc(), length)?;
    let cut = TWO.as_bytes().get(..length).unwrap_or(b"");
    check_refused(rt, line, cut, 5, message.as_str())
}

#[test]
fn each_proper_prefix_of_a_file_is_refused_where_it_ends(rt: HostRuntime) -> Result<(), Fail> {
    for line in [
        "lay 12 t.html p.txt c.txt",
        "narrow 2 t.html p.txt c.txt",
        "tidy 12 t.html p.txt c.txt",
        "check 12 t.html c.txt",
    ] {
        for length in 0..TWO.len() {
            check_cut(&rt, line, length)?;
        }
    }
    Ok(())
}

// A record that is cut off within its first field is uneven, and a table that is cut off after a field is a
// table.
#[test]
fn each_prefix_of_a_csv_file_is_a_table_or_has_an_uneven_record(
    rt: HostRuntime,
) -> Result<(), Fail> {
    let alloc = rt.alloc();
    let file = b"a,b\nccc,d\n";
    for (length, wanted) in [0, 0, 0, 0, 0, 5, 5, 5, 0, 0, 0].into_iter().enumerate() {
        let mut files = BTreeMap::new(alloc);
        add(
            alloc,
            &mut files,
            "t.html",
            file.get(..length).unwrap_or(file),
        )?;
        let mut desk = MemoryDesk::new(alloc, files, List::new(alloc));
        let status = status_of(&rt, alloc, "lay 12 t.html p.txt --csv", &mut desk)?;
        assert_eq!(rt; status, wanted, "{length}");
    }
    Ok(())
}

/// The bytes with another one at this place.
fn replaced(alloc: Global, bytes: &[u8], place: usize, byte: u8) -> Result<Vec<u8>, AllocError> {
    let mut bytes = bytes.to_vec(alloc)?;
    if let Some(changed) = bytes.get_mut(place) {
        *changed = byte;
    }
    Ok(bytes)
}

/// A desk whose files hold these bytes.
fn desk_of(alloc: Global, table: &[u8], certificate: &[u8]) -> Result<MemoryDesk, AllocError> {
    let mut files = BTreeMap::new(alloc);
    add(alloc, &mut files, "t.html", table)?;
    add(alloc, &mut files, "c.txt", certificate)?;
    Ok(MemoryDesk::new(alloc, files, List::new(alloc)))
}

/// The certificate with another byte at this place is rejected, and all files stay.
fn check_replaced(
    rt: &(impl Abort + AllocGlobal + Threads + Sync),
    place: usize,
    byte: u8,
) -> Result<(), Fail> {
    let alloc = rt.alloc();
    let text = replaced(alloc, CLOSED.as_bytes(), place, byte)?;
    if text.as_slice() == CLOSED.as_bytes() {
        return Ok(());
    }
    let mut desk = desk_of(alloc, TWO.as_bytes(), &text)?;
    let status = status_of(rt, alloc, LINE, &mut desk)?;
    let stays = held(&desk, "c.txt") == Some(text.as_slice()) && desk.files().len() == 2;
    let told = desk.said().starts_with(b"rejected: ");
    assert!(rt; status == 10 && stays && told, "{place} {byte}: {status}");
    Ok(())
}

#[test]
fn a_certificate_with_one_byte_replaced_is_rejected(rt: HostRuntime) -> Result<(), Fail> {
    for place in 0..CLOSED.len() {
        for byte in *b"09z \n" {
            check_replaced(&rt, place, byte)?;
        }
    }
    Ok(())
}

/// The file with another byte at this place is laid out, refused or too wide, and only what the status says
/// is stored.
fn check_file(
    rt: &(impl Abort + AllocGlobal + Threads + Sync),
    place: usize,
    byte: u8,
) -> Result<(), Fail> {
    let alloc = rt.alloc();
    let table = replaced(alloc, TWO.as_bytes(), place, byte)?;
    let mut desk = desk_of(alloc, &table, b"before")?;
    let status = status_of(rt, alloc, "lay 12 t.html p.txt c.txt", &mut desk)?;
    let page = held(&desk, "p.txt").is_some();
    let stays = held(&desk, "c.txt") == Some(b"before".as_slice());
    assert!(rt;
        matches!(
            (status, page, stays),
            (0, true, false) | (4, false, false) | (5, false, true)
        ),
        "{place} {byte}: {status}"
    );
    Ok(())
}

#[test]
fn a_file_with_one_byte_replaced_is_laid_out_or_refused(rt: HostRuntime) -> Result<(), Fail> {
    for place in 0..TWO.len() {
        for byte in *b"<>&/ \0\xff" {
            check_file(&rt, place, byte)?;
        }
    }
    Ok(())
}

#[test]
fn a_row_of_20000_cells_over_1000_columns_each_is_refused(rt: HostRuntime) -> Result<(), Fail> {
    let row = Built {
        start: "<table><tr>",
        text: "<td colspan=1000>",
        times: 20_000,
        end: "</table>",
    };
    check_built(
        &rt,
        "lay 5 t.html p.txt c.txt",
        &row,
        6,
        "limit: columns 20000\n",
    )
}

// Each of the rows is covered by the cell, and no other begins there.
#[test]
fn a_cell_over_100000_rows_has_one_line(rt: HostRuntime) -> Result<(), Fail> {
    let rows = Built {
        start: "<table><tr><td rowspan=0 colspan=1000>a",
        text: "<tr>",
        times: 100_000,
        end: "</table>",
    };
    let message = "lowest height 1 width 1\n";
    check_page(
        &rt,
        "lay 5 t.html p.txt",
        &rows,
        &Built::just("a\n"),
        message,
    )
}
