//! Bytes that come, and the requests that are taken of them.

use crate::{Arrival, receive_request};
use std::alloc::{AllocError, Global};
use std::io;
use std::test::Fail;
use tl_exchange::{Exchange, Streams};

/// Bytes that come, and of the request that is taken the command line, the file, the certificate and the bytes that are
/// left, with `|` before each of these three.
const REQUESTS: &[(&str, &str)] = &[
    ("", "none|"),
    ("lay 7 3\nabcde", "lay 7 in page|abc||de"),
    ("lay 1 0\n", "lay 1 in page|||"),
    ("lay 500 4\na\n\nb\n", "lay 500 in page|a\n\nb||\n"),
    ("lay 7 2\nä3", "lay 7 in page|ä||3"),
    ("lay 7 --cert 1\na", "lay 7 in page cert|a||"),
    (
        "lay 7 --style frame --budget 5 1\na",
        "lay 7 in page --style frame --budget 5|a||",
    ),
    (
        "lay 7 --style frame --cert --html 10\n<p>\n</p>\n\n",
        "lay 7 in page cert --style frame --html|<p>\n</p>\n\n||",
    ),
    ("narrow 0 1\nab", "narrow 0 in page|a||b"),
    (
        "narrow 1073741824 --html --cert 1\na",
        "narrow 1073741824 in page cert --html|a||",
    ),
    (
        "tidy 7 --solver best 1\na",
        "tidy 7 in page --solver best|a||",
    ),
    (
        "tidy 7 --cert --csv --head --least 1,2 4\na,b\n",
        "tidy 7 in page cert --csv --head --least 1,2|a,b\n||",
    ),
    ("check 7 3 2\nabcdef", "check 7 in page|abc|de|f"),
    ("check 7 0 1\nabc", "check 7 in page||a|bc"),
    ("check 7 1 0\nabc", "check 7 in page|a||bc"),
    (
        "check 80 --csv --workers 2 3 3\na,bcut",
        "check 80 in page --csv --workers 2|a,b|cut|",
    ),
];

/// Bytes that are no request, or end in one.
const NO_REQUESTS: &[&[u8]] = &[
    b"\n",
    b"\nlay 7 3\nabc",
    b"3\nabc",
    b"lay\n",
    b"lay 7\n",
    b"lay 7 3",
    b"lay 7 \nabc",
    b"lay 7  3\nabc",
    b" lay 7 3\nabc",
    b"lay 7 3 \nabc",
    b"lay 7 3\r\nabc",
    b"lay\t7 3\nabc",
    b"lay 7 03\nabc",
    b"lay 7 +3\nabc",
    b"lay 7 4294967296\nabc",
    b"lay 07 3\nabc",
    b"lay 0 3\nabc",
    b"lay 501 3\nabc",
    b"narrow 1073741825 3\nabc",
    b"tidy 0 3\nabc",
    b"check 501 1 2\nabc",
    b"lie 7 3\nabc",
    b"LAY 7 3\nabc",
    b"--cert lay 7 3\nabc",
    b"lay --cert 7 3\nabc",
    b"lay 7 --stlye frame 3\nabc",
    b"lay 7 --style 3\nabc",
    b"lay 7 --html --html 3\nabc",
    b"lay 7 --head 3\nabc",
    b"lay 7 in page 3\nabc",
    b"lay 7 x 3\nabc",
    b"lay 7 3 3\nabc",
    b"lay 7 --cert x 3\nabc",
    b"narrow 7 x y z 3\nabc",
    b"tidy 7 x --cert 3\nabc",
    b"check 7 --cert 1 2\nabc",
    b"check 7 --html 1 2\nabc",
    b"check 7 3\nabc",
    b"check 7 01 2\nabc",
    b"check 7 1 02\nabc",
    b"demo 5\n",
    b"demo 5 0\n",
    b"lay 7 3\nab",
    b"lay 7 4294967295\nab",
    b"check 7 3 2\nab",
    b"check 7 3 2\nabcd",
    b"lay 7 \xff 3\nabc",
    b"l\xe4y 7 3\nabc",
];

/// Appends the bytes after `|`; of a file for which there is no memory `?`.
fn tell(told: &mut Vec<u8>, bytes: Option<Vec<u8>>) -> Result<(), AllocError> {
    told.push(b'|')?;
    match bytes {
        Some(bytes) => told.extend_from_slice(bytes.as_slice()),
        None => told.extend_from_slice(b"?"),
    }
}

/// A command line and the files of a request, as above.
fn taken(alloc: Global, arrival: Arrival) -> Result<Vec<u8>, AllocError> {
    let Arrival { words, file, text } = arrival;
    let mut told = Vec::new(alloc);
    for word in words.as_slice() {
        if !told.is_empty() {
            told.push(b' ')?;
        }
        told.extend_from_slice(word.as_bytes())?;
    }
    tell(&mut told, file)?;
    tell(&mut told, text)?;
    Ok(told)
}

/// The next request, as above, `none`, or why none is taken.
fn next(alloc: Global, exchange: &mut impl Exchange) -> Result<Vec<u8>, AllocError> {
    let mut told = Vec::new(alloc);
    match receive_request(alloc, exchange) {
        Ok(Some(arrival)) => return taken(alloc, arrival),
        Ok(None) => told.extend_from_slice(b"none")?,
        Err(error) => told.extend_from_slice(format!(in alloc; "{error}")?.as_bytes())?,
    }
    Ok(told)
}

/// The next request, and after `|` the bytes that are left, of which there are at most 8.
fn first(alloc: Global, bytes: &[u8]) -> Result<Vec<u8>, AllocError> {
    let mut exchange = Streams::new(bytes, io::sink());
    let mut told = next(alloc, &mut exchange)?;
    let mut left = [b'?'; 8];
    let count = exchange.receive(&mut left).unwrap_or(0);
    told.push(b'|')?;
    told.extend_from_slice(left.get(..count).unwrap_or(b"?"))?;
    Ok(told)
}

#[test]
fn a_request_is_taken_with_its_files_and_no_byte_more(rt: HostRuntime) -> Result<(), Fail> {
    for (bytes, wanted) in REQUESTS {
        let told = first(rt.alloc(), bytes.as_bytes())?;
        assert_eq!(rt; told.as_slice(), wanted.as_bytes(), "of {bytes}");
    }
    Ok(())
}

#[test]
fn bytes_that_are_no_request_are_cut_off(rt: HostRuntime) -> Result<(), Fail> {
    for bytes in NO_REQUESTS {
        let told = next(rt.alloc(), &mut Streams::new(*bytes, io::sink()))?;
        assert_eq!(rt; told.as_slice(), b"cut off".as_slice(), "of {bytes:?}");
    }
    Ok(())
}

/// What is taken by three calls, one after the other, with a line feed after each.
fn three(alloc: Global, bytes: &str) -> Result<Vec<u8>, AllocError> {
    let mut exchange = Streams::new(bytes.as_bytes(), io::sink());
    let mut told = Vec::new(alloc);
    for _ in 0..3 {
        told.extend_from_slice(next(alloc, &mut exchange)?.as_slice())?;
        told.push(b'\n')?;
    }
    Ok(told)
}

/// Bytes that come, and what is taken by three calls.
const MANY: &[(&str, &str)] = &[
    (
        "lay 7 3\nabccheck 8 1 2\nabc",
        "lay 7 in page|abc|\ncheck 8 in page|a|bc\nnone\n",
    ),
    (
        "lay 7 8\nlay 7 0\nlay 7 0\n",
        "lay 7 in page|lay 7 0\n|\nlay 7 in page||\nnone\n",
    ),
    (
        "narrow 3 --cert 0\ntidy 3 1\na\n",
        "narrow 3 in page cert||\ntidy 3 in page|a|\ncut off\n",
    ),
];

#[test]
fn one_request_is_taken_after_the_other(rt: HostRuntime) -> Result<(), Fail> {
    for (bytes, wanted) in MANY {
        let told = three(rt.alloc(), bytes)?;
        assert_eq!(rt; told.as_slice(), wanted.as_bytes(), "of {bytes}");
    }
    Ok(())
}

/// What is taken of a request whose file has so many bytes `x`, with `end` after them.
fn long(alloc: Global, size: u32) -> Result<Vec<u8>, AllocError> {
    let line = format!(in alloc; "lay 7 {size}\n")?;
    let file = vec![in alloc; b'x'; size as usize]?;
    let mut bytes = Vec::new(alloc);
    bytes.extend_from_slice(line.as_bytes())?;
    bytes.extend_from_slice(file.as_slice())?;
    bytes.extend_from_slice(b"end")?;
    first(alloc, bytes.as_slice())
}

/// How many bytes a file has, and how many of it are held.
const LONG: &[(u32, usize)] = &[
    (1_048_576, 1_048_576),
    (1_048_577, 1_048_577),
    (1_048_578, 1_048_577),
    (1_060_000, 1_048_577),
];

#[test]
fn a_file_past_its_limit_is_read_over_but_for_its_first_bytes(rt: HostRuntime) -> Result<(), Fail> {
    for &(size, held) in LONG {
        let told = long(rt.alloc(), size)?;
        let count = told.iter().filter(|&&byte| byte == b'x').count();
        assert!(rt;
            count == held && told.ends_with(b"x||end"),
            "of {size} bytes"
        );
    }
    Ok(())
}
