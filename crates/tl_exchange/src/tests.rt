//! Lines and files, and what is taken from an exchange that has them.

use crate::fakes::{Calls, Kind, Reader, Then};
use crate::{Exchange, Streams, receive_file, receive_line};
use std::alloc::{AllocError, Global};
use std::io;
use std::test::Fail;

/// Gives one byte at once.
const BYTES: Kind = Kind(1, Calls::Plain, Then::Ends);

/// Gives two bytes at once, and is interrupted before each time.
const INTERRUPTED: Kind = Kind(2, Calls::Interrupted, Then::Ends);

/// Gives many bytes at once.
const BLOCKS: Kind = Kind(5_000, Calls::Plain, Then::Ends);

/// Fails after its bytes.
const FAILING: Kind = Kind(2, Calls::Interrupted, Then::Fails);

/// So many bytes `x` and a text.
struct Bytes(usize, &'static str);

impl Bytes {
    /// These bytes.
    fn made(&self, alloc: Global) -> Result<Vec<u8>, AllocError> {
        let mut bytes = vec![in alloc; b'x'; self.0]?;
        bytes.extend_from_slice(self.1.as_bytes())?;
        Ok(bytes)
    }
}

/// Bytes that come, and the lines that are taken of them: `|` after each, then `.` where no byte is left, or why none is
/// taken.
const LINES: &[(Bytes, Kind, Bytes)] = &[
    (Bytes(0, ""), BYTES, Bytes(0, ".")),
    (Bytes(0, "\n"), BYTES, Bytes(0, "|.")),
    (Bytes(1, "\n"), INTERRUPTED, Bytes(1, "|.")),
    (Bytes(0, "lay\n\n\r\n"), BLOCKS, Bytes(0, "lay||\r|.")),
    (Bytes(0, "a\nb"), BYTES, Bytes(0, "a|cut off")),
    (Bytes(1, ""), INTERRUPTED, Bytes(0, "cut off")),
    (Bytes(4_095, "\n"), BYTES, Bytes(4_095, "|.")),
    (Bytes(4_096, "\n"), INTERRUPTED, Bytes(4_096, "|.")),
    (Bytes(4_096, "\nab\n"), BLOCKS, Bytes(4_096, "|ab|.")),
    (Bytes(4_097, "\n"), BYTES, Bytes(0, "cut off")),
    (Bytes(4_096, ""), BLOCKS, Bytes(0, "cut off")),
    (Bytes(0, ""), FAILING, Bytes(0, "reading failed")),
    (Bytes(0, "a\n"), FAILING, Bytes(0, "a|reading failed")),
    (Bytes(3, ""), FAILING, Bytes(0, "reading failed")),
];

/// The lines that are taken of these bytes, as above.
fn lines(alloc: Global, bytes: &[u8], kind: Kind) -> Result<Vec<u8>, AllocError> {
    let mut streams = Streams::new(Reader::new(kind, bytes), io::sink());
    let mut told = Vec::new(alloc);
    for _ in 0..9 {
        match receive_line(alloc, &mut streams) {
            Ok(Some(line)) => {
                told.extend_from_slice(line.as_slice())?;
                told.push(b'|')?;
            }
            Ok(None) => {
                told.push(b'.')?;
                return Ok(told);
            }
            Err(error) => {
                told.extend_from_slice(format!(in alloc; "{error}")?.as_bytes())?;
                return Ok(told);
            }
        }
    }
    Ok(told)
}

#[test]
fn lines_of_up_to_4096_bytes_are_taken(rt: HostRuntime) -> Result<(), Fail> {
    let alloc = rt.alloc();
    for (bytes, kind, wanted) in LINES {
        let told = lines(alloc, bytes.made(alloc)?.as_slice(), *kind)?;
        assert!(rt;
            told.as_slice() == wanted.made(alloc)?.as_slice(),
            "for {}",
            wanted.1
        );
    }
    Ok(())
}

/// How many bytes come, how many a file has, how many of a file are kept but for one that shows that it is longer, and what
/// is taken: how many bytes are kept, and which byte comes next, or why none is taken. Byte `i` that comes is `i % 251`.
const FILES: &[(u32, Kind, u32, u16, &str)] = &[
    (5, BYTES, 0, 3, "0 kept, then 0"),
    (5, BYTES, 2, 3, "2 kept, then 2"),
    (5, INTERRUPTED, 3, 3, "3 kept, then 3"),
    (5, BYTES, 4, 3, "4 kept, then 4"),
    (5, INTERRUPTED, 5, 3, "4 kept, then the end"),
    (9, BLOCKS, 7, 0, "1 kept, then 7"),
    (0, BYTES, 0, 3, "0 kept, then the end"),
    (4_100, BLOCKS, 4_099, 3, "4 kept, then 83"),
    (4_101, BYTES, 4_100, 3, "4 kept, then 84"),
    (4_102, INTERRUPTED, 4_101, 3, "4 kept, then 85"),
    (9_001, BLOCKS, 9_000, 3, "4 kept, then 215"),
    (5_001, INTERRUPTED, 5_000, 5_000, "5000 kept, then 231"),
    (5_001, BYTES, 5_000, 65_535, "5000 kept, then 231"),
    (0, BYTES, 1, 3, "cut off"),
    (5, INTERRUPTED, 6, 9, "cut off"),
    (5, BYTES, 6, 3, "cut off"),
    (4_099, BLOCKS, 4_100, 3, "cut off"),
    (4_100, INTERRUPTED, 4_101, 3, "cut off"),
    (5, FAILING, 5, 3, "4 kept, then reading or writing failed"),
    (5, FAILING, 6, 9, "reading failed"),
    (5, FAILING, 6, 3, "reading failed"),
    (4_100, FAILING, 4_101, 3, "reading failed"),
];

/// The bytes that come, so many.
fn counted(alloc: Global, count: u32) -> Result<Vec<u8>, AllocError> {
    let mut bytes = Vec::new(alloc);
    for i in 0..count {
        bytes.push((i % 251) as u8)?;
    }
    Ok(bytes)
}

/// Which byte comes next.
fn next(alloc: Global, exchange: &mut impl Exchange) -> Result<String, AllocError> {
    let mut byte = [0];
    match exchange.receive(&mut byte) {
        Ok(0) => String::from_str(alloc, "the end"),
        Ok(_) => format!(in alloc; "{}", byte[0]),
        Err(error) => format!(in alloc; "{error}"),
    }
}

/// The file that is taken of these bytes, as above.
fn file(
    alloc: Global,
    bytes: &[u8],
    kind: Kind,
    size: u32,
    most: u16,
) -> Result<String, AllocError> {
    let mut streams = Streams::new(Reader::new(kind, bytes), io::sink());
    match receive_file(alloc, &mut streams, size, u32::from(most)) {
        Ok(Some(kept)) if bytes.starts_with(kept.as_slice()) => {
            let next = next(alloc, &mut streams)?;
            format!(in alloc; "{} kept, then {next}", kept.len())
        }
        Ok(Some(_)) => String::from_str(alloc, "other bytes"),
        Ok(None) => String::from_str(alloc, "out of memory"),
        Err(error) => format!(in alloc; "{error}"),
    }
}

#[test]
fn the_first_bytes_of_a_file_are_kept_and_all_are_taken(rt: HostRuntime) -> Result<(), Fail> {
    let alloc = rt.alloc();
    for &(count, kind, size, most, wanted) in FILES {
        let told = file(alloc, counted(alloc, count)?.as_slice(), kind, size, most)?;
        assert_eq!(rt; told.as_str(), wanted, "{size} of {count} bytes");
    }
    Ok(())
}
